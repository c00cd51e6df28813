//! Records of format 1, which commands give format 2.
use crate::runs::{Ran, held, run, run_over};
use case_words::words::pieces_of;
use disk_base::{Disk, FuseDisk, MemDisk};
use std::alloc::Global;
use std::test::Fail;
use std::thread::Threads;

const FETCH: &str = "fetch --repositories http://r1 x:a:1";

const OFFLINE: &str = "fetch --repositories http://r1 --mode offline x:a:1";

const LINE: &str = "0\nhttp/r1/x/a/1/a-1.jar\n";

const ROWS: &[&str] = &["r1 x:a:1", "http://r1/x/a/1/a-1.jar abc"];

const JAR: &str = "records/http/r1/x/a/1/a-1.jar";

const POM: &str = "records/http/r1/x/a/1/a-1.pom";

/// The record of the jar in each format.
const OLD: &str = "coursier-cache 1 sha1|none a9993e364706816aba3e25717850c26c9cd0d89d 3 1000\n";

const NEW: &str =
    "coursier-cache 2 sha1|none a9993e364706816aba3e25717850c26c9cd0d89d ba7816bf8f01cfea414140de5dae2223b00361a396177a9cb410ff61f20015ad 3 1000\n";

/// The numbers that pick what a crash leaves.
const PICKS: [&[u64]; 4] = [
    &[],
    &[1, 1, 1, 1, 1, 1],
    &[0, 3, 0, 3, 0, 3],
    &[2, 2, 2, 2, 2, 2],
];

/// Writes a record again, in format 1.
fn write_first_format(alloc: Global, disk: &mut MemDisk, name: &str) -> Result<(), Fail> {
    let line = held(alloc, disk, name)?;
    let mut first = String::from_str(alloc, "coursier-cache 1")?;
    for (place, word) in pieces_of(alloc, &line, ' ')?.iter().enumerate() {
        if place >= 2 && place != 4 {
            first.push(' ')?;
            first.push_str(word)?;
        }
    }
    disk.start(alloc, name)?;
    disk.append(alloc, name, first.as_bytes())?;
    disk.sync(alloc, name)?;
    disk.sync_names(alloc)?;
    Ok(())
}

/// The disk that a fetch left, with its records in format 1.
fn with_first_format<R: Threads + Sync>(rt: &R, alloc: Global) -> Result<MemDisk, Fail> {
    let Ran { mut disk, .. } = run(rt, alloc, ROWS, FETCH)?;
    write_first_format(alloc, &mut disk, POM)?;
    write_first_format(alloc, &mut disk, JAR)?;
    Ok(disk)
}

#[test]
fn records_are_upgraded_where_their_data_is_used(rt: HostRuntime) -> Result<(), Fail> {
    let alloc = rt.alloc();
    for (words, mark, record) in [
        (FETCH, "coursier-cache 2 ", NEW),
        (OFFLINE, "coursier-cache 1 ", OLD),
    ] {
        let disk = with_first_format(&rt, alloc)?;
        let mut ran = run_over(&rt, alloc, ROWS, &[], disk, 1500, words)?;
        assert_eq!(rt; ran.said.as_str(), LINE, "{words}");
        assert_eq!(rt; ran.asked, 0, "{words}");
        assert_eq!(rt;
            held(alloc, &mut ran.disk, JAR)?.as_str(),
            record,
            "{words}"
        );
        assert!(rt;
            held(alloc, &mut ran.disk, POM)?.starts_with(mark),
            "{words}"
        );
    }
    Ok(())
}

/// Stops a fetch after so many calls of a disk with records of format 1, and gives what a crash
/// then leaves of it.
fn stopped<R: Threads + Sync>(
    rt: &R,
    alloc: Global,
    calls: u64,
    picks: &[u64],
) -> Result<MemDisk, Fail> {
    let disk = FuseDisk::new(alloc, with_first_format(rt, alloc)?, calls);
    let Ran { disk, .. } = run_over(rt, alloc, ROWS, &[], disk, 1500, FETCH)?;
    Ok(disk.into_inner().crash(alloc, picks)?)
}

#[test]
fn a_stop_leaves_the_old_or_the_new_record(rt: HostRuntime) -> Result<(), Fail> {
    let alloc = rt.alloc();
    for case in 0..160usize {
        let (calls, picks) = (case as u64 / 4, PICKS[case % 4]);
        let mut disk = stopped(&rt, alloc, calls, picks)?;
        let record = held(alloc, &mut disk, JAR)?;
        assert!(rt;
            record.as_str() == OLD || record.as_str() == NEW,
            "after {calls}"
        );
        let bytes = held(alloc, &mut disk, "http/r1/x/a/1/a-1.jar")?;
        assert_eq!(rt; bytes.as_str(), "abc", "after {calls}");
    }
    Ok(())
}

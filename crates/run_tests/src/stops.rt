//! Commands that are stopped at a call of the disk, and what a crash then leaves.
use crate::runs::{Ran, held, run, run_over};
use disk_base::{Disk, FuseDisk, MemDisk};
use std::alloc::Global;
use std::test::Fail;
use std::thread::Threads;

const FETCH: &str = "fetch --repositories http://r1 x:a:1";

const LINE: &str = "0\nhttp/r1/x/a/1/a-1.jar\n";

const REFRESH: &str = "fetch --repositories http://r1 --mode refresh x:a:1";

/// A world with a POM and a jar.
const ROWS: &[&str] = &["r1 x:a:1", "http://r1/x/a/1/a-1.jar abc"];

/// The bytes of the POM.
const POM: &str =
    "<project><modelVersion>4.0.0</modelVersion><groupId>x</groupId><artifactId>a</artifactId><version>1</version><dependencies></dependencies></project>";

/// The numbers that pick what a crash leaves.
const PICKS: [&[u64]; 4] = [
    &[],
    &[1, 1, 1, 1, 1, 1],
    &[0, 3, 0, 3, 0, 3],
    &[2, 2, 2, 2, 2, 2],
];

/// Stops a command after so many calls of a disk, and gives what a crash then leaves of the disk.
fn stopped<R: Threads + Sync>(
    rt: &R,
    alloc: Global,
    disk: MemDisk,
    calls: u64,
    picks: &[u64],
    words: &str,
) -> Result<MemDisk, Fail> {
    let disk = FuseDisk::new(alloc, disk, calls);
    let Ran { disk, .. } = run_over(rt, alloc, ROWS, &[], disk, 1000, words)?;
    Ok(disk.into_inner().crash(alloc, picks)?)
}

/// Whether each file is absent or whole.
fn is_whole(alloc: Global, disk: &mut MemDisk) -> Result<bool, Fail> {
    let pom = held(alloc, disk, "http/r1/x/a/1/a-1.pom")?;
    let jar = held(alloc, disk, "http/r1/x/a/1/a-1.jar")?;
    Ok(
        (pom.as_str() == "-" || pom.as_str() == POM)
            && (jar.as_str() == "-" || jar.as_str() == "abc"),
    )
}

/// Runs a command again over what a crash left: what it says, and how many parts there are then.
fn second_run<R: Threads + Sync>(
    rt: &R,
    alloc: Global,
    disk: MemDisk,
) -> Result<(String, usize), Fail> {
    let Ran { said, mut disk, .. } = run_over(rt, alloc, ROWS, &[], disk, 1000, FETCH)?;
    let parts = disk.list(alloc, "parts/")?.len();
    Ok((said, parts))
}

#[test]
fn a_stop_leaves_each_file_absent_or_whole(rt: HostRuntime) -> Result<(), Fail> {
    let alloc = rt.alloc();
    for case in 0..240usize {
        let (calls, picks) = (case as u64 / 4, PICKS[case % 4]);
        let mut disk = stopped(&rt, alloc, MemDisk::new(alloc), calls, picks, FETCH)?;
        assert!(rt; is_whole(alloc, &mut disk)?, "after {calls}");
        let (said, parts) = second_run(&rt, alloc, disk)?;
        assert_eq!(rt; said.as_str(), LINE, "after {calls}");
        assert_eq!(rt; parts, 0, "after {calls}");
    }
    Ok(())
}

#[test]
fn a_stop_of_a_refresh_leaves_each_file_absent_or_whole(rt: HostRuntime) -> Result<(), Fail> {
    let alloc = rt.alloc();
    for case in 0..240usize {
        let (calls, picks) = (case as u64 / 4, PICKS[case % 4]);
        let Ran { disk, .. } = run(&rt, alloc, ROWS, FETCH)?;
        let mut disk = stopped(&rt, alloc, disk, calls, picks, REFRESH)?;
        assert!(rt; is_whole(alloc, &mut disk)?, "after {calls}");
        let (said, parts) = second_run(&rt, alloc, disk)?;
        assert_eq!(rt; said.as_str(), LINE, "after {calls}");
        assert_eq!(rt; parts, 0, "after {calls}");
    }
    Ok(())
}

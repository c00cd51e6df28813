//! What is found of a file, by what stands under its names, and where a read fails.
use crate::written::{GONE, NAME, RECORD, found_words, upgraded_words, write};
use cache_reads::{find, plan_upgrade};
use disk_base::{DiskErr, FailDisk, MemDisk};
use res_base::List;
use std::alloc::Global;
use std::test::Fail;

/// The record of `abc` at the moment 1000, in format 1.
const FIRST: &str = "coursier-cache 1 sha1 a9993e364706816aba3e25717850c26c9cd0d89d 3 1000\n";

/// The same in format 2.
const SECOND: &str =
    "coursier-cache 2 sha1 a9993e364706816aba3e25717850c26c9cd0d89d ba7816bf8f01cfea414140de5dae2223b00361a396177a9cb410ff61f20015ad 3 1000\n";

/// In format 2 with the last digit of the SHA-256 changed.
const OTHER: &str =
    "coursier-cache 2 sha1 a9993e364706816aba3e25717850c26c9cd0d89d ba7816bf8f01cfea414140de5dae2223b00361a396177a9cb410ff61f20015ae 3 1000\n";

/// A disk with this data, this record and this absence record, each where it is given.
fn disk_of(alloc: Global, files: [Option<&str>; 3]) -> Result<MemDisk, DiskErr> {
    let mut disk = MemDisk::new(alloc);
    for (name, bytes) in [(NAME, files[0]), (RECORD, files[1]), (GONE, files[2])] {
        if let Some(bytes) = bytes {
            write(alloc, &mut disk, name, bytes.as_bytes())?;
        }
    }
    Ok(disk)
}

/// What is found of the file, and what an upgrade of its record comes to.
fn seen(alloc: Global, files: [Option<&str>; 3]) -> Result<[String; 2], DiskErr> {
    let mut disk = disk_of(alloc, files)?;
    let found = find(alloc, &mut disk, NAME)?;
    let up = plan_upgrade(alloc, &mut disk, NAME)?;
    Ok([found_words(alloc, &found)?, upgraded_words(alloc, &up)?])
}

#[test]
fn a_file_is_found_as_it_reads(rt: HostRuntime) -> Result<(), Fail> {
    let rows = [
        ([None, None, None], "nothing", "not"),
        ([None, Some(FIRST), None], "nothing", "not"),
        (
            [None, Some(SECOND), Some("coursier-gone 1 70\n")],
            "gone 70",
            "not",
        ),
        ([None, None, Some("coursier-gone 1 70")], "nothing", "not"),
        (
            [Some("abc"), Some(FIRST), None],
            "whole 1000",
            "done 1000 true",
        ),
        (
            [Some("abc"), Some(SECOND), Some("coursier-gone 1 70\n")],
            "whole 1000",
            "already 1000",
        ),
        (
            [Some("ab"), Some(FIRST), None],
            "broken: 3 wanted, 2 bytes, false",
            "not",
        ),
        (
            [Some("abd"), Some(SECOND), None],
            "broken: 3 wanted, 3 bytes, true",
            "not",
        ),
        (
            [Some("abc"), Some(OTHER), None],
            "broken: 3 wanted, 3 bytes, true",
            "not",
        ),
        (
            [Some("abc"), None, None],
            "broken: nothing wanted, 3 bytes, false",
            "not",
        ),
        (
            [Some("abc"), Some("coursier"), None],
            "broken: nothing wanted, 3 bytes, false",
            "not",
        ),
    ];
    for (files, found, up) in rows {
        let words = seen(rt.alloc(), files)?;
        assert!(rt; words[0].as_str() == found);
        assert!(rt; words[1].as_str() == up);
    }
    Ok(())
}

/// What is found where the call of the disk with this number fails.
fn found_failing(alloc: Global, number: u64) -> Result<String, DiskErr> {
    let disk = disk_of(alloc, [Some("abc"), Some(SECOND), None])?;
    let failing = List::from_slice(alloc, &[number])?;
    let mut disk = FailDisk::new(alloc, disk, failing);
    let found = find(alloc, &mut disk, NAME)?;
    Ok(found_words(alloc, &found)?)
}

#[test]
fn a_read_that_fails_is_told(rt: HostRuntime) -> Result<(), Fail> {
    let alloc = rt.alloc();
    for number in 0..6 {
        assert!(rt;
            found_failing(alloc, number) == Err(DiskErr::Failed),
            "at {number}"
        );
    }
    assert!(rt; found_failing(alloc, 6)?.as_str() == "whole 1000");
    Ok(())
}

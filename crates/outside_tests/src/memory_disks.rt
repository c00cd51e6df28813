//! What no clause says of disks in memory: that calls succeed, which of them fail where they were
//! told to, and that many names are found at once. And the images that numbers pick.
use crate::disk_runs::{NAME, PART, names, put_file, read_four, write};
use disk_base::{Disk, DiskErr, FailDisk, FuseDisk, MemDisk};
use res_base::List;
use std::alloc::Global;
use std::test::Fail;

#[test]
fn a_file_is_read_from_each_place(rt: HostRuntime) -> Result<(), Fail> {
    let alloc = rt.alloc();
    let mut disk = MemDisk::new(alloc);
    put_file(alloc, &mut disk)?;
    for (at, found) in [
        (0, (4, *b"abcd")),
        (1, (4, *b"bcde")),
        (3, (2, *b"de--")),
        (5, (0, *b"----")),
        (1 << 63, (0, *b"----")),
    ] {
        assert!(rt; read_four(alloc, &mut disk, NAME, at)? == Some(found));
    }
    assert!(rt; read_four(alloc, &mut disk, PART, 0)?.is_none());
    Ok(())
}

#[test]
fn names_are_listed_by_bytes(rt: HostRuntime) -> Result<(), Fail> {
    let alloc = rt.alloc();
    let mut disk = MemDisk::new(alloc);
    for name in [
        "http/r1/x",
        "http/r1/a",
        "file/x",
        "http/r1/x1",
        "http/R",
        "http",
    ] {
        disk.start(alloc, name)?;
    }
    disk.remove(alloc, "http/r1/x1")?;
    for (prefix, found) in [
        ("http/", "http/R http/r1/a http/r1/x "),
        ("", "file/x http http/R http/r1/a http/r1/x "),
        ("parts/", ""),
    ] {
        assert!(rt; names(alloc, &mut disk, prefix)?.as_str() == found);
    }
    Ok(())
}

/// What the names `a` and `b` have after a crash by these numbers, where `a` was bound to `xyz`, of
/// which nothing is firm, and `b` to `xyz`, which is.
fn after_crash(alloc: Global, picks: &[u64]) -> Result<[Option<(usize, [u8; 4])>; 2], DiskErr> {
    let mut disk = MemDisk::new(alloc);
    write(alloc, &mut disk, "a", b"xy", b"z")?;
    write(alloc, &mut disk, "b", b"x", b"yz")?;
    disk.sync(alloc, "b")?;
    let mut left = disk.crash(alloc, picks)?;
    let first = read_four(alloc, &mut left, "a", 0)?;
    let second = read_four(alloc, &mut left, "b", 0)?;
    Ok([first, second])
}

#[test]
fn numbers_pick_what_a_crash_leaves(rt: HostRuntime) -> Result<(), Fail> {
    let as_written = Some((3, *b"xyz-"));
    let zero_bytes = Some((3, *b"\0\0\0-"));
    let rows: [(&[u64], _); 6] = [
        (&[], [None, None]),
        (&[1], [as_written, None]),
        (&[2, 1], [None, as_written]),
        (&[3, 3], [zero_bytes, as_written]),
        (&[5, 2], [as_written, None]),
        (&[7, 0, 1], [zero_bytes, None]),
    ];
    for (picks, found) in rows {
        assert!(rt; after_crash(rt.alloc(), picks)? == found);
    }
    Ok(())
}

#[test]
fn a_crash_leaves_what_was_settled(rt: HostRuntime) -> Result<(), Fail> {
    let alloc = rt.alloc();
    let mut disk = MemDisk::new(alloc);
    put_file(alloc, &mut disk)?;
    for number in 0..6u64 {
        let mut left = disk.crash(alloc, &[number, number])?;
        assert!(rt; names(alloc, &mut left, "")?.as_str() == "http/r1/x ");
        assert!(rt; read_four(alloc, &mut left, NAME, 1)? == Some((4, *b"bcde")));
    }
    Ok(())
}

/// Whether a file is put by a disk that fails after so many calls, and the names that it then has.
fn after_fuse(alloc: Global, calls: u64) -> Result<(bool, String), DiskErr> {
    let mut disk = FuseDisk::new(alloc, MemDisk::new(alloc), calls);
    let is_put = put_file(alloc, &mut disk).is_ok();
    let mut inner = disk.into_inner();
    Ok((is_put, names(alloc, &mut inner, "")?))
}

#[test]
fn a_fuse_blows_after_so_many_calls(rt: HostRuntime) -> Result<(), Fail> {
    for (calls, is_put, left) in [
        (0, false, ""),
        (1, false, "parts/0.part "),
        (4, false, "parts/0.part "),
        (5, false, "http/r1/x "),
        (6, true, "http/r1/x "),
    ] {
        let (ended, held) = after_fuse(rt.alloc(), calls)?;
        assert!(rt; ended == is_put);
        assert!(rt; held.as_str() == left);
    }
    Ok(())
}

/// Whether a file is put by a disk of which the calls with these numbers fail, and again by it.
fn put_twice(alloc: Global, failing: &[u64]) -> Result<[bool; 2], DiskErr> {
    let failing = List::from_slice(alloc, failing)?;
    let mut disk = FailDisk::new(alloc, MemDisk::new(alloc), failing);
    let first = put_file(alloc, &mut disk).is_ok();
    let second = put_file(alloc, &mut disk).is_ok();
    Ok([first, second])
}

#[test]
fn calls_fail_where_they_were_told(rt: HostRuntime) -> Result<(), Fail> {
    let rows: [(&[u64], [bool; 2]); 6] = [
        (&[], [true, true]),
        (&[0], [false, true]),
        (&[1, 4], [false, false]),
        (&[5], [false, true]),
        (&[6], [true, false]),
        (&[11, 12], [true, false]),
    ];
    for (failing, put) in rows {
        assert!(rt; put_twice(rt.alloc(), failing)? == put);
    }
    Ok(())
}

#[test]
fn many_names_are_found_at_once(rt: HostRuntime) -> Result<(), Fail> {
    let alloc = rt.alloc();
    let mut disk = MemDisk::new(alloc);
    for number in 0..20_000u32 {
        let name = format!(in alloc; "http/{number}")?;
        disk.start(alloc, name.as_str())?;
        disk.sync_names(alloc)?;
        assert!(rt; read_four(alloc, &mut disk, name.as_str(), 0)?.is_some());
    }
    Ok(())
}

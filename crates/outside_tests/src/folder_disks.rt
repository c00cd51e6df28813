//! What no clause says: what the system does for a disk below one of its folders.
use crate::disk_runs::{NAME, PART, names, put_file, read_four};
use disk_base::{Disk, DiskErr};
use real_disk::FolderDisk;
use res_base::Text;
use std::fs;
use std::os::unix::fs::symlink;
use std::test::Fail;

type Folder = FolderDisk<HostRuntime>;

/// The disk below a folder.
fn disk_below(rt: HostRuntime, folder: &str) -> Result<Folder, DiskErr> {
    let alloc = rt.alloc();
    Ok(FolderDisk::new(alloc, rt, Text::of(alloc, folder)?))
}

#[test]
fn reading_and_removing_make_no_folder(rt: HostRuntime) -> Result<(), Fail> {
    let alloc = rt.alloc();
    let mut disk = disk_below(rt, "untouched/cache")?;
    assert!(rt; read_four(alloc, &mut disk, NAME, 0)?.is_none());
    assert!(rt; names(alloc, &mut disk, "parts/")?.as_str() == "");
    disk.remove(alloc, NAME)?;
    disk.sync_names(alloc)?;
    assert!(rt; !fs::exists(&rt, "untouched")?);
    Ok(())
}

#[test]
fn a_file_gets_its_name(rt: HostRuntime) -> Result<(), Fail> {
    let alloc = rt.alloc();
    let mut disk = disk_below(rt, "named/deep/cache")?;
    put_file(alloc, &mut disk)?;
    let written = fs::read(&rt, "named/deep/cache/http/r1/x")?;
    assert!(rt; written.as_slice() == b"abcde".as_slice());
    assert!(rt; read_four(alloc, &mut disk, PART, 0)?.is_none());
    assert!(rt; disk.sync(alloc, PART) == Err(DiskErr::Failed));
    fs::remove_dir_all(&rt, "named")?;
    Ok(())
}

#[test]
fn a_file_is_read_from_each_place(rt: HostRuntime) -> Result<(), Fail> {
    let alloc = rt.alloc();
    let mut disk = disk_below(rt, "read/cache")?;
    put_file(alloc, &mut disk)?;
    for (at, found) in [
        (0, (4, *b"abcd")),
        (1, (4, *b"bcde")),
        (3, (2, *b"de--")),
        (5, (0, *b"----")),
        (1 << 63, (0, *b"----")),
    ] {
        assert!(rt; read_four(alloc, &mut disk, NAME, at)? == Some(found));
    }
    fs::remove_dir_all(&rt, "read")?;
    Ok(())
}

#[test]
fn a_file_is_replaced_and_started_anew(rt: HostRuntime) -> Result<(), Fail> {
    let alloc = rt.alloc();
    let mut disk = disk_below(rt, "anew/cache")?;
    put_file(alloc, &mut disk)?;
    put_file(alloc, &mut disk)?;
    assert!(rt; read_four(alloc, &mut disk, NAME, 1)? == Some((4, *b"bcde")));
    disk.start(alloc, NAME)?;
    assert!(rt; read_four(alloc, &mut disk, NAME, 0)? == Some((0, *b"----")));
    fs::remove_dir_all(&rt, "anew")?;
    Ok(())
}

#[test]
fn names_are_listed_by_bytes(rt: HostRuntime) -> Result<(), Fail> {
    let alloc = rt.alloc();
    let mut disk = disk_below(rt, "listed/cache")?;
    for name in ["http/r1/x", "http/r1/a", "file/x", "http/r1/x1", "http/R"] {
        disk.start(alloc, name)?;
    }
    disk.remove(alloc, "http/r1/x1")?;
    for (prefix, found) in [
        ("http/", "http/R http/r1/a http/r1/x "),
        ("", "file/x http/R http/r1/a http/r1/x "),
        ("parts/", ""),
    ] {
        assert!(rt; names(alloc, &mut disk, prefix)?.as_str() == found);
    }
    fs::remove_dir_all(&rt, "listed")?;
    Ok(())
}

/// Whether each call of the disk refuses a name as a fault.
fn refuses(rt: HostRuntime, disk: &mut Folder, name: &str) -> bool {
    let alloc = rt.alloc();
    let read = read_four(alloc, disk, name, 0);
    let started = disk.start(alloc, name);
    let appended = disk.append(alloc, name, b"x");
    let removed = disk.remove(alloc, name);
    let failed = Err(DiskErr::Failed);
    read == Err(DiskErr::Failed) && started == failed && appended == failed && removed == failed
}

/// Whether a disk refuses to give a file a name, or a name's file another one.
fn refuses_moves(rt: HostRuntime, disk: &mut Folder, name: &str) -> bool {
    let alloc = rt.alloc();
    let synced = disk.sync(alloc, name);
    let taken = disk.rename(alloc, name, "http/taken");
    let given = disk.rename(alloc, "http/own", name);
    let failed = Err(DiskErr::Failed);
    synced == failed && taken == failed && given == failed
}

/// A folder in which there is a file, and below it a cache with a file, a link to the first file and
/// one to the folder.
fn make_links(rt: HostRuntime, folder: &str) -> Result<(), Fail> {
    let alloc = rt.alloc();
    let file = format!(in alloc; "{folder}/f")?;
    let cache = format!(in alloc; "{folder}/cache/http")?;
    fs::create_dir_all(&rt, cache.as_str())?;
    fs::write(&rt, file.as_str(), b"abcde")?;
    let own = format!(in alloc; "{folder}/cache/http/own")?;
    fs::write(&rt, own.as_str(), b"own")?;
    let link = format!(in alloc; "{folder}/cache/http/link")?;
    symlink(&rt, "../../f", link.as_str())?;
    let way = format!(in alloc; "{folder}/cache/way")?;
    symlink(&rt, "..", way.as_str())?;
    Ok(())
}

/// Texts that are no names, and names that go through a link or are one.
const OUTSIDE: [&str; 10] = [
    "http/link",
    "way/f",
    "way/g",
    "../f",
    "/f",
    "",
    "http//f",
    "./f",
    "http/..",
    "~",
];

#[test]
fn no_call_leaves_the_folder(rt: HostRuntime) -> Result<(), Fail> {
    make_links(rt, "around")?;
    let mut disk = disk_below(rt, "around/cache")?;
    for name in OUTSIDE {
        assert!(rt; refuses(rt, &mut disk, name), "{name}");
    }
    let kept = fs::read(&rt, "around/f")?;
    assert!(rt; kept.as_slice() == b"abcde".as_slice());
    assert!(rt; !fs::exists(&rt, "around/g")?);
    fs::remove_dir_all(&rt, "around")?;
    Ok(())
}

#[test]
fn no_file_leaves_the_folder(rt: HostRuntime) -> Result<(), Fail> {
    make_links(rt, "about")?;
    let mut disk = disk_below(rt, "about/cache")?;
    for name in OUTSIDE {
        assert!(rt; refuses_moves(rt, &mut disk, name), "{name}");
    }
    let kept = fs::read(&rt, "about/f")?;
    assert!(rt; kept.as_slice() == b"abcde".as_slice());
    assert!(rt; names(rt.alloc(), &mut disk, "")?.as_str() == "http/own ");
    fs::remove_dir_all(&rt, "about")?;
    Ok(())
}

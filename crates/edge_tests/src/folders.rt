//! What no clause says: what the system gives, absent and refused files among it.
use link_base::{Clock, Got, Link, LinkErr, Sink, get_in_pieces};
use real_edge::{RealClock, RealLink, RealSink};
use std::alloc::Global;
use std::fs;
use std::test::Fail;

/// What a link has at `f` below an address: the number of bytes, nothing of no file, and one more
/// than the limit where there are too many.
fn size_at(
    alloc: Global,
    link: &mut RealLink<HostRuntime>,
    address: &str,
    limit: u32,
) -> Result<Option<u64>, LinkErr> {
    match link.get(alloc, address, "f", u64::from(limit))? {
        Got::Bytes(bytes) => Ok(Some(bytes.len() as u64)),
        Got::Absent => Ok(None),
        Got::TooLarge => Ok(Some(u64::from(limit) + 1)),
    }
}

/// The byte at a place of a file for tests. No two places less than 251 apart have the same.
fn byte_at(place: usize) -> u8 {
    (place % 251) as u8
}

/// Whether these are the first bytes of that file.
fn begin_the_file(bytes: &[u8]) -> bool {
    for place in 0..bytes.len() {
        if bytes[place] != byte_at(place) {
            return false;
        }
    }
    true
}

#[test]
fn a_folder_is_a_link(rt: HostRuntime) -> Result<(), Fail> {
    let alloc = rt.alloc();
    fs::create_dir_all(&rt, "repository/folder/f")?;
    fs::create_dir_all(&rt, "repository/empty")?;
    fs::write(&rt, "repository/f", b"abc")?;
    fs::write(&rt, "repository/empty/f", b"")?;
    let mut link = RealLink::new(alloc, rt);
    assert_eq!(rt;
        size_at(alloc, &mut link, "file:repository", 3),
        Ok(Some(3))
    );
    assert_eq!(rt;
        size_at(alloc, &mut link, "file:repository", 1),
        Ok(Some(2))
    );
    assert_eq!(rt;
        size_at(alloc, &mut link, "file:repository/empty", 9),
        Ok(Some(0))
    );
    assert_eq!(rt; size_at(alloc, &mut link, "file:elsewhere", 9), Ok(None));
    assert_eq!(rt; size_at(alloc, &mut link, "file:repository/f", 9), Ok(None));
    assert_eq!(rt;
        size_at(alloc, &mut link, "file:repository/folder", 9),
        Err(LinkErr::Failed)
    );
    assert_eq!(rt;
        size_at(alloc, &mut link, "ftp://r1", 9),
        Err(LinkErr::Failed)
    );
    fs::remove_dir_all(&rt, "repository")?;
    Ok(())
}

#[test]
fn a_file_comes_in_pieces(rt: HostRuntime) -> Result<(), Fail> {
    let alloc = rt.alloc();
    let mut bytes = Vec::new(alloc);
    for place in 0..70_000 {
        bytes.push(byte_at(place))?;
    }
    fs::create_dir_all(&rt, "pieces")?;
    fs::write(&rt, "pieces/f", bytes.as_slice())?;
    let mut link = RealLink::new(alloc, rt);
    let whole = get_in_pieces(alloc, &mut link, "file:pieces", "f", 70_000)?;
    assert!(rt;
        matches!(&whole, Got::Bytes(got) if got.len() == 70_000 && begin_the_file(got.as_slice()))
    );
    let cut = get_in_pieces(alloc, &mut link, "file:pieces", "f", 69_999)?;
    assert!(rt; matches!(&cut, Got::TooLarge));
    fs::remove_dir_all(&rt, "pieces")?;
    Ok(())
}

#[test]
fn the_clock_gives_seconds_of_this_century(rt: HostRuntime) {
    let moment = RealClock::new(rt).moment();
    assert!(rt; 1_577_836_800 < moment && moment < 4_102_444_800);
}

#[test]
fn the_streams_take_bytes(rt: HostRuntime) {
    let alloc = rt.alloc();
    assert_eq!(rt; RealSink::out(rt.stdout()).put(alloc, b""), Ok(()));
    assert_eq!(rt; RealSink::err(rt.stderr()).put(alloc, b""), Ok(()));
}

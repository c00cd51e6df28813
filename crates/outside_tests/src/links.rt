//! What no clause says: that calls succeed, and that a large world is answered at once.
use link_base::{
    Clock, Got, Link, LinkErr, MemClock, MemLink, MemSink, Opened, Sink, SinkErr, get_in_pieces,
};
use res_base::{List, World};
use std::alloc::Global;
use std::test::Fail;

/// What a link has at `f` below an address: the number of bytes, nothing of no file, and one more
/// than the limit where there are too many.
fn size_at(
    alloc: Global,
    link: &mut MemLink,
    address: &str,
    limit: u32,
) -> Result<Option<u64>, LinkErr> {
    match link.get(alloc, address, "f", u64::from(limit))? {
        Got::Bytes(bytes) => Ok(Some(bytes.len() as u64)),
        Got::Absent => Ok(None),
        Got::TooLarge => Ok(Some(u64::from(limit) + 1)),
    }
}

#[test]
fn a_link_answers_its_world(rt: HostRuntime) -> Result<(), Fail> {
    let alloc = rt.alloc();
    let mut world = World::new(alloc);
    world.add(alloc, "http://r1/f", b"abc")?;
    world.add(alloc, "http://r1/f", b"wxyz")?;
    world.add(alloc, "http://r3/f", b"")?;
    let mut link = MemLink::new(alloc, world, List::new(alloc));
    assert_eq!(rt; size_at(alloc, &mut link, "http://r1", 3)?, Some(3));
    assert_eq!(rt; size_at(alloc, &mut link, "http://r1", 1)?, Some(2));
    assert_eq!(rt; size_at(alloc, &mut link, "http://r2", 9)?, None);
    assert_eq!(rt; size_at(alloc, &mut link, "http://r3", 0)?, Some(0));
    assert_eq!(rt; link.asked(), 4);
    Ok(())
}

#[test]
fn a_file_comes_in_pieces(rt: HostRuntime) -> Result<(), Fail> {
    let alloc = rt.alloc();
    let mut bytes = Vec::new(alloc);
    for _byte in 0..200_000u32 {
        bytes.push(7)?;
    }
    let mut world = World::new(alloc);
    world.add(alloc, "http://r1/f", bytes.as_slice())?;
    let mut link = MemLink::new(alloc, world, List::new(alloc));
    let whole = get_in_pieces(alloc, &mut link, "http://r1", "f", 200_000)?;
    assert!(rt; matches!(&whole, Got::Bytes(_)));
    let cut = get_in_pieces(alloc, &mut link, "http://r1", "f", 199_999)?;
    assert!(rt; matches!(&cut, Got::TooLarge));
    Ok(())
}

#[test]
fn calls_fail_where_they_were_told(rt: HostRuntime) -> Result<(), Fail> {
    let alloc = rt.alloc();
    let mut link = MemLink::new(alloc, World::new(alloc), List::from_slice(alloc, &[1])?);
    assert_eq!(rt; link.open(alloc, "http://r1", "f", 3), Ok(Opened::Absent));
    assert_eq!(rt; link.open(alloc, "http://r1", "f", 3), Err(LinkErr::Failed));
    let mut sink = MemSink::new(alloc, List::from_slice(alloc, &[1])?);
    assert_eq!(rt; sink.put(alloc, b"ab"), Ok(()));
    assert_eq!(rt; sink.put(alloc, b"cd"), Err(SinkErr::Failed));
    assert_eq!(rt; sink.bytes(), b"ab".as_slice());
    Ok(())
}

#[test]
fn the_last_moment_repeats(rt: HostRuntime) -> Result<(), Fail> {
    let alloc = rt.alloc();
    let moments = List::from_slice(alloc, &[1000, 87_401])?;
    assert!(rt; !moments.is_empty());
    let mut clock = MemClock::new(alloc, moments);
    for wanted in [1000, 87_401, 87_401] {
        assert_eq!(rt; clock.moment(), wanted);
    }
    Ok(())
}

#[test]
fn a_large_world_is_answered_at_once(rt: HostRuntime) -> Result<(), Fail> {
    let alloc = rt.alloc();
    let mut world = World::new(alloc);
    for row in 0..30_000u32 {
        let url = format!(in alloc; "http://r{row}/f")?;
        world.add(alloc, url.as_str(), b"abc")?;
    }
    let mut link = MemLink::new(alloc, world, List::new(alloc));
    for row in 0..30_000u32 {
        let address = format!(in alloc; "http://r{row}")?;
        assert_eq!(rt; size_at(alloc, &mut link, address.as_str(), 9)?, Some(3));
    }
    Ok(())
}

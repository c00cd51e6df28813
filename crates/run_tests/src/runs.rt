//! Commands over what stands in memory.
use crate::worlds::{words_in, world};
use coursier_run::{Served, run_still};
use disk_base::{Disk, MemDisk, Read};
use link_base::{MemClock, MemLink, MemSink};
use res_base::List;
use std::alloc::{AllocError, Global};
use std::test::Fail;
use std::thread::Threads;

/// A command over a world: its rows, the words, and what it said.
pub(crate) type Case = (&'static [&'static str], &'static str, &'static str);

/// How a command ended: its status and what went out, how often the link was asked, and the disk.
#[derive(Drop)]
pub(crate) struct Ran<D> {
    /// The status, a line feed and what went out on `out`; and where something went out on `err`,
    /// an exclamation mark, a space and that.
    pub(crate) said: String,
    pub(crate) asked: u64,
    pub(crate) disk: D,
}

/// The words of a command.
fn words_of(alloc: Global, text: &str) -> Result<Vec<String>, AllocError> {
    let mut words = Vec::new(alloc);
    for word in words_in(alloc, text)?.iter() {
        words.push(String::from_str(alloc, word)?)?;
    }
    Ok(words)
}

/// What a command said.
fn said(alloc: Global, status: u8, out: &MemSink, err: &MemSink) -> Result<String, Fail> {
    let out = str::from_utf8(out.bytes())?;
    let err = str::from_utf8(err.bytes())?;
    if err.is_empty() {
        Ok(format!(in alloc; "{status}\n{out}")?)
    } else {
        Ok(format!(in alloc; "{status}\n{out}! {err}")?)
    }
}

/// Runs a command over a link, a disk and a stream, at a moment.
pub(crate) fn run_through<R: Threads + Sync, D: Disk + Send>(
    rt: &R,
    alloc: Global,
    link: MemLink,
    disk: D,
    moment: u64,
    mut out: MemSink,
    words: &str,
) -> Result<Ran<D>, Fail> {
    let words = words_of(alloc, words)?;
    let mut clock = MemClock::new(alloc, List::from_slice(alloc, &[moment])?);
    let mut links = Vec::new(alloc);
    links.push(link)?;
    let mut err = MemSink::new(alloc, List::new(alloc));
    let Served { status, disk } = run_still(
        rt,
        alloc,
        words.as_slice(),
        &mut links,
        disk,
        &mut clock,
        &mut out,
        &mut err,
    );
    let asked = links[0].asked();
    let said = said(alloc, status, &out, &err)?;
    Ok(Ran { said, asked, disk })
}

/// Runs a command over a world, of which these calls of the link fail, and a disk.
pub(crate) fn run_over<R: Threads + Sync, D: Disk + Send>(
    rt: &R,
    alloc: Global,
    rows: &[&str],
    failing: &[u64],
    disk: D,
    moment: u64,
    words: &str,
) -> Result<Ran<D>, Fail> {
    let link = MemLink::new(
        alloc,
        world(alloc, rows)?,
        List::from_slice(alloc, failing)?,
    );
    let out = MemSink::new(alloc, List::new(alloc));
    run_through(rt, alloc, link, disk, moment, out, words)
}

/// Runs a command over a world and an empty disk, at the moment 1000.
pub(crate) fn run<R: Threads + Sync>(
    rt: &R,
    alloc: Global,
    rows: &[&str],
    words: &str,
) -> Result<Ran<MemDisk>, Fail> {
    run_over(rt, alloc, rows, &[], MemDisk::new(alloc), 1000, words)
}

/// The words of the first command that says something else than it should, and what it says.
pub(crate) fn first_other<R: Threads + Sync>(
    rt: &R,
    alloc: Global,
    cases: &[Case],
) -> Result<Option<String>, Fail> {
    for (rows, words, wanted) in cases {
        let Ran { said, .. } = run(rt, alloc, rows, words)?;
        if said.as_str() != *wanted {
            return Ok(Some(format!(in alloc; "{words}: {said}")?));
        }
    }
    Ok(None)
}

/// What a file holds, of which it has at most 400 bytes, and `-` where there is no such file.
pub(crate) fn held<D: Disk>(alloc: Global, disk: &mut D, name: &str) -> Result<String, Fail> {
    let mut room = [0; 400];
    match disk.read_at(alloc, name, 0, &mut room)? {
        Read::Missing => Ok(String::from_str(alloc, "-")?),
        Read::Bytes(count) => Ok(String::from_str(alloc, str::from_utf8(&room[..count])?)?),
    }
}

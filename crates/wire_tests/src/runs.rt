//! What a command says, whatever pieces the replies come in.
ghost use Rattle.link_base.specs.FilePaths.{IsFilePath};

use crate::application::{Asked, application};
use crate::replies::{files, pages_in_pieces, reply_length};
use coursier_run::{Served, run_still};
use disk_base::MemDisk;
use http_visits::is_file_path;
use link_base::{Got, Link, MemClock, MemSink};
use res_base::List;
use std::alloc::{AllocError, Global};
use std::test::Fail;
use std::thread::Threads;

const WORDS: [&str; 4] = [
    "resolve",
    "--repositories",
    "http://r1/maven|http://r2:8081",
    "com.acme:app:1.0",
];

/// The sizes of the pieces, in turn. Without any a reply is one piece.
const CUTS: &[&[u64]] = &[&[1], &[5, 1, 8], &[61, 2, 300], &[]];

/// The status of the command over a link, and what went out.
fn said<R: Threads + Sync, L: Link + Send>(rt: &R, alloc: Global, link: L) -> Result<String, Fail> {
    let mut words = Vec::new(alloc);
    for word in WORDS {
        words.push(String::from_str(alloc, word)?)?;
    }
    let mut clock = MemClock::new(alloc, List::from_slice(alloc, &[1000])?);
    let mut links = Vec::new(alloc);
    links.push(link)?;
    let mut out = MemSink::new(alloc, List::new(alloc));
    let mut err = MemSink::new(alloc, List::new(alloc));
    let Served { status, .. } = run_still(
        rt,
        alloc,
        words.as_slice(),
        &mut links,
        MemDisk::new(alloc),
        &mut clock,
        &mut out,
        &mut err,
    );
    let out = str::from_utf8(out.bytes())?;
    let err = str::from_utf8(err.bytes())?;
    Ok(format!(in alloc; "{status}\n{out}{err}")?)
}

/// What the command is to say.
fn wanted(alloc: Global) -> Result<String, AllocError> {
    let mut text = String::from_str(alloc, "0\ncom.acme:app:1.0:default\n")?;
    for number in 1u32..=40 {
        let tens = number / 10;
        let ones = number % 10;
        let line = format!(in alloc; "com.acme:m{tens}{ones}:2.0:default\n")?;
        text.push_str(line.as_str())?;
    }
    Ok(text)
}

#[test]
fn an_application_is_resolved_over_pages_in_pieces(rt: HostRuntime) -> Result<(), Fail> {
    let alloc = rt.alloc();
    let application = application(alloc)?;
    let wanted = wanted(alloc)?;
    let over_files = said(&rt, alloc, files(alloc, application.as_slice())?)?;
    assert_eq!(rt; over_files.as_str(), wanted.as_str());
    for cuts in CUTS {
        let link = pages_in_pieces(alloc, application.as_slice(), cuts)?;
        let over_pages = said(&rt, alloc, link)?;
        assert_eq!(rt; over_pages.as_str(), over_files.as_str());
    }
    Ok(())
}

/// The sizes of two pieces for each place at which a reply of this length is cut: for each place of
/// a short one, and for at most a thousand places of a longer one.
fn places_of(alloc: Global, length: u64) -> Result<Vec<u64>, AllocError> {
    let step = length / 1000 + 1;
    let mut sizes = Vec::new(alloc);
    for place in 1..length {
        if place % step == 0 {
            sizes.push(place)?;
            sizes.push(length)?;
        }
    }
    Ok(sizes)
}

/// Whether a link gives this file at a path, or is absent there without one.
fn gives<L: Link>(
    alloc: Global,
    link: &mut L,
    address: &str,
    path: &str,
    file: Option<&[u8]>,
) -> Result<bool, Fail>
    requires { IsFilePath path.now }
{
    match (link.get(alloc, address, path, 10_000)?, file) {
        (Got::Absent, None) => Ok(true),
        (Got::Bytes(bytes), Some(file)) => Ok(bytes.as_slice() == file),
        _ => Ok(false),
    }
}

#[test]
fn a_page_cut_anywhere_gives_its_file(rt: HostRuntime) -> Result<(), Fail> {
    let alloc = rt.alloc();
    for asked in application(alloc)?.iter() {
        let address = asked.repository.address;
        let path = asked.path.as_str();
        assert!(rt; is_file_path(path.as_bytes()));
        let page = std::slice::from_ref(asked);
        let file = match &asked.file {
            None => None,
            Some(file) => Some(file.as_slice()),
        };
        let cuts = places_of(alloc, reply_length(alloc, asked)?)?;
        let mut link = pages_in_pieces(alloc, page, cuts.as_slice())?;
        for _ in 0..cuts.len() / 2 {
            assert!(rt; gives(alloc, &mut link, address, path, file)?);
        }
    }
    Ok(())
}

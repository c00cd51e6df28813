//! Links, disks and streams that fail.
use crate::runs::{Ran, run, run_over, run_through};
use crate::worlds::world;
use disk_base::{FailDisk, MemDisk};
use link_base::{MemLink, MemSink};
use res_base::List;
use std::alloc::Global;
use std::test::Fail;
use std::thread::Threads;

const ONE: &[&str] = &["r1 org.a:a:1.0"];

const JAR: &[&str] = &["r1 x:a:1", "http://r1/x/a/1/a-1.jar abc"];

const DIAMOND: &[&str] = &[
    "r1 x:a:1 x:b:1 x:c:1.9",
    "r1 x:b:1 x:c:1.10",
    "r1 x:c:1.9",
    "r1 x:c:1.10",
];

const FETCH: &str = "fetch --repositories http://r1 x:a:1";

const REFRESH: &str = "fetch --repositories http://r1 --mode refresh x:a:1";

const LINE: &str = "0\nhttp/r1/x/a/1/a-1.jar\n";

/// A world, the calls of the link that fail, the words, and what is said.
type Case = (
    &'static [&'static str],
    &'static [u64],
    &'static str,
    &'static str,
);

const CASES: &[Case] = &[
    (
        ONE,
        &[0],
        "resolve --repositories http://r1 --retries 0 org.a:a:1.0",
        "3\n! coursier: repository: http://r1/org/a/a/1.0/a-1.0.pom\n",
    ),
    (
        ONE,
        &[0, 1],
        "resolve --repositories http://r1 org.a:a:1.0",
        "3\n! coursier: repository: http://r1/org/a/a/1.0/a-1.0.pom\n",
    ),
    (
        ONE,
        &[0],
        "resolve --repositories http://r1 org.a:a:1.0",
        "0\norg.a:a:1.0:default\n",
    ),
];

#[test]
fn a_link_that_fails_is_tried_again(rt: HostRuntime) -> Result<(), Fail> {
    let alloc = rt.alloc();
    for (rows, failing, words, said) in CASES {
        let ran = run_over(&rt, alloc, rows, failing, MemDisk::new(alloc), 1000, words)?;
        assert_eq!(rt; ran.said.as_str(), *said, "{words}");
    }
    Ok(())
}

/// What a fetch of one jar says whose call of the link with this number fails.
fn fetched<R: Threads + Sync>(
    rt: &R,
    alloc: Global,
    call: u64,
    words: &str,
) -> Result<String, Fail> {
    let Ran { said, .. } = run_over(rt, alloc, JAR, &[call], MemDisk::new(alloc), 1000, words)?;
    Ok(said)
}

#[test]
fn the_file_of_the_call_that_fails_is_named(rt: HostRuntime) -> Result<(), Fail> {
    let alloc = rt.alloc();
    let once = "fetch --repositories http://r1 --parallel 1 --retries 0 x:a:1";
    let twice = "fetch --repositories http://r1 --parallel 1 --retries 1 x:a:1";
    for (call, file) in [
        (0, "a-1.pom"),
        (1, "a-1.pom"),
        (2, "a-1.jar"),
        (3, "a-1.jar"),
        (4, "a-1.jar"),
        (5, "a-1.jar"),
    ] {
        let line = format!(in alloc; "3\n! coursier: repository: http://r1/x/a/1/{file}\n")?;
        assert_eq!(rt; fetched(&rt, alloc, call, once)?, line, "call {call}");
        let said = fetched(&rt, alloc, call, twice)?;
        assert_eq!(rt; said.as_str(), LINE, "call {call}");
    }
    let said = fetched(&rt, alloc, 6, once)?;
    assert_eq!(rt; said.as_str(), LINE);
    Ok(())
}

#[test]
fn what_went_out_before_a_stream_failed_is_a_prefix(rt: HostRuntime) -> Result<(), Fail> {
    let alloc = rt.alloc();
    let words = "resolve --repositories http://r1 x:a:1";
    for (put, said) in [
        (0, "6\n"),
        (1, "6\nx:a:1:default\n"),
        (2, "6\nx:a:1:default\nx:b:1:default\n"),
        (3, "0\nx:a:1:default\nx:b:1:default\nx:c:1.10:default\n"),
    ] {
        let link = MemLink::new(alloc, world(alloc, DIAMOND)?, List::new(alloc));
        let out = MemSink::new(alloc, List::from_slice(alloc, &[put])?);
        let ran = run_through(&rt, alloc, link, MemDisk::new(alloc), 1000, out, words)?;
        assert_eq!(rt; ran.said.as_str(), said, "put {put}");
    }
    Ok(())
}

/// An empty disk, or the one that a fetch left.
fn disk_before<R: Threads + Sync>(rt: &R, alloc: Global, is_used: bool) -> Result<MemDisk, Fail> {
    if !is_used {
        return Ok(MemDisk::new(alloc));
    }
    let Ran { disk, .. } = run(rt, alloc, JAR, FETCH)?;
    Ok(disk)
}

/// What a command says of whose disk the call with this number fails.
fn failing_at<R: Threads + Sync>(
    rt: &R,
    alloc: Global,
    is_used: bool,
    call: u64,
    words: &str,
) -> Result<String, Fail> {
    let disk = disk_before(rt, alloc, is_used)?;
    let disk = FailDisk::new(alloc, disk, List::from_slice(alloc, &[call])?);
    let Ran { said, .. } = run_over(rt, alloc, JAR, &[], disk, 1000, words)?;
    Ok(said)
}

/// How many calls of the disk there are, of at most 80, whose failing is told, where these are the
/// first ones, and every later one changes nothing.
fn told_calls<R: Threads + Sync>(
    rt: &R,
    alloc: Global,
    is_used: bool,
    words: &str,
) -> Result<Option<u64>, Fail> {
    let mut told = 0;
    for call in 0..80u64 {
        let said = failing_at(rt, alloc, is_used, call, words)?;
        if told == call && said.starts_with("4\n! coursier: disk: ") {
            told += 1;
        } else if said.as_str() != LINE {
            return Ok(None);
        }
    }
    Ok(Some(told))
}

#[test]
fn a_call_of_the_disk_that_fails_is_named(rt: HostRuntime) -> Result<(), Fail> {
    let alloc = rt.alloc();
    let said = failing_at(&rt, alloc, false, 0, FETCH)?;
    assert_eq!(rt; said.as_str(), "4\n! coursier: disk: list\n");
    let first = told_calls(&rt, alloc, false, FETCH)?;
    assert!(rt; matches!(first, Some(1..80)), "{first:?}");
    let second = told_calls(&rt, alloc, true, REFRESH)?;
    assert!(rt; matches!(second, Some(1..80)), "{second:?}");
    Ok(())
}

//! Commands one after another, over one disk.
use crate::runs::{Ran, held, run, run_over};
use disk_base::{Disk, MemDisk};
use std::alloc::Global;
use std::test::Fail;
use std::thread::Threads;

/// A command over the disk that those before it left: the moment, the words, what it says, and how
/// often the link is asked.
type Step = (u64, &'static str, &'static str, u64);

const FETCH: &str = "fetch --repositories http://r1 x:a:1";

const RESOLVE: &str = "resolve --repositories http://r1 x:a:1";

const OFFLINE: &str = "fetch --repositories http://r1 --mode offline x:a:1";

const THREE: &str = "resolve --repositories http://r1|http://r2|http://r3 x:a:1";

const JAR: &[&str] = &["r1 x:a:1", "http://r1/x/a/1/a-1.jar abc"];

const LISTED: &[&str] = &[
    "r1 x:m 0.9 1.0 1.5 2.0",
    "r1 x:m:1.5",
    "r1 x:a:1 x:b:1 x:m:[1.0,2.0)",
    "r1 x:b:1",
];

const SECOND: &[&str] = &["r2 x:a:1 x:b:1", "r2 x:b:1", "r3 x:a:1 x:c:1"];

const LISTED_LINES: &str = "0\nx:a:1:default\nx:b:1:default\nx:m:1.5:default\n";

const SECOND_LINES: &str = "0\nx:a:1:default\nx:b:1:default\n";

const CASES: &[(&[&str], &[Step])] = &[
    (
        JAR,
        &[
            (1000, FETCH, "0\nhttp/r1/x/a/1/a-1.jar\n", 4),
            (1000, FETCH, "0\nhttp/r1/x/a/1/a-1.jar\n", 0),
            (1000, OFFLINE, "0\nhttp/r1/x/a/1/a-1.jar\n", 0),
        ],
    ),
    (
        LISTED,
        &[
            (1000, RESOLVE, LISTED_LINES, 8),
            (87400, RESOLVE, LISTED_LINES, 0),
            (87401, RESOLVE, LISTED_LINES, 2),
        ],
    ),
    (
        SECOND,
        &[
            (1000, THREE, SECOND_LINES, 6),
            (1000, THREE, SECOND_LINES, 0),
            (87401, THREE, SECOND_LINES, 2),
        ],
    ),
];

/// Runs the commands, and gives the number of the first that went otherwise, with what it said and
/// how often it asked.
fn first_other<R: Threads + Sync>(
    rt: &R,
    alloc: Global,
    rows: &[&str],
    steps: &[Step],
) -> Result<Option<(usize, String, u64)>, Fail> {
    let mut disk = MemDisk::new(alloc);
    for (number, (moment, words, wanted, times)) in steps.iter().enumerate() {
        let Ran {
            said,
            asked,
            disk: left,
        } = run_over(rt, alloc, rows, &[], disk, *moment, words)?;
        if said.as_str() != *wanted || asked != *times {
            return Ok(Some((number, said, asked)));
        }
        disk = left;
    }
    Ok(None)
}

#[test]
fn what_is_in_the_cache_is_not_asked_again(rt: HostRuntime) -> Result<(), Fail> {
    for (rows, steps) in CASES {
        assert_eq!(rt; first_other(&rt, rt.alloc(), rows, steps)?, None);
    }
    Ok(())
}

#[test]
fn absence_is_kept(rt: HostRuntime) -> Result<(), Fail> {
    let mut ran = run(&rt, rt.alloc(), SECOND, THREE)?;
    let gone = held(rt.alloc(), &mut ran.disk, "gone/http/r1/x/a/1/a-1.pom")?;
    assert_eq!(rt; gone.as_str(), "coursier-gone 1 1000\n");
    Ok(())
}

#[test]
fn offline_a_file_that_is_not_cached_is_named(rt: HostRuntime) -> Result<(), Fail> {
    let alloc = rt.alloc();
    let Ran { mut disk, .. } = run(&rt, alloc, JAR, FETCH)?;
    disk.remove(alloc, "http/r1/x/a/1/a-1.jar")?;
    let ran = run_over(&rt, alloc, JAR, &[], disk, 1000, OFFLINE)?;
    let line = "7\n! coursier: not cached: http://r1/x/a/1/a-1.jar\n";
    assert_eq!(rt; ran.said.as_str(), line);
    assert_eq!(rt; ran.asked, 0);
    Ok(())
}

//! Files that are fetched, and what the cache then holds.
use crate::runs::{Case, first_other, held, run};
use std::test::Fail;

const JAR: &str = "http/r1/x/a/1/a-1.jar";

const BAD_SUM: &[&str] = &[
    "r1 x:a:1",
    "http://r1/x/a/1/a-1.jar abc",
    "http://r1/x/a/1/a-1.jar.sha1 a9993e364706816aba3e25717850c26c9cd0d89e",
];

const GOOD_SUM: &[&str] = &[
    "r1 x:a:1",
    "http://r1/x/a/1/a-1.jar abc",
    "http://r1/x/a/1/a-1.jar.sha1 a9993e364706816aba3e25717850c26c9cd0d89d  a-1.jar\n",
];

const PLAIN: &[&str] = &["r1 x:a:1", "http://r1/x/a/1/a-1.jar abc"];

const EMPTY: &[&str] = &["r1 x:a:1", "http://r1/x/a/1/a-1.jar "];

const MOVED: &[&str] = &[
    "http://r1/x/a/1/a-1.pom <project>@x:a:1@<distributionManagement><relocation><groupId>y</groupId></relocation></distributionManagement></project>",
    "r1 y:a:1",
    "http://r1/y/a/1/a-1.jar abc",
];

const CASES: &[Case] = &[
    (
        BAD_SUM,
        "fetch --repositories http://r1 x:a:1",
        "1\nartifact http://r1/x/a/1/a-1.jar damaged sha1 a9993e364706816aba3e25717850c26c9cd0d89e a9993e364706816aba3e25717850c26c9cd0d89d\n",
    ),
    (
        PLAIN,
        "fetch --repositories http://r1 --output classpath x:a:1",
        "0\nhttp/r1/x/a/1/a-1.jar\n",
    ),
    (
        PLAIN,
        "fetch --repositories http://r1 --limit 2 x:a:1",
        "1\nartifact http://r1/x/a/1/a-1.jar too-large\n",
    ),
    (
        PLAIN,
        "fetch --repositories http://r1 --limit 3 x:a:1",
        "0\nhttp/r1/x/a/1/a-1.jar\n",
    ),
    (
        MOVED,
        "fetch --repositories http://r1 x:a:1",
        "0\nhttp/r1/y/a/1/a-1.jar\n",
    ),
];

#[test]
fn files_are_fetched(rt: HostRuntime) -> Result<(), Fail> {
    assert_eq!(rt; first_other(&rt, rt.alloc(), CASES)?, None);
    Ok(())
}

/// A world with a jar of `x:a:1`, what its file in the cache holds once it was fetched, and what
/// its record holds.
const KEPT: &[(&[&str], &str, &str)] = &[
    (BAD_SUM, "-", "-"),
    (
        GOOD_SUM,
        "abc",
        "coursier-cache 2 sha1|none a9993e364706816aba3e25717850c26c9cd0d89d ba7816bf8f01cfea414140de5dae2223b00361a396177a9cb410ff61f20015ad 3 1000\n",
    ),
    (
        EMPTY,
        "",
        "coursier-cache 2 sha1|none da39a3ee5e6b4b0d3255bfef95601890afd80709 e3b0c44298fc1c149afbf4c8996fb92427ae41e4649b934ca495991b7852b855 0 1000\n",
    ),
];

#[test]
fn fetched_files_have_records(rt: HostRuntime) -> Result<(), Fail> {
    let alloc = rt.alloc();
    for (rows, bytes, record) in KEPT {
        let mut ran = run(&rt, alloc, rows, "fetch --repositories http://r1 x:a:1")?;
        assert_eq!(rt; held(alloc, &mut ran.disk, JAR)?.as_str(), *bytes);
        let name = "records/http/r1/x/a/1/a-1.jar";
        assert_eq!(rt; held(alloc, &mut ran.disk, name)?.as_str(), *record);
    }
    Ok(())
}

/// An address, and the name in the cache of a POM below it.
const NAMES: &[(&str, &str)] = &[
    ("http://r1:8080/m2", "http/r1%3A8080/m2/x/a/1/a-1.pom"),
    ("file:/srv", "file/srv/x/a/1/a-1.pom"),
    ("file:srv", "here/srv/x/a/1/a-1.pom"),
];

#[test]
fn cached_files_have_the_names_of_their_urls(rt: HostRuntime) -> Result<(), Fail> {
    let alloc = rt.alloc();
    for (address, name) in NAMES {
        let row = format!(in alloc; "{address}/x/a/1/a-1.pom <project>@x:a:1@</project>")?;
        let words = format!(in alloc; "resolve --repositories {address} x:a:1")?;
        let mut ran = run(&rt, alloc, &[row.as_str()], &words)?;
        assert_eq!(rt; ran.said.as_str(), "0\nx:a:1:default\n", "{address}");
        assert!(rt;
            held(alloc, &mut ran.disk, name)?.starts_with("<project>"),
            "{address}"
        );
    }
    Ok(())
}

//! Which modules and versions are settled, and how that is printed.
use crate::runs::{Case, first_other, run};
use std::test::Fail;

const ONE: &[&str] = &["r1 org.a:a:1.0"];

const DIAMOND: &[&str] = &[
    "r1 x:a:1 x:b:1 x:c:1.9",
    "r1 x:b:1 x:c:1.10",
    "r1 x:c:1.9",
    "r1 x:c:1.10",
];

const EQUAL: &[&str] = &[
    "r1 x:a:1 x:b:1 x:c:1.0",
    "r1 x:b:1 x:c:1.0.0",
    "r1 x:c:1.0",
    "r1 x:c:1.0.0",
];

const CHAIN: &[&str] = &[
    "r1 x:a:1 x:b:1",
    "r1 x:b:1 x:c:1",
    "r1 x:c:1 x:d:1",
    "r1 x:d:1",
];

const LOOP: &[&str] = &["r1 x:b:1 x:d:1", "r1 x:d:1 x:b:2", "r1 x:b:2"];

const SECOND: &[&str] = &["r2 x:a:1 x:b:1", "r2 x:b:1", "r3 x:a:1 x:c:1"];

const PAGE: &[&str] = &["http://r1/x/a/1/a-1.pom <html></html>", "r2 x:a:1"];

const EXCLUDING: &[&str] = &[
    "r1 x:r:1 x:p:1 x:q:1",
    "r1 x:p:1 x:m:1!x:s",
    "r1 x:q:1 x:m:1!x:t",
    "r1 x:m:1 x:s:1",
    "r1 x:s:1 x:t:1",
    "r1 x:t:1",
];

const SETTLED: &[Case] = &[
    (
        ONE,
        "resolve --repositories http://r1 org.a:a:1.0",
        "0\norg.a:a:1.0:default\n",
    ),
    (
        ONE,
        "resolve --repositories http://r1 --output json org.a:a:1.0",
        "0\n{\"configuration\":\"default\",\"modules\":[{\"coord\":\"org.a:a:1.0\",\"dependencies\":[],\"repository\":\"http://r1\"}]}\n",
    ),
    (
        DIAMOND,
        "resolve --repositories http://r1 --rounds 4 x:a:1",
        "0\nx:a:1:default\nx:b:1:default\nx:c:1.10:default\n",
    ),
    (
        DIAMOND,
        "resolve --repositories http://r1 --rounds 3 x:a:1",
        "1\nunsettled 3\n",
    ),
    (
        DIAMOND,
        "resolve --repositories http://r1 --output tree x:a:1",
        "0\nx:a:1\n  x:b:1\n    x:c:1.10\n  x:c:1.9 -> 1.10 (above)\n",
    ),
    (
        EQUAL,
        "resolve --repositories http://r1 x:a:1",
        "0\nx:a:1:default\nx:b:1:default\nx:c:1.0.0:default\n",
    ),
    (
        SECOND,
        "resolve --repositories http://r1|http://r2|http://r3 x:a:1",
        "0\nx:a:1:default\nx:b:1:default\n",
    ),
    (
        PAGE,
        "resolve --repositories http://r1|http://r2 x:a:1",
        "0\nx:a:1:default\n",
    ),
    (
        SECOND,
        "resolve --repositories http://r1|http://r2|http://r3 --eager on x:a:1",
        "0\nx:a:1:default\nx:b:1:default\n",
    ),
    (
        PAGE,
        "resolve --repositories http://r1|http://r2 --eager on x:a:1",
        "0\nx:a:1:default\n",
    ),
    (
        &["r1 x:a:1 x:b:1!*:*", "r1 x:b:1 x:c:1"],
        "resolve --repositories http://r1 x:a:1",
        "0\nx:a:1:default\nx:b:1:default\n",
    ),
    (
        EXCLUDING,
        "resolve --repositories http://r1 x:r:1",
        "0\nx:m:1:default\nx:p:1:default\nx:q:1:default\nx:r:1:default\nx:s:1:default\n",
    ),
    (
        LOOP,
        "resolve --repositories http://r1 x:b:1",
        "1\nunsettled 200\n",
    ),
    (
        CHAIN,
        "resolve --repositories http://r1 --rounds 5 x:a:1",
        "0\nx:a:1:default\nx:b:1:default\nx:c:1:default\nx:d:1:default\n",
    ),
    (
        CHAIN,
        "resolve --repositories http://r1 --rounds 4 x:a:1",
        "1\nunsettled 4\n",
    ),
    (&[], "sample 7 1", "0\nmodules 1 rounds 2 reads 1\n"),
    (&[], "sample 7 2", "0\nmodules 2 rounds 3 reads 2\n"),
    (&[], "sample 7 3", "0\nmodules 3 rounds 3 reads 3\n"),
];

const LISTED: &[&str] = &[
    "r1 x:m 0.9 1.0 1.5 2.0",
    "r1 x:m:0.9",
    "r1 x:m:1.5",
    "r1 x:a:1 x:b:1 x:m:[1.0,2.0)",
    "r1 x:b:1",
];

const LOWER: &[&str] = &[
    "r1 x:m 0.9 1.0 1.5 2.0",
    "r1 x:m:1.5",
    "r1 x:a:1 x:b:1 x:m:[1.0,2.0)",
    "r1 x:b:1 x:m:0.9",
];

const APART: &[&str] = &[
    "r1 x:m 1.5 3.0 3.5",
    "r1 x:m:1.5",
    "r1 x:m:3.5",
    "r1 x:a:1 x:b:1 x:m:[1,2)",
    "r1 x:b:1 x:m:[3,4)",
];

const SERIES: &[&str] = &[
    "r1 x:a:1 x:b:1 x:m:1.0",
    "r1 x:b:1 x:m:1.1",
    "r1 x:m:1.0",
    "r1 x:m:1.1",
];

const VERSIONS: &[Case] = &[
    (
        LISTED,
        "resolve --repositories http://r1 x:a:1",
        "0\nx:a:1:default\nx:b:1:default\nx:m:1.5:default\n",
    ),
    (
        LISTED,
        "resolve --repositories http://r1 --force x:m:0.9 x:a:1",
        "0\nx:a:1:default\nx:b:1:default\nx:m:0.9:default\n",
    ),
    (
        LOWER,
        "resolve --repositories http://r1 x:a:1",
        "0\nx:a:1:default\nx:b:1:default\nx:m:1.5:default\n",
    ),
    (
        APART,
        "resolve --repositories http://r1 --rule relaxed x:a:1",
        "0\nx:a:1:default\nx:b:1:default\nx:m:3.5:default\n",
    ),
    (
        SERIES,
        "resolve --repositories http://r1 --rule semver x:a:1",
        "0\nx:a:1:default\nx:b:1:default\nx:m:1.1:default\n",
    ),
];

const MANAGED: &str =
    "http://r1/x/i/1/i-1.pom <project>@x:i:1@<packaging>pom</packaging><dependencyManagement><dependencies><dependency>@x:m:1@</dependency></dependencies></dependencyManagement></project>";

const MANAGED_ABOVE: &str =
    "http://r1/x/j/1/j-1.pom <project>@x:j:1@<packaging>pom</packaging><dependencyManagement><dependencies><dependency>@x:m:2@</dependency></dependencies></dependencyManagement></project>";

const IMPORTING: &str =
    "http://r1/x/k/1/k-1.pom <project>@x:k:1@<dependencyManagement><dependencies><dependency>@x:i:1@<type>pom</type><scope>import</scope></dependency><dependency>@x:j:1@<type>pom</type><scope>import</scope></dependency></dependencies></dependencyManagement><dependencies><dependency>@x:m@</dependency></dependencies></project>";

const OWN: &str =
    "http://r1/x/k/1/k-1.pom <project>@x:k:1@<dependencyManagement><dependencies><dependency>@x:i:1@<type>pom</type><scope>import</scope></dependency><dependency>@x:j:1@<type>pom</type><scope>import</scope></dependency><dependency>@x:m:3@</dependency></dependencies></dependencyManagement><dependencies><dependency>@x:m@</dependency></dependencies></project>";

const HEIRS: &[&str] = &[
    "http://r1/x/g/1/g-1.pom <project>@x:g:1@<packaging>pom</packaging><properties><v>1</v></properties><dependencyManagement><dependencies><dependency>@x:m:${v}@</dependency></dependencies></dependencyManagement></project>",
    "http://r1/x/p/1/p-1.pom <project><parent>@x:g:1@</parent><artifactId>p</artifactId><packaging>pom</packaging></project>",
    "http://r1/x/a/1/a-1.pom <project><parent>@x:p:1@</parent><artifactId>a</artifactId><properties><v>2</v></properties><dependencies><dependency>@x:m@</dependency><dependency>@x:n:${project.version}@</dependency></dependencies></project>",
    "r1 x:m:2",
    "r1 x:n:1",
];

const OWN_ROW: &[&str] = &[
    MANAGED,
    MANAGED_ABOVE,
    OWN,
    "r1 x:m:1",
    "r1 x:m:2",
    "r1 x:m:3",
];

const FIRST_IMPORT: &[&str] = &[
    MANAGED,
    MANAGED_ABOVE,
    IMPORTING,
    "r1 x:m:1",
    "r1 x:m:2",
    "r1 x:m:3",
];

const MOVED: &[&str] = &[
    "http://r1/x/a/1/a-1.pom <project>@x:a:1@<distributionManagement><relocation><groupId>y</groupId></relocation></distributionManagement></project>",
    "r1 y:a:1",
];

/// `x:a:1` manages a version of what `x:b:1` depends on.
const STEERED: &[&str] = &[
    "http://r1/x/a/1/a-1.pom <project>@x:a:1@<dependencyManagement><dependencies><dependency>@x:m:2@</dependency></dependencies></dependencyManagement><dependencies><dependency>@x:b:1@</dependency></dependencies></project>",
    "r1 x:b:1 x:m:1",
    "r1 x:c:1 x:m:2",
    "r1 x:m:1",
    "r1 x:m:2",
    MANAGED,
];

const STEERS: &[Case] = &[
    (
        STEERED,
        "resolve --repositories http://r1 x:a:1",
        "0\nx:a:1:default\nx:b:1:default\nx:m:2:default\n",
    ),
    (
        STEERED,
        "resolve --repositories http://r1 x:b:1",
        "0\nx:b:1:default\nx:m:1:default\n",
    ),
    (
        STEERED,
        "resolve --repositories http://r1 --bom x:i:1 x:a:1",
        "0\nx:a:1:default\nx:b:1:default\nx:m:1:default\n",
    ),
    (
        STEERED,
        "resolve --repositories http://r1 --bom x:i:1 x:c:1",
        "0\nx:c:1:default\nx:m:2:default\n",
    ),
];

const PROJECTS: &[Case] = &[
    (
        HEIRS,
        "resolve --repositories http://r1 x:a:1",
        "0\nx:a:1:default\nx:m:2:default\nx:n:1:default\n",
    ),
    (
        OWN_ROW,
        "resolve --repositories http://r1 x:k:1",
        "0\nx:k:1:default\nx:m:3:default\n",
    ),
    (
        FIRST_IMPORT,
        "resolve --repositories http://r1 x:k:1",
        "0\nx:k:1:default\nx:m:1:default\n",
    ),
    (
        MOVED,
        "resolve --repositories http://r1 x:a:1",
        "0\nx:a:1:default\ny:a:1:default\n",
    ),
];

#[test]
fn versions_are_chosen(rt: HostRuntime) -> Result<(), Fail> {
    assert_eq!(rt; first_other(&rt, rt.alloc(), SETTLED)?, None);
    assert_eq!(rt; first_other(&rt, rt.alloc(), VERSIONS)?, None);
    Ok(())
}

#[test]
fn projects_are_built(rt: HostRuntime) -> Result<(), Fail> {
    assert_eq!(rt; first_other(&rt, rt.alloc(), PROJECTS)?, None);
    assert_eq!(rt; first_other(&rt, rt.alloc(), STEERS)?, None);
    Ok(())
}

#[test]
fn a_file_and_its_checksum_are_asked(rt: HostRuntime) -> Result<(), Fail> {
    let words = "resolve --repositories http://r1 org.a:a:1.0";
    let ran = run(&rt, rt.alloc(), ONE, words)?;
    assert_eq!(rt; ran.asked, 2);
    Ok(())
}

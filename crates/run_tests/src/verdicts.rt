//! What does not settle, and why.
use crate::runs::{Case, first_other};
use std::test::Fail;

const ABSENT: &[&str] = &[
    "r1 x:a:1 x:b:1 x:d:1",
    "http://r2/x/b/1/b-1.pom <html></html>",
];

const ABOVE: &[&str] = &[
    "r1 x:m 0.9 1.0 1.5 2.0",
    "r1 x:m:1.5",
    "r1 x:a:1 x:b:1 x:m:[1.0,2.0)",
    "r1 x:b:1 x:m:2.0",
];

const APART: &[&str] = &[
    "r1 x:m 1.5 3.0 3.5",
    "r1 x:m:1.5",
    "r1 x:m:3.5",
    "r1 x:a:1 x:b:1 x:m:[1,2)",
    "r1 x:b:1 x:m:[3,4)",
];

const SERIES: &[&str] = &[
    "r1 x:a:1 x:b:1 x:m:1.0",
    "r1 x:b:1 x:m:1.1",
    "r1 x:m:1.0",
    "r1 x:m:1.1",
];

const OLD_SERIES: &[&str] = &[
    "r1 x:a:1 x:b:1 x:m:0.1",
    "r1 x:b:1 x:m:0.2",
    "r1 x:m:0.1",
    "r1 x:m:0.2",
];

const CYCLE: &[&str] = &[
    "http://r1/x/a/1/a-1.pom <project><parent>@x:p:1@</parent><artifactId>a</artifactId></project>",
    "http://r1/x/p/1/p-1.pom <project><parent>@x:a:1@</parent><artifactId>p</artifactId></project>",
];

const WITHOUT_PARENT: &[&str] = &[
    "http://r1/x/a/1/a-1.pom <project><parent>@x:p:1@</parent><artifactId>a</artifactId></project>",
];

const ZEROS: &[&str] = &[
    "http://r1/x/a/1/a-1.pom abc",
    "http://r1/x/a/1/a-1.pom.sha1 0000000000000000000000000000000000000000",
];

const CASES: &[Case] = &[
    (
        ABSENT,
        "resolve --repositories http://r1|http://r2 x:a:1",
        "1\nnot-found x:b:1\n  http://r1 absent\n  http://r2 not-readable not-project\nnot-found x:d:1\n  http://r1 absent\n  http://r2 absent\n",
    ),
    (
        ABOVE,
        "resolve --repositories http://r1 x:a:1",
        "1\nclash x:m above 1\n  x:a:1 asks [1.0,2.0)\n  x:b:1 asks 2.0\n",
    ),
    (
        APART,
        "resolve --repositories http://r1 x:a:1",
        "1\nclash x:m apart 0 1\n  x:a:1 asks [1,2)\n  x:b:1 asks [3,4)\n",
    ),
    (
        SERIES,
        "resolve --repositories http://r1 --rule strict x:a:1",
        "1\nclash x:m not-accepted 0\n  x:a:1 asks 1.0\n  x:b:1 asks 1.1\n",
    ),
    (
        OLD_SERIES,
        "resolve --repositories http://r1 --rule semver x:a:1",
        "1\nclash x:m not-accepted 0\n  x:a:1 asks 0.1\n  x:b:1 asks 0.2\n",
    ),
    (
        &["r1 x:a:1 x:b"],
        "resolve --repositories http://r1 x:a:1",
        "1\nclash x:b no-version\n  x:a:1 asks -\n",
    ),
    (
        &["r1 x:a:1 x:m:[1,2),[3,4)"],
        "resolve --repositories http://r1 x:a:1",
        "1\nclash x:m bad-constraint 0\n  x:a:1 asks [1,2),[3,4)\n",
    ),
    (
        &["r1 x:a:1 x:m:[1,2)"],
        "resolve --repositories http://r1 x:a:1",
        "1\nclash x:m none-listed\n  x:a:1 asks [1,2)\n",
    ),
    (
        &["r1 x:a:1 x:m:[2,1]"],
        "resolve --repositories http://r1 x:a:1",
        "1\nclash x:m apart 0 0\n  x:a:1 asks [2,1]\n",
    ),
    (
        CYCLE,
        "resolve --repositories http://r1 x:a:1",
        "1\nrefused x:a:1 parent-cycle x:a:1 x:p:1 x:a:1\n",
    ),
    (
        WITHOUT_PARENT,
        "resolve --repositories http://r1 x:a:1",
        "1\nrefused x:a:1 line-absent x:p:1\n  http://r1 absent\n",
    ),
    (
        &["http://r1/x/a/1/a-1.pom <project>"],
        "resolve --repositories http://r1 x:a:1",
        "1\nnot-found x:a:1\n  http://r1 not-readable bad-text 9\n",
    ),
    (
        ZEROS,
        "resolve --repositories http://r1 x:a:1",
        "1\nnot-found x:a:1\n  http://r1 damaged sha1 0000000000000000000000000000000000000000 a9993e364706816aba3e25717850c26c9cd0d89d\n",
    ),
    (
        &["r1 org.a:a:1.0"],
        "resolve --repositories http://r1 --bom x:z:9 org.a:a:1.0",
        "1\nnot-found x:z:9\n  http://r1 absent\n",
    ),
    (
        &[
            "http://r1/x/q/1/q-1.pom <project>@x:q:1@<dependencyManagement><dependencies><dependency>@x:q:1@<type>pom</type><scope>import</scope></dependency></dependencies></dependencyManagement></project>",
        ],
        "resolve --repositories http://r1 x:q:1",
        "1\nrefused x:q:1 import-cycle x:q:1 x:q:1\n",
    ),
    (
        &[
            "http://r1/x/a/1/a-1.pom <project>@x:a:1@<properties><v>${v}</v></properties><dependencies><dependency>@x:m:${v}@</dependency></dependencies></project>",
        ],
        "resolve --repositories http://r1 x:a:1",
        "1\nclash x:m bad-constraint 0\n  x:a:1 asks ${v}\n",
    ),
];

#[test]
fn what_does_not_settle_is_told(rt: HostRuntime) -> Result<(), Fail> {
    assert_eq!(rt; first_other(&rt, rt.alloc(), CASES)?, None);
    Ok(())
}

//! Words that are refused.
use crate::runs::run;
use std::test::Fail;

/// Words, and the kind and the place of their refusal.
const CASES: &[(&str, &str)] = &[
    ("", "no-command 0"),
    ("frob", "unknown-command 0"),
    (
        "resolve --repositories http://r1 --parallel 0 org.a:a:1.0",
        "parallel 0",
    ),
    (
        "resolve --repositories http://r1 --parallel 17 org.a:a:1.0",
        "parallel 0",
    ),
    (
        "resolve --repositories ftp://r1 org.a:a:1.0",
        "repositories 0",
    ),
    ("resolve --repositories http://r1 x:a", "roots 0"),
    (
        "resolve --repositories http://r1 --bom x:i:[1,2) org.a:a:1.0",
        "bom 0",
    ),
];

#[test]
fn refused_words_have_a_line_and_touch_nothing(rt: HostRuntime) -> Result<(), Fail> {
    let alloc = rt.alloc();
    for (words, refusal) in CASES {
        let ran = run(&rt, alloc, &["r1 org.a:a:1.0"], words)?;
        let said = format!(in alloc; "2\n! coursier: words: {refusal}\n")?;
        assert_eq!(rt; ran.said, said, "{words}");
        assert_eq!(rt; ran.asked, 0, "{words}");
    }
    Ok(())
}

//! Text and lines over sinks in memory.
use crate::{Rendered, Said, tell};
use link_base::MemSink;
use res_base::{List, NoMemory, Text};
use std::alloc::Global;
use std::test::Fail;

// What goes out, how a command ends that says it, and what each stream then has.
type Case = (&'static str, &'static str, u8, &'static str, &'static str);

// A sink that fails at the call with this number, if it has so many.
fn sink(alloc: Global, failing: u64) -> Result<MemSink, Fail> {
    Ok(MemSink::new(alloc, List::from_slice(alloc, &[failing])?))
}

// Text for `out` where there is no `!` at its head, a line for `err` where there is one, and want
// of memory where there is no text.
fn said(alloc: Global, text: &str) -> Result<Said, NoMemory> {
    match text.strip_prefix('!') {
        Some(line) => Ok(Said::Tells(3, Text::of(alloc, line)?)),
        None if text.is_empty() => Err(NoMemory),
        None => {
            let bytes = List::from_slice(alloc, text.as_bytes())?;
            Ok(Said::Prints(Rendered { status: 1, bytes }))
        }
    }
}

static CASES: [Case; 9] = [
    ("a\nb\n", "", 1, "a\nb\n", ""),
    ("a\n\nb", "", 1, "a\n\nb", ""),
    ("a\nb\nc\n", "out 1", 6, "a\n", ""),
    ("a\n\nb\n", "out 2", 6, "a\n\n", ""),
    ("a\n", "out 0", 6, "", ""),
    ("a\n", "err 0", 1, "a\n", ""),
    ("!coursier: x\n", "", 3, "", "coursier: x\n"),
    ("!coursier: x\n", "err 0", 6, "", ""),
    ("", "", 5, "", "coursier: memory\n"),
];

#[test]
fn each_case_ends_as_it_should(rt: HostRuntime) -> Result<(), Fail> {
    let alloc = rt.alloc();
    for (text, fails, status, out, err) in CASES {
        let mut out_sink = sink(alloc, failing(fails, "out "))?;
        let mut err_sink = sink(alloc, failing(fails, "err "))?;
        let ended = tell(alloc, said(alloc, text), &mut out_sink, &mut err_sink);
        assert_eq!(rt; ended, status, "the status of {text}, failing {fails}");
        assert_eq!(rt; out_sink.bytes(), out.as_bytes(), "out of {text}");
        assert_eq!(rt; err_sink.bytes(), err.as_bytes(), "err of {text}");
    }
    Ok(())
}

// The number of the call that fails of the stream with this name.
fn failing(fails: &str, name: &str) -> u64 {
    match fails.strip_prefix(name) {
        Some("0") => 0,
        Some("1") => 1,
        Some("2") => 2,
        _ => 9,
    }
}

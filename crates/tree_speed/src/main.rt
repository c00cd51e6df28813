//! Reads a document from standard input, and prints how many elements it has, or its fault.
#![tactic(auto)]

mod answer;

use std::io;
use std::io::Read;

fn main(rt: HostRuntime) -> io::Result<()> {
    let mut bytes = Vec::new(rt.alloc());
    rt.reader().read_to_end(&mut bytes)?;
    let line = answer::line(rt.alloc(), bytes.as_slice())?;
    println!(rt; "{line}")
}

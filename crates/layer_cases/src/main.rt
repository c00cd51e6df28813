//! Answers tables of outside cases: a thin program over the public calls of the layers, so that
//! what they answer can be compared with what others computed. It reads commands from standard
//! input, one a line, and prints one line for each until the input ends.
//!
//! A line has words with single spaces between them: the name of a command, and then its fields. A
//! text or a run of bytes is a word of lower-case hexadecimal digits, and `-` stands for the empty
//! one; it is written H below. A line that names no command here, or is out of that command's form,
//! is answered by `unknown`.
#![tactic(auto)]

mod command;
mod serve;

use std::io;
use std::io::{BufReader, BufWriter, Write};

fn main(rt: HostRuntime) -> io::Result<()> {
    let alloc = rt.alloc();
    let mut input = BufReader::new(alloc, rt.reader())?;
    let mut output = BufWriter::new(alloc, io::writer(&rt))?;
    serve::serve(alloc, &mut input, &mut output)?;
    output.flush()
}

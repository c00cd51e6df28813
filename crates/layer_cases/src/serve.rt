//! Lines in, answers out.
use crate::command::answer;
use std::alloc::Global;
use std::io;
use std::io::{BufRead, Write};

fn without_line_feed(line: &[u8]) -> &[u8] {
    match line {
        [text @ .., b'\n'] => text,
        text => text,
    }
}

/// Writes one line for each line of the input, the last one too where no line feed ends it.
pub fn serve<R: BufRead, W: Write>(alloc: Global, input: &mut R, output: &mut W) -> io::Result<()> {
    let mut line = Vec::new(alloc);
    for _ in 0..u64::MAX {
        line.clear();
        if input.read_until(b'\n', &mut line)? == 0 {
            break;
        }
        let text = answer(alloc, without_line_feed(line.as_slice()))?;
        output.write_all(text.as_bytes())?;
        output.write_all(b"\n")?;
    }
    Ok(())
}

//! Saying what is to be said.
ghost use Rattle.std.specs.Prelude.{◌≡◌, ◌<◌, ◌≤◌, ◌++◌, OnErr, OnOk, length};
ghost use Rattle.res_base.specs.Causes.{HasCause, Rose};
ghost use Rattle.link_base.specs.Sinks.{gained, GainsPrefix};
ghost use Rattle.line_streams.specs.Outcomes.{streams, IsCut, IsSaid, IsSaidOf};
ghost use Rattle.line_streams.specs.Said.{memory_line};

use super::said::Said;
use link_base::{Sink, SinkErr};
use res_base::NoMemory;
use std::alloc::Global;

/// The first line of a text with its line feed, and what stands after it. A text without a line
/// feed is one line.
fn first_line(text: &[u8]) -> (&[u8], &[u8])
    ensures whole { text.now ≡ result.0.now ++ result.1.now }
    ensures some { 0 < length text.now → 0 < length result.0.now }
{
    match text.iter().position(|byte| *byte == b'\n') {
        None => text.split_at(text.len()),
        Some(place) => text.split_at(place + 1),
    }
}

/// Puts text, one line at a time.
fn put_lines<O: Sink>(alloc: Global, out: &mut O, text: &[u8]) -> Result<(), SinkErr>
    ensures went { OnOk result (O.written out.new ≡ gained (O.written out.old) text.now) }
    ensures part { OnErr result (GainsPrefix (O.written out.old) (O.written out.new) text.now) }
    ensures cause { HasCause SinkErr.Failed (O.faults out.old) (O.faults out.new) result }
{
    let mut left = text;
    while !left.is_empty() {
        let (line, rest) = first_line(left);
        match out.put(alloc, line) {
            Ok(()) => {}
            Err(err) => return Err(err),
        }
        left = rest;
    }
    Ok(())
}

/// Says that there is no memory, and gives the status.
fn tell_memory<O: Sink>(alloc: Global, err: &mut O) -> u8
    ensures status { IsCut (Rose (O.faults err.old) (O.faults err.new)) result }
    ensures part { GainsPrefix (O.written err.old) (O.written err.new) memory_line }
    ensures later { O.faults err.old ≤ O.faults err.new }
{
    match err.put(alloc, b"coursier: memory\n") {
        Err(SinkErr::Failed) => 6,
        _ => 5,
    }
}

/// Says it, and gives the status.
fn tell_said<O: Sink>(alloc: Global, said: &Said, out: &mut O, err: &mut O) -> u8
    ensures { IsSaid (streams O.written out.old out.new err.old err.new)
        (Rose (O.faults out.old) (O.faults out.new)) (Rose (O.faults err.old) (O.faults err.new))
        said.now result }
{
    match said {
        Said::Prints(rendered) => match put_lines(alloc, out, rendered.bytes.as_slice()) {
            Ok(()) => rendered.status,
            Err(SinkErr::Failed) => 6,
            Err(SinkErr::NoMemory) => tell_memory(alloc, err),
        },
        Said::Tells(status, line) => match err.put(alloc, line.as_bytes()) {
            Ok(()) => *status,
            Err(SinkErr::Failed) => 6,
            Err(SinkErr::NoMemory) => 5,
        },
    }
}

/// Says what is to be said, and gives the status of the command: the one that goes with what is
/// said, where all of it went out; 6 where a sink failed; 5 where there is no memory, for which
/// `err` gets a line of its own where it can. Text for `out` is put a line at a time, and a line
/// for `err` at once.
pub fn tell<O: Sink>(alloc: Global, said: Result<Said, NoMemory>, out: &mut O, err: &mut O) -> u8
    ensures { IsSaidOf (streams O.written out.old out.new err.old err.new)
        (Rose (O.faults out.old) (O.faults out.new)) (Rose (O.faults err.old) (O.faults err.new))
        said result }
{
    match said {
        Ok(said) => tell_said(alloc, &said, out, err),
        Err(NoMemory) => tell_memory(alloc, err),
    }
}

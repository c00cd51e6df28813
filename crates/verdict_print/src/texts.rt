//! Texts of names and numbers.
ghost use Rattle.std.specs.Prelude.{◌≡◌, ◌++◌, IfOk, OnOk, codes};
ghost use Rattle.verdict_print.specs.Lines.{coord_text, module_text, unsettled_line};
ghost use Rattle.verdict_print.specs.Reasons.{numbered};

use res_base::{Coord, Module, NoMemory, Text};
use std::alloc::Global;

/// A word and a number.
pub(crate) fn numbered(alloc: Global, word: &str, number: u64) -> Result<Text, NoMemory>
    ensures { IfOk result (λ text. text ≡ numbered word.now number) }
{
    Ok(Text::from_string(format!(in alloc; "{word} {number}")?))
}

/// Puts `org:name` at the end of a text.
pub(crate) fn put_module(text: &mut Text, module: &Module) -> Result<(), NoMemory>
    ensures { OnOk result (text.new ≡ text.old ++ module_text «module».now) }
{
    text.push_str(module.org.as_str())?;
    text.push_str(":")?;
    text.push_str(module.name.as_str())
}

/// Puts `org:name:version` at the end of a text.
pub(crate) fn put_coord(text: &mut Text, coord: &Coord) -> Result<(), NoMemory>
    ensures { OnOk result (text.new ≡ text.old ++ coord_text coord.now) }
{
    put_module(text, &coord.module)?;
    text.push_str(":")?;
    text.push_str(coord.version.as_str())
}

/// The line of a resolution that still changed after so many rounds.
pub fn unsettled_line(alloc: Global, rounds: u32) -> Result<Text, NoMemory>
    ensures { IfOk result (λ text. text ≡ unsettled_line rounds) }
{
    let mut text = numbered(alloc, "unsettled", rounds as u64)?;
    text.push_str("\n")?;
    Ok(text)
}

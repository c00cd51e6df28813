//! Lines of absence records.
ghost use Rattle.std.specs.Prelude.{◌≡◌, ◌↔◌, Some, None, IfErr, IfOk, List, ℕ};
ghost use Rattle.fault_place.specs.Place.{IsPlace};
ghost use Rattle.fault_place.specs.Reader.{Accepts};
ghost use Rattle.cache_layout.specs.Fields.{IsMomentText};
ghost use Rattle.cache_layout.specs.Lines.{IsGoneLine};
ghost use Rattle.cache_layout.specs.Readings.{gone_in};

use crate::errors::BadLine;
use crate::numbers::read_number;
use crate::pieces::{behind, common, is_word, part};
use res_base::{NoMemory, Text};
use std::alloc::Global;

/// The line of an absence record: at this moment a repository had no such file.
pub fn gone_line(alloc: Global, moment: u64) -> Result<Text, NoMemory>
    ensures { IfOk result (λ line. IsGoneLine line moment) }
{
    let line = format!(in alloc; "coursier-gone 1 {moment}\n")?;
    Ok(Text::from_string(line))
}

/// A space, a moment, a line feed and nothing more; else the place where the text leaves that form.
pub(crate) fn read_moment(text: &[u8]) -> Result<u64, usize>
    ensures read { IfOk result (IsMomentText text.now) }
    ensures refused { IfErr result (IsPlace (Accepts IsMomentText) text.now) }
{
    let Some(after) = behind(text, b" ") else {
        return Err(0);
    };
    let cut = part(after, b'\n');
    let moment = match read_number(cut.first, 0, u64::MAX) {
        Ok(moment) => moment,
        Err(place) => return Err(1 + place),
    };
    if is_word(cut.rest, b"\n") {
        return Ok(moment);
    }
    Err(1 + cut.first.len() + common(b"\n", cut.rest))
}

/// Reads the line of an absence record, and gives its moment.
pub fn read_gone(bytes: &[u8]) -> Result<u64, BadLine>
    ensures read { IfOk result (IsGoneLine bytes.now) }
    ensures value { IfOk result (λ moment. gone_in bytes.now ≡ Some moment) }
    ensures none { IfErr result (λ e. gone_in bytes.now ≡ None) }
    ensures refused { IfErr result (λ e. IsPlace (Accepts IsGoneLine) bytes.now e.0) }
{
    match behind(bytes, b"coursier-gone 1") {
        None => Err(BadLine(common(b"coursier-gone 1", bytes))),
        Some(rest) => match read_moment(rest) {
            Ok(moment) => Ok(moment),
            Err(place) => Err(BadLine(15 + place)),
        },
    }
}

/// A law, with nothing to run: a text is the line of an absence record exactly where it reads as
/// that.
pub fn gone_lines_read()
    ensures { (text : List ℕ) (moment : ℕ) → (gone_in text ≡ Some moment) ↔ IsGoneLine text moment }
{}

//! Lists of checks in a line.
ghost use Rattle.std.specs.Prelude.{◌≡◌, ◌≢◌, IfErr, IfOk, IsErrOf, MatchOption, OnOk, ℕ};
ghost use Rattle.fault_place.specs.Place.{IsPlace};
ghost use Rattle.fault_place.specs.Reader.{Accepts};
ghost use Rattle.cache_layout.specs.Fields.{AreChecks, IsCheckName, names_end, with_bar};
ghost use Rattle.res_base.specs.declared.reading.Check.{Check};
ghost use Rattle.cache_layout.specs.Lines.{check_text, checks_text};

use crate::errors::RecordErr;
use crate::pieces::{common, is_word, part};
use res_base::{Check, List, NoMemory, Text};
use std::alloc::Global;

/// The name of a check in a line.
fn check_text(check: Check) -> &'static str
    ensures { result.now ≡ check_text check }
{
    match check {
        Check::Sha1 => "sha1",
        Check::Md5 => "md5",
        Check::Sha256 => "sha256",
        Check::NoCheck => "none",
    }
}

/// Puts a vertical bar behind the names so far, if there are any.
fn push_bar(names: &mut Text) -> Result<(), NoMemory>
    ensures { OnOk result (names.new ≡ with_bar names.old) }
{
    if names.is_empty() {
        return Ok(());
    }
    names.push_str("|")
}

/// The names of checks, with a vertical bar between two.
pub(crate) fn checks_text(alloc: Global, checks: &[Check]) -> Result<Text, NoMemory>
    ensures { IfOk result (λ text. text ≡ checks_text checks.now) }
{
    let mut text = Text::new(alloc);
    for check in checks {
        push_bar(&mut text)?;
        text.push_str(check_text(*check))?;
    }
    Ok(text)
}

/// The check of a name.
fn check_named(name: &[u8]) -> Option<Check>
    ensures { MatchOption result ((check : Check) → name.now ≢ check_text check) (λ check. name.now ≡ check_text check) }
{
    if is_word(name, b"sha1") {
        return Some(Check::Sha1);
    }
    if is_word(name, b"md5") {
        return Some(Check::Md5);
    }
    if is_word(name, b"sha256") {
        return Some(Check::Sha256);
    }
    if is_word(name, b"none") {
        return Some(Check::NoCheck);
    }
    None
}

/// How far a text goes with one of the names of checks.
fn names_end(name: &[u8]) -> usize
    ensures { result ≡ names_end name.now }
{
    let sha1 = common(b"sha1", name);
    let md5 = common(b"md5", name);
    let sha256 = common(b"sha256", name);
    let none = common(b"none", name);
    sha1.max(md5).max(sha256.max(none))
}

/// Reads the name of a check; else the place where the text leaves all these names.
fn read_check(name: &[u8]) -> Result<Check, usize>
    ensures read { IfOk result (IsCheckName name.now) }
    ensures refused { IfErr result (IsPlace (Accepts IsCheckName) name.now) }
{
    match check_named(name) {
        Some(check) => Ok(check),
        None => Err(names_end(name)),
    }
}

/// Reads names of checks with a vertical bar between two; no name at all is the empty list.
pub(crate) fn read_checks(alloc: Global, names: &[u8]) -> Result<List<Check>, RecordErr>
    ensures read { IfOk result (AreChecks names.now) }
    ensures refused { (n : ℕ) → IsErrOf result (RecordErr.BadLine n) → IsPlace (Accepts AreChecks) names.now n }
{
    let mut checks = List::new(alloc);
    if names.is_empty() {
        return Ok(checks);
    }
    let mut at = 0;
    'parts: loop {
        let cut = part(&names[at..], b'|');
        let check = match read_check(cut.first) {
            Ok(check) => check,
            Err(place) => return Err(RecordErr::BadLine(at + place)),
        };
        checks.push(check)?;
        let is_last = cut.rest.is_empty();
        if is_last {
            return Ok(checks);
        }
        at += cut.first.len() + 1;
    }
}

//! Checks in words.
ghost use Rattle.std.specs.Prelude.{◌≡◌, ◌==◌};
ghost use Rattle.word_values.specs.Checks.{check_in, check_named, check_number, checks_given, has_check};
ghost use Rattle.word_values.specs.Refusals.{Answers};

use crate::given::{Given, text_or};
use crate::members::{Members, read_members};
use crate::refusals::{WordKind, WordsErr};
use crate::split::members_of;
use res_base::{Check, List, NoMemory};
use std::alloc::Global;

fn check_named(text: &str) -> Option<Check>
    ensures { result ≡ check_named text.now }
{
    match text {
        "sha1" => Some(Check::Sha1),
        "md5" => Some(Check::Md5),
        "sha256" => Some(Check::Sha256),
        "none" => Some(Check::NoCheck),
        _ => None,
    }
}

fn number(check: Check) -> u8
    ensures { result ≡ check_number check }
{
    match check {
        Check::Sha1 => 0,
        Check::Md5 => 1,
        Check::Sha256 => 2,
        Check::NoCheck => 3,
    }
}

fn has_check(checks: &[Check], check: Check) -> bool
    ensures { result ≡ has_check checks.now check }
{
    let wanted = number(check);
    checks.iter().any(|other| number(*other) == wanted)
}

/// Checks: none twice, and `none` only last.
pub(crate) struct Checks;

impl Members for Checks {
    type Item = Check;

    ghost reads = { check_in };

    fn read(
        _alloc: Global,
        before: &List<Check>,
        text: &str,
        is_last: bool,
    ) -> Result<Option<Check>, NoMemory> {
        let Some(check) = check_named(text) else {
            return Ok(None);
        };
        if has_check(before.as_slice(), check) {
            return Ok(None);
        }
        if number(check) == 3 && !is_last {
            return Ok(None);
        }
        Ok(Some(check))
    }
}

/// The checks that are given: by SHA-1, then none, where none are.
pub(crate) fn checks_given<G: Given>(alloc: Global, given: &G) -> Result<List<Check>, WordsErr>
    ensures { Answers (checks_given (G.texts given.now)) result }
{
    let text = text_or(given, "checks", "sha1|none");
    let members = members_of(alloc, text)?;
    read_members::<Checks>(alloc, WordKind::Checks, members.as_slice())
}

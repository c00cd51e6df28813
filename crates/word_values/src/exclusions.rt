//! Exclusions in words.
ghost use Rattle.std.specs.Prelude.{◌≡◌};
ghost use Rattle.std.specs.Option.{option_map};
ghost use Rattle.std.specs.List.{list_all};
ghost use Rattle.ascii_bytes.specs.Classes.{is_plain_byte};
ghost use Rattle.res_base.specs.Plain.{is_at_most_two_dots, is_plain_name, is_plain_org};
ghost use Rattle.word_values.specs.Exclusions.{at_colon, exclusion_in, is_excluded_name, is_excluded_org};

use crate::members::Members;
use ascii_bytes::{is_plain_byte, is_word_byte};
use res_base::{Exclusion, List, NoMemory, Text};
use std::alloc::Global;

fn has_plain_bytes(text: &[u8]) -> bool
    ensures { result ≡ list_all is_plain_byte text.now }
{
    text.iter().all(|byte| is_plain_byte(*byte))
}

fn is_dots(text: &[u8]) -> bool
    ensures { result ≡ is_at_most_two_dots text.now }
{
    text.iter().all(|byte| *byte == b'.') && text.len() <= 2
}

fn is_plain_name(text: &[u8]) -> bool
    ensures { result ≡ is_plain_name text.now }
{
    has_plain_bytes(text) && !is_dots(text)
}

fn is_plain_org(text: &[u8]) -> bool
    ensures { result ≡ is_plain_org text.now }
{
    let mut in_part = false;
    for byte in text {
        if is_word_byte(*byte) {
            in_part = true;
        } else if *byte == b'.' && in_part {
            in_part = false;
        } else {
            return false;
        }
    }
    in_part
}

fn is_excluded_org(text: &str) -> bool
    ensures { result ≡ is_excluded_org text.now }
{
    text == "*" || is_plain_org(text.as_bytes())
}

fn is_excluded_name(text: &str) -> bool
    ensures { result ≡ is_excluded_name text.now }
{
    text == "*" || is_plain_name(text.as_bytes())
}

// What stands before and after the first colon.
fn at_colon(text: &str) -> Option<(&str, &str)>
    ensures { option_map (λ parts. (parts.0.now, parts.1.now)) result ≡ at_colon text.now }
{
    text.split_once(':')
}

/// Exclusions: `ORG:NAME`, each part plain or `*`.
pub(crate) struct Excludes;

impl Members for Excludes {
    type Item = Exclusion;

    ghost reads = { exclusion_in };

    fn read(
        alloc: Global,
        _before: &List<Exclusion>,
        text: &str,
        _is_last: bool,
    ) -> Result<Option<Exclusion>, NoMemory> {
        let Some((org, name)) = at_colon(text) else {
            return Ok(None);
        };
        if !is_excluded_org(org) || !is_excluded_name(name) {
            return Ok(None);
        }
        Ok(Some(Exclusion {
            org: Text::of(alloc, org)?,
            name: Text::of(alloc, name)?,
        }))
    }
}

//! Numbers.
ghost use Rattle.std.specs.Prelude.{◌≡◌, ◌≤◌, ◌<◌, ◌^◌, true, length, IfOk, IfSome};
ghost use Rattle.std.specs.List.{list_all};
ghost use Rattle.ascii_bytes.specs.Classes.{is_digit};
ghost use Rattle.ascii_bytes.specs.Digits.{decimal};
ghost use Rattle.word_values.specs.Numbers.{is_number, number_between, number_given};

use crate::given::Given;
use crate::refusals::{WordKind, WordsErr};
use ascii_bytes::is_digit;

fn has_digits(text: &[u8]) -> bool
    ensures { result ≡ list_all is_digit text.now }
{
    text.iter().all(|byte| is_digit(*byte))
}

fn is_number(text: &[u8]) -> bool
    ensures { result ≡ is_number text.now }
{
    1 <= text.len() && text.len() <= 20 && has_digits(text)
}

// The number of which these are the decimal digits, at most 20: it may be past 64 bits.
fn decimal(text: &[u8]) -> u128
    requires few { length text.now ≤ 20 }
    requires digits { list_all is_digit text.now ≡ true }
    ensures { result ≡ decimal text.now }
{
    let mut number = 0u128;
    for byte in text {
        number = number * 10 + (*byte - b'0') as u128;
    }
    number
}

/// The number that a text spells, where it is at least `least` and at most `most`.
pub(crate) fn number_between(least: u64, most: u64, text: &str) -> Option<u64>
    ensures value { result ≡ number_between least most text.now }
    ensures least { IfSome result (λ number. least ≤ number) }
    ensures most { IfSome result (λ number. number ≤ most) }
{
    let digits = text.as_bytes();
    if !is_number(digits) {
        return None;
    }
    let number = decimal(digits);
    if u128::from(least) <= number && number <= u128::from(most) {
        Some(number as u64)
    } else {
        None
    }
}

/// The number that is given for an option, or the one that stands where none is.
pub(crate) fn number_given<G: Given>(
    kind: WordKind,
    least: u64,
    most: u64,
    usual: u64,
    given: &G,
    name: &str,
) -> Result<u64, WordsErr>
    requires at_least { least ≤ usual }
    requires at_most { usual ≤ most }
    ensures value { result ≡ number_given kind least most usual (G.texts given.now name.now) }
    ensures least { IfOk result (λ number. least ≤ number) }
    ensures most { IfOk result (λ number. number ≤ most) }
{
    let Some(text) = given.text(name) else {
        return Ok(usual);
    };
    match number_between(least, most, text) {
        Some(number) => Ok(number),
        None => Err(WordsErr::BadWords(kind, 0)),
    }
}

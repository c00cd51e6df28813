//! Decimal numbers.
ghost use Rattle.std.specs.Prelude.{◌≡◌, ◌↔◌, ◌+◌, ◌*◌, ◌<◌, ◌≤◌, ℕ, IfErr, IfOk, IsTrue, MatchOption};
ghost use Rattle.fault_place.specs.Place.{IsPlace};
ghost use Rattle.fault_place.specs.Reader.{Accepts};
ghost use Rattle.cache_layout.specs.Fields.{GoesOnTo, IsNumber};

use ascii_bytes::decimal_digit;

/// The number with one more digit, unless that is more than `most`.
fn with_digit(number: u64, digit: u8, most: u64) -> Option<u64>
    ensures { MatchOption result (most < number * 10 + digit) (λ more. (more ≡ number * 10 + digit) × (more ≤ most)) }
{
    let tens = number.checked_mul(10)?;
    let more = tens.checked_add(digit as u64)?;
    if more <= most { Some(more) } else { None }
}

/// Whether a digit at this place would stand behind a zero that leads.
fn is_behind_zero(i: usize, number: u64) -> bool
    ensures { IsTrue result ↔ ((0 < i) × (number ≡ 0)) }
{
    i > 0 && number == 0
}

/// The number with one more byte, the one at the place `i`, if a number may go on so.
fn next_number(number: u64, byte: u8, i: usize, least: u64, most: u64) -> Option<u64>
    ensures { MatchOption result ((more : ℕ) → ¬ GoesOnTo least most i number byte more) (GoesOnTo least most i number byte) }
{
    let digit = decimal_digit(byte)?;
    if is_behind_zero(i, number) {
        return None;
    }
    let more = with_digit(number, digit, most)?;
    if more < least {
        return None;
    }
    Some(more)
}

/// Reads a number from `least` to `most` that is written without leading zeros; else the place
/// where the text leaves that form.
pub(crate) fn read_number(text: &[u8], least: u64, most: u64) -> Result<u64, usize>
    requires low { least ≤ 1 }
    requires room { 9 ≤ most }
    ensures read { IfOk result (IsNumber least most text.now) }
    ensures refused { IfErr result (IsPlace (Accepts (IsNumber least most)) text.now) }
{
    if text.is_empty() {
        return Err(0);
    }
    let mut number = 0u64;
    for (i, byte) in text.iter().enumerate() {
        match next_number(number, *byte, i, least, most) {
            None => return Err(i),
            Some(more) => number = more,
        }
    }
    Ok(number)
}

//! The bytes of characters in each encoding.

ghost use Rattle.std.specs.Prelude.{◌≡◌, if◌then◌else◌, Some, None};
ghost use Rattle.pom_grammar.specs.Encodings.{if_between, first_of_utf8, next_of_utf8, alone, next_tail};

use pom_grammar::{Encoding, Tail};

fn first_of_utf8(byte: u8) -> Option<Tail>
    ensures { result ≡ first_of_utf8 byte }
{
    match byte {
        0x00..=0x7f => Some(Tail::Whole),
        0xc2..=0xdf => Some(Tail::One),
        0xe0 => Some(Tail::AfterE0),
        0xed => Some(Tail::AfterEd),
        0xe1..=0xef => Some(Tail::Two),
        0xf0 => Some(Tail::AfterF0),
        0xf1..=0xf3 => Some(Tail::Three),
        0xf4 => Some(Tail::AfterF4),
        _ => None,
    }
}

fn tail_between(low: u8, high: u8, left: Tail, byte: u8) -> Option<Tail>
    ensures { result ≡ if_between low high left byte }
{
    if low <= byte && byte <= high {
        Some(left)
    } else {
        None
    }
}

fn next_of_utf8(tail: Tail, byte: u8) -> Option<Tail>
    ensures { result ≡ next_of_utf8 tail byte }
{
    match tail {
        Tail::Whole => first_of_utf8(byte),
        Tail::One => tail_between(0x80, 0xbf, Tail::Whole, byte),
        Tail::Two => tail_between(0x80, 0xbf, Tail::One, byte),
        Tail::Three => tail_between(0x80, 0xbf, Tail::Two, byte),
        Tail::AfterE0 => tail_between(0xa0, 0xbf, Tail::One, byte),
        Tail::AfterEd => tail_between(0x80, 0x9f, Tail::One, byte),
        Tail::AfterF0 => tail_between(0x90, 0xbf, Tail::Two, byte),
        Tail::AfterF4 => tail_between(0x80, 0x8f, Tail::Two, byte),
    }
}

/// A character of one byte, if the byte is one.
fn alone(tail: Tail, is_one: bool) -> Option<Tail>
    ensures { result ≡ alone tail (if is_one then Some Tail.Whole else None) }
{
    match tail {
        Tail::Whole => { if is_one { Some(Tail::Whole) } else { None } }
        _ => None,
    }
}

/// What is missing after one more byte, or nothing where the byte can't stand there.
pub(crate) fn next_tail(encoding: Encoding, tail: Tail, byte: u8) -> Option<Tail>
    ensures { result ≡ next_tail encoding tail byte }
{
    match encoding {
        Encoding::Utf8 => next_of_utf8(tail, byte),
        Encoding::Ascii => alone(tail, byte < 0x80),
        Encoding::Latin1 => alone(tail, true),
    }
}

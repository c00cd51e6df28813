//! Texts trimmed, cut and scanned.
ghost use Rattle.std.specs.Prelude.{◌≡◌, ◌==◌, ◌<◌, ◌≤◌, true, false, length, position, slice_index, slice_range};
ghost use Rattle.std.specs.List.{list_all};
ghost use Rattle.std.specs.Option.{option_map};
ghost use Rattle.ascii_bytes.specs.Parts.{cut_at, trim_end, trim_start};

use crate::ByteClass;

/// The text without the bytes of a class at its start.
pub fn trim_start<C: ByteClass>(text: &[u8]) -> &[u8]
    ensures { result.now ≡ trim_start C.has text.now }
{
    for (i, byte) in text.iter().enumerate() {
        if !C::has(*byte) {
            return &text[i..];
        }
    }
    &[]
}

/// The text without the bytes of a class at its end.
pub fn trim_end<C: ByteClass>(text: &[u8]) -> &[u8]
    ensures { result.now ≡ trim_end C.has text.now }
{
    let mut end = text.len();
    while end > 0 {
        if !C::has(text[end - 1]) {
            return &text[..end];
        }
        end -= 1;
    }
    &[]
}

/// The first place from `from` on whose byte is not of a class, at most the text's end.
pub fn class_end<C: ByteClass>(text: &[u8], from: usize) -> usize
    requires { from ≤ length text.now }
    ensures from { from ≤ result }
    ensures within { result ≤ length text.now }
    ensures passed { list_all C.has (slice_range text.now from result) ≡ true }
    ensures stops { result < length text.now → C.has (slice_index text.now result) ≡ false }
{
    for i in from..text.len() {
        if !C::has(text[i]) {
            return i;
        }
    }
    text.len()
}

/// The place of the first such byte, if there is one.
fn place_of(text: &[u8], byte: u8) -> Option<usize>
    ensures { result ≡ position (λ b. b == byte) text.now }
{
    text.iter().position(|b| *b == byte)
}

/// What stands before and after the first such byte, if there is one.
pub fn cut_at(text: &[u8], byte: u8) -> Option<(&[u8], &[u8])>
    ensures { option_map (λ cut. (cut.0.now, cut.1.now)) result ≡ cut_at (λ b. b == byte) text.now }
{
    match place_of(text, byte) {
        None => None,
        Some(place) => Some((&text[..place], &text[place + 1..])),
    }
}

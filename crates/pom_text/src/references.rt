//! Runs of characters with their references put in, and white space at the ends of texts.

ghost use Rattle.std.specs.Prelude.{◌≡◌, ◌++◌, ◌+◌, ◌<◌, ◌≤◌, ◌^◌, ℕ, true, false, length, take, drop, slice_range, slice_index, IfOk, OnOk, encode_utf8, Some, None};
ghost use Rattle.ascii_bytes.specs.Classes.{is_white};
ghost use Rattle.pom_grammar.specs.declared.encoding.Encoding.{Encoding};
ghost use Rattle.pom_grammar.specs.Characters.{cut_space};
ghost use Rattle.pom_grammar.specs.Encodings.{IsText, utf8_of};
ghost use Rattle.pom_grammar.specs.References.{digit_of, number_from, entity_rows, named, reference, numbered, expanded};
ghost use Rattle.pom_grammar.specs.Machine.{join};
ghost use Rattle.pom_text.specs.Texts.{meaning_of, has_no_ampersand, number_meaning};

use crate::scans::{is_at, space_end};
use crate::tables::entity;
use crate::texts::{push_char, push_plain};
use ascii_bytes::is_white;
use case_table::Table;
use pom_grammar::Encoding;
use res_base::{NoMemory, Text};

/// A character that is written as a reference, and the length of what follows the `&`.
#[derive(Clone, Copy, Drop)]
struct Found {
    len: usize,
    char: char,
}

fn digit_of(hex: bool, byte: u8) -> Option<u32>
    ensures { result ≡ digit_of hex byte }
{
    if b'0' <= byte && byte <= b'9' {
        Some((byte - b'0') as u32)
    } else if hex && b'a' <= byte && byte <= b'f' {
        Some((byte - b'a') as u32 + 10)
    } else if hex && b'A' <= byte && byte <= b'F' {
        Some((byte - b'A') as u32 + 10)
    } else {
        None
    }
}

const TOO_LARGE: u32 = 0x11_0000;

/// What a number means that ends after so many bytes.
fn number_end(value: u32, len: usize) -> Option<Found>
    requires { len < 2 ^ 63 }
    ensures { meaning_of result ≡ number_meaning value len }
{
    if value == 0 {
        return None;
    }
    match char::from_u32(value) {
        Some(char) => Some(Found { len: len + 1, char }),
        None => None,
    }
}

/// Digits from a place on, at least one, and a semicolon.
fn digits_from(text: &[u8], start: usize, hex: bool) -> Option<Found>
    requires { start ≤ length text.now }
    ensures { meaning_of result ≡ number_from hex false start 0 (drop start text.now) }
{
    let base = if hex { 16 } else { 10 };
    let mut value: u32 = 0;
    let mut some = false;
    for i in start..text.len() {
        match digit_of(hex, text[i]) {
            Some(digit) => {
                value = (value * base + digit).min(TOO_LARGE);
                some = true;
            }
            None => {
                if text[i] == b';' && some {
                    return number_end(value, i);
                }
                return None;
            }
        }
    }
    None
}

fn numbered(text: &[u8]) -> Option<Found>
    ensures { meaning_of result ≡ numbered text.now }
{
    if text.is_empty() || text[0] != b'#' {
        return None;
    }
    if 1 < text.len() && text[1] == b'x' {
        digits_from(text, 2, true)
    } else {
        digits_from(text, 1, false)
    }
}

/// How long the longest name of an entity is.
const LONGEST: usize = 4;

/// The place of the first semicolon, if it may end an entity's name, and else one without.
fn semicolon(text: &[u8]) -> usize
    ensures within { result ≤ length text.now }
    ensures first { (k : ℕ) → k < result → slice_index text.now k ≡ 59 → ⊥ }
    ensures near { result < length text.now → (slice_index text.now result ≡ 59 → ⊥) → 4 < result }
{
    for i in 0..text.len() {
        if LONGEST < i || text[i] == b';' {
            return i;
        }
    }
    text.len()
}

/// The named entity that begins after a `&`.
fn named(entities: &Table<char>, text: &[u8]) -> Option<Found>
    requires { entities.now ≡ entity_rows }
    ensures { meaning_of result ≡ named text.now }
{
    let len = semicolon(text);
    if !is_at(text, len, b';') {
        return None;
    }
    match entity(entities, &text[..len]) {
        Some(char) => Some(Found { len: len + 1, char }),
        None => None,
    }
}

/// The reference that begins after a `&`.
fn reference_at(entities: &Table<char>, text: &[u8]) -> Option<Found>
    requires { entities.now ≡ entity_rows }
    ensures { meaning_of result ≡ reference text.now }
{
    match named(entities, text) {
        Some(found) => Some(found),
        None => numbered(text),
    }
}

fn is_white_char(char: char) -> bool
    ensures { result ≡ is_white char }
{
    char == ' ' || char == '\t' || char == '\r' || char == '\n'
}

/// Puts a character at the end, unless it is white space at the start.
fn add_char(text: &mut Text, char: char) -> Result<(), NoMemory>
    ensures { OnOk result (text.new ≡ join text.old (encode_utf8 char)) }
{
    if text.is_empty() && is_white_char(char) {
        return Ok(());
    }
    push_char(text, char)
}

/// Puts bytes at the end as they stand, without white space at the start.
pub(crate) fn add_plain(text: &mut Text, bytes: &[u8], encoding: Encoding) -> Result<(), NoMemory>
    requires { IsText encoding bytes.now }
    ensures { OnOk result (text.new ≡ join text.old (utf8_of encoding bytes.now)) }
{
    if text.is_empty() {
        let start = space_end(bytes, 0);
        push_plain(text, &bytes[start..], encoding)
    } else {
        push_plain(text, bytes, encoding)
    }
}

/// The place of the first `&` from here on, or the end.
fn ampersand(run: &[u8], from: usize) -> usize
    requires { from ≤ length run.now }
    ensures forth { from ≤ result }
    ensures within { result ≤ length run.now }
    ensures plain { has_no_ampersand (slice_range run.now from result) ≡ true }
    ensures is_ampersand { result < length run.now → slice_index run.now result ≡ 38 }
{
    for i in from..run.len() {
        if run[i] == b'&' {
            return i;
        }
    }
    run.len()
}

/// What stands at a `&`: its character, and the place after it.
fn add_reference(
    entities: &Table<char>,
    text: &mut Text,
    run: &[u8],
    at: usize,
) -> Result<usize, NoMemory>
    requires within { at < length run.now }
    requires is_ampersand { slice_index run.now at ≡ 38 }
    requires table { entities.now ≡ entity_rows }
    ensures forth { IfOk result (λ next. at < next) }
    ensures past { IfOk result (λ next. next ≤ length run.now) }
    ensures is_text { IfOk result (λ next. (e : Encoding) → IsText e (drop at run.now) → IsText e (drop next run.now)) }
    ensures ok { IfOk result
        (λ next. (e : Encoding)
        → join text.old (expanded e (drop at run.now)) ≡ join text.new (expanded e (drop next run.now))) }
{
    match reference_at(entities, &run[at + 1..]) {
        Some(found) => {
            add_char(text, found.char)?;
            Ok(at + 1 + found.len)
        }
        None => {
            add_char(text, '&')?;
            Ok(at + 1)
        }
    }
}

/// Puts a run of characters at the end, with its references put in.
pub(crate) fn add_run(
    entities: &Table<char>,
    text: &mut Text,
    run: &[u8],
    encoding: Encoding,
) -> Result<(), NoMemory>
    requires is_text { IsText encoding run.now }
    requires table { entities.now ≡ entity_rows }
    ensures { OnOk result (text.new ≡ join text.old (expanded encoding run.now)) }
{
    let mut i = 0;
    while i < run.len() {
        let next = ampersand(run, i);
        add_plain(text, &run[i..next], encoding)?;
        i = next;
        if i < run.len() {
            i = add_reference(entities, text, run, i)?;
        }
    }
    Ok(())
}

/// How long a text is without the white space at its end.
fn cut_len(bytes: &[u8]) -> usize
    ensures within { result ≤ length bytes.now }
    ensures value { take result bytes.now ≡ cut_space bytes.now }
    ensures spaces { result < length bytes.now → slice_index bytes.now result < 128 }
{
    let mut end = bytes.len();
    while 0 < end && is_white(bytes[end - 1]) {
        end -= 1;
    }
    end
}

/// The text without the white space at its end.
pub(crate) fn trimmed(text: Text) -> Text
    ensures { result ≡ cut_space text }
{
    let mut text = text.into_string();
    let end = cut_len(text.as_bytes());
    text.truncate(end);
    Text::from_string(text)
}

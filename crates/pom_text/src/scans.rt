//! Scans over bytes, each up to what ends it.

ghost use Rattle.std.specs.Prelude.{◌≡◌, ◌+◌, ◌-◌, ◌<◌, ◌≤◌, ℕ, List, [], ◌∷◌, IfOk, IfErr, IsTrue, true, false, length, slice_index, slice_range, drop};
ghost use Rattle.std.specs.List.{list_all};
ghost use Rattle.ascii_bytes.specs.Classes.{is_white};
ghost use Rattle.pom_grammar.specs.Characters.{is_high, is_name_byte, is_name_start, onto};
ghost use Rattle.pom_grammar.specs.Document.{Quote, quote_byte, Mark, backward};
ghost use Rattle.pom_grammar.specs.Machine.{OpenElement, Kind, in_run, in_quotes, in_marks, OpenElements, within, in_segment, back, with_text};
ghost use Rattle.pom_grammar.specs.Verdicts.{verdict};
ghost use Rattle.pom_grammar.specs.Characters.{begins_with};
ghost use Rattle.pom_grammar.specs.Encodings.{IsText, utf8_of};
ghost use Rattle.pom_grammar.specs.declared.encoding.Encoding.{Encoding};
ghost use Rattle.pom_text.specs.Scans.{Goes, Faults, Runs, Breaks, IsNaming, is_whole, sign_of, least_of, marked_verdict, cdata_state};

use crate::characters::{is_name_byte, is_name_start};
use crate::encoding::next_tail;
use crate::tree::bad_text;
use ascii_bytes::{White, class_end, is_white};
use pom_grammar::{Encoding, Tail, TextErr, ascii_ends_runs};

fn is_whole(tail: Tail) -> bool
    ensures { result ≡ is_whole tail }
{
    matches!(tail, Tail::Whole)
}

/// The place after the character that begins at a place, or where it breaks.
fn char_end(bytes: &[u8], at: usize, encoding: Encoding) -> Result<usize, TextErr>
    requires within { at < length bytes.now }
    requires high { is_high (slice_index bytes.now at) ≡ true }
    ensures forth { IfOk result (λ end. at < end) }
    ensures past_ascii { IfOk result (λ end. list_all is_high (slice_range bytes.now at end) ≡ true) }
    ensures ok { IfOk result (λ end. (kind : Kind) → Runs encoding bytes.now kind at end) }
    ensures err { IfErr result (λ fault. (kind : Kind) → Breaks encoding bytes.now kind at fault) }
{
    ascii_ends_runs();
    let mut tail = Tail::Whole;
    for i in at..bytes.len() {
        match next_tail(encoding, tail, bytes[i]) {
            Some(next) => tail = next,
            None => return Err(bad_text(i)),
        }
        if is_whole(tail) {
            return Ok(i + 1);
        }
    }
    Err(bad_text(bytes.len()))
}

/// The first place from here on without white space, at most the end.
pub(crate) fn space_end(bytes: &[u8], at: usize) -> usize
    requires { at ≤ length bytes.now }
    ensures forth { at ≤ result }
    ensures within { result ≤ length bytes.now }
    ensures spaces { list_all is_white (slice_range bytes.now at result) ≡ true }
    ensures ends { result < length bytes.now → is_white (slice_index bytes.now result) ≡ false }
{
    class_end::<White>(bytes, at)
}

/// The first bracket from here on.
pub(crate) fn text_end(bytes: &[u8], at: usize, encoding: Encoding) -> Result<usize, TextErr>
    requires { at ≤ length bytes.now }
    ensures runs { IfOk result (λ end. Runs encoding bytes.now in_run at end) }
    ensures bracket { IfOk result (λ end. end < length bytes.now) }
    ensures is_bracket { IfOk result (λ end. slice_index bytes.now end ≡ 60) }
    ensures err { IfErr result (λ fault. Breaks encoding bytes.now in_run at fault) }
{
    let mut i = at;
    while i < bytes.len() {
        let byte = bytes[i];
        if byte == b'<' {
            return Ok(i);
        }
        if byte < 0x80 {
            i += 1;
        } else {
            i = char_end(bytes, i, encoding)?;
        }
    }
    Err(bad_text(i))
}

/// The place of the first byte that is not in a name.
pub(crate) fn name_end(bytes: &[u8], at: usize, encoding: Encoding) -> Result<usize, TextErr>
    requires { at ≤ length bytes.now }
    ensures forth { IfOk result (λ end. at ≤ end) }
    ensures runs { IfOk result (λ end. (kind : Kind) → IsNaming kind → Runs encoding bytes.now kind at end) }
    ensures within { IfOk result (λ end. end < length bytes.now) }
    ensures stops { IfOk result (λ end. is_name_byte (slice_index bytes.now end) ≡ false) }
    ensures err { IfErr result (λ fault. (kind : Kind) → IsNaming kind → Breaks encoding bytes.now kind at fault) }
{
    let mut i = at;
    while i < bytes.len() {
        let byte = bytes[i];
        if 0x80 <= byte {
            i = char_end(bytes, i, encoding)?;
        } else if is_name_byte(byte) {
            i += 1;
        } else {
            return Ok(i);
        }
    }
    Err(bad_text(i))
}

/// The place of the quote that ends a value.
pub(crate) fn value_end(
    bytes: &[u8],
    at: usize,
    encoding: Encoding,
    quote: u8,
) -> Result<usize, TextErr>
    requires { at ≤ length bytes.now }
    ensures runs { IfOk result
        (λ end. (q : Quote) (name : List ℕ) → quote_byte q ≡ quote
        → Runs encoding bytes.now (in_quotes q name) at end) }
    ensures within { IfOk result (λ end. end < length bytes.now) }
    ensures is_quote { IfOk result (λ end. slice_index bytes.now end ≡ quote) }
    ensures err { IfErr result
        (λ fault. (q : Quote) (name : List ℕ) → quote_byte q ≡ quote
        → Breaks encoding bytes.now (in_quotes q name) at fault) }
{
    let mut i = at;
    while i < bytes.len() {
        let byte = bytes[i];
        if byte == quote {
            return Ok(i);
        }
        if byte == b'<' {
            return Err(bad_text(i));
        }
        if byte < 0x80 {
            i += 1;
        } else {
            i = match char_end(bytes, i, encoding) {
                Ok(end) => end,
                Err(fault) => return Err(fault),
            };
        }
    }
    Err(bad_text(i))
}

/// The place after the first run of so many marks and `>`.
pub(crate) fn mark_end(
    bytes: &[u8],
    at: usize,
    encoding: Encoding,
    sign: u8,
    least: usize,
) -> Result<usize, TextErr>
    requires within { at ≤ length bytes.now }
    requires ascii { is_high sign ≡ false }
    ensures forth { IfOk result (λ end. at < end) }
    ensures within { IfOk result (λ end. end ≤ length bytes.now) }
    ensures is_text { IfOk result (λ end. IsText encoding (slice_range bytes.now at (end - 1))) }
    ensures ok { IfOk result
        (λ end. (mark : Mark) (place : OpenElements) → sign_of mark ≡ sign → least_of mark ≡ least
        → verdict encoding (in_segment (in_marks mark) place [] Tail.Whole) (drop at bytes.now) at
        ≡ marked_verdict encoding bytes.now mark place at end) }
    ensures marks { IfOk result
        (λ end. (mark : Mark) → sign_of mark ≡ sign → least_of mark ≡ least
        → begins_with (backward mark) (62 ∷ onto (slice_range bytes.now at (end - 1)) []) ≡ true) }
    ensures err { IfErr result
        (λ fault. (mark : Mark) (place : OpenElements) → sign_of mark ≡ sign → least_of mark ≡ least
        → Faults encoding bytes.now (in_segment (in_marks mark) place [] Tail.Whole) at fault) }
{
    let mut count = 0;
    let mut i = at;
    while i < bytes.len() {
        let byte = bytes[i];
        if byte == b'>' && least <= count {
            return Ok(i + 1);
        }
        if byte == sign {
            count += 1;
            i += 1;
        } else if byte < 0x80 {
            count = 0;
            i += 1;
        } else {
            count = 0;
            i = match char_end(bytes, i, encoding) {
                Ok(end) => end,
                Err(fault) => return Err(fault),
            };
        }
    }
    Err(bad_text(i))
}

/// The place after a literal that has to stand here.
pub(crate) fn literal_end(bytes: &[u8], at: usize, literal: &[u8]) -> Result<usize, TextErr>
    requires { at ≤ length bytes.now }
    ensures within { IfOk result (λ end. end ≤ length bytes.now) }
    ensures forth { IfOk result (λ end. at + length literal.now ≡ end) }
    ensures ok { IfOk result
        (λ end. (e : Encoding) (frame : OpenElement) (outer : OpenElements)
        → Goes e bytes.now (cdata_state literal.now frame outer) at (cdata_state [] frame outer) end) }
    ensures err { IfErr result
        (λ fault. (e : Encoding) (frame : OpenElement) (outer : OpenElements)
        → Faults e bytes.now (cdata_state literal.now frame outer) at fault) }
{
    let mut i = at;
    for byte in literal {
        if i < bytes.len() && bytes[i] == *byte {
            i += 1;
        } else {
            return Err(bad_text(i));
        }
    }
    Ok(i)
}

/// Whether a literal stands here.
pub(crate) fn stands(bytes: &[u8], at: usize, literal: &[u8]) -> bool
    requires { at ≤ length bytes.now }
    ensures { result ≡ begins_with literal.now (drop at bytes.now) }
{
    let mut i = at;
    for byte in literal {
        if i < bytes.len() && bytes[i] == *byte {
            i += 1;
        } else {
            return false;
        }
    }
    true
}

/// Whether a byte stands here.
pub(crate) fn is_at(bytes: &[u8], at: usize, wanted: u8) -> bool
    ensures within { IsTrue result → at < length bytes.now }
    ensures is_it { IsTrue result → slice_index bytes.now at ≡ wanted }
    ensures other { result ≡ false → at < length bytes.now → slice_index bytes.now at ≡ wanted → ⊥ }
{
    at < bytes.len() && bytes[at] == wanted
}

/// The place of the `]]>` that ends a CDATA section, whose text begins here.
pub(crate) fn cdata_end(bytes: &[u8], at: usize, encoding: Encoding) -> Result<usize, TextErr>
    requires { at ≤ length bytes.now }
    ensures forth { IfOk result (λ end. at ≤ end) }
    ensures within { IfOk result (λ end. end + 3 ≤ length bytes.now) }
    ensures is_text { IfOk result (λ end. IsText encoding (slice_range bytes.now at end)) }
    ensures ok { IfOk result
        (λ end. (frame : OpenElement) (outer : OpenElements)
        → Goes encoding bytes.now (cdata_state [] frame outer) at
        (back (within (with_text frame (utf8_of encoding (slice_range bytes.now at end))) outer)) (end + 3)) }
    ensures err { IfErr result
        (λ fault. (frame : OpenElement) (outer : OpenElements)
        → Faults encoding bytes.now (cdata_state [] frame outer) at fault) }
{
    match mark_end(bytes, at, encoding, b']', 2) {
        Ok(end) => Ok(end - 3),
        Err(fault) => Err(fault),
    }
}

/// Whether a name begins here.
pub(crate) fn is_name_at(bytes: &[u8], at: usize) -> bool
    ensures within { IsTrue result → at < length bytes.now }
    ensures is_start { IsTrue result → is_name_start (slice_index bytes.now at) ≡ true }
    ensures other { result ≡ false → at < length bytes.now → is_name_start (slice_index bytes.now at) ≡ false }
{
    at < bytes.len() && is_name_start(bytes[at])
}

/// Whether white space stands here.
pub(crate) fn space_at(bytes: &[u8], at: usize) -> bool
    ensures within { IsTrue result → at < length bytes.now }
    ensures is_it { IsTrue result → is_white (slice_index bytes.now at) ≡ true }
    ensures other { result ≡ false → at < length bytes.now → is_white (slice_index bytes.now at) ≡ false }
{
    at < bytes.len() && is_white(bytes[at])
}

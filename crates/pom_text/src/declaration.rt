//! The byte-order mark and the declaration, and the encoding that it names.

ghost use Rattle.std.specs.Prelude.{◌≡◌, ◌+◌, ◌<◌, ◌≤◌, ◌==◌, ℕ, List, [], ◌∷◌, true, false, length, drop, slice_index, slice_range, IfOk, IfErr, IsErr, IsTrue, Err, Ok, Some, None};
ghost use Rattle.pom_grammar.specs.Encodings.{goes_on, next_tail};
ghost use Rattle.pom_grammar.specs.Characters.{begins_with};
ghost use Rattle.pom_grammar.specs.Declarations.{seek_if, next_seek, next_found, seeking, lowered, encoding_rows, encoding_of, declares};
ghost use Rattle.pom_grammar.specs.Document.{quote_byte};
ghost use Rattle.pom_grammar.specs.Machine.{between};
ghost use Rattle.pom_grammar.specs.Heads.{begins_latin1, told, is_alive, is_finished, body_in, in_body, next_telling, may_go_on, in_declaration, nothing_told, starting, at_start};
ghost use Rattle.pom_grammar.specs.Verdicts.{verdict, reading_verdict, unknown_from, unknown_after, unless_unknown, start_next, if_unknown, whole_verdict};
ghost use Rattle.pom_text.specs.DeclarationViews.{IsNamed, named_view, start_of, seen_view, quote_of};

use crate::encoding::next_tail;
use crate::scans::{is_at, space_at, stands};
use crate::tables::known;
use crate::tree::bad_text;
use ascii_bytes::is_white;
use case_table::Table;
use pom_grammar::{Encoding, Seek, Tail, TextErr, declarations_begin};

/// What is known of the encoding after a prefix of the declaration. Places are from the start of
/// the input.
#[derive(Clone, Copy, Drop)]
enum Named {
    Not(Seek),
    Value { double: bool, start: usize },
    Closed { start: usize, end: usize },
}

fn seek_if(wanted: u8, next: Seek, byte: u8) -> Seek
    ensures { result ≡ seek_if wanted next byte }
{
    if byte == wanted {
        next
    } else if byte == b'e' {
        Seek::E
    } else {
        Seek::Nothing
    }
}

fn next_seek(seek: Seek, byte: u8) -> Seek
    ensures { result ≡ next_seek seek byte }
{
    match seek {
        Seek::Nothing => seek_if(b'e', Seek::E, byte),
        Seek::E => seek_if(b'n', Seek::En, byte),
        Seek::En => seek_if(b'c', Seek::Enc, byte),
        Seek::Enc => seek_if(b'o', Seek::Enco, byte),
        Seek::Enco => seek_if(b'd', Seek::Encod, byte),
        Seek::Encod => seek_if(b'i', Seek::Encodi, byte),
        Seek::Encodi => seek_if(b'n', Seek::Encodin, byte),
        Seek::Encodin => seek_if(b'g', Seek::Word, byte),
        Seek::Word => {
            if is_white(byte) {
                Seek::Word
            } else {
                seek_if(b'=', Seek::Equals, byte)
            }
        }
        Seek::Equals => {
            if is_white(byte) {
                Seek::Equals
            } else {
                seek_if(b'e', Seek::E, byte)
            }
        }
    }
}

/// What is known after the byte at a place, where no value has begun.
fn next_sought(bytes: &[u8], seek: Seek, at: usize) -> Named
    requires { at < length bytes.now }
    ensures view { named_view bytes.now (at + 1) result ≡ next_found (seeking seek) (slice_index bytes.now at) }
    ensures start { start_next (seeking seek) (slice_index bytes.now at) at 0 ≡ start_of result }
    ensures fits { IsNamed (at + 1) result }
{
    let byte = bytes[at];
    match seek {
        Seek::Equals => {
            if byte == b'"' {
                Named::Value {
                    double: true,
                    start: at + 1,
                }
            } else if byte == b'\'' {
                Named::Value {
                    double: false,
                    start: at + 1,
                }
            } else {
                Named::Not(next_seek(Seek::Equals, byte))
            }
        }
        other => Named::Not(next_seek(other, byte)),
    }
}

fn quote_sign(double: bool) -> u8
    ensures { result ≡ quote_byte (quote_of double) }
{
    if double { b'"' } else { b'\'' }
}

/// What is known after the byte at a place.
fn next_named(bytes: &[u8], named: Named, at: usize) -> Named
    requires within { at < length bytes.now }
    requires is_named { IsNamed at named }
    ensures view { named_view bytes.now (at + 1) result
        ≡ next_found (named_view bytes.now at named) (slice_index bytes.now at) }
    ensures start { start_next (named_view bytes.now at named) (slice_index bytes.now at) at (start_of named)
        ≡ start_of result }
    ensures fits { IsNamed (at + 1) result }
{
    match named {
        Named::Not(seek) => next_sought(bytes, seek, at),
        Named::Value { double, start } => {
            if bytes[at] == quote_sign(double) {
                Named::Closed { start, end: at }
            } else {
                Named::Value { double, start }
            }
        }
        Named::Closed { start, end } => Named::Closed { start, end },
    }
}

/// Whether a name with its letters lowered begins another.
fn lowered_begins(name: &[u8], wanted: &[u8]) -> bool
    ensures { result ≡ begins_with (lowered name.now) wanted.now }
{
    let mut i = 0;
    for letter in name {
        if !is_at(wanted, i, letter.to_ascii_lowercase()) {
            return false;
        }
        i += 1;
    }
    true
}

fn begins_latin1(name: &[u8]) -> bool
    ensures { result ≡ begins_latin1 name.now }
{
    lowered_begins(name, b"iso-8859-1") || lowered_begins(name, b"latin1")
}

/// What is known after a prefix of the declaration: the encoding, what its last character lacks in
/// UTF-8 and in ASCII, unless it is no such text, and whether a question mark came last.
#[derive(Clone, Copy, Drop)]
struct Seen {
    named: Named,
    utf8: Option<Tail>,
    ascii: Option<Tail>,
    question: bool,
}

fn then_tail(encoding: Encoding, before: Option<Tail>, byte: u8) -> Option<Tail>
    ensures { result ≡ goes_on before (λ tail. next_tail encoding tail byte) }
{
    match before {
        Some(tail) => next_tail(encoding, tail, byte),
        None => None,
    }
}

fn next_seen(bytes: &[u8], seen: Seen, at: usize) -> Seen
    requires within { at < length bytes.now }
    requires is_named { IsNamed at seen.named }
    ensures view { seen_view bytes.now (at + 1) result
        ≡ next_telling (seen_view bytes.now at seen) (slice_index bytes.now at) }
    ensures fits { IsNamed (at + 1) result.named }
    ensures question { result.question ≡ (slice_index bytes.now at == 63) }
{
    let byte = bytes[at];
    Seen {
        named: next_named(bytes, seen.named, at),
        utf8: then_tail(Encoding::Utf8, seen.utf8, byte),
        ascii: then_tail(Encoding::Ascii, seen.ascii, byte),
        question: byte == b'?',
    }
}

/// What the last character of the prefix lacks in this encoding.
fn told(bytes: &[u8], at: usize, seen: &Seen, encoding: Encoding) -> Option<Tail>
    ensures { result ≡ told encoding (seen_view bytes.now at seen.now) }
{
    match encoding {
        Encoding::Utf8 => seen.utf8,
        Encoding::Ascii => seen.ascii,
        Encoding::Latin1 => Some(Tail::Whole),
    }
}

/// The encoding that the declaration gives if it ends here.
fn given(encodings: &Table<Encoding>, bytes: &[u8], at: usize, named: Named) -> Option<Encoding>
    requires within { at ≤ length bytes.now }
    requires is_named { IsNamed at named }
    requires table { encodings.now ≡ encoding_rows }
    ensures { result ≡ encoding_of (named_view bytes.now at named) }
{
    match named {
        Named::Closed { start, end } => known(encodings, &bytes[start..end]),
        Named::Value { .. } => Some(Encoding::Utf8),
        Named::Not(_) => Some(Encoding::Utf8),
    }
}

fn is_alive(tail: Option<Tail>) -> bool
    ensures { result ≡ is_alive tail }
{
    tail.is_some()
}

fn is_finished(tail: Option<Tail>) -> bool
    ensures { result ≡ is_finished tail }
{
    matches!(tail, Some(Tail::Whole))
}

/// Whether the prefix up to a place can go on.
fn lives(encodings: &Table<Encoding>, bytes: &[u8], at: usize, seen: &Seen) -> bool
    requires within { at ≤ length bytes.now }
    requires is_named { IsNamed at seen.now.named }
    requires table { encodings.now ≡ encoding_rows }
    ensures { result ≡ may_go_on (seen_view bytes.now at seen.now) }
{
    match seen.named {
        Named::Not(_) => true,
        Named::Value { start, .. } => begins_latin1(&bytes[start..at]) || is_alive(seen.utf8),
        Named::Closed { start, end } => match known(encodings, &bytes[start..end]) {
            Some(encoding) => is_alive(told(bytes, at, seen, encoding)),
            None => false,
        },
    }
}

/// The place of an encoding's name that is not known, if the declaration ends here.
fn if_unknown(encodings: &Table<Encoding>, bytes: &[u8], at: usize, named: Named) -> Option<usize>
    requires within { at ≤ length bytes.now }
    requires is_named { IsNamed at named }
    requires table { encodings.now ≡ encoding_rows }
    ensures { result ≡ if_unknown (named_view bytes.now at named) (start_of named) }
{
    match named {
        Named::Closed { start, end } => match known(encodings, &bytes[start..end]) {
            Some(_) => None,
            None => Some(start),
        },
        Named::Value { .. } => None,
        Named::Not(_) => None,
    }
}

/// The place of the encoding's name, where a declaration gives one that is not known.
fn unknown(encodings: &Table<Encoding>, bytes: &[u8], at: usize) -> Option<usize>
    requires within { at ≤ length bytes.now }
    requires table { encodings.now ≡ encoding_rows }
    ensures { result ≡ unknown_from 0 (seeking Seek.Nothing) false (drop at bytes.now) at }
{
    let mut named = Named::Not(Seek::Nothing);
    let mut question = false;
    for i in at..bytes.len() {
        if question && bytes[i] == b'>' {
            return if_unknown(encodings, bytes, i, named);
        }
        named = next_named(bytes, named, i);
        question = bytes[i] == b'?';
    }
    None
}

/// The place after a declaration and its encoding.
#[derive(Drop)]
pub(crate) struct Head {
    pub(crate) at: usize,
    pub(crate) encoding: Encoding,
}

/// The end of a declaration, whose bracket stands here.
fn head_end(
    encodings: &Table<Encoding>,
    bytes: &[u8],
    at: usize,
    seen: &Seen,
) -> Result<Head, TextErr>
    requires within { at < length bytes.now }
    requires is_named { IsNamed at seen.now.named }
    requires table { encodings.now ≡ encoding_rows }
    ensures at { IfOk result (λ head. head.at ≡ at + 1) }
    ensures ok { IfOk result
        (λ head. body_in (encoding_of (named_view bytes.now at seen.now.named)) (seen_view bytes.now at seen.now)
        ≡ Some (in_body head.encoding (between None))) }
    ensures err { IfErr result (λ fault. fault ≡ TextErr.BadText at) }
    ensures none { IsErr result
        → body_in (encoding_of (named_view bytes.now at seen.now.named)) (seen_view bytes.now at seen.now) ≡ None }
{
    match given(encodings, bytes, at, seen.named) {
        Some(encoding) => {
            if is_finished(told(bytes, at, seen, encoding)) {
                Ok(Head {
                    at: at + 1,
                    encoding,
                })
            } else {
                Err(bad_text(at))
            }
        }
        None => Err(bad_text(at)),
    }
}

/// The declaration's text, after `<?xml` and a white space.
fn declared_text(encodings: &Table<Encoding>, bytes: &[u8], at: usize) -> Result<Head, TextErr>
    requires within { at ≤ length bytes.now }
    requires table { encodings.now ≡ encoding_rows }
    ensures forth { IfOk result (λ head. at ≤ head.at) }
    ensures past { IfOk result (λ head. head.at ≤ length bytes.now) }
    ensures ok { IfOk result
        (λ head. (space : ℕ)
        → reading_verdict (in_declaration space [] nothing_told) (drop at bytes.now) at
        ≡ verdict head.encoding (between None) (drop head.at bytes.now) head.at) }
    ensures err { IfErr result
        (λ fault. (space : ℕ)
        → reading_verdict (in_declaration space [] nothing_told) (drop at bytes.now) at ≡ Err fault) }
{
    let mut seen = Seen {
        named: Named::Not(Seek::Nothing),
        utf8: Some(Tail::Whole),
        ascii: Some(Tail::Whole),
        question: false,
    };
    for i in at..bytes.len() {
        if seen.question && bytes[i] == b'>' {
            return head_end(encodings, bytes, i, &seen);
        }
        seen = next_seen(bytes, seen, i);
        if !lives(encodings, bytes, i + 1, &seen) {
            return Err(bad_text(i));
        }
    }
    Err(bad_text(bytes.len()))
}

/// A declaration, after `<?xml` and a white space.
fn declared(encodings: &Table<Encoding>, bytes: &[u8], at: usize) -> Result<Head, TextErr>
    requires within { at ≤ length bytes.now }
    requires table { encodings.now ≡ encoding_rows }
    ensures forth { IfOk result (λ head. at ≤ head.at) }
    ensures past { IfOk result (λ head. head.at ≤ length bytes.now) }
    ensures ok { IfOk result
        (λ head. (space : ℕ)
        → unless_unknown (unknown_from 0 (seeking Seek.Nothing) false (drop at bytes.now) at)
        (reading_verdict (in_declaration space [] nothing_told) (drop at bytes.now) at)
        ≡ verdict head.encoding (between None) (drop head.at bytes.now) head.at) }
    ensures err { IfErr result
        (λ fault. (space : ℕ)
        → unless_unknown (unknown_from 0 (seeking Seek.Nothing) false (drop at bytes.now) at)
        (reading_verdict (in_declaration space [] nothing_told) (drop at bytes.now) at) ≡ Err fault) }
{
    match unknown(encodings, bytes, at) {
        Some(place) => Err(TextErr::UnknownEncoding(place as u64)),
        None => declared_text(encodings, bytes, at),
    }
}

/// Whether a declaration begins here.
fn is_declared(bytes: &[u8], at: usize) -> bool
    requires { at ≤ length bytes.now }
    ensures yes { IsTrue result → declares (drop at bytes.now) ≡ true }
    ensures no { result ≡ false → declares (drop at bytes.now) ≡ false }
    ensures within { IsTrue result → at + 6 ≤ length bytes.now }
{
    if !stands(bytes, at, b"<?xml") {
        return false;
    }
    space_at(bytes, at + 5)
}

/// What stands after the byte-order mark, or at the start.
fn after_mark(encodings: &Table<Encoding>, bytes: &[u8], at: usize) -> Result<Head, TextErr>
    requires within { at ≤ length bytes.now }
    requires table { encodings.now ≡ encoding_rows }
    ensures past { IfOk result (λ head. head.at ≤ length bytes.now) }
    ensures ok { IfOk result
        (λ head. unless_unknown (unknown_after at (drop at bytes.now))
        (reading_verdict (starting at_start) (drop at bytes.now) at)
        ≡ verdict head.encoding (between None) (drop head.at bytes.now) head.at) }
    ensures err { IfErr result
        (λ fault. unless_unknown (unknown_after at (drop at bytes.now))
        (reading_verdict (starting at_start) (drop at bytes.now) at) ≡ Err fault) }
{
    declarations_begin();
    if is_declared(bytes, at) {
        declared(encodings, bytes, at + 6)
    } else {
        Ok(Head {
            at,
            encoding: Encoding::Utf8,
        })
    }
}

/// What stands before the document's text: the byte-order mark and the declaration.
pub(crate) fn read_head(encodings: &Table<Encoding>, bytes: &[u8]) -> Result<Head, TextErr>
    requires { encodings.now ≡ encoding_rows }
    ensures past { IfOk result (λ head. head.at ≤ length bytes.now) }
    ensures ok { IfOk result
        (λ head. whole_verdict bytes.now ≡ verdict head.encoding (between None) (drop head.at bytes.now) head.at) }
    ensures err { IfErr result (λ fault. whole_verdict bytes.now ≡ Err fault) }
{
    if !is_at(bytes, 0, 0xef) {
        return after_mark(encodings, bytes, 0);
    }
    if !is_at(bytes, 1, 0xbb) {
        return Err(bad_text(1));
    }
    if !is_at(bytes, 2, 0xbf) {
        return Err(bad_text(2));
    }
    after_mark(encodings, bytes, 3)
}

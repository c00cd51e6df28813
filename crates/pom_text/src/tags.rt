//! The attributes and the ends of start tags, and the places of finished elements.

ghost use Rattle.std.specs.Prelude.{◌≡◌, ◌+◌, ◌-◌, ◌<◌, ◌≤◌, ℕ, List, [], ◌++◌, ◌∷◌, true, false, length, drop, slice_range, slice_index, IfOk, IfErr, IsTrue, ◌⊎◌};
ghost use Rattle.ascii_bytes.specs.Classes.{is_white};
ghost use Rattle.pom_grammar.specs.declared.encoding.Encoding.{Encoding};
ghost use Rattle.pom_grammar.specs.Characters.{is_name_start, is_name_byte};
ghost use Rattle.pom_grammar.specs.Machine.{OpenElements, State, in_segment, in_label, in_tag, in_end, spaced, value, closed, opened, back, with_child, may_open};
ghost use Rattle.pom_grammar.specs.Encodings.{IsText, utf8_of};
ghost use Rattle.pom_text.specs.Scans.{Goes, Faults};
ghost use Rattle.pom_text.specs.Views.{frame_view, nest, open_view, tag_state, AsTag};

use crate::characters::is_name_start;
use crate::references::trimmed;
use crate::scans::{is_at, name_end, space_end, value_end};
use crate::texts::local_name;
use crate::tree::{Frame, Open, bad_text};
use pom_grammar::{Encoding, MOST_LEVELS, Tail, TextErr, Tree, names_have_no_space};
use res_base::{List, NoMemory, Text};
use std::alloc::Global;

/// The place after a start tag, and whether the element is empty.
#[derive(Drop)]
pub(crate) struct TagEnd {
    pub(crate) at: usize,
    pub(crate) is_empty: bool,
}

/// The place after the equals sign of an attribute and the white space after it.
fn equals_end(bytes: &[u8], at: usize) -> Result<usize, TextErr>
    requires within { at < length bytes.now }
    requires after_name { is_name_byte (slice_index bytes.now at) ≡ false }
    ensures forth { IfOk result (λ end. at < end) }
    ensures past { IfOk result (λ end. end ≤ length bytes.now) }
    ensures no_space { IfOk result (λ end. end < length bytes.now → is_white (slice_index bytes.now end) ≡ false) }
    ensures ok { IfOk result
        (λ end. (e : Encoding) (name seen : List ℕ) (place : OpenElements)
        → Goes e bytes.now (in_segment (in_label name) place seen Tail.Whole) at (in_tag value name place) end) }
    ensures err { IfErr result
        (λ fault. (e : Encoding) (name seen : List ℕ) (place : OpenElements)
        → Faults e bytes.now (in_segment (in_label name) place seen Tail.Whole) at fault) }
{
    names_have_no_space();
    let sign = space_end(bytes, at);
    if is_at(bytes, sign, b'=') {
        Ok(space_end(bytes, sign + 1))
    } else {
        Err(bad_text(sign))
    }
}

fn is_quote(byte: u8) -> bool
    ensures yes { IsTrue result → (byte ≡ 34) ⊎ (byte ≡ 39) }
    ensures not_double { result ≡ false → byte ≡ 34 → ⊥ }
    ensures not_single { result ≡ false → byte ≡ 39 → ⊥ }
{
    byte == b'"' || byte == b'\''
}

/// The place after a quoted value that begins here.
fn quoted_end(bytes: &[u8], at: usize, encoding: Encoding) -> Result<usize, TextErr>
    requires { at ≤ length bytes.now }
    ensures forth { IfOk result (λ end. at < end) }
    ensures past { IfOk result (λ end. end ≤ length bytes.now) }
    ensures ok { IfOk result
        (λ end. (name : List ℕ) (place : OpenElements)
        → Goes encoding bytes.now (in_tag value name place) at (in_tag closed name place) end) }
    ensures err { IfErr result
        (λ fault. (name : List ℕ) (place : OpenElements)
        → (at < length bytes.now → is_white (slice_index bytes.now at) ≡ false)
        → Faults encoding bytes.now (in_tag value name place) at fault) }
{
    if at < bytes.len() && is_quote(bytes[at]) {
        let end = match value_end(bytes, at + 1, encoding, bytes[at]) {
            Ok(end) => end,
            Err(fault) => return Err(fault),
        };
        Ok(end + 1)
    } else {
        Err(bad_text(at))
    }
}

/// The place after an attribute whose name begins here.
fn attribute_end(bytes: &[u8], at: usize, encoding: Encoding) -> Result<usize, TextErr>
    requires within { at < length bytes.now }
    requires is_start { is_name_start (slice_index bytes.now at) ≡ true }
    ensures forth { IfOk result (λ end. at < end) }
    ensures past { IfOk result (λ end. end ≤ length bytes.now) }
    ensures ok { IfOk result
        (λ end. (name : List ℕ) (place : OpenElements)
        → Goes encoding bytes.now (in_tag spaced name place) at (in_tag closed name place) end) }
    ensures err { IfErr result
        (λ fault. (name : List ℕ) (place : OpenElements)
        → Faults encoding bytes.now (in_tag spaced name place) at fault) }
{
    let name = match name_end(bytes, at, encoding) {
        Ok(end) => end,
        Err(fault) => return Err(fault),
    };
    let quote = match equals_end(bytes, name) {
        Ok(end) => end,
        Err(fault) => return Err(fault),
    };
    quoted_end(bytes, quote, encoding)
}

/// What ends a start tag, after its name and attributes.
fn tag_close(bytes: &[u8], at: usize) -> Result<TagEnd, TextErr>
    requires within { at ≤ length bytes.now }
    requires no_space { at < length bytes.now → is_white (slice_index bytes.now at) ≡ false }
    ensures forth { IfOk result (λ tag. at < tag.at) }
    ensures past { IfOk result (λ tag. tag.at ≤ length bytes.now) }
    ensures ok { IfOk result
        (λ tag. (e : Encoding) (name : List ℕ) (place : OpenElements) (s : State) → AsTag e bytes.now at s name place
        → Goes e bytes.now s at (tag_state e tag name place) tag.at) }
    ensures err { IfErr result
        (λ fault. (e : Encoding) (name : List ℕ) (place : OpenElements) (s : State) → AsTag e bytes.now at s name place
        → Faults e bytes.now s at fault) }
{
    if is_at(bytes, at, b'>') {
        return Ok(TagEnd {
            at: at + 1,
            is_empty: false,
        });
    }
    if !is_at(bytes, at, b'/') {
        return Err(bad_text(at));
    }
    if !is_at(bytes, at + 1, b'>') {
        return Err(bad_text(at + 1));
    }
    Ok(TagEnd {
        at: at + 2,
        is_empty: true,
    })
}

/// Whether an attribute begins after white space here.
fn begins_attribute(bytes: &[u8], from: usize, at: usize) -> bool
    ensures yes { IsTrue result
        → (from < at) × (at < length bytes.now) × (is_name_start (slice_index bytes.now at) ≡ true) }
    ensures not { result ≡ false → from < at → at < length bytes.now
        → is_name_start (slice_index bytes.now at) ≡ false }
{
    from < at && at < bytes.len() && is_name_start(bytes[at])
}

/// The attributes after a name, and the end of the tag.
pub(crate) fn tag_end(bytes: &[u8], at: usize, encoding: Encoding) -> Result<TagEnd, TextErr>
    requires { at ≤ length bytes.now }
    ensures forth { IfOk result (λ tag. at < tag.at) }
    ensures past { IfOk result (λ tag. tag.at ≤ length bytes.now) }
    ensures ok { IfOk result
        (λ tag. (name : List ℕ) (place : OpenElements)
        → Goes encoding bytes.now (in_tag closed name place) at (tag_state encoding tag name place) tag.at) }
    ensures err { IfErr result
        (λ fault. (name : List ℕ) (place : OpenElements)
        → Faults encoding bytes.now (in_tag closed name place) at fault) }
{
    names_have_no_space();
    let mut i = at;
    let mut next = space_end(bytes, i);
    while begins_attribute(bytes, i, next) {
        i = match attribute_end(bytes, next, encoding) {
            Ok(end) => end,
            Err(fault) => return Err(fault),
        };
        next = space_end(bytes, i);
    }
    tag_close(bytes, next)
}

/// Whether another element may open here: one root, and so many levels.
pub(crate) fn may_open(stack: &Open) -> bool
    ensures { result ≡ may_open (open_view stack.now) }
{
    if stack.frames.is_empty() {
        stack.root.is_none()
    } else {
        stack.frames.len() != MOST_LEVELS
    }
}

/// Puts a finished element in its place.
pub(crate) fn add_child(mut stack: Open, tree: Tree) -> Result<Open, NoMemory>
    ensures { IfOk result (λ then. open_view then ≡ with_child (open_view stack) tree) }
{
    match stack.frames.pop() {
        Some(mut parent) => {
            parent.children.push(tree)?;
            stack.frames.push(parent)?;
            Ok(stack)
        }
        None => {
            stack.root = Some(tree);
            Ok(stack)
        }
    }
}

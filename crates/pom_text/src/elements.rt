//! Start tags and end tags, and the elements that they open and close.

ghost use Rattle.std.specs.Prelude.{◌≡◌, ◌+◌, ◌<◌, ◌≤◌, ℕ, List, [], true, false, length, take, drop, slice_range, slice_index, IfOk, IfErr, ◌⊎◌};
ghost use Rattle.pom_grammar.specs.declared.encoding.Encoding.{Encoding};
ghost use Rattle.pom_grammar.specs.Characters.{is_name_start};
ghost use Rattle.pom_grammar.specs.Encodings.{IsText};
ghost use Rattle.pom_grammar.specs.Machine.{OpenElement, OpenElements, in_end, opened, within, back, with_child, tree_of, fresh, may_open};
ghost use Rattle.pom_text.specs.Scans.{Goes, Faults};
ghost use Rattle.pom_text.specs.Views.{frame_view, open_view};

use crate::encoding::next_tail;
use crate::references::trimmed;
use crate::scans::{is_at, name_end, space_end};
use crate::tags::{TagEnd, add_child, may_open, tag_end};
use crate::texts::local_name;
use crate::tree::{Frame, Open, Step, bad_text};
use pom_grammar::{Encoding, Tail, TextErr, Tree};
use res_base::{List, NoMemory, Text};
use std::alloc::Global;

/// The fault of a start tag where no element may open.
fn no_room(bytes: &[u8], at: usize, encoding: Encoding, stack: &Open) -> TextErr
    requires within { at < length bytes.now }
    requires after { 0 < at }
    requires is_start { is_name_start (slice_index bytes.now at) ≡ true }
    requires full { may_open (open_view stack.now) ≡ false }
    ensures { Faults encoding bytes.now (opened (open_view stack.now)) at result }
{
    if stack.frames.is_empty() {
        return bad_text(at);
    }
    match next_tail(encoding, Tail::Whole, bytes[at]) {
        Some(_) => TextErr::TooDeep(at as u64 - 1),
        None => bad_text(at),
    }
}

fn empty_element(alloc: Global, name: &[u8], encoding: Encoding) -> Result<Tree, NoMemory>
    requires { IsText encoding name.now }
    ensures { IfOk result (λ tree. tree ≡ tree_of (fresh encoding name.now)) }
{
    let label = local_name(alloc, name, encoding)?;
    Ok(Tree {
        name: label,
        text: Text::new(alloc),
        children: List::new(alloc),
    })
}

/// Opens an element.
fn push_element(
    alloc: Global,
    name: &[u8],
    encoding: Encoding,
    mut stack: Open,
) -> Result<Open, NoMemory>
    requires { IsText encoding name.now }
    ensures { IfOk result (λ then. open_view then ≡ within (fresh encoding name.now) (open_view stack)) }
{
    let label = local_name(alloc, name, encoding)?;
    let raw: List<u8> = List::from_slice(alloc, name)?;
    stack.frames.push(Frame {
        raw,
        label,
        text: Text::new(alloc),
        children: List::new(alloc),
    })?;
    Ok(stack)
}

/// An element after its start tag.
fn open_element(
    alloc: Global,
    name: &[u8],
    encoding: Encoding,
    is_empty: bool,
    stack: Open,
) -> Result<Open, NoMemory>
    requires { IsText encoding name.now }
    ensures empty { IfOk result
        (λ then. is_empty ≡ true → open_view then ≡ with_child (open_view stack) (tree_of (fresh encoding name.now))) }
    ensures full { IfOk result
        (λ then. is_empty ≡ false → open_view then ≡ within (fresh encoding name.now) (open_view stack)) }
{
    if is_empty {
        let tree = empty_element(alloc, name, encoding)?;
        add_child(stack, tree)
    } else {
        push_element(alloc, name, encoding, stack)
    }
}

/// A start tag whose name begins here, and what is open after it.
pub(crate) fn start_tag(
    alloc: Global,
    bytes: &[u8],
    at: usize,
    encoding: Encoding,
    stack: Open,
) -> Result<Step, TextErr>
    requires within { at < length bytes.now }
    requires after { 0 < at }
    requires is_start { is_name_start (slice_index bytes.now at) ≡ true }
    ensures forth { IfOk result (λ next. at < next.at) }
    ensures past { IfOk result (λ next. next.at ≤ length bytes.now) }
    ensures ok { IfOk result
        (λ next. Goes encoding bytes.now (opened (open_view stack)) at (back (open_view next.stack)) next.at) }
    ensures err { IfErr result
        (λ fault. (fault ≡ TextErr.NoMemory) ⊎ Faults encoding bytes.now (opened (open_view stack)) at fault) }
{
    if !may_open(&stack) {
        return Err(no_room(bytes, at, encoding, &stack));
    }
    let name = match name_end(bytes, at, encoding) {
        Ok(end) => end,
        Err(fault) => return Err(fault),
    };
    let tag = match tag_end(bytes, name, encoding) {
        Ok(tag) => tag,
        Err(fault) => return Err(fault),
    };
    match open_element(alloc, &bytes[at..name], encoding, tag.is_empty, stack) {
        Ok(stack) => Ok(Step { at: tag.at, stack }),
        Err(_) => Err(TextErr::NoMemory),
    }
}

/// The place after the name of an end tag, which is that of the open element.
fn same_name(bytes: &[u8], at: usize, raw: &[u8]) -> Result<usize, TextErr>
    requires { at ≤ length bytes.now }
    ensures forth { IfOk result (λ end. at ≤ end) }
    ensures past { IfOk result (λ end. end ≤ length bytes.now) }
    ensures ok { IfOk result
        (λ end. (e : Encoding) (frame : OpenElement) (outer : OpenElements)
        → Goes e bytes.now (in_end [] raw.now frame outer) at (in_end raw.now [] frame outer) end) }
    ensures err { IfErr result
        (λ fault. (e : Encoding) (frame : OpenElement) (outer : OpenElements)
        → Faults e bytes.now (in_end [] raw.now frame outer) at fault) }
{
    let mut i = at;
    for letter in raw {
        if !is_at(bytes, i, *letter) {
            return Err(bad_text(i));
        }
        i += 1;
    }
    Ok(i)
}

/// The place after an end tag, from its name on.
fn end_of_tag(bytes: &[u8], at: usize, raw: &[u8]) -> Result<usize, TextErr>
    requires { at ≤ length bytes.now }
    ensures forth { IfOk result (λ end. at < end) }
    ensures past { IfOk result (λ end. end ≤ length bytes.now) }
    ensures ok { IfOk result
        (λ end. (e : Encoding) (frame : OpenElement) (outer : OpenElements)
        → Goes e bytes.now (in_end [] raw.now frame outer) at (back (with_child outer (tree_of frame))) end) }
    ensures err { IfErr result
        (λ fault. (e : Encoding) (frame : OpenElement) (outer : OpenElements)
        → Faults e bytes.now (in_end [] raw.now frame outer) at fault) }
{
    let name = match same_name(bytes, at, raw) {
        Ok(end) => end,
        Err(fault) => return Err(fault),
    };
    let end = space_end(bytes, name);
    if !is_at(bytes, end, b'>') {
        return Err(bad_text(end));
    }
    Ok(end + 1)
}

/// Closes an element.
fn close(frame: Frame, stack: Open) -> Result<Open, NoMemory>
    ensures { IfOk result (λ then. open_view then ≡ with_child (open_view stack) (tree_of (frame_view frame))) }
{
    let tree = Tree {
        name: frame.label,
        text: trimmed(frame.text),
        children: frame.children,
    };
    add_child(stack, tree)
}

/// An end tag, whose slash stands here.
pub(crate) fn end_tag(
    bytes: &[u8],
    at: usize,
    encoding: Encoding,
    mut stack: Open,
) -> Result<Step, TextErr>
    requires within { at < length bytes.now }
    requires is_slash { slice_index bytes.now at ≡ 47 }
    ensures forth { IfOk result (λ next. at < next.at) }
    ensures past { IfOk result (λ next. next.at ≤ length bytes.now) }
    ensures ok { IfOk result
        (λ next. Goes encoding bytes.now (opened (open_view stack)) at (back (open_view next.stack)) next.at) }
    ensures err { IfErr result
        (λ fault. (fault ≡ TextErr.NoMemory) ⊎ Faults encoding bytes.now (opened (open_view stack)) at fault) }
{
    let frame = match stack.frames.pop() {
        Some(frame) => frame,
        None => return Err(bad_text(at)),
    };
    let end = match end_of_tag(bytes, at + 1, frame.raw.as_slice()) {
        Ok(end) => end,
        Err(fault) => return Err(fault),
    };
    match close(frame, stack) {
        Ok(stack) => Ok(Step { at: end, stack }),
        Err(_) => Err(TextErr::NoMemory),
    }
}

//! The parts of a document: characters, comments, instructions, CDATA sections and tags.

ghost use Rattle.std.specs.Prelude.{◌≡◌, ◌+◌, ◌-◌, ◌<◌, ◌≤◌, [], true, false, length, drop, slice_index, IfOk, IfErr, ◌⊎◌};
ghost use Rattle.pom_grammar.specs.Machine.{OpenElements, within, opened, bang, back, with_text};
ghost use Rattle.pom_grammar.specs.Encodings.{IsText, utf8_of};
ghost use Rattle.pom_grammar.specs.References.{entity_rows, expanded};
ghost use Rattle.pom_text.specs.Scans.{Goes, Faults};
ghost use Rattle.pom_text.specs.Views.{frame_view, open_view, doctype_test};

use crate::elements::{end_tag, start_tag};
use crate::references::{add_plain, add_run};
use crate::scans::{
    cdata_end, is_at, is_name_at, literal_end, mark_end, space_end, stands, text_end,
};
use crate::tree::{Frame, Open, Step, bad_text};
use case_table::Table;
use pom_grammar::{Encoding, TextErr};
use res_base::NoMemory;
use std::alloc::Global;

/// Puts the text of a CDATA section into the element that it is in.
fn add_cdata(
    bytes: &[u8],
    encoding: Encoding,
    mut frame: Frame,
    mut stack: Open,
) -> Result<Open, NoMemory>
    requires { IsText encoding bytes.now }
    ensures { IfOk result
        (λ then. open_view then
        ≡ within (with_text (frame_view frame) (utf8_of encoding bytes.now)) (open_view stack)) }
{
    add_plain(&mut frame.text, bytes, encoding)?;
    stack.frames.push(frame)?;
    Ok(stack)
}

/// A CDATA section, whose second bracket stands here.
fn cdata(bytes: &[u8], at: usize, encoding: Encoding, mut stack: Open) -> Result<Step, TextErr>
    requires within { at < length bytes.now }
    requires is_bracket { slice_index bytes.now at ≡ 91 }
    ensures forth { IfOk result (λ next. at < next.at) }
    ensures past { IfOk result (λ next. next.at ≤ length bytes.now) }
    ensures ok { IfOk result
        (λ next. Goes encoding bytes.now (bang (open_view stack)) at (back (open_view next.stack)) next.at) }
    ensures err { IfErr result
        (λ fault. (fault ≡ TextErr.NoMemory) ⊎ Faults encoding bytes.now (bang (open_view stack)) at fault) }
{
    let frame = match stack.frames.pop() {
        Some(frame) => frame,
        None => return Err(bad_text(at)),
    };
    let start = match literal_end(bytes, at + 1, b"CDATA[") {
        Ok(start) => start,
        Err(fault) => return Err(fault),
    };
    let end = match cdata_end(bytes, start, encoding) {
        Ok(end) => end,
        Err(fault) => return Err(fault),
    };
    match add_cdata(&bytes[start..end], encoding, frame, stack) {
        Ok(stack) => Ok(Step { at: end + 3, stack }),
        Err(_) => Err(TextErr::NoMemory),
    }
}

/// Whether a document type is declared, after `<!`.
fn is_doctype(bytes: &[u8], at: usize, stack: &Open) -> bool
    requires { at ≤ length bytes.now }
    ensures { result ≡ doctype_test (open_view stack.now) (drop at bytes.now) }
{
    if !stack.frames.is_empty() {
        return false;
    }
    match &stack.root {
        Some(_) => false,
        None => stands(bytes, at, b"DOCTYPE"),
    }
}

/// A comment, whose first dash stands here.
fn comment(bytes: &[u8], at: usize, encoding: Encoding) -> Result<usize, TextErr>
    requires within { at < length bytes.now }
    requires is_dash { slice_index bytes.now at ≡ 45 }
    ensures forth { IfOk result (λ end. at < end) }
    ensures past { IfOk result (λ end. end ≤ length bytes.now) }
    ensures ok { IfOk result
        (λ end. (place : OpenElements) → Goes encoding bytes.now (bang place) at (back place) end) }
    ensures err { IfErr result (λ fault. (place : OpenElements) → Faults encoding bytes.now (bang place) at fault) }
{
    if !is_at(bytes, at + 1, b'-') {
        return Err(bad_text(at + 1));
    }
    mark_end(bytes, at + 2, encoding, b'-', 2)
}

/// What begins with `<!`, whose second byte stands here.
fn declared(bytes: &[u8], at: usize, encoding: Encoding, stack: Open) -> Result<Step, TextErr>
    requires within { at < length bytes.now }
    requires after { 0 < at }
    requires is_bang { slice_index bytes.now at ≡ 33 }
    ensures forth { IfOk result (λ next. at < next.at) }
    ensures past { IfOk result (λ next. next.at ≤ length bytes.now) }
    ensures ok { IfOk result
        (λ next. Goes encoding bytes.now (opened (open_view stack)) at (back (open_view next.stack)) next.at) }
    ensures err { IfErr result
        (λ fault. (fault ≡ TextErr.NoMemory) ⊎ Faults encoding bytes.now (opened (open_view stack)) at fault) }
{
    if is_doctype(bytes, at + 1, &stack) {
        return Err(TextErr::Doctype(at as u64 - 1));
    }
    if is_at(bytes, at + 1, b'[') {
        return cdata(bytes, at + 1, encoding, stack);
    }
    if !is_at(bytes, at + 1, b'-') {
        return Err(bad_text(at + 1));
    }
    match comment(bytes, at + 1, encoding) {
        Ok(end) => Ok(Step { at: end, stack }),
        Err(fault) => Err(fault),
    }
}

/// An instruction, whose question mark stands here.
fn instruction(bytes: &[u8], at: usize, encoding: Encoding, stack: Open) -> Result<Step, TextErr>
    requires within { at < length bytes.now }
    requires is_question { slice_index bytes.now at ≡ 63 }
    ensures forth { IfOk result (λ next. at < next.at) }
    ensures past { IfOk result (λ next. next.at ≤ length bytes.now) }
    ensures ok { IfOk result
        (λ next. Goes encoding bytes.now (opened (open_view stack)) at (back (open_view next.stack)) next.at) }
    ensures err { IfErr result
        (λ fault. (fault ≡ TextErr.NoMemory) ⊎ Faults encoding bytes.now (opened (open_view stack)) at fault) }
{
    match mark_end(bytes, at + 1, encoding, b'?', 1) {
        Ok(end) => Ok(Step { at: end, stack }),
        Err(fault) => Err(fault),
    }
}

/// What begins with a bracket, after that.
fn markup(
    alloc: Global,
    bytes: &[u8],
    at: usize,
    encoding: Encoding,
    stack: Open,
) -> Result<Step, TextErr>
    requires within { at ≤ length bytes.now }
    requires after { 0 < at }
    ensures forth { IfOk result (λ next. at < next.at) }
    ensures past { IfOk result (λ next. next.at ≤ length bytes.now) }
    ensures ok { IfOk result
        (λ next. Goes encoding bytes.now (opened (open_view stack)) at (back (open_view next.stack)) next.at) }
    ensures err { IfErr result
        (λ fault. (fault ≡ TextErr.NoMemory) ⊎ Faults encoding bytes.now (opened (open_view stack)) at fault) }
{
    if is_at(bytes, at, b'/') {
        return end_tag(bytes, at, encoding, stack);
    }
    if is_at(bytes, at, b'!') {
        return declared(bytes, at, encoding, stack);
    }
    if is_at(bytes, at, b'?') {
        return instruction(bytes, at, encoding, stack);
    }
    if is_name_at(bytes, at) {
        return start_tag(alloc, bytes, at, encoding, stack);
    }
    Err(bad_text(at))
}

/// White space at the top, and what stands after it.
fn top_part(
    alloc: Global,
    bytes: &[u8],
    at: usize,
    encoding: Encoding,
    stack: Open,
) -> Result<Step, TextErr>
    requires within { at < length bytes.now }
    requires at_top { stack.frames ≡ [] }
    ensures forth { IfOk result (λ next. at < next.at) }
    ensures past { IfOk result (λ next. next.at ≤ length bytes.now) }
    ensures ok { IfOk result
        (λ next. Goes encoding bytes.now (back (open_view stack)) at (back (open_view next.stack)) next.at) }
    ensures err { IfErr result
        (λ fault. (fault ≡ TextErr.NoMemory) ⊎ Faults encoding bytes.now (back (open_view stack)) at fault) }
{
    let end = space_end(bytes, at);
    if is_at(bytes, end, b'<') {
        return markup(alloc, bytes, end + 1, encoding, stack);
    }
    if end < bytes.len() {
        return Err(bad_text(end));
    }
    Ok(Step { at: end, stack })
}

/// Puts a run of characters into the element that it is in.
fn add_text(
    entities: &Table<char>,
    run: &[u8],
    encoding: Encoding,
    mut frame: Frame,
    mut stack: Open,
) -> Result<Open, NoMemory>
    requires is_text { IsText encoding run.now }
    requires table { entities.now ≡ entity_rows }
    ensures { IfOk result
        (λ then. open_view then ≡ within (with_text (frame_view frame) (expanded encoding run.now)) (open_view stack)) }
{
    add_run(entities, &mut frame.text, run, encoding)?;
    stack.frames.push(frame)?;
    Ok(stack)
}

/// Characters in an element, and what stands after them.
fn inner_part(
    alloc: Global,
    entities: &Table<char>,
    bytes: &[u8],
    at: usize,
    encoding: Encoding,
    frame: Frame,
    stack: Open,
) -> Result<Step, TextErr>
    requires within { at ≤ length bytes.now }
    requires table { entities.now ≡ entity_rows }
    ensures forth { IfOk result (λ next. at < next.at) }
    ensures past { IfOk result (λ next. next.at ≤ length bytes.now) }
    ensures ok { IfOk result
        (λ next. Goes encoding bytes.now (back (within (frame_view frame) (open_view stack))) at
        (back (open_view next.stack)) next.at) }
    ensures err { IfErr result
        (λ fault. (fault ≡ TextErr.NoMemory)
        ⊎ Faults encoding bytes.now (back (within (frame_view frame) (open_view stack))) at fault) }
{
    let end = match text_end(bytes, at, encoding) {
        Ok(end) => end,
        Err(fault) => return Err(fault),
    };
    let then = match add_text(entities, &bytes[at..end], encoding, frame, stack) {
        Ok(then) => then,
        Err(_) => return Err(TextErr::NoMemory),
    };
    markup(alloc, bytes, end + 1, encoding, then)
}

/// A run of characters and what stands after it.
pub(crate) fn part(
    alloc: Global,
    entities: &Table<char>,
    bytes: &[u8],
    at: usize,
    encoding: Encoding,
    mut stack: Open,
) -> Result<Step, TextErr>
    requires within { at < length bytes.now }
    requires table { entities.now ≡ entity_rows }
    ensures forth { IfOk result (λ next. at < next.at) }
    ensures past { IfOk result (λ next. next.at ≤ length bytes.now) }
    ensures ok { IfOk result
        (λ next. Goes encoding bytes.now (back (open_view stack)) at (back (open_view next.stack)) next.at) }
    ensures err { IfErr result
        (λ fault. (fault ≡ TextErr.NoMemory) ⊎ Faults encoding bytes.now (back (open_view stack)) at fault) }
{
    match stack.frames.pop() {
        None => top_part(alloc, bytes, at, encoding, stack),
        Some(frame) => inner_part(alloc, entities, bytes, at, encoding, frame, stack),
    }
}

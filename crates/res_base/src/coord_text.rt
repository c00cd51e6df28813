//! Coordinates in text.
ghost use Rattle.std.specs.Prelude.{◌≡◌, ℕ, ◌+◌, ◌<◌, [], Some, None, length, take, drop, slice_range, slice_index, IfOk, IfErr, IsErrOf};
ghost use Rattle.ascii_bytes.specs.Signs.{colon};
ghost use Rattle.fault_place.specs.Place.{IsPlace};
ghost use Rattle.fault_place.specs.Reader.{At, Accepts};
ghost use Rattle.res_base.specs.CoordText.{is_constraint_byte, IsCoordText};
ghost use Rattle.res_base.specs.Builders.{coord_of};
ghost use Rattle.res_base.specs.CoordReader.{coord_in, coord_reader, in_name, in_constraint};

use crate::plain::is_plain_name;
use crate::{Coord, Module, NoMemory, Text};
use ascii_bytes::{is_plain_byte, is_word_byte};
use std::alloc::Global;

/// Why a text gave no coordinate.
#[derive(Clone, Copy, Debug, PartialEq, Eq, Drop)]
pub enum CoordErr {
    /// The text is not one. The place is the length of its longest prefix that begins one.
    BadCoord(usize),
    NoMemory,
}

impl From<NoMemory> for CoordErr {
    ghost use Rattle.res_base.specs.declared.coord_text.CoordErr.TheVariants.{NoMemory};

    ghost from_gives = { λ _ e. e ≡ NoMemory };

    fn from(_: NoMemory) -> CoordErr {
        CoordErr::NoMemory
    }
}

fn is_constraint_byte(byte: u8) -> bool
    ensures { result ≡ is_constraint_byte byte }
{
    is_plain_byte(byte) || matches!(byte, b'[' | b']' | b'(' | b')' | b',')
}

/// The place of the colon after the org, or the place where the text leaves the grammar.
fn org_end(text: &[u8]) -> Result<usize, usize>
    ensures colon { IfOk result (λ i. slice_index text.now i ≡ colon) }
    ensures within { IfOk result (λ i. i < length text.now) }
    ensures found { IfOk result (λ i. At coord_reader (in_name (take i text.now) []) (take (i + 1) text.now)) }
    ensures refused { IfErr result (IsPlace (Accepts IsCoordText) text.now) }
{
    let mut in_part = false;
    for (i, byte) in text.iter().enumerate() {
        if is_word_byte(*byte) {
            in_part = true;
        } else if *byte == b'.' && in_part {
            in_part = false;
        } else if *byte == b':' && in_part {
            return Ok(i);
        } else {
            return Err(i);
        }
    }
    Err(text.len())
}

/// The place of the colon after the name, likewise.
fn name_end(text: &[u8], first: usize) -> Result<usize, usize>
    requires within { first < length text.now }
    requires begun { At coord_reader (in_name (take first text.now) []) (take (first + 1) text.now) }
    ensures colon { IfOk result (λ j. slice_index text.now j ≡ colon) }
    ensures after { IfOk result (λ j. first < j) }
    ensures within { IfOk result (λ j. j < length text.now) }
    ensures found { IfOk result (λ j. let name = slice_range text.now (first + 1) j in
        At coord_reader (in_constraint (take first text.now) name []) (take (j + 1) text.now)) }
    ensures refused { IfErr result (IsPlace (Accepts IsCoordText) text.now) }
{
    for j in first + 1..text.len() {
        let byte = text[j];
        if !is_plain_byte(byte) {
            if byte != b':' {
                return Err(j);
            }
            if !is_plain_name(&text[first + 1..j]) {
                return Err(j);
            }
            return Ok(j);
        }
    }
    Err(text.len())
}

/// Whether the rest is a constraint text; else the place where the text leaves the grammar.
fn constraint_end(text: &[u8], first: usize, second: usize) -> Result<(), usize>
    requires within { second < length text.now }
    requires begun { let name = slice_range text.now (first + 1) second in
        At coord_reader (in_constraint (take first text.now) name []) (take (second + 1) text.now) }
    ensures found { IfOk result (λ _. let name = slice_range text.now (first + 1) second in
        IsCoordText text.now (coord_of (take first text.now) name (drop (second + 1) text.now))) }
    ensures refused { IfErr result (IsPlace (Accepts IsCoordText) text.now) }
{
    for k in second + 1..text.len() {
        if !is_constraint_byte(text[k]) {
            return Err(k);
        }
    }
    if second + 1 == text.len() {
        return Err(text.len());
    }
    Ok(())
}

/// Reads `ORG:NAME:CONSTRAINT`: a plain org, a plain name, and one or more plain bytes or signs of
/// intervals, which become the version.
pub fn parse_coord(alloc: Global, text: &str) -> Result<Coord, CoordErr>
    ensures read { IfOk result (IsCoordText text.now) }
    ensures value { IfOk result (λ coord. coord_in text.now ≡ Some coord) }
    ensures none { (n : ℕ) → IsErrOf result (CoordErr.BadCoord n) → coord_in text.now ≡ None }
    ensures refused { (n : ℕ) → IsErrOf result (CoordErr.BadCoord n) → IsPlace (Accepts IsCoordText) text.now n }
{
    let bytes = text.as_bytes();
    let first = match org_end(bytes) {
        Ok(at) => at,
        Err(place) => return Err(CoordErr::BadCoord(place)),
    };
    let second = match name_end(bytes, first) {
        Ok(at) => at,
        Err(place) => return Err(CoordErr::BadCoord(place)),
    };
    if let Err(place) = constraint_end(bytes, first, second) {
        return Err(CoordErr::BadCoord(place));
    }
    let org = &text[..first];
    let name = &text[first + 1..second];
    let version = &text[second + 1..];
    Ok(Coord {
        module: Module {
            org: Text::of(alloc, org)?,
            name: Text::of(alloc, name)?,
        },
        version: Text::of(alloc, version)?,
    })
}

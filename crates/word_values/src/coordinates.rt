//! Coordinates in words.
ghost use Rattle.std.specs.Prelude.{◌≡◌, IfOk};
ghost use Rattle.std.specs.List.{list_any};
ghost use Rattle.res_base.specs.CoordReader.{coord_in};
ghost use Rattle.res_base.specs.Names.{coord_eq};
ghost use Rattle.version_order.specs.Refusals.{constraint_in};
ghost use Rattle.word_values.specs.Coordinates.{bom_in, forced_in, has_module, is_preferred, is_constraint, root_in};

use crate::members::Members;
use res_base::{Coord, CoordErr, List, Module, NoMemory, is_plain, parse_coord};
use std::alloc::Global;
use version_order::{Constraint, ConstraintErr, read_constraint};

// The coordinate that a text spells.
fn read_coord(alloc: Global, text: &str) -> Result<Option<Coord>, NoMemory>
    ensures { IfOk result (λ coord. coord ≡ coord_in text.now) }
{
    match parse_coord(alloc, text) {
        Ok(coord) => Ok(Some(coord)),
        Err(CoordErr::BadCoord(_)) => Ok(None),
        Err(CoordErr::NoMemory) => Err(NoMemory),
    }
}

// The constraint that a text spells.
fn constraint_of(alloc: Global, text: &str) -> Result<Option<Constraint>, NoMemory>
    ensures { IfOk result (λ constraint. constraint ≡ constraint_in text.now) }
{
    match read_constraint(alloc, text) {
        Ok(constraint) => Ok(Some(constraint)),
        Err(ConstraintErr::BadConstraint(_)) => Ok(None),
        Err(ConstraintErr::NoMemory) => Err(NoMemory),
    }
}

// Whether a text is a constraint.
fn is_constraint(alloc: Global, text: &str) -> Result<bool, NoMemory>
    ensures { IfOk result (λ yes. yes ≡ is_constraint text.now) }
{
    Ok(constraint_of(alloc, text)?.is_some())
}

// Whether a text asks for one version by preference.
fn is_preferred(alloc: Global, text: &str) -> Result<bool, NoMemory>
    ensures { IfOk result (λ yes. yes ≡ is_preferred text.now) }
{
    match constraint_of(alloc, text)? {
        Some(Constraint::Plain(_)) => Ok(true),
        Some(Constraint::Any | Constraint::Within(_)) => Ok(false),
        None => Ok(false),
    }
}

fn has_module(coords: &[Coord], module: &Module) -> bool
    ensures { result ≡ has_module coords.now «module».now }
{
    coords.iter().any(|coord| coord.module == *module)
}

fn has_coord(coords: &[Coord], coord: &Coord) -> bool
    ensures { result ≡ list_any (λ other. coord_eq other coord.now) coords.now }
{
    coords.iter().any(|other| *other == *coord)
}

/// Forced versions: each of one version, no module twice.
pub(crate) struct Forced;

impl Members for Forced {
    type Item = Coord;

    ghost reads = { forced_in };

    fn read(
        alloc: Global,
        before: &List<Coord>,
        text: &str,
        _is_last: bool,
    ) -> Result<Option<Coord>, NoMemory> {
        let Some(coord) = read_coord(alloc, text)? else {
            return Ok(None);
        };
        if !is_preferred(alloc, coord.version.as_str())? {
            return Ok(None);
        }
        if has_module(before.as_slice(), &coord.module) {
            return Ok(None);
        }
        Ok(Some(coord))
    }
}

/// BOMs: plain coordinates, each of one version, none twice.
pub(crate) struct Boms;

impl Members for Boms {
    type Item = Coord;

    ghost reads = { bom_in };

    fn read(
        alloc: Global,
        before: &List<Coord>,
        text: &str,
        _is_last: bool,
    ) -> Result<Option<Coord>, NoMemory> {
        let Some(coord) = read_coord(alloc, text)? else {
            return Ok(None);
        };
        if !is_plain(&coord) || !is_preferred(alloc, coord.version.as_str())? {
            return Ok(None);
        }
        if has_coord(before.as_slice(), &coord) {
            return Ok(None);
        }
        Ok(Some(coord))
    }
}

/// Roots: coordinates whose version is a constraint.
pub(crate) struct Roots;

impl Members for Roots {
    type Item = Coord;

    ghost reads = { root_in };

    fn read(
        alloc: Global,
        _before: &List<Coord>,
        text: &str,
        _is_last: bool,
    ) -> Result<Option<Coord>, NoMemory> {
        let Some(coord) = read_coord(alloc, text)? else {
            return Ok(None);
        };
        if is_constraint(alloc, coord.version.as_str())? {
            Ok(Some(coord))
        } else {
            Ok(None)
        }
    }
}

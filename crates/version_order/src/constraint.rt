//! What a request asks of a version, read from its text.
ghost use Rattle.std.specs.Prelude.{◌≡◌, ◌↔◌, ℕ, List, Some, true, slice_range, IfOk, IfErr};
ghost use Rattle.std.specs.List.{list_all};
ghost use Rattle.ascii_bytes.specs.Classes.{is_plain_byte};
ghost use Rattle.version_order.specs.Constraints.{end_of, trimmed, IsConstraint};
ghost use Rattle.version_order.specs.Refusals.{IsRefusal, IsAnswer, constraint_in};
ghost use Rattle.version_order.specs.declared.constraint.Constraint.{Constraint};
ghost use Rattle.version_order.specs.Shapes.{bound_in, IsSound, constraint_of, IsSoundShape};

use super::shape::{Bound, Shape, shape_of};
use super::version::Version;
use ascii_bytes::{White, trim_end, trim_start};
use interval_sets::{End, Interval, NoMemory};
use std::alloc::Global;
use std::str;

/// What a request asks of a version.
#[derive(Debug, Drop)]
pub enum Constraint {
    /// Any version.
    Any,
    /// That version by preference.
    Plain(Version),
    /// A version in that interval.
    Within(Interval<Version>),
}

/// Why a constraint was not read.
#[derive(Clone, Copy, Debug, PartialEq, Eq)]
pub enum ConstraintErr {
    /// The text is no constraint. The number counts the bytes, after the white space at the
    /// start, that still begin some constraint.
    BadConstraint(usize),
    NoMemory,
}

impl From<NoMemory> for ConstraintErr {
    ghost use Rattle.version_order.specs.declared.constraint.ConstraintErr.TheVariants.{NoMemory as OutOfMemory};

    ghost from_gives = { λ _ e. e ≡ OutOfMemory };

    fn from(_: NoMemory) -> ConstraintErr {
        ConstraintErr::NoMemory
    }
}

fn version_of(alloc: Global, bytes: &[u8]) -> Result<Version, NoMemory>
    requires { list_all is_plain_byte bytes.now ≡ true }
    ensures { IfOk result (λ version. version ≡ bytes.now) }
{
    match str::from_utf8(bytes) {
        Ok(text) => Version::read(alloc, text),
        Err(_) => unreachable!(),
    }
}

fn end_of(alloc: Global, bytes: &[u8], square: bool, bound: Bound) -> Result<End<Version>, NoMemory>
    requires { IsSound bytes.now bound }
    ensures { IfOk result (λ made. made ≡ end_of square (bound_in bytes.now bound)) }
{
    if bound.start == bound.end {
        return Ok(End::Free);
    }
    let version = version_of(alloc, &bytes[bound.start..bound.end])?;
    if square {
        Ok(End::With(version))
    } else {
        Ok(End::Without(version))
    }
}

fn build(alloc: Global, bytes: &[u8], shape: Shape) -> Result<Constraint, NoMemory>
    requires { IsSoundShape bytes.now shape }
    ensures { IfOk result (λ made. made ≡ constraint_of bytes.now shape) }
{
    match shape {
        Shape::Any => Ok(Constraint::Any),
        Shape::Plain => Ok(Constraint::Plain(version_of(alloc, bytes)?)),
        Shape::Single(bound) => {
            let bound = &bytes[bound.start..bound.end];
            let lower = End::With(version_of(alloc, bound)?);
            let upper = End::With(version_of(alloc, bound)?);
            Ok(Constraint::Within(Interval { lower, upper }))
        }
        Shape::Pair(square, low, high, square_end) => {
            let lower = end_of(alloc, bytes, square, low)?;
            let upper = end_of(alloc, bytes, square_end, high)?;
            Ok(Constraint::Within(Interval { lower, upper }))
        }
    }
}

/// Reads a constraint, in time in proportion to the length of its text. White space (space, tab,
/// line feed, carriage return) is cut at both ends first.
///
/// - No text is `Any`.
/// - `[` or `(`, an optional bound, `,`, an optional bound, `]` or `)` is an interval: a square
///   bracket includes its bound, a round one does not, and an absent bound is free.
/// - `[`, a bound, `]` is the interval of that bound alone.
/// - One or more of `A-Z a-z 0-9 . _ - +` is a plain version, unless it ends in `+` or is one of
///   `latest.release`, `latest.integration`, `LATEST`, `RELEASE`.
///
/// A bound is one or more of the characters of a plain version, with spaces and tabs around it.
pub fn read_constraint(alloc: Global, text: &str) -> Result<Constraint, ConstraintErr>
    ensures read { IfOk result (IsConstraint (trimmed text.now)) }
    ensures refused { IfErr result (IsRefusal (trimmed text.now)) }
    ensures answer { IsAnswer (constraint_in text.now) result }
{
    let bytes = trim_start::<White>(trim_end::<White>(text.as_bytes()));
    match shape_of(bytes) {
        Ok(shape) => match build(alloc, bytes, shape) {
            Ok(value) => Ok(value),
            Err(NoMemory) => Err(ConstraintErr::NoMemory),
        },
        Err(place) => Err(ConstraintErr::BadConstraint(place)),
    }
}

/// A law, with nothing to run: a text reads as at most one constraint, and `constraint_in` is a
/// function that gives it.
pub fn readings()
    ensures { (text : List ℕ) (value : Constraint) →
        (constraint_in text ≡ Some value) ↔ IsConstraint (trimmed text) value }
{}

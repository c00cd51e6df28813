//! Intervals of versions.
//!
//! - `meet H H H`: two constraint texts that are intervals, and a version. `none` where the ends of
//!   what both hold cross; else `yes` or `no`, whether the version is in both.
//! - `holds H H`: an interval's text and a version. `inside`, `below` or `above`, or `both` where
//!   the version is on the outer side of both ends; then `empty` or `some`, for the interval.
ghost use Rattle.std.specs.Prelude.{◌≡◌, ◌∷◌, ◌++◌, if◌then◌else◌, IfOk, codes, string_bytes};
ghost use Rattle.interval_sets.specs.Intervals.{is_above, is_below, is_empty};
ghost use Rattle.version_order.specs.Ranks.{items_cmp};
ghost use Rattle.value_cases.specs.Versions.{side_word as side_word_of};

use crate::versions::version_of;
use case_words::case_error::CaseError;
use case_words::hex_word::text_of;
use case_words::lines::yes_or_no;
use interval_sets::Interval;
use std::alloc::{AllocError, Global};
use version_order::{Constraint, ConstraintErr, Version, read_constraint};

fn interval_of(alloc: Global, word: &str) -> Result<Interval<Version>, CaseError> {
    let text = text_of(alloc, word)?;
    match read_constraint(alloc, text.as_str()) {
        Ok(Constraint::Within(interval)) => Ok(interval),
        Ok(_) => Err(CaseError::OutOfForm),
        Err(ConstraintErr::BadConstraint(_)) => Err(CaseError::OutOfForm),
        Err(ConstraintErr::NoMemory) => Err(CaseError::NoMemory),
    }
}

pub fn meet(alloc: Global, fields: &[&str]) -> Result<String, CaseError> {
    let [one, other, version] = fields else {
        return Err(CaseError::OutOfForm);
    };
    let one = interval_of(alloc, one)?;
    let other = interval_of(alloc, other)?;
    let version = version_of(alloc, version)?;
    match one.meet(alloc, &other)? {
        None => Ok(String::from_str(alloc, "none")?),
        Some(met) => Ok(yes_or_no(alloc, met.holds(&version))?),
    }
}

fn side_word(below: bool, above: bool) -> &'static str
    ensures { result.now ≡ side_word_of below above }
{
    match (below, above) {
        (true, true) => "both",
        (true, false) => "below",
        (false, true) => "above",
        (false, false) => "inside",
    }
}

fn holds_line(
    alloc: Global,
    interval: &Interval<Version>,
    version: &Version,
) -> Result<String, AllocError>
    ensures { IfOk result (λ line. string_bytes line ≡ side_word_of (is_below items_cmp interval.now version.now) (is_above items_cmp interval.now version.now) ++ 32 ∷ (if is_empty items_cmp interval.now then codes "empty" else codes "some")) }
{
    let side = side_word(interval.below(version), interval.above(version));
    let size = if interval.is_empty() { "empty" } else { "some" };
    format!(in alloc; "{side} {size}")
}

pub fn holds(alloc: Global, fields: &[&str]) -> Result<String, CaseError> {
    let [interval, version] = fields else {
        return Err(CaseError::OutOfForm);
    };
    let interval = interval_of(alloc, interval)?;
    let version = version_of(alloc, version)?;
    Ok(holds_line(alloc, &interval, &version)?)
}

//! Versions and constraints.
//!
//! - `version H H`: `ITEMS FULL SERIES`, the order by items and the full order of the two versions,
//!   each `lt`, `eq` or `gt`, and `yes` or `no` for the same series.
//! - `constraint H`: `any`, `plain H`, `within LOWER UPPER` or `bad N`, for the constraint in a text.
//!   LOWER and UPPER are `free`, `with:H` or `without:H`.
ghost use Rattle.std.specs.Prelude.{◌≡◌, IfOk, string_bytes};
ghost use Rattle.case_words.specs.HexWord.{hex_word as hex_word_of};
ghost use Rattle.value_cases.specs.Versions.{constraint_line as constraint_line_of, end_word as end_word_of, order_word as order_word_of, version_line as version_line_of};

use case_words::case_error::CaseError;
use case_words::hex_word::{hex_word, text_of};
use case_words::lines::bad_line;
use interval_sets::End;
use std::alloc::{AllocError, Global};
use std::cmp::Ordering;
use version_order::{Constraint, ConstraintErr, Version, read_constraint};

/// The version whose word this is.
pub fn version_of(alloc: Global, word: &str) -> Result<Version, CaseError>
    ensures { IfOk result (λ version. hex_word_of version ≡ word.now) }
{
    let text = text_of(alloc, word)?;
    Ok(Version::read(alloc, text.as_str())?)
}

fn order_word(order: Ordering) -> &'static str
    ensures { result.now ≡ order_word_of order }
{
    match order {
        Ordering::Less => "lt",
        Ordering::Equal => "eq",
        Ordering::Greater => "gt",
    }
}

fn version_line(alloc: Global, one: &Version, other: &Version) -> Result<String, AllocError>
    ensures { IfOk result (λ line. string_bytes line ≡ version_line_of one.now other.now) }
{
    let items = order_word(one.cmp_items(other));
    let full = order_word(one.cmp_full(other));
    let series = if one.same_series(other) { "yes" } else { "no" };
    format!(in alloc; "{items} {full} {series}")
}

pub fn version(alloc: Global, fields: &[&str]) -> Result<String, CaseError> {
    let [one, other] = fields else {
        return Err(CaseError::OutOfForm);
    };
    let one = version_of(alloc, one)?;
    let other = version_of(alloc, other)?;
    Ok(version_line(alloc, &one, &other)?)
}

fn end_word(alloc: Global, end: &End<Version>) -> Result<String, AllocError>
    ensures { IfOk result (λ word. string_bytes word ≡ end_word_of end.now) }
{
    match end {
        End::Free => String::from_str(alloc, "free"),
        End::With(version) => {
            let version = hex_word(alloc, version.text().as_bytes())?;
            format!(in alloc; "with:{version}")
        }
        End::Without(version) => {
            let version = hex_word(alloc, version.text().as_bytes())?;
            format!(in alloc; "without:{version}")
        }
    }
}

fn constraint_line(alloc: Global, constraint: &Constraint) -> Result<String, AllocError>
    ensures { IfOk result (λ line. string_bytes line ≡ constraint_line_of constraint.now) }
{
    match constraint {
        Constraint::Any => String::from_str(alloc, "any"),
        Constraint::Plain(version) => {
            let version = hex_word(alloc, version.text().as_bytes())?;
            format!(in alloc; "plain {version}")
        }
        Constraint::Within(interval) => {
            let lower = end_word(alloc, &interval.lower)?;
            let upper = end_word(alloc, &interval.upper)?;
            format!(in alloc; "within {lower} {upper}")
        }
    }
}

pub fn constraint(alloc: Global, fields: &[&str]) -> Result<String, CaseError> {
    let [text] = fields else {
        return Err(CaseError::OutOfForm);
    };
    let text = text_of(alloc, text)?;
    match read_constraint(alloc, text.as_str()) {
        Ok(constraint) => Ok(constraint_line(alloc, &constraint)?),
        Err(ConstraintErr::BadConstraint(place)) => Ok(bad_line(alloc, place)?),
        Err(ConstraintErr::NoMemory) => Err(CaseError::NoMemory),
    }
}

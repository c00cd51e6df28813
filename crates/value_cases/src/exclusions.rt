//! Sets of exclusions.
//!
//! - `excludes SET MODULE`: `yes` or `no`.
//! - `within SET SET`: `yes` or `no`, whether each rule of the first is covered by one rule of the
//!   second.
//! - `antichain SET..`: the sets are added in turn. For each `added`, or `covered:K` with the place
//!   of the first kept set that is within it; then the kept sets at the end.
ghost use Rattle.std.specs.Prelude.{◌≡◌, IfOk, string_bytes};
ghost use Rattle.value_cases.specs.Exclusions.{added_word as added_word_of};

use case_words::case_error::CaseError;
use case_words::lines::yes_or_no;
use case_words::names::{module_of, set_of, set_word};
use case_words::words::joined;
use exclusion_sets::{Added, Antichain};
use std::alloc::{AllocError, Global};

pub fn excludes(alloc: Global, fields: &[&str]) -> Result<String, CaseError> {
    let [set, module] = fields else {
        return Err(CaseError::OutOfForm);
    };
    let set = set_of(alloc, set)?;
    let module = module_of(alloc, module)?;
    Ok(yes_or_no(alloc, set.excludes(&module))?)
}

pub fn within(alloc: Global, fields: &[&str]) -> Result<String, CaseError> {
    let [one, other] = fields else {
        return Err(CaseError::OutOfForm);
    };
    let one = set_of(alloc, one)?;
    let other = set_of(alloc, other)?;
    Ok(yes_or_no(alloc, one.within(&other))?)
}

fn added_word(alloc: Global, added: Added) -> Result<String, AllocError>
    ensures { IfOk result (λ word. string_bytes word ≡ added_word_of added) }
{
    match added {
        Added::Added => String::from_str(alloc, "added"),
        Added::Covered(place) => format!(in alloc; "covered:{place}"),
    }
}

pub fn antichain(alloc: Global, fields: &[&str]) -> Result<String, CaseError> {
    let mut kept = Antichain::new(alloc);
    let mut words = Vec::new(alloc);
    for field in fields {
        let set = set_of(alloc, field)?;
        kept.add_room()?;
        words.push(added_word(alloc, kept.add(set))?)?;
    }
    for set in kept.sets.as_slice() {
        words.push(set_word(alloc, set)?)?;
    }
    Ok(joined(alloc, words.as_slice(), " ")?)
}

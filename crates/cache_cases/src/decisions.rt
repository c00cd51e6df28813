//! Decisions.
//!
//! - `decide MODE CHANGING FOUND CHECKS MOMENT TTL`: `use`, `ask` or `unavailable`. MODE is
//!   `missing`, `offline` or `refresh`; CHANGING is `yes` or `no`; FOUND is `whole:CHECKS:MOMENT`,
//!   `gone:MOMENT`, `nothing` or `broken`.
use crate::checks::checks_of;
use cache_layout::{Found, Measured, Record};
use cache_policy::{Decision, Mode};
use case_words::case_error::CaseError;
use case_words::words::pieces_of;
use std::alloc::Global;

fn mode_of(word: &str) -> Result<Mode, CaseError> {
    match word {
        "missing" => Ok(Mode::Missing),
        "offline" => Ok(Mode::Offline),
        "refresh" => Ok(Mode::Refresh),
        _ => Err(CaseError::OutOfForm),
    }
}

fn number_of(word: &str) -> Result<u64, CaseError> {
    match word.parse::<u64>() {
        Ok(number) => Ok(number),
        Err(_) => Err(CaseError::OutOfForm),
    }
}

fn is_yes(word: &str) -> Result<bool, CaseError> {
    match word {
        "yes" => Ok(true),
        "no" => Ok(false),
        _ => Err(CaseError::OutOfForm),
    }
}

/// Data with a record; its digests and length matter to no decision.
fn whole(alloc: Global, checks: &str, moment: &str) -> Result<Found, CaseError> {
    let checks = checks_of(alloc, checks)?;
    let moment = number_of(moment)?;
    let entry = Record {
        checks,
        sha1: [0; 20],
        sha256: None,
        length: 0,
        moment,
    };
    Ok(Found::Whole(entry))
}

fn broken() -> Found {
    let got = Measured {
        sha1: [0; 20],
        sha256: None,
        length: 0,
    };
    Found::Broken { wanted: None, got }
}

fn found_of(alloc: Global, word: &str) -> Result<Found, CaseError> {
    let pieces = pieces_of(alloc, word, ':')?;
    match pieces.as_slice() {
        ["whole", checks, moment] => whole(alloc, checks, moment),
        ["gone", moment] => Ok(Found::Gone(number_of(moment)?)),
        ["nothing"] => Ok(Found::Nothing),
        ["broken"] => Ok(broken()),
        _ => Err(CaseError::OutOfForm),
    }
}

pub fn decide(alloc: Global, fields: &[&str]) -> Result<String, CaseError> {
    let [mode, changing, found, checks, moment, ttl] = fields else {
        return Err(CaseError::OutOfForm);
    };
    let mode = mode_of(mode)?;
    let changing = is_yes(changing)?;
    let found = found_of(alloc, found)?;
    let checks = checks_of(alloc, checks)?;
    let moment = number_of(moment)?;
    let ttl = number_of(ttl)?;
    let word = match cache_policy::decide(mode, changing, &found, &checks, moment, ttl) {
        Decision::Use => "use",
        Decision::Ask => "ask",
        Decision::Unavailable => "unavailable",
    };
    Ok(String::from_str(alloc, word)?)
}

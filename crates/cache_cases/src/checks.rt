//! Lists of checks in words: their names, joined by a vertical bar, or `-` for none.
use case_words::case_error::CaseError;
use case_words::words::{joined, pieces_of};
use res_base::{Check, List};
use std::alloc::{AllocError, Global};

fn check_of(word: &str) -> Option<Check> {
    match word {
        "sha1" => Some(Check::Sha1),
        "md5" => Some(Check::Md5),
        "sha256" => Some(Check::Sha256),
        "none" => Some(Check::NoCheck),
        _ => None,
    }
}

pub fn checks_of(alloc: Global, word: &str) -> Result<List<Check>, CaseError> {
    let mut checks = List::new(alloc);
    if word == "-" {
        return Ok(checks);
    }
    for piece in pieces_of(alloc, word, '|')?.as_slice() {
        let Some(check) = check_of(piece) else {
            return Err(CaseError::OutOfForm);
        };
        checks.push(check)?;
    }
    Ok(checks)
}

fn check_word(alloc: Global, check: Check) -> Result<String, AllocError> {
    let word = match check {
        Check::Sha1 => "sha1",
        Check::Md5 => "md5",
        Check::Sha256 => "sha256",
        Check::NoCheck => "none",
    };
    String::from_str(alloc, word)
}

pub fn checks_word(alloc: Global, checks: &[Check]) -> Result<String, AllocError> {
    if checks.is_empty() {
        return String::from_str(alloc, "-");
    }
    let mut words = Vec::new(alloc);
    for check in checks {
        words.push(check_word(alloc, *check)?)?;
    }
    joined(alloc, words.as_slice(), "|")
}

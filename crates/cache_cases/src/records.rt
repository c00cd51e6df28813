//! Lines of records and of absence records.
//!
//! - `record H`: `ok CHECKS SHA1 SHA256 LENGTH MOMENT`, where SHA256 is `none` in format 1; or
//!   `bad N`.
//! - `record-line CHECKS SHA1 SHA256 LENGTH MOMENT`: the line, as H.
//! - `gone H`: `ok MOMENT` or `bad N`.
//! - `gone-line MOMENT`: the line, as H.
use crate::checks::{checks_of, checks_word};
use cache_layout::{Record, RecordErr};
use case_words::case_error::CaseError;
use case_words::hex_word::{bytes_of, hex_word};
use std::alloc::{AllocError, Global};

fn sha256_word(alloc: Global, sha256: &Option<[u8; 32]>) -> Result<String, AllocError> {
    match sha256 {
        None => String::from_str(alloc, "none"),
        Some(digest) => hex::encode(alloc, *digest),
    }
}

fn record_words(alloc: Global, entry: &Record) -> Result<String, AllocError> {
    let checks = checks_word(alloc, entry.checks.as_slice())?;
    let sha1 = hex::encode(alloc, entry.sha1)?;
    let sha256 = sha256_word(alloc, &entry.sha256)?;
    let length = entry.length;
    let moment = entry.moment;
    format!(in alloc; "ok {checks} {sha1} {sha256} {length} {moment}")
}

pub fn record(alloc: Global, fields: &[&str]) -> Result<String, CaseError> {
    let [line] = fields else {
        return Err(CaseError::OutOfForm);
    };
    let line = bytes_of(alloc, line)?;
    match cache_layout::read_record(alloc, line.as_slice()) {
        Ok(entry) => Ok(record_words(alloc, &entry)?),
        Err(RecordErr::BadLine(place)) => Ok(format!(in alloc; "bad {place}")?),
        Err(RecordErr::NoMemory) => Err(CaseError::NoMemory),
    }
}

fn number_of(word: &str) -> Result<u64, CaseError> {
    match word.parse::<u64>() {
        Ok(number) => Ok(number),
        Err(_) => Err(CaseError::OutOfForm),
    }
}

fn digest_of<const N: usize>(word: &str) -> Result<[u8; N], CaseError> {
    let mut digest = [0; N];
    match hex::decode_to_slice(word, &mut digest) {
        Ok(()) => Ok(digest),
        Err(_) => Err(CaseError::OutOfForm),
    }
}

fn sha256_of(word: &str) -> Result<Option<[u8; 32]>, CaseError> {
    if word == "none" {
        return Ok(None);
    }
    let digest = digest_of::<32>(word)?;
    Ok(Some(digest))
}

pub fn record_line(alloc: Global, fields: &[&str]) -> Result<String, CaseError> {
    let [checks, sha1, sha256, length, moment] = fields else {
        return Err(CaseError::OutOfForm);
    };
    let checks = checks_of(alloc, checks)?;
    let sha1 = digest_of::<20>(sha1)?;
    let sha256 = sha256_of(sha256)?;
    let length = number_of(length)?;
    let moment = number_of(moment)?;
    let entry = Record {
        checks,
        sha1,
        sha256,
        length,
        moment,
    };
    let line = cache_layout::record_line(alloc, &entry)?;
    Ok(hex_word(alloc, line.as_bytes())?)
}

pub fn gone(alloc: Global, fields: &[&str]) -> Result<String, CaseError> {
    let [line] = fields else {
        return Err(CaseError::OutOfForm);
    };
    let line = bytes_of(alloc, line)?;
    match cache_layout::read_gone(line.as_slice()) {
        Ok(moment) => Ok(format!(in alloc; "ok {moment}")?),
        Err(refusal) => {
            let place = refusal.0;
            Ok(format!(in alloc; "bad {place}")?)
        }
    }
}

pub fn gone_line(alloc: Global, fields: &[&str]) -> Result<String, CaseError> {
    let [moment] = fields else {
        return Err(CaseError::OutOfForm);
    };
    let moment = number_of(moment)?;
    let line = cache_layout::gone_line(alloc, moment)?;
    Ok(hex_word(alloc, line.as_bytes())?)
}

//! Lines of records.
ghost use Rattle.std.specs.Prelude.{◌≡◌, ◌≢◌, ◌↔◌, ◌+◌, ◌++◌, ◌<◌, ◌^◌, Some, None, IfErr, IfNone, IfOk, IfSome, IsErrOf, List, OnOk, ℕ, false, max, true};
ghost use Rattle.cache_layout.specs.declared.record.Record.{Record};
ghost use Rattle.fault_place.specs.Place.{IsPlace};
ghost use Rattle.fault_place.specs.Reader.{Accepts};
ghost use Rattle.cache_layout.specs.Fields.{IsDigestsText, IsEndText, IsFieldsText, IsLengthText, format_head, moved, record_from};
ghost use Rattle.cache_layout.specs.Lines.{IsDigest, IsRecordLine, head_text, sha256_text};
ghost use Rattle.cache_layout.specs.Places.{common};
ghost use Rattle.cache_layout.specs.Readings.{record_in};

use crate::checks::{checks_text, read_checks};
use crate::digests::{digest_text, read_digest};
use crate::errors::RecordErr;
use crate::gone::read_moment;
use crate::numbers::read_number;
use crate::pieces::{behind, common, part};
use crate::record::Record;
use res_base::{Check, List, NoMemory, Text};
use std::alloc::Global;

/// How a line begins, by its format.
fn head_text(sha256: &Option<[u8; 32]>) -> &'static str
    ensures { result.now ≡ head_text sha256.now }
{
    match sha256 {
        None => "coursier-cache 1",
        Some(_) => "coursier-cache 2",
    }
}

/// What follows the SHA-1 in a line.
fn ends_text(
    alloc: Global,
    sha256: &Option<[u8; 32]>,
    length: u64,
    moment: u64,
) -> Result<Text, NoMemory>
    ensures text { IfOk result (λ text. text ≡ sha256_text sha256.now length moment) }
    ensures digest { OnOk result (IfSome sha256.now (IsDigest 32)) }
{
    match sha256 {
        None => {
            let ends = format!(in alloc; " {length} {moment}\n")?;
            Ok(Text::from_string(ends))
        }
        Some(digest) => {
            let digest = digest_text(alloc, digest)?;
            let digest = digest.as_str();
            let ends = format!(in alloc; " {digest} {length} {moment}\n")?;
            Ok(Text::from_string(ends))
        }
    }
}

/// The line of a record: of format 2 where it has a SHA-256, else of format 1.
pub fn record_line(alloc: Global, entry: &Record) -> Result<Text, NoMemory>
    ensures { IfOk result (λ line. IsRecordLine line entry.now) }
{
    let head = head_text(&entry.sha256);
    let checks = checks_text(alloc, entry.checks.as_slice())?;
    let sha1 = digest_text(alloc, &entry.sha1)?;
    let ends = ends_text(alloc, &entry.sha256, entry.length, entry.moment)?;
    let checks = checks.as_str();
    let sha1 = sha1.as_str();
    let ends = ends.as_str();
    let line = format!(in alloc; "{head} {checks} {sha1}{ends}")?;
    Ok(Text::from_string(line))
}

/// A length and a moment, which end a line.
#[derive(Clone, Copy)]
struct Times {
    length: u64,
    moment: u64,
}

/// What follows the SHA-1 in a line.
#[derive(Clone, Copy)]
struct Ends {
    sha256: Option<[u8; 32]>,
    times: Times,
}

/// What follows the checks in a line.
#[derive(Clone, Copy)]
struct Digests {
    sha1: [u8; 20],
    ends: Ends,
}

/// A space, a length and what follows it; else the place where the text leaves that form.
fn read_length(text: &[u8]) -> Result<Times, usize>
    ensures read { IfOk result (IsLengthText text.now) }
    ensures refused { IfErr result (IsPlace (Accepts IsLengthText) text.now) }
{
    let Some(after) = behind(text, b" ") else {
        return Err(0);
    };
    let cut = part(after, b' ');
    let length = match read_number(cut.first, 0, u64::MAX) {
        Ok(length) => length,
        Err(place) => return Err(1 + place),
    };
    match read_moment(cut.rest) {
        Ok(moment) => Ok(Times { length, moment }),
        Err(place) => Err(1 + cut.first.len() + place),
    }
}

/// A space, a SHA-256 and what follows it, likewise.
fn read_sha256(text: &[u8]) -> Result<Ends, usize>
    ensures read { IfOk result (IsEndText true text.now) }
    ensures refused { IfErr result (IsPlace (Accepts (IsEndText true)) text.now) }
{
    let Some(after) = behind(text, b" ") else {
        return Err(0);
    };
    let cut = part(after, b' ');
    let sha256 = match read_digest::<32>(cut.first) {
        Ok(sha256) => sha256,
        Err(place) => return Err(1 + place),
    };
    match read_length(cut.rest) {
        Ok(times) => Ok(Ends {
            sha256: Some(sha256),
            times,
        }),
        Err(place) => Err(1 + cut.first.len() + place),
    }
}

/// What follows the SHA-1 in a line of format 1, or of format 2.
fn read_ends(text: &[u8], second: bool) -> Result<Ends, usize>
    ensures read { IfOk result (IsEndText second text.now) }
    ensures refused { IfErr result (IsPlace (Accepts (IsEndText second)) text.now) }
{
    if second {
        return read_sha256(text);
    }
    match read_length(text) {
        Ok(times) => Ok(Ends {
            sha256: None,
            times,
        }),
        Err(place) => Err(place),
    }
}

/// A space, a SHA-1 and what follows it, likewise.
fn read_digests(text: &[u8], second: bool) -> Result<Digests, usize>
    ensures read { IfOk result (IsDigestsText second text.now) }
    ensures refused { IfErr result (IsPlace (Accepts (IsDigestsText second)) text.now) }
{
    let Some(after) = behind(text, b" ") else {
        return Err(0);
    };
    let cut = part(after, b' ');
    let sha1 = match read_digest::<20>(cut.first) {
        Ok(sha1) => sha1,
        Err(place) => return Err(1 + place),
    };
    match read_ends(cut.rest, second) {
        Ok(ends) => Ok(Digests { sha1, ends }),
        Err(place) => Err(1 + cut.first.len() + place),
    }
}

/// A refusal behind so many more bytes.
fn moved(refusal: RecordErr, before: usize) -> RecordErr
    requires { (n : ℕ) → refusal ≡ RecordErr.BadLine n → before + n < 2 ^ 64 }
    ensures { result ≡ moved before refusal }
{
    match refusal {
        RecordErr::BadLine(place) => RecordErr::BadLine(before + place),
        RecordErr::NoMemory => RecordErr::NoMemory,
    }
}

fn record_of(checks: List<Check>, digests: Digests) -> Record
    ensures { result ≡ record_from checks digests }
{
    let Digests { sha1, ends } = digests;
    let Ends { sha256, times } = ends;
    let Times { length, moment } = times;
    Record {
        checks,
        sha1,
        sha256,
        length,
        moment,
    }
}

/// A space, the names of checks and what follows them, likewise.
fn read_fields(alloc: Global, text: &[u8], second: bool) -> Result<Record, RecordErr>
    ensures read { IfOk result (IsFieldsText second text.now) }
    ensures refused { (n : ℕ) → IsErrOf result (RecordErr.BadLine n) → IsPlace (Accepts (IsFieldsText second)) text.now n }
{
    let Some(after) = behind(text, b" ") else {
        return Err(RecordErr::BadLine(0));
    };
    let cut = part(after, b' ');
    let checks = match read_checks(alloc, cut.first) {
        Ok(checks) => checks,
        Err(refusal) => return Err(moved(refusal, 1)),
    };
    match read_digests(cut.rest, second) {
        Ok(digests) => Ok(record_of(checks, digests)),
        Err(place) => Err(RecordErr::BadLine(1 + cut.first.len() + place)),
    }
}

/// How a line of a record begins: its format, and what follows.
#[derive(Clone, Copy)]
struct Head<'a> {
    second: bool,
    rest: &'a [u8],
}

fn read_head(bytes: &[u8]) -> Option<Head<'_>>
    ensures some { IfSome result (λ head. bytes.now ≡ format_head head.second ++ head.rest.now) }
    ensures no_first { IfNone result ((rest : List ℕ) → bytes.now ≢ format_head false ++ rest) }
    ensures no_second { IfNone result ((rest : List ℕ) → bytes.now ≢ format_head true ++ rest) }
{
    if let Some(rest) = behind(bytes, b"coursier-cache 1") {
        return Some(Head {
            second: false,
            rest,
        });
    }
    if let Some(rest) = behind(bytes, b"coursier-cache 2") {
        return Some(Head { second: true, rest });
    }
    None
}

/// How far a text goes with one of these beginnings.
fn heads_end(bytes: &[u8]) -> usize
    ensures { result ≡ max (common (format_head false) bytes.now) (common (format_head true) bytes.now) }
{
    let first = common(b"coursier-cache 1", bytes);
    let second = common(b"coursier-cache 2", bytes);
    first.max(second)
}

/// Reads the line of a record, of either format.
pub fn read_record(alloc: Global, bytes: &[u8]) -> Result<Record, RecordErr>
    ensures read { IfOk result (IsRecordLine bytes.now) }
    ensures value { IfOk result (λ entry. record_in bytes.now ≡ Some entry) }
    ensures none { (n : ℕ) → IsErrOf result (RecordErr.BadLine n) → record_in bytes.now ≡ None }
    ensures refused { (n : ℕ) → IsErrOf result (RecordErr.BadLine n) → IsPlace (Accepts IsRecordLine) bytes.now n }
{
    match read_head(bytes) {
        None => Err(RecordErr::BadLine(heads_end(bytes))),
        Some(head) => match read_fields(alloc, head.rest, head.second) {
            Ok(entry) => Ok(entry),
            Err(refusal) => Err(moved(refusal, 16)),
        },
    }
}

/// A law, with nothing to run: a text is the line of a record exactly where it reads as that, so
/// each line has one reading, and what is written is read back.
pub fn record_lines_read()
    ensures { (text : List ℕ) (entry : Record) → (record_in text ≡ Some entry) ↔ IsRecordLine text entry }
{}

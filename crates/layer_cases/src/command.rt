//! Which command answers a line.
ghost use Rattle.std.specs.Prelude.{IfOk, string_bytes};
ghost use Rattle.case_words.specs.Words.{IsOneLine};

use cache_cases::{decisions, names, records};
use case_words::case_error::CaseError;
use case_words::words::pieces_of;
use face_cases::{jobs, samples};
use print_cases::{files, printed};
use project_cases::{effectives, lookups, poms, trees};
use round_cases::{artifacts, rounds};
use std::alloc::{AllocError, Global};
use std::str;
use value_cases::{choices, coordinates, digests, exclusions, intervals, scopes, versions};
use wire_cases::{replies, visits};

fn answer_words(alloc: Global, words: &[&str]) -> Result<String, CaseError> {
    let [command, fields @ ..] = words else {
        return Err(CaseError::OutOfForm);
    };
    match *command {
        "coord" => coordinates::coord(alloc, fields),
        "plain" => coordinates::plain(alloc, fields),
        "paths" => coordinates::paths(alloc, fields),
        "tree" => trees::tree(alloc, fields),
        "pom" => poms::pom(alloc, fields),
        "listing" => poms::listing(alloc, fields),
        "digest" => digests::digest(alloc, fields),
        "sums" => digests::sums(alloc, fields),
        "version" => versions::version(alloc, fields),
        "constraint" => versions::constraint(alloc, fields),
        "meet" => intervals::meet(alloc, fields),
        "holds" => intervals::holds(alloc, fields),
        "kept" => scopes::kept(alloc, fields),
        "excludes" => exclusions::excludes(alloc, fields),
        "within" => exclusions::within(alloc, fields),
        "antichain" => exclusions::antichain(alloc, fields),
        "look" => lookups::look(alloc, fields),
        "listing-at" => lookups::listing_at(alloc, fields),
        "choose" => choices::choose(alloc, fields),
        "effective" => effectives::effective(alloc, fields),
        "rounds" => rounds::rounds(alloc, fields),
        "artifacts" => artifacts::artifacts(alloc, fields),
        "cache-name" => names::cache_name(alloc, fields),
        "record" => records::record(alloc, fields),
        "record-line" => records::record_line(alloc, fields),
        "gone" => records::gone(alloc, fields),
        "gone-line" => records::gone_line(alloc, fields),
        "decide" => decisions::decide(alloc, fields),
        "request" => replies::request(alloc, fields),
        "reply" => replies::reply(alloc, fields),
        "reply-cut" => replies::reply_cut(alloc, fields),
        "visit" => visits::visit(alloc, fields),
        "words" => jobs::words(alloc, fields),
        "sample" => samples::sample(alloc, fields),
        "sample-line" => samples::sample_line(alloc, fields),
        "tree-text" => printed::tree_text(alloc, fields),
        "report" => printed::report(alloc, fields),
        "classpath" => files::classpath(alloc, fields),
        _ => Err(CaseError::OutOfForm),
    }
}

fn answer_bytes(alloc: Global, line: &[u8]) -> Result<String, CaseError>
    ensures { IfOk result (λ answer. IsOneLine (string_bytes answer)) }
{
    let Ok(line) = str::from_utf8(line) else {
        return Err(CaseError::OutOfForm);
    };
    let words = pieces_of(alloc, line, ' ')?;
    let answer = answer_words(alloc, words.as_slice())?;
    if answer.as_bytes().contains(&b'\n') {
        return Err(CaseError::OutOfForm);
    }
    Ok(answer)
}

/// The answer to a line, both without their line feeds.
pub fn answer(alloc: Global, line: &[u8]) -> Result<String, AllocError>
    ensures { IfOk result (λ answer. IsOneLine (string_bytes answer)) }
{
    match answer_bytes(alloc, line) {
        Ok(answer) => Ok(answer),
        Err(CaseError::OutOfForm) => String::from_str(alloc, "unknown"),
        Err(CaseError::NoMemory) => Err(AllocError),
    }
}

//! Choices of a version.
//!
//! - `choose RULE FORCED LISTED H..`: the choice for requests with these texts, the k-th from root
//!   k. RULE is `default`, `relaxed`, `strict` or `semver`, FORCED is `none` or H, and LISTED is
//!   `unknown`, or `listed:H,H` with the candidates. The answer is `version H`, `needs`, or the
//!   clash: `apart I J`, `above I`, `not-accepted I`, `no-version`, `none-listed` or
//!   `bad-constraint I`.
ghost use Rattle.std.specs.Prelude.{◌≡◌, IfOk, IfSome, string_bytes};
ghost use Rattle.value_cases.specs.Choices.{chosen_line as chosen_line_of, clash_line as clash_line_of, rule_word};

use case_words::case_error::CaseError;
use case_words::hex_word::{hex_word, text_of};
use case_words::names::texts_of;
use reconcile_rules::{Asker, Chosen, Clash, Request, Rule};
use res_base::{List, Text};
use std::alloc::{AllocError, Global};

pub fn rule_of(word: &str) -> Option<Rule>
    ensures { IfSome result (λ rule. rule_word rule ≡ word.now) }
{
    match word {
        "default" => Some(Rule::Default),
        "relaxed" => Some(Rule::Relaxed),
        "strict" => Some(Rule::Strict),
        "semver" => Some(Rule::Semver),
        _ => None,
    }
}

fn forced_of(alloc: Global, word: &str) -> Result<Option<Text>, CaseError> {
    if word == "none" {
        return Ok(None);
    }
    Ok(Some(text_of(alloc, word)?))
}

fn listed_of(alloc: Global, word: &str) -> Result<Option<List<Text>>, CaseError> {
    if word == "unknown" {
        return Ok(None);
    }
    match word.strip_prefix("listed:") {
        Some(versions) => Ok(Some(texts_of(alloc, versions)?)),
        None => Err(CaseError::OutOfForm),
    }
}

/// Requests for these texts, the k-th from root k.
fn requests_of(alloc: Global, words: &[&str]) -> Result<List<Request>, CaseError> {
    let mut requests: List<Request> = List::new(alloc);
    for (place, word) in words.iter().enumerate() {
        requests.push(Request {
            text: text_of(alloc, word)?,
            from: Asker::Root(place as u64),
        })?;
    }
    Ok(requests)
}

fn clash_line(alloc: Global, clash: Clash) -> Result<String, AllocError>
    ensures { IfOk result (λ line. string_bytes line ≡ clash_line_of clash) }
{
    match clash {
        Clash::Apart(one, other) => format!(in alloc; "apart {one} {other}"),
        Clash::Above(number) => format!(in alloc; "above {number}"),
        Clash::NotAccepted(number) => format!(in alloc; "not-accepted {number}"),
        Clash::NoVersion => String::from_str(alloc, "no-version"),
        Clash::NoneListed => String::from_str(alloc, "none-listed"),
        Clash::BadConstraint(number) => format!(in alloc; "bad-constraint {number}"),
    }
}

fn chosen_line(alloc: Global, chosen: &Chosen) -> Result<String, AllocError>
    ensures { IfOk result (λ line. string_bytes line ≡ chosen_line_of chosen.now) }
{
    match chosen {
        Chosen::Version(version) => {
            let version = hex_word(alloc, version.as_bytes())?;
            format!(in alloc; "version {version}")
        }
        Chosen::NeedsListing(_) => String::from_str(alloc, "needs"),
        Chosen::Clash(clash) => clash_line(alloc, *clash),
    }
}

pub fn choose(alloc: Global, fields: &[&str]) -> Result<String, CaseError> {
    let [rule, forced, listed, texts @ ..] = fields else {
        return Err(CaseError::OutOfForm);
    };
    let Some(rule) = rule_of(rule) else {
        return Err(CaseError::OutOfForm);
    };
    let forced = forced_of(alloc, forced)?;
    let listed = listed_of(alloc, listed)?;
    let requests = requests_of(alloc, texts)?;
    let chosen = reconcile_rules::choose(alloc, rule, forced.as_ref(), &requests, listed.as_ref())?;
    Ok(chosen_line(alloc, &chosen)?)
}

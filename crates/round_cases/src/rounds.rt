//! Rounds.
//!
//! - `rounds REPOSITORIES CONFIGURATION RULE ROUNDS ROOTS FORCED BOMS SET KNOWN..`: the rounds over
//!   so many repositories and these known answers. ROOTS is coordinates with commas between them,
//!   FORCED and BOMS the same or `none`, and SET the exclusions of the words. KNOWN is
//!   `R=ORG:NAME:VERSION=DATA` for a project file in repository R and `R=ORG:NAME=DATA` for a
//!   listing, where DATA is H, the bytes, or `absent`, `too-large` or `damaged`. The answer is that
//!   of `progress`.
ghost use Rattle.std.specs.Prelude.{◌≡◌, ◌<◌, IfOk, IfSome, true};
ghost use Rattle.project_lookup.specs.KnownPairs.{stands_at};
ghost use Rattle.res_base.specs.declared.key.Role.TheVariants as roles;

use crate::progress::progress_line;
use case_words::case_error::CaseError;
use case_words::hex_word::bytes_of;
use case_words::names::{coord_of, module_of, set_of};
use case_words::words::pieces_of;
use project_cases::lookups::{number_of, put};
use project_cases::poms::{listing_of, pom_of};
use project_lookup::Known;
use res_base::{
    Check, Coord, Damage, FileKey, List, NoMemory, Reading, Role, Steps, listing_path, pom_path,
};
use round_core::{Ask, Progress, rounds_plain};
use std::alloc::Global;
use std::marker::Brand;
use std::sync::ledger::{Blank, Ledger};
use value_cases::choices::rule_of;
use value_cases::scopes::configuration_of;

/// What is known of a file of which no bytes came.
fn other_reading(word: &str) -> Option<Reading>
    ensures pom { IfSome result (λ reading. stands_at reading roles.Pom ≡ true) }
    ensures listing { IfSome result (λ reading. stands_at reading roles.Listing ≡ true) }
{
    match word {
        "absent" => Some(Reading::Absent),
        "too-large" => Some(Reading::TooLarge),
        "damaged" => Some(Reading::Damaged(Damage {
            check: Check::NoCheck,
            wanted: None,
            got: None,
        })),
        _ => None,
    }
}

fn pom_reading(alloc: Global, word: &str) -> Result<Reading, CaseError>
    ensures { IfOk result (λ reading. stands_at reading roles.Pom ≡ true) }
{
    if let Some(reading) = other_reading(word) {
        return Ok(reading);
    }
    let bytes = bytes_of(alloc, word)?;
    match pom_of(alloc, bytes.as_slice())? {
        Ok(pom) => Ok(Reading::Pom(pom)),
        Err(fault) => Ok(Reading::NotReadable(fault)),
    }
}

fn listing_reading(alloc: Global, word: &str) -> Result<Reading, CaseError>
    ensures { IfOk result (λ reading. stands_at reading roles.Listing ≡ true) }
{
    if let Some(reading) = other_reading(word) {
        return Ok(reading);
    }
    let bytes = bytes_of(alloc, word)?;
    match listing_of(alloc, bytes.as_slice())? {
        Ok(versions) => Ok(Reading::Listing(versions)),
        Err(fault) => Ok(Reading::NotReadable(fault)),
    }
}

fn put_pom(
    alloc: Global,
    known: &mut Known,
    repo: u32,
    coord: &str,
    data: &str,
) -> Result<(), CaseError>
    ensures { known.new.repos ≡ known.old.repos }
{
    let coord = coord_of(alloc, coord)?;
    let key = FileKey {
        repo,
        role: Role::Pom,
        path: pom_path(alloc, &coord)?,
    };
    put(known, key, pom_reading(alloc, data)?)
}

fn put_listing(
    alloc: Global,
    known: &mut Known,
    repo: u32,
    module: &str,
    data: &str,
) -> Result<(), CaseError>
    ensures { known.new.repos ≡ known.old.repos }
{
    let module = module_of(alloc, module)?;
    let key = FileKey {
        repo,
        role: Role::Listing,
        path: listing_path(alloc, &module)?,
    };
    put(known, key, listing_reading(alloc, data)?)
}

/// Puts in what is known of a project file or a listing.
fn put_known(alloc: Global, known: &mut Known, field: &str) -> Result<(), CaseError>
    ensures { known.new.repos ≡ known.old.repos }
{
    let pieces = pieces_of(alloc, field, '=')?;
    let [repo, name, data] = pieces.as_slice() else {
        return Err(CaseError::OutOfForm);
    };
    let repo = number_of(alloc, repo)?;
    if pieces_of(alloc, name, ':')?.len() == 3 {
        return put_pom(alloc, known, repo, name, data);
    }
    put_listing(alloc, known, repo, name, data)
}

/// What is known over so many repositories.
fn known_of(alloc: Global, repos: u32, fields: &[&str]) -> Result<Known, CaseError>
    requires some { 0 < repos }
    requires most { repos < 17 }
    ensures { IfOk result (λ known. known.repos ≡ repos) }
{
    let mut known = Known::new(alloc, repos);
    for field in fields {
        put_known(alloc, &mut known, field)?;
    }
    Ok(known)
}

/// Coordinates with commas between them, or `none`.
fn coords_of(alloc: Global, word: &str) -> Result<List<Coord>, CaseError> {
    let mut coords: List<Coord> = List::new(alloc);
    if word == "none" {
        return Ok(coords);
    }
    for word in pieces_of(alloc, word, ',')?.as_slice() {
        coords.push(coord_of(alloc, word)?)?;
    }
    Ok(coords)
}

fn ask_of(alloc: Global, repos: u32, fields: &[&str]) -> Result<Ask, CaseError>
    ensures { IfOk result (λ ask. ask.repos ≡ repos) }
{
    let [configuration, rule, rounds, roots, forced, boms, excludes] = fields else {
        return Err(CaseError::OutOfForm);
    };
    let Some(configuration) = configuration_of(configuration) else {
        return Err(CaseError::OutOfForm);
    };
    let Some(rule) = rule_of(rule) else {
        return Err(CaseError::OutOfForm);
    };
    Ok(Ask {
        roots: coords_of(alloc, roots)?,
        forced: coords_of(alloc, forced)?,
        boms: coords_of(alloc, boms)?,
        excludes: set_of(alloc, excludes)?.rules,
        configuration,
        rule,
        rounds: number_of(alloc, rounds)?,
        repos,
        files: false,
    })
}

fn counted<L: Ledger>(
    alloc: Global,
    known: &Known,
    ask: &Ask,
    blank: Blank,
) -> Result<Progress, NoMemory>
    requires name { blank.name ≡ L.name }
    requires parts { blank.parts ≡ L.parts }
    requires some { 0 < blank.parts }
    requires repos { ask.now.repos ≡ known.now.repos }
{
    let mut steps: Steps<L> = Steps::new(blank);
    rounds_plain(alloc, known, ask, &mut steps)
}

pub fn rounds(alloc: Global, fields: &[&str]) -> Result<String, CaseError> {
    let [repos, fields @ ..] = fields else {
        return Err(CaseError::OutOfForm);
    };
    let repos = number_of(alloc, repos)?;
    if repos == 0 || repos > 16 || fields.len() < 7 {
        return Err(CaseError::OutOfForm);
    }
    let ask = ask_of(alloc, repos, &fields[..7])?;
    let known = known_of(alloc, repos, &fields[7..])?;
    let progress = counted::<Brand>(alloc, &known, &ask, Blank::new(1))?;
    Ok(progress_line(alloc, &progress)?)
}

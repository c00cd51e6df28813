//! Look-ups of projects and of listings.
//!
//! - `look REPOSITORIES COORD READING..`: the look-up of a coordinate in so many repositories, where
//!   READING is `R=KIND`, what is known of its POM in repository R: `pom`, `absent`, `too-large`,
//!   `not-project` or `damaged`. The answer is `found R`, `missing R`, or `not-found` with a reason
//!   for each repository.
//! - `listing-at REPOSITORY MODULE READING..`: likewise for a module's listing, with KIND
//!   `listing:H,H` in place of `pom`. The answer is `versions` with an H for each, `unknown R` or
//!   `no-listing`.
ghost use Rattle.std.specs.Prelude.{◌≡◌, ◌∷◌, ◌++◌, true, map, codes, IfOk, IfSome, decimal, string_bytes};
ghost use Rattle.project_lookup.specs.KnownPairs.{stands_at};
ghost use Rattle.project_lookup.specs.Listings.{seen_listing, versions as versions_listed};
ghost use Rattle.project_lookup.specs.Looks.{not_found, seen};
ghost use Rattle.res_base.specs.declared.key.Role.TheVariants as roles;
ghost use Rattle.project_cases.specs.Lookups.{listing_line as listing_line_of, look_line as look_line_of};

use crate::reasons::reason_line;
use case_words::case_error::CaseError;
use case_words::hex_word::hex_word;
use case_words::names::{coord_of, module_of, texts_of};
use case_words::words::{joined, split_first};
use project_lookup::{InsertErr, Known, ListingAt, Look};
use res_base::{
    Check, Copied, Damage, FileKey, List, PomRecord, ReadFault, Reading, Reason, Role, Text,
    listing_path, pom_path,
};
use std::alloc::{AllocError, Global};

/// A decimal number without leading zeros.
pub fn number_of(alloc: Global, word: &str) -> Result<u32, CaseError>
    ensures { IfOk result (λ number. decimal number ≡ word.now) }
{
    let Ok(number) = word.parse::<u32>() else {
        return Err(CaseError::OutOfForm);
    };
    if format!(in alloc; "{number}")?.as_str() != word {
        return Err(CaseError::OutOfForm);
    }
    Ok(number)
}

/// A project without a field.
fn empty_pom(alloc: Global) -> PomRecord {
    PomRecord {
        parent: None,
        org: Text::new(alloc),
        name: Text::new(alloc),
        version: Text::new(alloc),
        packaging: Text::new(alloc),
        properties: List::new(alloc),
        deps: List::new(alloc),
        managed: List::new(alloc),
        moved: None,
    }
}

/// A reading that is neither a POM nor a listing.
fn other_reading(kind: &str) -> Option<Reading>
    ensures pom { IfSome result (λ reading. stands_at reading roles.Pom ≡ true) }
    ensures listing { IfSome result (λ reading. stands_at reading roles.Listing ≡ true) }
{
    match kind {
        "absent" => Some(Reading::Absent),
        "too-large" => Some(Reading::TooLarge),
        "not-project" => Some(Reading::NotReadable(ReadFault::NotProject)),
        "damaged" => Some(Reading::Damaged(Damage {
            check: Check::NoCheck,
            wanted: None,
            got: None,
        })),
        _ => None,
    }
}

fn pom_reading(alloc: Global, kind: &str) -> Result<Reading, CaseError>
    ensures { IfOk result (λ reading. stands_at reading roles.Pom ≡ true) }
{
    if kind == "pom" {
        return Ok(Reading::Pom(empty_pom(alloc)));
    }
    match other_reading(kind) {
        Some(reading) => Ok(reading),
        None => Err(CaseError::OutOfForm),
    }
}

fn listing_reading(alloc: Global, kind: &str) -> Result<Reading, CaseError>
    ensures { IfOk result (λ reading. stands_at reading roles.Listing ≡ true) }
{
    if let Some(versions) = kind.strip_prefix("listing:") {
        return Ok(Reading::Listing(texts_of(alloc, versions)?));
    }
    match other_reading(kind) {
        Some(reading) => Ok(reading),
        None => Err(CaseError::OutOfForm),
    }
}

/// Puts in what is known of a key. A repository that there is not, and a key that was known, are
/// out of form.
pub fn put(known: &mut Known, key: FileKey, reading: Reading) -> Result<(), CaseError>
    requires { stands_at reading key.role ≡ true }
    ensures { known.new.repos ≡ known.old.repos }
{
    if key.repo >= known.repos() {
        return Err(CaseError::OutOfForm);
    }
    match known.insert(key, reading) {
        Ok(()) => Ok(()),
        Err(InsertErr::AlreadyKnown(_, _)) => Err(CaseError::OutOfForm),
        Err(InsertErr::NoMemory(_)) => Err(CaseError::NoMemory),
    }
}

fn put_pom(alloc: Global, known: &mut Known, path: &Text, field: &str) -> Result<(), CaseError>
    ensures { known.new.repos ≡ known.old.repos }
{
    let Some((repo, kind)) = split_first(field, '=') else {
        return Err(CaseError::OutOfForm);
    };
    let key = FileKey {
        repo: number_of(alloc, repo)?,
        role: Role::Pom,
        path: path.copy(alloc)?,
    };
    put(known, key, pom_reading(alloc, kind)?)
}

fn put_listing(alloc: Global, known: &mut Known, path: &Text, field: &str) -> Result<(), CaseError>
    ensures { known.new.repos ≡ known.old.repos }
{
    let Some((repo, kind)) = split_first(field, '=') else {
        return Err(CaseError::OutOfForm);
    };
    let key = FileKey {
        repo: number_of(alloc, repo)?,
        role: Role::Listing,
        path: path.copy(alloc)?,
    };
    put(known, key, listing_reading(alloc, kind)?)
}

fn not_found_line(alloc: Global, reasons: &[Reason]) -> Result<String, AllocError>
    ensures { IfOk result (λ line. string_bytes line ≡ look_line_of (not_found reasons.now)) }
{
    let mut words = Vec::new(alloc);
    words.push(String::from_str(alloc, "not-found")?)?;
    for reason in reasons {
        words.push(reason_line(alloc, *reason)?)?;
    }
    joined(alloc, words.as_slice(), " ")
}

fn look_line(alloc: Global, look: &Look<'_>) -> Result<String, AllocError>
    ensures { IfOk result (λ line. string_bytes line ≡ look_line_of (seen look.now)) }
{
    match look {
        Look::Found(repo, _) => format!(in alloc; "found {repo}"),
        Look::Missing(key) => {
            let repo = key.repo;
            format!(in alloc; "missing {repo}")
        }
        Look::NotFound(reasons) => not_found_line(alloc, reasons.as_slice()),
    }
}

pub fn look(alloc: Global, fields: &[&str]) -> Result<String, CaseError> {
    let [repos, coord, readings @ ..] = fields else {
        return Err(CaseError::OutOfForm);
    };
    let repos = number_of(alloc, repos)?;
    if repos == 0 || repos > 16 {
        return Err(CaseError::OutOfForm);
    }
    let coord = coord_of(alloc, coord)?;
    let path = pom_path(alloc, &coord)?;
    let mut known = Known::new(alloc, repos);
    for reading in readings {
        put_pom(alloc, &mut known, &path, reading)?;
    }
    let look = known.look(alloc, &coord)?;
    Ok(look_line(alloc, &look)?)
}

fn versions_line(alloc: Global, versions: &[Text]) -> Result<String, AllocError>
    ensures { IfOk result (λ line. string_bytes line ≡ listing_line_of (versions_listed versions.now)) }
{
    let mut words = Vec::new(alloc);
    words.push(String::from_str(alloc, "versions")?)?;
    for version in versions {
        words.push(hex_word(alloc, version.as_bytes())?)?;
    }
    joined(alloc, words.as_slice(), " ")
}

fn listing_line(alloc: Global, listing: &ListingAt<'_>) -> Result<String, AllocError>
    ensures { IfOk result (λ line. string_bytes line ≡ listing_line_of (seen_listing listing.now)) }
{
    match listing {
        ListingAt::Versions(versions) => versions_line(alloc, versions.as_slice()),
        ListingAt::Unknown(key) => {
            let repo = key.repo;
            format!(in alloc; "unknown {repo}")
        }
        ListingAt::NoListing => String::from_str(alloc, "no-listing"),
    }
}

pub fn listing_at(alloc: Global, fields: &[&str]) -> Result<String, CaseError> {
    let [repo, module, readings @ ..] = fields else {
        return Err(CaseError::OutOfForm);
    };
    let repo = number_of(alloc, repo)?;
    if repo >= 16 {
        return Err(CaseError::OutOfForm);
    }
    let module = module_of(alloc, module)?;
    let path = listing_path(alloc, &module)?;
    let mut known = Known::new(alloc, 16);
    for reading in readings {
        put_listing(alloc, &mut known, &path, reading)?;
    }
    let listing = known.listing_at(alloc, &module, repo)?;
    Ok(listing_line(alloc, &listing)?)
}

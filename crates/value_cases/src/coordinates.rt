//! Coordinates and their paths.
//!
//! - `coord H`: `ok ORG NAME VERSION`, each H, or `bad N`, for the coordinate in a text.
//! - `plain H H H`: `yes` or `no`, for an org, a name and a version.
//! - `paths H H H H H`: the POM path, the file path and the listing path of an org, a name, a
//!   version, an extension and a classifier, which may be empty.
ghost use Rattle.std.specs.Prelude.{◌≡◌, ◌∷◌, ◌++◌, IfOk, codes, string_bytes};
ghost use Rattle.value_cases.specs.Coordinates.{coord_line, HasWords};
ghost use Rattle.case_words.specs.HexWord.{hex_word as hex_word_of};

use case_words::case_error::CaseError;
use case_words::hex_word::{hex_word, text_of};
use case_words::lines::{bad_line, yes_or_no};
use res_base::{Coord, CoordErr, Module, file_path, is_plain, listing_path, parse_coord, pom_path};
use std::alloc::{AllocError, Global};

fn coord_of(alloc: Global, org: &str, name: &str, version: &str) -> Result<Coord, CaseError>
    ensures { IfOk result (λ coord. HasWords coord org.now name.now version.now) }
{
    Ok(Coord {
        module: Module {
            org: text_of(alloc, org)?,
            name: text_of(alloc, name)?,
        },
        version: text_of(alloc, version)?,
    })
}

fn ok_line(alloc: Global, coord: &Coord) -> Result<String, AllocError>
    ensures { IfOk result (λ line. string_bytes line ≡ coord_line coord.now) }
{
    let org = hex_word(alloc, coord.module.org.as_bytes())?;
    let name = hex_word(alloc, coord.module.name.as_bytes())?;
    let version = hex_word(alloc, coord.version.as_bytes())?;
    format!(in alloc; "ok {org} {name} {version}")
}

pub fn coord(alloc: Global, fields: &[&str]) -> Result<String, CaseError> {
    let [text] = fields else {
        return Err(CaseError::OutOfForm);
    };
    let text = text_of(alloc, text)?;
    match parse_coord(alloc, text.as_str()) {
        Ok(coord) => Ok(ok_line(alloc, &coord)?),
        Err(CoordErr::BadCoord(place)) => Ok(bad_line(alloc, place)?),
        Err(CoordErr::NoMemory) => Err(CaseError::NoMemory),
    }
}

pub fn plain(alloc: Global, fields: &[&str]) -> Result<String, CaseError> {
    let [org, name, version] = fields else {
        return Err(CaseError::OutOfForm);
    };
    let coord = coord_of(alloc, org, name, version)?;
    Ok(yes_or_no(alloc, is_plain(&coord))?)
}

pub fn paths(alloc: Global, fields: &[&str]) -> Result<String, CaseError> {
    let [org, name, version, extension, classifier] = fields else {
        return Err(CaseError::OutOfForm);
    };
    let coord = coord_of(alloc, org, name, version)?;
    let extension = text_of(alloc, extension)?;
    let classifier = text_of(alloc, classifier)?;
    let pom = pom_path(alloc, &coord)?;
    let file = file_path(alloc, &coord, extension.as_str(), classifier.as_str())?;
    let listing = listing_path(alloc, &coord.module)?;
    let pom = pom.as_str();
    let file = file.as_str();
    let listing = listing.as_str();
    Ok(format!(in alloc; "{pom} {file} {listing}")?)
}

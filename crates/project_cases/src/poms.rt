//! Fields of project files and versions of listings.
//!
//! - `pom H`: `ok`, then the fields, each with a space before it, or the fault. The fields are
//!   `parent=ORG:NAME:VERSION` or `parent=none`, `org=H`, `name=H`, `version=H`, `packaging=H`,
//!   `property=NAME:VALUE` for each, `dep=ORG:NAME:VERSION:TYPE:CLASSIFIER:SCOPE:OPTIONAL` for each,
//!   followed at once by `/ORG:NAME` for each of its exclusions, `managed=` likewise, and
//!   `moved=ORG:NAME:VERSION` or `moved=none`.
//! - `listing H`: `ok`, then a space and H for each version, or the fault.
ghost use Rattle.std.specs.Prelude.{◌≡◌, ◌<◌, ◌++◌, IfOk, OnOk, map, codes, string_bytes};
ghost use Rattle.std.specs.Option.{option_copied};
ghost use Rattle.project_cases.specs.Faults.{listing_fault as listing_fault_of, pom_fault as pom_fault_of};
ghost use Rattle.project_cases.specs.Poms.{dep_word as dep_word_of, dep_words, field_word as field_word_of, head_words as head_words_of, listing_line as listing_line_of, manner_word as manner_word_of, moved_word as moved_word_of, parent_word as parent_word_of, pom_line as pom_line_of, property_word as property_word_of, row_word as row_word_of, target_word as target_word_of, with_rows};

use crate::reasons::fault_line;
use case_words::case_error::CaseError;
use case_words::hex_word::{bytes_of, hex_word};
use case_words::names::{coord_word, rule_word};
use case_words::words::joined;
use meta_record::{ListingErr, read_listing};
use pom_record::{PomErr, read_pom};
use res_base::{Coord, DepRecord, List, Moved, PomRecord, Property, ReadFault, Steps, Text};
use std::alloc::{AllocError, Global};
use std::marker::Brand;
use std::sync::ledger::{Blank, Ledger};

fn parent_word(alloc: Global, parent: Option<&Coord>) -> Result<String, AllocError>
    ensures { IfOk result (λ word. string_bytes word ≡ parent_word_of (option_copied parent.entry)) }
{
    match parent {
        None => String::from_str(alloc, "parent=none"),
        Some(coord) => {
            let coord = coord_word(alloc, coord)?;
            format!(in alloc; "parent={coord}")
        }
    }
}

fn moved_word(alloc: Global, moved: Option<&Moved>) -> Result<String, AllocError>
    ensures { IfOk result (λ word. string_bytes word ≡ moved_word_of (option_copied moved.entry)) }
{
    match moved {
        None => String::from_str(alloc, "moved=none"),
        Some(moved) => {
            let org = hex_word(alloc, moved.org.as_bytes())?;
            let name = hex_word(alloc, moved.name.as_bytes())?;
            let version = hex_word(alloc, moved.version.as_bytes())?;
            format!(in alloc; "moved={org}:{name}:{version}")
        }
    }
}

fn property_word(alloc: Global, property: &Property) -> Result<String, AllocError>
    ensures { IfOk result (λ word. string_bytes word ≡ property_word_of property.now) }
{
    let name = hex_word(alloc, property.name.as_bytes())?;
    let value = hex_word(alloc, property.value.as_bytes())?;
    format!(in alloc; "property={name}:{value}")
}

/// The module of a row and its version.
fn target_word(alloc: Global, dep: &DepRecord) -> Result<String, AllocError>
    ensures { IfOk result (λ word. string_bytes word ≡ target_word_of dep.now) }
{
    let org = hex_word(alloc, dep.module.org.as_bytes())?;
    let name = hex_word(alloc, dep.module.name.as_bytes())?;
    let version = hex_word(alloc, dep.version.as_bytes())?;
    format!(in alloc; "{org}:{name}:{version}")
}

/// The type of a row, its classifier, its scope and its `optional`.
fn manner_word(alloc: Global, dep: &DepRecord) -> Result<String, AllocError>
    ensures { IfOk result (λ word. string_bytes word ≡ manner_word_of dep.now) }
{
    let kind = hex_word(alloc, dep.kind.as_bytes())?;
    let classifier = hex_word(alloc, dep.classifier.as_bytes())?;
    let scope = hex_word(alloc, dep.scope.as_bytes())?;
    let optional = hex_word(alloc, dep.optional.as_bytes())?;
    format!(in alloc; "{kind}:{classifier}:{scope}:{optional}")
}

/// The texts of a row, without its exclusions.
fn row_word(alloc: Global, dep: &DepRecord) -> Result<String, AllocError>
    ensures { IfOk result (λ word. string_bytes word ≡ row_word_of dep.now) }
{
    let target = target_word(alloc, dep)?;
    let manner = manner_word(alloc, dep)?;
    format!(in alloc; "{target}:{manner}")
}

fn dep_word(alloc: Global, dep: &DepRecord) -> Result<String, AllocError>
    ensures { IfOk result (λ word. string_bytes word ≡ dep_word_of dep.now) }
{
    let mut words = Vec::new(alloc);
    words.push(row_word(alloc, dep)?)?;
    for rule in dep.exclusions.as_slice() {
        words.push(rule_word(alloc, rule)?)?;
    }
    joined(alloc, words.as_slice(), "/")
}

/// Puts a word for each row at the end, behind a label.
pub fn push_deps(
    alloc: Global,
    words: &mut Vec<String>,
    label: &str,
    deps: &[DepRecord],
) -> Result<(), AllocError>
    ensures { OnOk result (map string_bytes words.new.items ≡ map string_bytes words.old.items ++ dep_words label.now deps.now) }
{
    for dep in deps {
        let dep = dep_word(alloc, dep)?;
        words.push(format!(in alloc; "{label}{dep}")?)?;
    }
    Ok(())
}

fn push_properties(
    alloc: Global,
    words: &mut Vec<String>,
    properties: &[Property],
) -> Result<(), AllocError>
    ensures { OnOk result (map string_bytes words.new.items ≡ map string_bytes words.old.items ++ map property_word_of properties.now) }
{
    for property in properties {
        words.push(property_word(alloc, property)?)?;
    }
    Ok(())
}

/// A text behind its label.
pub fn field_word(alloc: Global, label: &str, text: &Text) -> Result<String, AllocError>
    ensures { IfOk result (λ word. string_bytes word ≡ field_word_of label.now text.now) }
{
    let text = hex_word(alloc, text.as_bytes())?;
    format!(in alloc; "{label}={text}")
}

/// The fields of which each project has one.
fn head_words(alloc: Global, pom: &PomRecord) -> Result<Vec<String>, AllocError>
    ensures { IfOk result (λ words. map string_bytes words.items ≡ head_words_of pom.now) }
{
    let mut words = Vec::new(alloc);
    words.push(String::from_str(alloc, "ok")?)?;
    words.push(parent_word(alloc, pom.parent.as_ref())?)?;
    words.push(field_word(alloc, "org", &pom.org)?)?;
    words.push(field_word(alloc, "name", &pom.name)?)?;
    words.push(field_word(alloc, "version", &pom.version)?)?;
    words.push(field_word(alloc, "packaging", &pom.packaging)?)?;
    Ok(words)
}

/// Puts the other fields at the end.
fn push_rows(alloc: Global, words: &mut Vec<String>, pom: &PomRecord) -> Result<(), AllocError>
    ensures { OnOk result (map string_bytes words.new.items ≡ with_rows (map string_bytes words.old.items) pom.now) }
{
    push_properties(alloc, words, pom.properties.as_slice())?;
    push_deps(alloc, words, "dep=", pom.deps.as_slice())?;
    push_deps(alloc, words, "managed=", pom.managed.as_slice())?;
    words.push(moved_word(alloc, pom.moved.as_ref())?)?;
    Ok(())
}

fn pom_line(alloc: Global, pom: &PomRecord) -> Result<String, AllocError>
    ensures { IfOk result (λ line. string_bytes line ≡ pom_line_of pom.now) }
{
    let mut words = head_words(alloc, pom)?;
    push_rows(alloc, &mut words, pom)?;
    joined(alloc, words.as_slice(), " ")
}

/// Why bytes give no project, unless memory was wanting.
fn pom_fault(fault: PomErr) -> Result<ReadFault, CaseError>
    ensures { IfOk result (λ told. pom_fault_of fault ≡ Some told) }
{
    match fault {
        PomErr::BadText(place) => Ok(ReadFault::BadText(place)),
        PomErr::Doctype(place) => Ok(ReadFault::Doctype(place)),
        PomErr::TooDeep(place) => Ok(ReadFault::TooDeep(place)),
        PomErr::UnknownEncoding(place) => Ok(ReadFault::UnknownEncoding(place)),
        PomErr::NotProject => Ok(ReadFault::NotProject),
        PomErr::NoCoordinates(field) => Ok(ReadFault::NoCoordinates(field)),
        PomErr::NoMemory => Err(CaseError::NoMemory),
    }
}

fn pom_counted<L: Ledger>(alloc: Global, bytes: &[u8], blank: Blank) -> Result<PomRecord, PomErr>
    requires name { blank.name ≡ L.name }
    requires parts { blank.parts ≡ L.parts }
    requires some { 0 < blank.parts }
{
    let mut steps: Steps<L> = Steps::new(blank);
    read_pom(alloc, bytes, &mut steps)
}

/// The project that bytes give, or why they give none.
pub fn pom_of(alloc: Global, bytes: &[u8]) -> Result<Result<PomRecord, ReadFault>, CaseError> {
    match pom_counted::<Brand>(alloc, bytes, Blank::new(1)) {
        Ok(pom) => Ok(Ok(pom)),
        Err(fault) => Ok(Err(pom_fault(fault)?)),
    }
}

pub fn pom(alloc: Global, fields: &[&str]) -> Result<String, CaseError> {
    let [text] = fields else {
        return Err(CaseError::OutOfForm);
    };
    let text = bytes_of(alloc, text)?;
    match pom_of(alloc, text.as_slice())? {
        Ok(pom) => Ok(pom_line(alloc, &pom)?),
        Err(fault) => Ok(fault_line(alloc, fault)?),
    }
}

fn listing_line(alloc: Global, versions: &[Text]) -> Result<String, AllocError>
    ensures { IfOk result (λ line. string_bytes line ≡ listing_line_of versions.now) }
{
    let mut words = Vec::new(alloc);
    words.push(String::from_str(alloc, "ok")?)?;
    for version in versions {
        words.push(hex_word(alloc, version.as_bytes())?)?;
    }
    joined(alloc, words.as_slice(), " ")
}

/// Why bytes give no listing, unless memory was wanting.
fn listing_fault(fault: ListingErr) -> Result<ReadFault, CaseError>
    ensures { IfOk result (λ told. listing_fault_of fault ≡ Some told) }
{
    match fault {
        ListingErr::BadText(place) => Ok(ReadFault::BadText(place)),
        ListingErr::Doctype(place) => Ok(ReadFault::Doctype(place)),
        ListingErr::TooDeep(place) => Ok(ReadFault::TooDeep(place)),
        ListingErr::UnknownEncoding(place) => Ok(ReadFault::UnknownEncoding(place)),
        ListingErr::NotMetadata => Ok(ReadFault::NotMetadata),
        ListingErr::NoMemory => Err(CaseError::NoMemory),
    }
}

fn listing_counted<L: Ledger>(
    alloc: Global,
    bytes: &[u8],
    blank: Blank,
) -> Result<List<Text>, ListingErr>
    requires name { blank.name ≡ L.name }
    requires parts { blank.parts ≡ L.parts }
    requires some { 0 < blank.parts }
{
    let mut steps: Steps<L> = Steps::new(blank);
    read_listing(alloc, bytes, &mut steps)
}

/// The versions that bytes list, or why they list none.
pub fn listing_of(alloc: Global, bytes: &[u8]) -> Result<Result<List<Text>, ReadFault>, CaseError> {
    match listing_counted::<Brand>(alloc, bytes, Blank::new(1)) {
        Ok(versions) => Ok(Ok(versions)),
        Err(fault) => Ok(Err(listing_fault(fault)?)),
    }
}

pub fn listing(alloc: Global, fields: &[&str]) -> Result<String, CaseError> {
    let [text] = fields else {
        return Err(CaseError::OutOfForm);
    };
    let text = bytes_of(alloc, text)?;
    match listing_of(alloc, text.as_slice())? {
        Ok(versions) => Ok(listing_line(alloc, versions.as_slice())?),
        Err(fault) => Ok(fault_line(alloc, fault)?),
    }
}

//! Effective projects.
//!
//! - `effective REPOSITORIES COORD POM..`: the effective project of a coordinate in so many
//!   repositories, where POM is `R=ORG:NAME:VERSION=H`, the bytes of that project file in repository
//!   R, or `R=ORG:NAME:VERSION=absent`. The answer is `built R packaging=H moved=no` (or `yes`) and
//!   then `dep=` and `managed=` for each row; `needs`, then `R:PATH` for each; `not-found`, then the
//!   reasons with ` ; ` between them; or `refused KIND COORD..` with KIND `parent-cycle`,
//!   `import-cycle`, `too-deep` or `line-absent`, and for the last ` ; ` and the reasons likewise.
ghost use Rattle.std.specs.Prelude.{◌≡◌, ◌<◌, ◌++◌, IfOk, OnOk, true, map, codes, string_bytes};
ghost use Rattle.project_lookup.specs.KnownPairs.{stands_at};
ghost use Rattle.res_base.specs.declared.key.Role.TheVariants as roles;
ghost use Rattle.project_cases.specs.Effectives.{build_line as build_line_of, built_head as built_head_of, built_line as built_line_of, built_words as built_words_of, flag_word as flag_word_of, refusal_line as refusal_line_of, key_word as key_word_of, needs_line as needs_line_of, path_line as path_line_of, reasons_line as reasons_line_of};

use crate::lookups::{number_of, put};
use crate::poms::{field_word, pom_of, push_deps};
use crate::reasons::reason_line;
use case_words::case_error::CaseError;
use case_words::hex_word::bytes_of;
use case_words::names::{coord_of, coord_word};
use case_words::words::{joined, pieces_of};
use pom_build::{Build, BuildFault, Effective, effective as effective_project};
use project_lookup::Known;
use res_base::{Coord, FileKey, NoMemory, Reading, Reason, Role, Steps, pom_path};
use std::alloc::{AllocError, Global};
use std::marker::Brand;
use std::sync::ledger::{Blank, Ledger};

/// What is read of a project file.
fn file_reading(alloc: Global, word: &str) -> Result<Reading, CaseError>
    ensures { IfOk result (λ reading. stands_at reading roles.Pom ≡ true) }
{
    if word == "absent" {
        return Ok(Reading::Absent);
    }
    let bytes = bytes_of(alloc, word)?;
    match pom_of(alloc, bytes.as_slice())? {
        Ok(pom) => Ok(Reading::Pom(pom)),
        Err(fault) => Ok(Reading::NotReadable(fault)),
    }
}

fn put_file(alloc: Global, known: &mut Known, field: &str) -> Result<(), CaseError>
    ensures { known.new.repos ≡ known.old.repos }
{
    let pieces = pieces_of(alloc, field, '=')?;
    let [repo, coord, file] = pieces.as_slice() else {
        return Err(CaseError::OutOfForm);
    };
    let coord = coord_of(alloc, coord)?;
    let key = FileKey {
        repo: number_of(alloc, repo)?,
        role: Role::Pom,
        path: pom_path(alloc, &coord)?,
    };
    put(known, key, file_reading(alloc, file)?)
}

fn flag_word(alloc: Global, moved: bool) -> Result<String, AllocError>
    ensures { IfOk result (λ word. string_bytes word ≡ flag_word_of moved) }
{
    if moved {
        String::from_str(alloc, "moved=yes")
    } else {
        String::from_str(alloc, "moved=no")
    }
}

/// What is said of a project before its rows.
fn built_head(alloc: Global, project: &Effective) -> Result<Vec<String>, AllocError>
    ensures { IfOk result (λ words. map string_bytes words.items ≡ built_head_of project.now) }
{
    let repo = project.repo;
    let mut words = Vec::new(alloc);
    words.push(String::from_str(alloc, "built")?)?;
    words.push(format!(in alloc; "{repo}")?)?;
    words.push(field_word(alloc, "packaging", &project.packaging)?)?;
    words.push(flag_word(alloc, project.moved)?)?;
    Ok(words)
}

/// The same, and then the rows.
fn built_words(alloc: Global, project: &Effective) -> Result<Vec<String>, AllocError>
    ensures { IfOk result (λ words. map string_bytes words.items ≡ built_words_of project.now) }
{
    let mut words = built_head(alloc, project)?;
    push_deps(alloc, &mut words, "dep=", project.deps.as_slice())?;
    push_deps(alloc, &mut words, "managed=", project.managed.as_slice())?;
    Ok(words)
}

fn built_line(alloc: Global, project: &Effective) -> Result<String, AllocError>
    ensures { IfOk result (λ line. string_bytes line ≡ built_line_of project.now) }
{
    let words = built_words(alloc, project)?;
    joined(alloc, words.as_slice(), " ")
}

pub fn key_word(alloc: Global, key: &FileKey) -> Result<String, AllocError>
    ensures { IfOk result (λ word. string_bytes word ≡ key_word_of key.now) }
{
    let repo = key.repo;
    let path = key.path.as_str();
    format!(in alloc; "{repo}:{path}")
}

fn needs_line(alloc: Global, keys: &[FileKey]) -> Result<String, AllocError>
    ensures { IfOk result (λ line. string_bytes line ≡ needs_line_of keys.now) }
{
    let mut words = Vec::new(alloc);
    words.push(String::from_str(alloc, "needs")?)?;
    for key in keys {
        words.push(key_word(alloc, key)?)?;
    }
    joined(alloc, words.as_slice(), " ")
}

fn reasons_line(alloc: Global, reasons: &[Reason]) -> Result<String, AllocError>
    ensures { IfOk result (λ line. string_bytes line ≡ reasons_line_of reasons.now) }
{
    let mut words = Vec::new(alloc);
    for reason in reasons {
        words.push(reason_line(alloc, *reason)?)?;
    }
    joined(alloc, words.as_slice(), " ; ")
}

/// A refusal's kind and its path.
fn path_line(alloc: Global, kind: &str, path: &[Coord]) -> Result<String, AllocError>
    ensures { IfOk result (λ line. string_bytes line ≡ path_line_of kind.now path.now) }
{
    let mut words = Vec::new(alloc);
    words.push(String::from_str(alloc, kind)?)?;
    for coord in path {
        words.push(coord_word(alloc, coord)?)?;
    }
    joined(alloc, words.as_slice(), " ")
}

fn refusal_line(alloc: Global, fault: &BuildFault) -> Result<String, AllocError>
    ensures { IfOk result (λ line. string_bytes line ≡ refusal_line_of fault.now) }
{
    match fault {
        BuildFault::ParentCycle(path) => path_line(alloc, "refused parent-cycle", path.as_slice()),
        BuildFault::ImportCycle(path) => path_line(alloc, "refused import-cycle", path.as_slice()),
        BuildFault::TooDeep(path) => path_line(alloc, "refused too-deep", path.as_slice()),
        BuildFault::LineAbsent(coord, reasons) => {
            let coord = coord_word(alloc, coord)?;
            let reasons = reasons_line(alloc, reasons.as_slice())?;
            format!(in alloc; "refused line-absent {coord} ; {reasons}")
        }
    }
}

fn build_line(alloc: Global, build: &Build) -> Result<String, AllocError>
    ensures { IfOk result (λ line. string_bytes line ≡ build_line_of build.now) }
{
    match build {
        Build::Built(project) => built_line(alloc, project),
        Build::Needs(keys) => needs_line(alloc, keys.as_slice()),
        Build::NotFound(reasons) => {
            let reasons = reasons_line(alloc, reasons.as_slice())?;
            format!(in alloc; "not-found {reasons}")
        }
        Build::Refused(fault) => refusal_line(alloc, fault),
    }
}

fn build_counted<L: Ledger>(
    alloc: Global,
    known: &Known,
    coord: &Coord,
    blank: Blank,
) -> Result<Build, NoMemory>
    requires name { blank.name ≡ L.name }
    requires parts { blank.parts ≡ L.parts }
    requires some { 0 < blank.parts }
{
    let mut steps: Steps<L> = Steps::new(blank);
    effective_project(alloc, known, coord, &mut steps)
}

pub fn effective(alloc: Global, fields: &[&str]) -> Result<String, CaseError> {
    let [repos, coord, files @ ..] = fields else {
        return Err(CaseError::OutOfForm);
    };
    let repos = number_of(alloc, repos)?;
    if repos == 0 || repos > 16 {
        return Err(CaseError::OutOfForm);
    }
    let coord = coord_of(alloc, coord)?;
    let mut known = Known::new(alloc, repos);
    for file in files {
        put_file(alloc, &mut known, file)?;
    }
    let build = build_counted::<Brand>(alloc, &known, &coord, Blank::new(1))?;
    Ok(build_line(alloc, &build)?)
}

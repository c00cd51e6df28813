//! Class paths.
//!
//! - `classpath ADDRESSES H SETTLED..`: addresses, each H, joined by commas, and a prefix; SETTLED
//!   is the nodes and then the edges. The class path of the artifacts, all of them stored, as H.
ghost use Rattle.std.specs.Prelude.{IfOk, length};
ghost use Rattle.class_path.specs.Files.{AreAllKnown, AreFileRows};
ghost use Rattle.res_base.specs.Known.{known_of};
ghost use Rattle.resolution.specs.Settlements.{HasRepositories, IsSettlement};

use super::conditions::{are_addresses, are_known, has_repositories, is_settlement};
use artifact_files::artifacts;
use case_words::case_error::CaseError;
use case_words::hex_word::{hex_word, text_of};
use case_words::names::texts_of;
use class_path::{FileRow, class_path, file_rows};
use project_cases::lookups::put;
use project_lookup::Known;
use res_base::{Copied, FileKey, List, Reading, Role, Text};
use resolution::Settled;
use round_cases::artifacts::settled_of;
use std::alloc::Global;

fn new_known(alloc: Global, repos: usize) -> Result<Known, CaseError> {
    if repos == 0 || repos > 16 {
        return Err(CaseError::OutOfForm);
    }
    Ok(Known::new(alloc, repos as u32))
}

/// Puts in that the file of an artifact is stored.
fn put_stored(alloc: Global, known: &mut Known, key: &FileKey) -> Result<(), CaseError> {
    let stored = FileKey {
        repo: key.repo,
        role: Role::Artifact,
        path: key.path.copy(alloc)?,
    };
    put(known, stored, Reading::Stored(0))
}

/// All artifacts, each stored.
fn all_stored(alloc: Global, keys: &[FileKey], repos: usize) -> Result<Known, CaseError>
    ensures { IfOk result (λ known. AreAllKnown (known_of known.pairs) keys.now) }
{
    let mut known = new_known(alloc, repos)?;
    for key in keys {
        put_stored(alloc, &mut known, key)?;
    }
    if !are_known(&known, keys) {
        return Err(CaseError::OutOfForm);
    }
    Ok(known)
}

/// The rows of all artifacts, each stored.
pub(crate) fn rows_of(
    alloc: Global,
    settled: &Settled,
    addresses: &List<Text>,
) -> Result<List<FileRow>, CaseError>
    requires settlement { IsSettlement settled.now }
    requires repositories { HasRepositories (length addresses.now) settled.now }
    ensures { IfOk result (AreFileRows (length addresses.now)) }
{
    if !are_addresses(alloc, addresses)? {
        return Err(CaseError::OutOfForm);
    }
    let keys = artifacts(alloc, settled)?;
    let known = all_stored(alloc, keys.as_slice(), addresses.len())?;
    Ok(file_rows(alloc, settled, &known, addresses)?)
}

pub fn classpath(alloc: Global, fields: &[&str]) -> Result<String, CaseError> {
    let [addresses, prefix, parts @ ..] = fields else {
        return Err(CaseError::OutOfForm);
    };
    let addresses = texts_of(alloc, addresses)?;
    let prefix = text_of(alloc, prefix)?;
    let settled = settled_of(alloc, parts)?;
    if !is_settlement(&settled) || !has_repositories(addresses.len(), &settled) {
        return Err(CaseError::OutOfForm);
    }
    let rows = rows_of(alloc, &settled, &addresses)?;
    let line = class_path(alloc, &rows, prefix.as_str())?;
    Ok(hex_word(alloc, line.as_bytes())?)
}

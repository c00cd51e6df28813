//! Rows of files.
ghost use Rattle.std.specs.Prelude.{◌≡◌, ◌++◌, IfOk, OnOk, length, map, option_to_list};
ghost use Rattle.std.specs.List.{filter_map};
ghost use Rattle.artifact_files.specs.Files.{artifact_keys};
ghost use Rattle.class_path.specs.Files.{AreAddresses, AreFileRows, AreKnown, file_rows_of, row_for};
ghost use Rattle.cache_layout.specs.Addresses.{IsAddress};
ghost use Rattle.cache_layout.specs.Names.{name_of};
ghost use Rattle.res_base.specs.Known.{known_of};
ghost use Rattle.res_base.specs.Paths.{url_at};
ghost use Rattle.resolution.specs.Settlements.{HasRepositories, IsSettlement};

use artifact_files::artifacts;
use cache_layout::{NameErr, cache_name};
use project_lookup::Known;
use res_base::{Copied, FileKey, List, NoMemory, Reading, Text, known_pairs};
use resolution::Settled;
use std::alloc::Global;

/// A file of a settled resolution.
#[derive(Drop)]
pub struct FileRow {
    pub key: FileKey,
    /// Its name in the cache.
    pub name: Text,
    pub reading: Reading,
}

/// The name of an address that reads is refused for want of memory alone.
fn memory_of(_err: NameErr) -> NoMemory
    requires { _err ≡ NameErr.NoMemory }
{
    NoMemory
}

/// The name in the cache of the file at a path below an address.
fn name_below(alloc: Global, address: &str, path: &str) -> Result<Text, NoMemory>
    requires { IsAddress address.now }
    ensures { IfOk result (λ name. name ≡ name_of (url_at address.now path.now)) }
{
    match cache_name(alloc, address, path) {
        Ok(name) => Ok(name),
        Err(err) => Err(memory_of(err)),
    }
}

/// The row of a file, where its repository has an address and it is known.
fn row_at(
    alloc: Global,
    known: &Known,
    addresses: &List<Text>,
    key: FileKey,
) -> Result<Option<FileRow>, NoMemory>
    requires { AreAddresses addresses.now }
    ensures { IfOk result (λ row. row ≡ row_for (known_of known.now.pairs) addresses.now key) }
{
    let Some(address) = addresses.get(key.repo as usize) else {
        return Ok(None);
    };
    let Some(reading) = known.at(&key) else {
        return Ok(None);
    };
    let name = name_below(alloc, address.as_str(), key.path.as_str())?;
    let reading = reading.copy(alloc)?;
    Ok(Some(FileRow { key, name, reading }))
}

fn put_row(rows: &mut List<FileRow>, row: Option<FileRow>) -> Result<(), NoMemory>
    ensures { OnOk result (rows.new ≡ rows.old ++ option_to_list row) }
{
    match row {
        None => Ok(()),
        Some(row) => rows.push(row),
    }
}

/// A row for each key that has one.
fn all_rows(
    alloc: Global,
    known: &Known,
    addresses: &List<Text>,
    keys: List<FileKey>,
) -> Result<List<FileRow>, NoMemory>
    requires { AreAddresses addresses.now }
    ensures { IfOk result (λ rows. rows ≡ filter_map (row_for (known_of known.now.pairs) addresses.now) keys) }
{
    let mut rows: List<FileRow> = List::new(alloc);
    for key in keys.into_vec() {
        put_row(&mut rows, row_at(alloc, known, addresses, key)?)?;
    }
    Ok(rows)
}

/// A row for each artifact of a settled resolution, in their order: its key, its name in the cache,
/// and what is known of it. All artifacts are to be known.
pub fn file_rows(
    alloc: Global,
    settled: &Settled,
    known: &Known,
    addresses: &List<Text>,
) -> Result<List<FileRow>, NoMemory>
    requires settlement { IsSettlement settled.now }
    requires repositories { HasRepositories (length addresses.now) settled.now }
    requires addresses { AreAddresses addresses.now }
    requires known { AreKnown (known_of known.now.pairs) settled.now }
    ensures rows { IfOk result (λ rows. rows ≡ file_rows_of settled.now (known_of known.now.pairs) addresses.now) }
    ensures keys { IfOk result (λ rows. map (λ row. row.key) rows ≡ artifact_keys settled.now) }
    ensures fit { IfOk result (AreFileRows (length addresses.now)) }
{
    known_pairs();
    let _known = known.len();
    let keys = artifacts(alloc, settled)?;
    all_rows(alloc, known, addresses, keys)
}

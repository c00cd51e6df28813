//! The encodings and the named entities, as tables that are made once for a document.

ghost use Rattle.std.specs.Prelude.{◌≡◌, IfOk, IfErr};
ghost use Rattle.case_table.specs.Rows.{value_at};
ghost use Rattle.pom_grammar.specs.Declarations.{encoding_rows, known};
ghost use Rattle.pom_grammar.specs.References.{entity_rows};

use case_table::{AddErr, Table, rows};
use pom_grammar::Encoding;
use res_base::NoMemory;
use std::alloc::Global;
use std::str;

fn encodings_of_rows(alloc: Global) -> Result<Table<Encoding>, AddErr>
    ensures value { IfOk result (λ table. table ≡ encoding_rows) }
    ensures sorted { IfErr result (λ e. e ≡ AddErr.NoMemory) }
{
    Ok(rows! {
        alloc;
        "ascii" => Encoding::Ascii,
        "iso-8859-1" => Encoding::Latin1,
        "latin1" => Encoding::Latin1,
        "us-ascii" => Encoding::Ascii,
        "utf-8" => Encoding::Utf8,
        "utf8" => Encoding::Utf8,
    })
}

fn entities_of_rows(alloc: Global) -> Result<Table<char>, AddErr>
    ensures value { IfOk result (λ table. table ≡ entity_rows) }
    ensures sorted { IfErr result (λ e. e ≡ AddErr.NoMemory) }
{
    Ok(rows! {
        alloc;
        "amp" => '&',
        "apos" => '\'',
        "gt" => '>',
        "lt" => '<',
        "quot" => '"',
    })
}

/// The encodings by their names in lower case.
pub(crate) fn encoding_table(alloc: Global) -> Result<Table<Encoding>, NoMemory>
    ensures { IfOk result (λ table. table ≡ encoding_rows) }
{
    match encodings_of_rows(alloc) {
        Ok(table) => Ok(table),
        Err(AddErr::NoMemory) => Err(NoMemory),
        Err(AddErr::NotSorted(_)) => unreachable!(),
    }
}

/// The characters of the named entities.
pub(crate) fn entity_table(alloc: Global) -> Result<Table<char>, NoMemory>
    ensures { IfOk result (λ table. table ≡ entity_rows) }
{
    match entities_of_rows(alloc) {
        Ok(table) => Ok(table),
        Err(AddErr::NoMemory) => Err(NoMemory),
        Err(AddErr::NotSorted(_)) => unreachable!(),
    }
}

/// The character of an entity's name.
pub(crate) fn entity(entities: &Table<char>, name: &[u8]) -> Option<char>
    requires { entities.now ≡ entity_rows }
    ensures { result ≡ value_at name.now entity_rows }
{
    match str::from_utf8(name) {
        Ok(name) => entities.find(name).copied(),
        Err(_) => None,
    }
}

fn encoding(encodings: &Table<Encoding>, lowered: &[u8]) -> Option<Encoding>
    requires { encodings.now ≡ encoding_rows }
    ensures { result ≡ value_at lowered.now encoding_rows }
{
    match str::from_utf8(lowered) {
        Ok(lowered) => encodings.find(lowered).copied(),
        Err(_) => None,
    }
}

/// How long the longest name of an encoding is.
const LONGEST: usize = 10;

/// The encoding of a name, whose letters may be of either case.
pub(crate) fn known(encodings: &Table<Encoding>, name: &[u8]) -> Option<Encoding>
    requires { encodings.now ≡ encoding_rows }
    ensures { result ≡ known name.now }
{
    let mut lowered = [0; LONGEST];
    if LONGEST < name.len() {
        return None;
    }
    for i in 0..name.len() {
        lowered[i] = name[i].to_ascii_lowercase();
    }
    encoding(encodings, &lowered[..name.len()])
}

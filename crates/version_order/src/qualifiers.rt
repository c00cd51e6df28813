//! The words that have a class of their own.

ghost use Rattle.std.specs.Prelude.{◌≡◌, IfOk, IfErr, IfSome};
ghost use Rattle.version_order.specs.Ranks.{qualifiers};
ghost use Rattle.case_table.specs.Rows.{value_at};
ghost use Rattle.case_table.specs.declared.table.AddErr.TheVariants.{NoMemory as OutOfMemory};

use case_table::{AddErr, Table};
use interval_sets::NoMemory;
use std::alloc::Global;
use std::str;

macro_rules! rows {
    ($alloc:expr; $($name:literal => $value:expr),+ $(,)?) => {{
        let mut table = Table::new($alloc);
        $(table.add($alloc, $name, $value)?;)+
        table
    }};
}

fn qualifiers(alloc: Global) -> Result<Table<u8>, AddErr>
    ensures value { IfOk result (λ table. table ≡ qualifiers) }
    ensures sorted { IfErr result (λ e. e ≡ OutOfMemory) }
{
    Ok(rows! {
        alloc;
        "alpha" => 0,
        "beta" => 1,
        "cr" => 3,
        "final" => 5,
        "ga" => 5,
        "milestone" => 2,
        "rc" => 3,
        "release" => 5,
        "snapshot" => 4,
        "sp" => 6,
    })
}

fn made(alloc: Global) -> Result<Table<u8>, NoMemory>
    ensures { IfOk result (λ table. table ≡ qualifiers) }
{
    match qualifiers(alloc) {
        Ok(table) => Ok(table),
        Err(AddErr::NoMemory) => Err(NoMemory),
        Err(AddErr::NotSorted(_)) => unreachable!(),
    }
}

fn find(table: &Table<u8>, word: &[u8]) -> Option<u8>
    requires { table.now ≡ qualifiers }
    ensures { result ≡ value_at word.now qualifiers }
{
    match str::from_utf8(word) {
        Ok(word) => table.find(word).copied(),
        Err(_) => None,
    }
}

/// The class of a word in small letters. The table is made at the first word of a text.
pub(crate) fn class_of(
    alloc: Global,
    table: &mut Option<Table<u8>>,
    word: &[u8],
) -> Result<Option<u8>, NoMemory>
    requires { IfSome table.old (λ rows. rows ≡ qualifiers) }
    ensures value { IfOk result (λ class. class ≡ value_at word.now qualifiers) }
    ensures kept { IfSome table.new (λ rows. rows ≡ qualifiers) }
{
    if table.is_none() {
        *table = Some(made(alloc)?);
    }
    match table {
        Some(rows) => Ok(find(rows, word)),
        None => unreachable!(),
    }
}

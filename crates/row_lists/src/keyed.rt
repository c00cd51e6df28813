//! Rows that are compared by their keys.
ghost use Rattle.std.specs.Prelude.{◌≡◌, IfOk};
ghost use Rattle.std.proofs.Common.{rules};
ghost use Rattle.std.specs.Cmp.{partial_order_from_own_ties};
ghost use Rattle.std.specs.Cmp.Rules.{comparing};
ghost use Rattle.std.specs.Ordering.{as_partial_cmp};
ghost use Rattle.row_lists.specs.Keys.{key_part, key_ties, row_key_cmp};
ghost use Rattle.row_lists.specs.RowLists.{kind_or_jar, row_key_eq};

use res_base::{Copied, DepRecord, List, NoMemory, Text};
use std::alloc::Global;
use std::cmp::Ordering;
use std::marker::Model;

/// A row that is compared by its key alone.
#[derive(Drop)]
pub(crate) struct KeyedRow {
    pub row: DepRecord,
}

impl Model for KeyedRow {
    ghost use Rattle.res_base.specs.declared.pom.DepRecord.{DepRecord as Row};

    ghost Value = { Row };

    ghost view = { λ keyed. keyed.row };
}

/// The row's type, `jar` where it is absent.
fn kind_of(row: &DepRecord) -> &str
    ensures { result.now ≡ kind_or_jar row.now }
{
    if row.kind.is_empty() {
        "jar"
    } else {
        row.kind.as_str()
    }
}

fn have_one_key(a: &DepRecord, b: &DepRecord) -> bool
    ensures { result ≡ row_key_eq a.now b.now }
{
    a.module == b.module && kind_of(a) == kind_of(b) && a.classifier == b.classifier
}

fn key_order(a: &DepRecord, b: &DepRecord) -> Ordering
    ensures { result ≡ row_key_cmp a.now b.now }
{
    let by_kind = kind_of(a).cmp(kind_of(b));
    let by_rest = by_kind.then(a.classifier.cmp(&b.classifier));
    a.module.cmp(&b.module).then(by_rest)
}

/// A row with the key of another, and nothing else.
pub(crate) fn key_part_of(alloc: Global, row: &DepRecord) -> Result<KeyedRow, NoMemory>
    ensures { IfOk result (λ made. made ≡ key_part row.now) }
{
    let row = DepRecord {
        module: row.module.copy(alloc)?,
        version: Text::new(alloc),
        kind: row.kind.copy(alloc)?,
        classifier: row.classifier.copy(alloc)?,
        scope: Text::new(alloc),
        optional: Text::new(alloc),
        exclusions: List::new(alloc),
    };
    Ok(KeyedRow { row })
}

impl PartialEq for KeyedRow {
    ghost eq = { row_key_eq };

    ghost laws = { Prim.search (comparing, rules) };

    fn eq(&self, other: &KeyedRow) -> bool {
        have_one_key(&self.row, &other.row)
    }
}

impl Eq for KeyedRow {
    ghost laws = { Prim.search (comparing, rules) };
}

impl PartialOrd for KeyedRow {
    ghost partial_cmp = { as_partial_cmp row_key_cmp };

    ghost laws = { partial_order_from_own_ties (Prim.search (comparing, rules)) key_ties };

    fn partial_cmp(&self, other: &KeyedRow) -> Option<Ordering> {
        Some(self.cmp(other))
    }
}

impl Ord for KeyedRow {
    ghost cmp = { row_key_cmp };

    ghost total = { Prim.search (comparing, rules) };

    ghost matches_partial_cmp = { Prim.search (comparing, rules) };

    ghost matches_eq = { key_ties };

    fn cmp(&self, other: &KeyedRow) -> Ordering {
        key_order(&self.row, &other.row)
    }
}

/// A row elsewhere that is compared by its key alone.
#[derive(Drop)]
pub(crate) struct RowRef<'a> {
    pub row: &'a DepRecord,
}

impl<'a> Model for RowRef<'a> {
    ghost use Rattle.res_base.specs.declared.pom.DepRecord.{DepRecord as Row};

    ghost Value = { Row };

    ghost view = { λ keyed. keyed.row.now };
}

impl<'a> PartialEq for RowRef<'a> {
    ghost eq = { row_key_eq };

    ghost laws = { Prim.search (comparing, rules) };

    fn eq(&self, other: &RowRef<'a>) -> bool {
        have_one_key(self.row, other.row)
    }
}

impl<'a> Eq for RowRef<'a> {
    ghost laws = { Prim.search (comparing, rules) };
}

impl<'a> PartialOrd for RowRef<'a> {
    ghost partial_cmp = { as_partial_cmp row_key_cmp };

    ghost laws = { partial_order_from_own_ties (Prim.search (comparing, rules)) key_ties };

    fn partial_cmp(&self, other: &RowRef<'a>) -> Option<Ordering> {
        Some(self.cmp(other))
    }
}

impl<'a> Ord for RowRef<'a> {
    ghost cmp = { row_key_cmp };

    ghost total = { Prim.search (comparing, rules) };

    ghost matches_partial_cmp = { Prim.search (comparing, rules) };

    ghost matches_eq = { key_ties };

    fn cmp(&self, other: &RowRef<'a>) -> Ordering {
        key_order(self.row, other.row)
    }
}

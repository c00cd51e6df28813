//! Keys of rows.
ghost use Rattle.std.specs.Prelude.{◌≡◌, IfOk};
ghost use Rattle.std.proofs.Common.{rules};
ghost use Rattle.std.specs.Cmp.{partial_order_from_own_ties};
ghost use Rattle.std.specs.Cmp.Rules.{comparing};
ghost use Rattle.std.specs.Ordering.{as_partial_cmp};
ghost use Rattle.row_lists.specs.RowLists.{kind_or_jar};
ghost use Rattle.round_core.specs.Steering.{key_of_row as key_for, row_key_cmp, row_key_eq};

use res_base::{Copied, DepRecord, Module, NoMemory, Text};
use std::alloc::Global;
use std::cmp::Ordering;

/// What a row of dependencies is known by. Keys are ordered by module, then by type, then by
/// classifier.
#[derive(Drop)]
pub(crate) struct RowKey {
    pub module: Module,
    /// The type, `jar` where it is absent.
    pub kind: Text,
    pub classifier: Text,
}

impl PartialEq for RowKey {
    ghost eq = { row_key_eq };

    ghost laws = { Prim.search (comparing, rules) };

    fn eq(&self, other: &RowKey) -> bool {
        self.module == other.module
            && self.kind == other.kind
            && self.classifier == other.classifier
    }
}

impl Eq for RowKey {
    ghost laws = { Prim.search (comparing, rules) };
}

impl PartialOrd for RowKey {
    ghost partial_cmp = { as_partial_cmp row_key_cmp };

    ghost laws = { partial_order_from_own_ties (Prim.search (comparing, rules)) (Prim.search (comparing, rules)) };

    fn partial_cmp(&self, other: &RowKey) -> Option<Ordering> {
        Some(self.cmp(other))
    }
}

impl Ord for RowKey {
    ghost cmp = { row_key_cmp };

    ghost total = { Prim.search (comparing, rules) };

    ghost matches_partial_cmp = { Prim.search (comparing, rules) };

    ghost matches_eq = { Prim.search (comparing, rules) };

    fn cmp(&self, other: &RowKey) -> Ordering {
        let by_module = self.module.cmp(&other.module);
        let by_kind = self.kind.cmp(&other.kind);
        by_module
            .then(by_kind)
            .then(self.classifier.cmp(&other.classifier))
    }
}

fn kind_of(alloc: Global, row: &DepRecord) -> Result<Text, NoMemory>
    ensures { IfOk result (λ made. made ≡ kind_or_jar row.now) }
{
    if row.kind.is_empty() {
        return Text::of(alloc, "jar");
    }
    row.kind.copy(alloc)
}

pub(crate) fn key_of_row(alloc: Global, row: &DepRecord) -> Result<RowKey, NoMemory>
    ensures { IfOk result (λ made. made ≡ key_for row.now) }
{
    Ok(RowKey {
        module: row.module.copy(alloc)?,
        kind: kind_of(alloc, row)?,
        classifier: row.classifier.copy(alloc)?,
    })
}

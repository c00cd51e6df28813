//! Rows with distinct keys.
ghost use Rattle.std.specs.Prelude.{◌≡◌, [], IfOk};
ghost use Rattle.row_lists.specs.RowLists.{all_managed, managed_by, with_imported as imported_rows, with_row as rows_with};

use super::completed::completed;
use super::keyed::{KeyedRow, key_part_of};
use res_base::{Copied, DepRecord, List, NoMemory};
use std::alloc::Global;
use std::collections::BTreeMap;
use std::marker::Model;

/// Rows of which each has a key of its own, in order. Contracts see the list of them.
#[derive(Drop)]
pub struct RowTable {
    rows: Vec<DepRecord>,
    /// The place of each key among the rows, in an ordered table: strangers choose the keys.
    places: BTreeMap<KeyedRow, usize>,
}

impl Model for RowTable {
    ghost use Rattle.std.specs.Prelude.{List};
    ghost use Rattle.res_base.specs.declared.pom.DepRecord.{DepRecord as Row};
    ghost use Rattle.row_lists.specs.Keys.{HasPlaces};

    ghost Value = { List Row };

    ghost view = { λ table. table.rows.items };

    ghost invariant = { λ table. HasPlaces table.rows.items table.places };
}

impl RowTable {
    pub fn new(alloc: Global) -> RowTable
        ensures { result ≡ [] }
    {
        RowTable {
            rows: Vec::new(alloc),
            places: BTreeMap::new(alloc),
        }
    }

    /// The table with a row at its end, unless an earlier row has its key.
    pub(crate) fn with_row(self, row: DepRecord) -> Result<RowTable, NoMemory>
        ensures { IfOk result (λ made. made ≡ rows_with self row) }
    {
        let keyed = KeyedRow { row };
        let RowTable {
            mut rows,
            mut places,
        } = self;
        if places.contains_key(&keyed) {
            return Ok(RowTable { rows, places });
        }
        let key = key_part_of(*rows.allocator(), &keyed.row)?;
        places.insert(key, rows.len())?;
        rows.push(keyed.row)?;
        Ok(RowTable { rows, places })
    }

    /// The table with more rows at its end, each where no earlier row has its key.
    pub fn with_imported(self, more: List<DepRecord>) -> Result<RowTable, NoMemory>
        ensures { IfOk result (λ made. made ≡ imported_rows self more) }
    {
        let mut made = self;
        for row in more.into_vec() {
            made = made.with_row(row)?;
        }
        Ok(made)
    }

    /// The table with a copy of a row at its end, unless an earlier row has its key.
    fn with_copy(self, row: &DepRecord) -> Result<RowTable, NoMemory>
        ensures { IfOk result (λ made. made ≡ rows_with self row.now) }
    {
        let RowTable {
            mut rows,
            mut places,
        } = self;
        let alloc = *rows.allocator();
        let key = key_part_of(alloc, row)?;
        if places.contains_key(&key) {
            return Ok(RowTable { rows, places });
        }
        places.insert(key, rows.len())?;
        rows.push(row.copy(alloc)?)?;
        Ok(RowTable { rows, places })
    }

    /// The table with copies of more rows at its end, each where no earlier row has its key.
    pub fn with_copies(self, more: &[DepRecord]) -> Result<RowTable, NoMemory>
        ensures { IfOk result (λ made. made ≡ imported_rows self more.now) }
    {
        let mut made = self;
        for row in more {
            made = made.with_copy(row)?;
        }
        Ok(made)
    }

    pub fn into_rows(self) -> List<DepRecord>
        ensures { result ≡ self }
    {
        let RowTable { rows, .. } = self;
        List::from_vec(rows)
    }

    /// A dependency with what it takes from the row with its key.
    fn managed(&self, alloc: Global, row: DepRecord) -> Result<DepRecord, NoMemory>
        ensures { IfOk result (λ made. made ≡ managed_by self.now row) }
    {
        let keyed = KeyedRow { row };
        match self.places.get(&keyed) {
            None => completed(alloc, None, keyed.row),
            Some(place) => completed(alloc, Some(&self.rows[*place]), keyed.row),
        }
    }

    /// Dependencies with what each takes from the row with its key: a version, a scope and
    /// exclusions where it has none. Without a type it then has `jar`, without a scope `compile`.
    pub fn all_managed(
        &self,
        alloc: Global,
        rows: List<DepRecord>,
    ) -> Result<List<DepRecord>, NoMemory>
        ensures { IfOk result (λ made. made ≡ all_managed self.now rows) }
    {
        let mut made: List<DepRecord> = List::new(alloc);
        for row in rows.into_vec() {
            made.push(self.managed(alloc, row)?)?;
        }
        Ok(made)
    }
}

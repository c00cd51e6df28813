//! Rows elsewhere, with distinct keys.
ghost use Rattle.std.specs.Option.{option_copied};
ghost use Rattle.std.specs.Prelude.{◌≡◌, [], map, IfOk};
ghost use Rattle.std.specs.List.{find};
ghost use Rattle.row_lists.specs.Keys.{place_of};
ghost use Rattle.row_lists.specs.RowLists.{row_key_eq, with_imported as imported_rows, with_row as rows_with};

use super::keyed::RowRef;
use res_base::{DepRecord, NoMemory};
use std::alloc::Global;
use std::collections::BTreeMap;
use std::marker::Model;

/// Rows of which each has a key of its own, in order. They stand elsewhere. Contracts see the list
/// of them.
#[derive(Drop)]
pub struct RowSet<'a> {
    rows: Vec<&'a DepRecord>,
    /// The place of each key among the rows, in an ordered table: strangers choose the keys.
    places: BTreeMap<RowRef<'a>, usize>,
}

impl<'a> Model for RowSet<'a> {
    ghost use Rattle.std.specs.Prelude.{List, map};
    ghost use Rattle.res_base.specs.declared.pom.DepRecord.{DepRecord as Row};
    ghost use Rattle.row_lists.specs.Keys.{HasPlaces};

    ghost Value = { List Row };

    ghost view = { λ set. map (λ row. row.now) set.rows.items };

    ghost invariant = { λ set. HasPlaces (map (λ row. row.now) set.rows.items) set.places };
}

impl<'a> RowSet<'a> {
    pub fn new(alloc: Global) -> RowSet<'a>
        ensures { result ≡ [] }
    {
        RowSet {
            rows: Vec::new(alloc),
            places: BTreeMap::new(alloc),
        }
    }

    /// The set with a row at its end, unless an earlier row has its key.
    pub fn with_row(self, row: &'a DepRecord) -> Result<RowSet<'a>, NoMemory>
        ensures { IfOk result (λ made. made ≡ rows_with self.entry row.now) }
    {
        let RowSet {
            mut rows,
            mut places,
        } = self;
        if places.contains_key(&RowRef { row }) {
            return Ok(RowSet { rows, places });
        }
        places.insert(RowRef { row }, rows.len())?;
        rows.push(row)?;
        Ok(RowSet { rows, places })
    }

    /// The set with more rows at its end, each where no earlier row has its key.
    pub fn with_rows(self, more: &'a [DepRecord]) -> Result<RowSet<'a>, NoMemory>
        ensures { IfOk result (λ made. made ≡ imported_rows self.entry more.now) }
    {
        let mut made = self;
        for row in more {
            made = made.with_row(row)?;
        }
        Ok(made)
    }

    /// The row with the key of another.
    pub fn find(&self, row: &'a DepRecord) -> Option<&'a DepRecord>
        ensures { option_copied result ≡ find (row_key_eq row.now) self.now }
    {
        match self.places.get(&RowRef { row }) {
            None => None,
            Some(place) => Some(self.rows[*place]),
        }
    }

    /// The rows in their order.
    pub fn into_rows(self) -> Vec<&'a DepRecord>
        ensures { map (λ row. row.now) result.items ≡ self.entry }
    {
        let RowSet { rows, .. } = self;
        rows
    }
}

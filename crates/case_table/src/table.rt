//! Tables.
ghost use Rattle.std.specs.Prelude.{◌≡◌, [], ◌∷◌, ◌++◌, true, IfErr, OnOk, OnErr, option_copied};
ghost use Rattle.case_table.specs.Rows.{value_at, may_follow, NamesRise};
ghost use Rattle.case_table.specs.Refusals.{IsRefusal};

use std::alloc::{AllocError, Global};
use std::marker::Model;

/// Out of memory.
#[derive(Clone, Copy, Debug, PartialEq, Eq)]
pub struct NoMemory;

impl From<AllocError> for NoMemory {
    fn from(_: AllocError) -> NoMemory {
        NoMemory
    }
}

/// Why a row was not added.
#[derive(Clone, Copy, Debug, PartialEq, Eq)]
pub enum AddErr {
    /// The last row's name is not below the new one. The number is that of the rows.
    NotSorted(usize),
    NoMemory,
}

impl From<AllocError> for AddErr {
    ghost use Rattle.case_table.specs.declared.table.AddErr.TheVariants.{NoMemory};

    ghost from_gives = { λ _ e. e ≡ NoMemory };

    fn from(_: AllocError) -> AddErr {
        AddErr::NoMemory
    }
}

#[derive(Drop)]
struct Row<T> {
    name: String,
    value: T,
}

impl<T> Model for Row<T> {
    ghost use Rattle.std.specs.Prelude.{ℕ, List};
    ghost use Rattle.std.specs.String.{string_bytes};

    ghost Value = { List ℕ × T };

    ghost view = { λ row. (string_bytes row.name, row.value) };
}

/// A list of values, each under a name, whose names rise by their bytes. Contracts see the list
/// of the pairs.
#[derive(Drop)]
pub struct Table<T> {
    rows: Vec<Row<T>>,
}

impl<T> Model for Table<T> {
    ghost use Rattle.std.specs.Prelude.{ℕ, List};
    ghost use Rattle.case_table.specs.Rows.{NamesRise};

    ghost Value = { List (List ℕ × T) };

    ghost view = { λ table. table.rows.items };

    ghost invariant = { λ table. NamesRise table.rows.items };
}

impl<T> Table<T> {
    pub fn new(alloc: Global) -> Table<T>
        ensures { result ≡ [] }
    {
        Table {
            rows: Vec::new(alloc),
        }
    }

    /// Puts a row after the others, which keep their places.
    ///
    /// `NotSorted` comes exactly where the name is not above that of the last row, and then no
    /// memory is taken. After a refusal the table is as it was, and the value is dropped.
    pub fn add(&mut self, alloc: Global, name: &str, value: T) -> Result<(), AddErr>
    where
        T: Drop,
        ensures added { OnOk result (self.new ≡ self.old ++ (name.now, value) ∷ []) }
        ensures sorted { OnOk result (may_follow self.old name.now ≡ true) }
        ensures refused { IfErr result (IsRefusal self.old name.now) }
        ensures unchanged { OnErr result (self.new ≡ self.old) }
        ensures rising { NamesRise self.new }
    {
        if !self.may_take(name) {
            return Err(AddErr::NotSorted(self.rows.len()));
        }
        self.push(alloc, name, value)?;
        Ok(())
    }

    fn may_take(&self, name: &str) -> bool
        ensures value { result ≡ may_follow self.now name.now }
        ensures rising { NamesRise self.now }
    {
        match self.rows.last() {
            Some(row) => row.name.as_str() < name,
            None => true,
        }
    }

    fn push(&mut self, alloc: Global, name: &str, value: T) -> Result<(), AllocError>
    where
        T: Drop,
        requires { may_follow self.old name.now ≡ true }
        ensures added { OnOk result (self.new ≡ self.old ++ (name.now, value) ∷ []) }
        ensures unchanged { OnErr result (self.new ≡ self.old) }
        ensures rising { OnOk result (NamesRise self.new) }
    {
        let name = String::from_str(alloc, name)?;
        self.rows.push(Row { name, value })?;
        Ok(())
    }

    /// The value of the first row with this name. It takes no memory.
    pub fn find(&self, name: &str) -> Option<&T>
        ensures value { option_copied result ≡ value_at name.now self.now }
        ensures rising { NamesRise self.now }
    {
        match self
            .rows
            .binary_search_by(|row| row.name.as_str().cmp(name))
        {
            Ok(place) => Some(&self.rows[place].value),
            Err(_) => None,
        }
    }
}

#[cfg(test)]
mod tests {
    use super::*;
    use std::test::Fail;

    fn filled(alloc: Global, names: &[&str]) -> Result<Table<usize>, AddErr> {
        let mut table = Table::new(alloc);
        for (place, name) in names.iter().enumerate() {
            table.add(alloc, name, place)?;
        }
        Ok(table)
    }

    #[test]
    fn names_rise_by_bytes(rt: HostRuntime) -> Result<(), Fail> {
        let refused: [([&str; 3], usize); 5] = [
            (["b", "a", "c"], 1),
            (["a", "a", "b"], 1),
            (["a", "b", "b"], 2),
            (["a", "ab", "B"], 2),
            (["", "a", ""], 2),
        ];
        for (names, count) in &refused {
            let answer = filled(rt.alloc(), names.as_slice()).err();
            assert_eq!(rt; answer, Some(AddErr::NotSorted(*count)));
        }
        Ok(())
    }

    #[test]
    fn finds_what_was_added(rt: HostRuntime) -> Result<(), Fail> {
        let names = ["", "B", "a", "aa", "b", "é"];
        let table = filled(rt.alloc(), names.as_slice())?;
        for (place, name) in names.iter().enumerate() {
            assert_eq!(rt; table.find(name).copied(), Some(place));
        }
        for name in &["A", "ab", "z", "aaa"] {
            assert_eq!(rt; table.find(name).copied(), None);
        }
        Ok(())
    }
}

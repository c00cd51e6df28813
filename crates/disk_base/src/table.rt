//! The names of a disk in memory, found by hash.
ghost use Rattle.std.specs.Prelude.{◌≡◌, ◌<◌, ◌≤◌, ◌^◌, ℕ, List, IfOk, OnOk, is_some, length};
ghost use Rattle.disk_base.specs.Crashes.{picked, was_bound};
ghost use Rattle.disk_base.specs.Names.{after, bound_anew, longer, made_firm, no_names, put_at, read_name, renamed, run, settled, with_now};
ghost use Rattle.disk_base.specs.Reads.{AnswersRead, AreRead, FitsRoom};
ghost use Rattle.disk_base.specs.Tables.{HasNamesInOrder, IsKeyAt, bindings_at, firmly, names_in, names_of};
ghost use Rattle.indexmap.specs.IndexMap.{index_map_len};

use crate::contents::{Bindings, Content};
use crate::crash::{row_picked, row_was_bound};
use crate::rows::{FirstName, Row, Table};
use crate::{DiskStep, Read};
use indexmap::IndexMap;
use res_base::{Copied, List, NoMemory, Text};
use std::alloc::Global;

impl Copied for Content {
    fn copy(&self, alloc: Global) -> Result<Content, NoMemory> {
        Ok(Content {
            bytes: List::from_slice(alloc, self.bytes.as_slice())?,
            firm: self.firm,
        })
    }
}

/// A name gets a new binding.
fn bind_anew(
    alloc: Global,
    row: &mut Row,
    turn: u64,
    content: Option<Content>,
) -> Result<(), NoMemory>
    ensures bound { OnOk result (row.new.bindings ≡ bound_anew content (bindings_at turn row.old)) }
    ensures turn { row.new.turn ≡ turn }
{
    if row.turn != turn {
        row.bindings.before = List::new(alloc);
        row.turn = turn;
    }
    let last = row.bindings.present.take();
    row.bindings.present = content;
    row.bindings.before.push(last)
}

/// Bytes are put at the end of what a name is bound to.
fn lengthen(alloc: Global, row: &mut Row, bytes: &[u8]) -> Result<(), NoMemory>
    ensures longer { OnOk result (row.new.bindings ≡ with_now (longer bytes.now) row.old.bindings) }
    ensures turn { row.new.turn ≡ row.old.turn }
{
    match &mut row.bindings.present {
        None => Ok(()),
        Some(content) => content.bytes.append(List::from_slice(alloc, bytes)?),
    }
}

/// What a name is bound to gets firm.
fn make_firm(row: &mut Row)
    ensures { row.new ≡ record { bindings = with_now made_firm row.old.bindings; turn = row.old.turn } }
{
    if let Some(content) = &mut row.bindings.present {
        content.firm = content.bytes.len();
    }
}

/// Copies bytes from a place on, as many as there are and as the room holds.
fn read_bytes(bytes: &[u8], at: u64, into: &mut [u8]) -> usize
    ensures read { AreRead bytes.now at into.new result }
    ensures within { result ≤ length into.old }
    ensures far { 2 ^ 63 ≤ at → result ≡ 0 }
{
    if at >= bytes.len() as u64 {
        return 0;
    }
    let rest = &bytes[at as usize..];
    let count = rest.len().min(into.len());
    into[..count].copy_from_slice(&rest[..count]);
    count
}

/// The name of the row at a place.
fn name_at(alloc: Global, rows: &IndexMap<Text, Row>, i: usize) -> Result<Text, NoMemory>
    requires { i < index_map_len rows.now }
    ensures { IfOk result (λ name. IsKeyAt rows.now i name) }
{
    let Some(pair) = rows.get_index(i) else {
        unreachable!()
    };
    Ok(pair.0.copy(alloc)?)
}

impl Table {
    fn new(alloc: Global) -> Table
        ensures { (n : List ℕ) → names_in result n ≡ no_names n }
    {
        Table {
            rows: IndexMap::new(alloc),
            turn: 0,
        }
    }

    /// A name is bound to firm bytes, or unbound, as if it had always been so.
    fn set(&mut self, alloc: Global, first: &FirstName) -> Result<(), NoMemory>
        ensures { OnOk result ((n : List ℕ) → names_in self.new n
            ≡ put_at first.now.name (firmly first.now.bytes) (names_in self.old) n) }
    {
        let present = match &first.bytes {
            None => None,
            Some(bytes) => Some(Content {
                bytes: List::from_slice(alloc, bytes.as_slice())?,
                firm: bytes.len(),
            }),
        };
        let bindings = Bindings {
            before: List::new(alloc),
            present,
        };
        let row = Row {
            bindings,
            turn: self.turn,
        };
        self.rows.insert(first.name.copy(alloc)?, row)?;
        Ok(())
    }

    /// The names with which a log begins. The first row of a name counts.
    pub(crate) fn load(alloc: Global, first: &[FirstName]) -> Result<Table, NoMemory>
        ensures { IfOk result (λ table. (n : List ℕ) → names_in table n ≡ names_of first.now n) }
    {
        let mut table = Table::new(alloc);
        let mut from = first.len();
        while from > 0 {
            from -= 1;
            table.set(alloc, &first[from])?;
        }
        Ok(table)
    }

    /// A name gets a new binding.
    fn bind(&mut self, alloc: Global, name: &Text, content: Option<Content>) -> Result<(), NoMemory>
        ensures { OnOk result ((n : List ℕ) → names_in self.new n
            ≡ put_at name.now (bound_anew content (names_in self.old name.now)) (names_in self.old) n) }
    {
        let turn = self.turn;
        if let Some(row) = self.rows.get_mut(name) {
            return bind_anew(alloc, row, turn, content);
        }
        let mut before = List::new(alloc);
        before.push(None)?;
        let bindings = Bindings {
            before,
            present: content,
        };
        let row = Row { bindings, turn };
        self.rows.insert(name.copy(alloc)?, row)?;
        Ok(())
    }

    fn append(&mut self, alloc: Global, name: &Text, bytes: &List<u8>) -> Result<(), NoMemory>
        ensures { OnOk result ((n : List ℕ) → names_in self.new n
            ≡ put_at name.now (with_now (longer bytes.now) (names_in self.old name.now)) (names_in self.old) n) }
    {
        match self.rows.get_mut(name) {
            None => Ok(()),
            Some(row) => lengthen(alloc, row, bytes.as_slice()),
        }
    }

    fn sync(&mut self, name: &Text)
        ensures { (n : List ℕ) → names_in self.new n
            ≡ put_at name.now (with_now made_firm (names_in self.old name.now)) (names_in self.old) n }
    {
        if let Some(row) = self.rows.get_mut(name) {
            make_firm(row);
        }
    }

    fn rename(&mut self, alloc: Global, from: &Text, to: &Text) -> Result<(), NoMemory>
        ensures { OnOk result ((n : List ℕ) → names_in self.new n
            ≡ renamed from.now to.now (names_in self.old) n) }
    {
        if from == to {
            return Ok(());
        }
        let content = match self.rows.get(from) {
            None => None,
            Some(row) => row.bindings.present.copy(alloc)?,
        };
        self.bind(alloc, to, content)?;
        self.bind(alloc, from, None)
    }

    /// The names are synced: a new turn begins.
    fn sync_names(&mut self) -> Result<(), NoMemory>
        ensures { OnOk result ((n : List ℕ) → names_in self.new n ≡ settled (names_in self.old n)) }
    {
        let Some(turn) = self.turn.checked_add(1) else {
            return Err(NoMemory);
        };
        self.turn = turn;
        Ok(())
    }

    /// Makes one call.
    fn apply(&mut self, alloc: Global, step: &DiskStep) -> Result<(), NoMemory>
        ensures { OnOk result ((n : List ℕ) → names_in self.new n ≡ after step.now (names_in self.old) n) }
    {
        match step {
            DiskStep::Start(name) => {
                let content = Content {
                    bytes: List::new(alloc),
                    firm: 0,
                };
                self.bind(alloc, name, Some(content))
            }
            DiskStep::Append(name, bytes) => self.append(alloc, name, bytes),
            DiskStep::Sync(name) => {
                self.sync(name);
                Ok(())
            }
            DiskStep::Rename(from, to) => self.rename(alloc, from, to),
            DiskStep::Remove(name) => self.bind(alloc, name, None),
            DiskStep::SyncNames => self.sync_names(),
        }
    }

    /// Makes these calls.
    pub(crate) fn follow(&mut self, alloc: Global, steps: &[DiskStep]) -> Result<(), NoMemory>
        ensures { OnOk result (names_in self.new ≡ run steps.now (names_in self.old)) }
    {
        for step in steps {
            self.apply(alloc, step)?;
        }
        Ok(())
    }

    /// Reads the bytes of a name.
    pub(crate) fn read(&self, name: &Text, at: u64, into: &mut [u8]) -> Read
        ensures answer { AnswersRead (read_name (names_in self.now) name.now) at into.new result }
        ensures within { FitsRoom at (length into.old) result }
    {
        match self.rows.get(name) {
            None => Read::Missing,
            Some(row) => match &row.bindings.present {
                None => Read::Missing,
                Some(content) => Read::Bytes(read_bytes(content.bytes.as_slice(), at, into)),
            },
        }
    }

    /// All names that have a row, by bytes.
    pub(crate) fn names(&mut self, alloc: Global) -> Result<List<Text>, NoMemory>
        ensures same { OnOk result ((n : List ℕ) → names_in self.new n ≡ names_in self.old n) }
        ensures order { IfOk result (HasNamesInOrder self.new) }
    {
        self.rows.sort_keys()?;
        let mut names = List::new(alloc);
        for i in 0..self.rows.len() {
            names.push(name_at(alloc, &self.rows, i)?)?;
        }
        Ok(names)
    }

    /// Some content was bound to the name since the names were synced.
    pub(crate) fn was_bound(&self, name: &Text) -> bool
        ensures { result ≡ was_bound (names_in self.now name.now) }
    {
        match self.rows.get(name) {
            None => false,
            Some(row) => row_was_bound(row, self.turn),
        }
    }

    /// The name is bound.
    pub(crate) fn is_bound(&self, name: &Text) -> bool
        ensures { result ≡ is_some (names_in self.now name.now).present }
    {
        match self.rows.get(name) {
            None => false,
            Some(row) => row.bindings.present.is_some(),
        }
    }

    /// What a number picks of the bindings of a name.
    pub(crate) fn picked(
        &self,
        alloc: Global,
        name: &Text,
        number: u64,
    ) -> Result<Option<List<u8>>, NoMemory>
        ensures { IfOk result (λ bytes. bytes ≡ picked number (names_in self.now name.now)) }
    {
        match self.rows.get(name) {
            None => Ok(None),
            Some(row) => row_picked(alloc, number, row, self.turn),
        }
    }
}

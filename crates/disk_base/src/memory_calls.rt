//! The calls of a disk in memory.
ghost use Rattle.std.specs.Option.{ForSome};
ghost use Rattle.std.specs.Prelude.{◌≡◌, [], ◌∷◌, ◌++◌, ℕ, List, IfOk, IsErrOf, OnErr, OnOk, None, Some};
ghost use Rattle.disk_base.specs.Crashes.{IsPicked};
ghost use Rattle.disk_base.specs.Images.{Image, IsImage};
ghost use Rattle.disk_base.specs.MemoryDisks.{names_now, names_showing};
ghost use Rattle.disk_base.specs.MemoryMembers.{log_of, moment_of, since_of, told_of};
ghost use Rattle.disk_base.specs.Names.{no_names, read_name};
ghost use Rattle.disk_base.specs.Reads.{AnswersRead, AreListed, FitsRoom};
ghost use Rattle.disk_base.specs.Runs.{Done, Ran};
ghost use Rattle.disk_base.specs.Selected.{held_in, is_listed, listed_in, rows_picked};
ghost use Rattle.disk_base.specs.Tables.{HasNamesInOrder, names_in, names_of};

use crate::log::{Log, Replay};
use crate::rows::{FirstName, Table};
use crate::{Disk, DiskErr, DiskStep, MemDisk, Read};
use res_base::{Copied, List, NoMemory, Text};
use std::alloc::Global;

/// The name is bound and begins so.
fn is_listed(table: &Table, name: &Text, prefix: &str) -> bool
    ensures { result ≡ is_listed (names_in table.now) prefix.now name.now }
{
    table.is_bound(name) && name.as_bytes().starts_with(prefix.as_bytes())
}

/// Of these names those that are bound and begin so.
fn listed(
    alloc: Global,
    table: &Table,
    names: &List<Text>,
    prefix: &str,
) -> Result<List<Text>, NoMemory>
    ensures { IfOk result (λ made. made ≡ listed_in (names_in table.now) prefix.now names.now) }
{
    let mut made = List::new(alloc);
    for name in names.as_slice() {
        if is_listed(table, name, prefix) {
            made.push(name.copy(alloc)?)?;
        }
    }
    Ok(made)
}

/// Of these names those that are bound, or were since the names were synced.
fn held(alloc: Global, table: &Table, names: &List<Text>) -> Result<List<Text>, NoMemory>
    ensures { IfOk result (λ made. made ≡ held_in (names_in table.now) names.now) }
{
    let mut made = List::new(alloc);
    for name in names.as_slice() {
        if table.was_bound(name) {
            made.push(name.copy(alloc)?)?;
        }
    }
    Ok(made)
}

/// What the numbers pick for each of these names.
fn pick_all(
    alloc: Global,
    table: &Table,
    names: &List<Text>,
    picks: &[u64],
) -> Result<List<FirstName>, NoMemory>
    ensures { IfOk result (λ made. made ≡ rows_picked picks.now 0 (names_in table.now) names.now) }
{
    let mut made = List::new(alloc);
    for (i, name) in names.as_slice().iter().enumerate() {
        let number = picks.get(i).copied().unwrap_or(0);
        let row = FirstName {
            name: name.copy(alloc)?,
            bytes: table.picked(alloc, name, number)?,
        };
        made.push(row)?;
    }
    Ok(made)
}

impl MemDisk {
    /// A disk without files.
    pub fn new(alloc: Global) -> MemDisk
        ensures { ⟦<MemDisk as Disk>⟧.told result ≡ Some no_names }
    {
        MemDisk {
            log: Log {
                first: List::new(alloc),
                calls: List::new(alloc),
            },
            ready: None,
        }
    }

    /// The disk that a crash leaves, if it leaves the image that the numbers pick. The names that
    /// are bound, or were since the names were synced, are taken by bytes, and each uses the
    /// number at its place, or 0 past the end. With c bindings, in order of time, it gets the one
    /// at the place `number % c`. If not all of that content is firm, the other bytes stay as
    /// written where `number / c` is even, and become zero bytes where it is odd.
    pub fn crash(&self, alloc: Global, picks: &[u64]) -> Result<MemDisk, NoMemory>
        ensures { IfOk result (λ made. (i : Image)
            × (told_of made ≡ Some (names_showing i))
            × IsImage (names_now (log_of self.now)) i
            × IsPicked picks.now (names_now (log_of self.now)) i) }
    {
        let mut table = self.log.replay(alloc)?;
        let names = table.names(alloc)?;
        let names = held(alloc, &table, &names)?;
        Ok(MemDisk {
            log: Log {
                first: pick_all(alloc, &table, &names, picks)?,
                calls: List::new(alloc),
            },
            ready: None,
        })
    }

    // Makes a change: it is put into the log.
    fn make(&mut self, step: DiskStep) -> Result<(), DiskErr>
        ensures ran { Ran told_of moment_of since_of (step ∷ []) self.old self.new }
        ensures done { OnOk result (Done told_of (step ∷ []) self.old self.new) }
        ensures unchanged { OnErr result (self.new ≡ self.old) }
        ensures only { IsErrOf result DiskErr.Failed → ⊥ }
    {
        self.log.calls.push(step)?;
        Ok(())
    }

    // Takes the table out, brought up to date.
    fn take_table(&mut self, alloc: Global) -> Result<Table, NoMemory>
        ensures log { log_of self.new ≡ log_of self.old }
        ensures names { IfOk result (λ table. (n : List ℕ) → names_in table n ≡ names_now (log_of self.old) n) }
    {
        match self.ready.take() {
            None => self.log.replay(alloc),
            Some(replay) => replay.finish(alloc, &self.log),
        }
    }

    // Puts the table back.
    fn put_table(&mut self, table: Table)
        requires { (n : List ℕ) → names_in table n ≡ names_now (log_of self.old) n }
        ensures { log_of self.new ≡ log_of self.old }
    {
        let done = self.log.calls.len();
        self.ready = Some(Replay { table, done });
    }
}

impl Disk for MemDisk {
    ghost use Rattle.disk_base.specs.MemoryMembers.{counts_now_of, moment_of, only_now_of, since_of, told_of};

    ghost told = { told_of };

    ghost moment = { moment_of };

    ghost since = { since_of };

    ghost faults = { λ _. 0 };

    ghost last = { λ _. None };

    ghost counts_now = { counts_now_of };

    ghost only_now = { only_now_of };

    fn read_at(
        &mut self,
        alloc: Global,
        name: &str,
        at: u64,
        into: &mut [u8],
    ) -> Result<Read, DiskErr> {
        let name = Text::of(alloc, name)?;
        let table = self.take_table(alloc)?;
        let read = table.read(&name, at, into);
        self.put_table(table);
        Ok(read)
    }

    fn start(&mut self, alloc: Global, name: &str) -> Result<(), DiskErr> {
        let step = DiskStep::Start(Text::of(alloc, name)?);
        self.make(step)
    }

    fn append(&mut self, alloc: Global, name: &str, bytes: &[u8]) -> Result<(), DiskErr> {
        let step = DiskStep::Append(Text::of(alloc, name)?, List::from_slice(alloc, bytes)?);
        self.make(step)
    }

    fn sync(&mut self, alloc: Global, name: &str) -> Result<(), DiskErr> {
        let step = DiskStep::Sync(Text::of(alloc, name)?);
        self.make(step)
    }

    fn rename(&mut self, alloc: Global, from: &str, to: &str) -> Result<(), DiskErr> {
        let step = DiskStep::Rename(Text::of(alloc, from)?, Text::of(alloc, to)?);
        self.make(step)
    }

    fn remove(&mut self, alloc: Global, name: &str) -> Result<(), DiskErr> {
        let step = DiskStep::Remove(Text::of(alloc, name)?);
        self.make(step)
    }

    fn sync_names(&mut self, _alloc: Global) -> Result<(), DiskErr> {
        self.make(DiskStep::SyncNames)
    }

    fn list(&mut self, alloc: Global, prefix: &str) -> Result<List<Text>, DiskErr> {
        let mut table = self.take_table(alloc)?;
        let names = table.names(alloc)?;
        let names = listed(alloc, &table, &names, prefix)?;
        self.put_table(table);
        Ok(names)
    }
}

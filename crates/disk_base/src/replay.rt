//! The table of a log.
ghost use Rattle.std.specs.Prelude.{◌≡◌, ℕ, List, IfOk};
ghost use Rattle.disk_base.specs.Follows.{Follows};
ghost use Rattle.disk_base.specs.MemoryDisks.{names_now};
ghost use Rattle.disk_base.specs.Tables.{names_in};

use crate::log::{Log, Replay};
use crate::rows::Table;
use res_base::NoMemory;
use std::alloc::Global;

impl Log {
    /// The names after all the changes.
    pub(crate) fn replay(&self, alloc: Global) -> Result<Table, NoMemory>
        ensures { IfOk result (λ table. (n : List ℕ) → names_in table n ≡ names_now self.now n) }
    {
        let mut table = Table::load(alloc, self.first.as_slice())?;
        table.follow(alloc, self.calls.as_slice())?;
        Ok(table)
    }
}

impl Replay {
    /// The names after all the changes, from those after the first so many.
    pub(crate) fn finish(self, alloc: Global, log: &Log) -> Result<Table, NoMemory>
        requires { Follows log.now self }
        ensures { IfOk result (λ table. (n : List ℕ) → names_in table n ≡ names_now log.now n) }
    {
        let Replay { mut table, done } = self;
        let calls = log.calls.as_slice();
        table.follow(alloc, &calls[done..])?;
        Ok(table)
    }
}

//! The rows of a disk in memory.
ghost use Rattle.std.specs.Prelude.{◌≤◌, ℕ, List};
ghost use Rattle.disk_base.specs.Turns.{turn_of};

use crate::contents::Bindings;
use indexmap::IndexMap;
use res_base::{List, Text};

/// What a name is bound to when a log begins: these bytes, all of them firm, or nothing.
#[derive(Drop)]
pub(crate) struct FirstName {
    pub(crate) name: Text,
    pub(crate) bytes: Option<List<u8>>,
}

/// The bindings of a name, as of a turn. Where that turn is over, the names were synced since, and
/// the bindings before the present one don't count.
#[derive(Drop)]
pub(crate) struct Row {
    pub(crate) bindings: Bindings,
    pub(crate) turn: u64,
}

/// What names are bound to, found by hash. A sync of the names begins a new turn, and touches no
/// row. After want of memory nothing is said of a table.
#[derive(Drop)]
pub(crate) struct Table {
    pub(crate) rows: IndexMap<Text, Row>,
    pub(crate) turn: u64,
    ghost turns: { (n : List ℕ) → turn_of rows n ≤ turn },
}

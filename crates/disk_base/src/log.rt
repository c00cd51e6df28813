//! The changes of a disk in memory.
ghost use Rattle.std.specs.Prelude.{◌≡◌, [], ◌∷◌, ◌++◌, OnErr, OnOk, IsErrOf};

use crate::rows::{FirstName, Table};
use crate::{DiskErr, DiskStep};
use res_base::List;

/// What the names were bound to at first, and each change since.
#[derive(Drop)]
pub(crate) struct Log {
    pub(crate) first: List<FirstName>,
    pub(crate) calls: List<DiskStep>,
}

/// The names after the first so many changes of a log.
#[derive(Drop)]
pub(crate) struct Replay {
    pub(crate) table: Table,
    pub(crate) done: usize,
}

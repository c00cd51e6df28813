//! A disk in memory.
ghost use Rattle.std.specs.Option.{ForSome};
ghost use Rattle.std.specs.Prelude.{◌≡◌, Some};
ghost use Rattle.disk_base.specs.Follows.{Follows};

use crate::log::{Log, Replay};
use crate::rows::Table;
use res_base::List;
use std::alloc::Global;

/// A disk that keeps all its changes, so that it can tell what a crash may leave. It never fails.
///
/// Its names are found by hash, in a table that is brought up to date by the next read.
#[derive(Drop)]
pub struct MemDisk {
    pub(crate) log: Log,
    pub(crate) ready: Option<Replay>,
    ghost follows: { ForSome ready (Follows log) },
}

//! Why a disk did not do what it was asked.
ghost use Rattle.std.specs.Prelude.{◌≡◌};
ghost use Rattle.disk_base.specs.declared.disk_errors.DiskErr.TheVariants.{NoMemory as OutOfMemory};

use res_base::NoMemory;
use std::alloc::{AllocError, AllocFailed};

/// The kinds of calls of a disk.
#[derive(Clone, Copy, Debug, PartialEq, Eq)]
pub enum DiskCall {
    Read,
    Start,
    Append,
    Sync,
    Rename,
    Remove,
    SyncNames,
    List,
}

#[derive(Clone, Copy, Debug, PartialEq, Eq)]
pub enum DiskErr {
    /// The disk failed. Its count of faults says so too.
    Failed,
    /// Out of memory.
    NoMemory,
}

impl From<NoMemory> for DiskErr {
    ghost from_gives = { λ _ e. e ≡ OutOfMemory };

    fn from(_: NoMemory) -> DiskErr {
        DiskErr::NoMemory
    }
}

impl From<AllocError> for DiskErr {
    ghost from_gives = { λ _ e. e ≡ OutOfMemory };

    fn from(_: AllocError) -> DiskErr {
        DiskErr::NoMemory
    }
}

impl<T: Drop> From<AllocFailed<T>> for DiskErr {
    ghost from_gives = { λ _ e. e ≡ OutOfMemory };

    fn from(_: AllocFailed<T>) -> DiskErr {
        DiskErr::NoMemory
    }
}

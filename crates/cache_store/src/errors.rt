//! Why a store did not do what it was asked.
ghost use Rattle.std.specs.Prelude.{◌≡◌};
ghost use Rattle.cache_store.specs.Causes.{fault_of};
ghost use Rattle.cache_store.specs.declared.errors.StoreErr.TheVariants.{NoMemory as OutOfMemory};

use disk_base::{DiskCall, DiskErr};
use res_base::{Digest, NoMemory};
use std::alloc::AllocError;

/// Names a part of a store.
#[derive(Clone, Copy, Debug, PartialEq, Eq, Drop)]
pub struct PartNo {
    pub number: u32,
}

#[derive(Clone, Copy, Debug, PartialEq, Eq, Drop)]
pub enum StoreErr {
    /// As many parts are open as there may be, 4,096.
    Full,
    /// This part is not open.
    PartUnknown(PartNo),
    /// The wanted digest, and the one that the content has.
    Differs(Digest, Digest),
    /// The disk failed, at a call of this kind. The store is no longer live.
    DiskFault(DiskCall),
    /// Out of memory. If it came from the disk, the store is no longer live.
    NoMemory,
}

/// A disk that could not be opened as a store, and why.
#[derive(Drop)]
pub struct OpenFault<D: Drop> {
    pub disk: D,
    pub err: StoreErr,
}

impl From<NoMemory> for StoreErr {
    ghost from_gives = { λ _ e. e ≡ OutOfMemory };

    fn from(_: NoMemory) -> StoreErr {
        StoreErr::NoMemory
    }
}

impl From<AllocError> for StoreErr {
    ghost from_gives = { λ _ e. e ≡ OutOfMemory };

    fn from(_: AllocError) -> StoreErr {
        StoreErr::NoMemory
    }
}

/// What the store says of a disk call that gave no answer.
pub(crate) fn fault(call: DiskCall, err: DiskErr) -> StoreErr
    ensures { result ≡ fault_of call err }
{
    match err {
        DiskErr::Failed => StoreErr::DiskFault(call),
        DiskErr::NoMemory => StoreErr::NoMemory,
    }
}

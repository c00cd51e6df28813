//! Why a link gave no answer.
ghost use Rattle.std.specs.Prelude.{◌≡◌};
ghost use Rattle.link_base.specs.declared.link_errors.LinkErr.TheVariants.{NoMemory as OutOfMemory};

use res_base::NoMemory;
use std::alloc::{AllocError, AllocFailed};

#[derive(Clone, Copy, Debug, PartialEq, Eq)]
pub enum LinkErr {
    /// The link failed. Its count of faults says so too.
    Failed,
    /// Out of memory.
    NoMemory,
}

impl From<NoMemory> for LinkErr {
    ghost from_gives = { λ _ e. e ≡ OutOfMemory };

    fn from(_: NoMemory) -> LinkErr {
        LinkErr::NoMemory
    }
}

impl From<AllocError> for LinkErr {
    ghost from_gives = { λ _ e. e ≡ OutOfMemory };

    fn from(_: AllocError) -> LinkErr {
        LinkErr::NoMemory
    }
}

impl<T: Drop> From<AllocFailed<T>> for LinkErr {
    ghost from_gives = { λ _ e. e ≡ OutOfMemory };

    fn from(_: AllocFailed<T>) -> LinkErr {
        LinkErr::NoMemory
    }
}

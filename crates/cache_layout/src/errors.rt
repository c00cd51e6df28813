//! Why a name or a line was refused.
use res_base::NoMemory;
use std::alloc::{AllocError, AllocFailed};

/// Why an address and a path gave no name.
#[derive(Clone, Copy, Debug, PartialEq, Eq, Drop)]
pub enum NameErr {
    /// The address is none. The place is the length of its longest prefix that begins one.
    BadAddress(usize),
    NoMemory,
}

/// Why bytes gave no record.
#[derive(Clone, Copy, Debug, PartialEq, Eq, Drop)]
pub enum RecordErr {
    /// The bytes are no line of a record. The place is the length of their longest prefix that
    /// begins one.
    BadLine(usize),
    NoMemory,
}

/// The bytes are no line of an absence record. The place is the length of their longest prefix
/// that begins one.
#[derive(Clone, Copy, Debug, PartialEq, Eq, Drop)]
pub struct BadLine(pub usize);

impl From<NoMemory> for NameErr {
    ghost use Rattle.std.specs.Prelude.{◌≡◌};
    ghost use Rattle.cache_layout.specs.declared.errors.NameErr.TheVariants.{NoMemory};

    ghost from_gives = { λ _ e. e ≡ NoMemory };

    fn from(_: NoMemory) -> NameErr {
        NameErr::NoMemory
    }
}

impl From<NoMemory> for RecordErr {
    ghost use Rattle.std.specs.Prelude.{◌≡◌};
    ghost use Rattle.cache_layout.specs.declared.errors.RecordErr.TheVariants.{NoMemory};

    ghost from_gives = { λ _ e. e ≡ NoMemory };

    fn from(_: NoMemory) -> RecordErr {
        RecordErr::NoMemory
    }
}

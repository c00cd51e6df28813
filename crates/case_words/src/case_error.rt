//! Why a line has no answer.
ghost use Rattle.std.specs.Prelude.{◌≡◌};

use hex::FromHexError;
use res_base::NoMemory;
use std::alloc::{AllocError, AllocFailed};

/// Why a line has no answer.
#[derive(Clone, Copy, Debug, PartialEq, Eq, Drop)]
pub enum CaseError {
    /// The line names no command, or is not in that command's form.
    OutOfForm,
    NoMemory,
}

impl From<NoMemory> for CaseError {
    ghost use Rattle.case_words.specs.declared.case_error.CaseError.TheVariants.{NoMemory as OutOfMemory};

    ghost from_gives = { λ _ e. e ≡ OutOfMemory };

    fn from(_: NoMemory) -> CaseError {
        CaseError::NoMemory
    }
}

impl From<interval_sets::NoMemory> for CaseError {
    ghost use Rattle.case_words.specs.declared.case_error.CaseError.TheVariants.{NoMemory as OutOfMemory};

    ghost from_gives = { λ _ e. e ≡ OutOfMemory };

    fn from(_: interval_sets::NoMemory) -> CaseError {
        CaseError::NoMemory
    }
}

impl From<AllocError> for CaseError {
    ghost use Rattle.case_words.specs.declared.case_error.CaseError.TheVariants.{NoMemory as OutOfMemory};

    ghost from_gives = { λ _ e. e ≡ OutOfMemory };

    fn from(_: AllocError) -> CaseError {
        CaseError::NoMemory
    }
}

impl<T: Drop> From<AllocFailed<T>> for CaseError {
    ghost use Rattle.case_words.specs.declared.case_error.CaseError.TheVariants.{NoMemory as OutOfMemory};

    ghost from_gives = { λ _ e. e ≡ OutOfMemory };

    fn from(_: AllocFailed<T>) -> CaseError {
        CaseError::NoMemory
    }
}

impl From<FromHexError> for CaseError {
    ghost use Rattle.hex.specs.declared.error.FromHexError.TheVariants.{OutOfMemory as HexOutOfMemory};
    ghost use Rattle.case_words.specs.declared.case_error.CaseError.TheVariants.{NoMemory as OutOfMemory};

    ghost from_gives = { λ fault e. fault ≡ HexOutOfMemory → e ≡ OutOfMemory };

    fn from(fault: FromHexError) -> CaseError {
        match fault {
            FromHexError::OutOfMemory => CaseError::NoMemory,
            _ => CaseError::OutOfForm,
        }
    }
}

//! Sinks, where printed bytes go.
ghost use Rattle.std.specs.Prelude.{◌≡◌, ℕ, List, Option, OnOk, OnErr};
ghost use Rattle.res_base.specs.Causes.{HasCause};
ghost use Rattle.link_base.specs.Sinks.{gained, GainsPrefix};
ghost use Rattle.link_base.specs.declared.sinks.SinkErr.TheVariants.{NoMemory as OutOfMemory};

use res_base::NoMemory;
use std::alloc::{AllocError, Global};

#[derive(Clone, Copy, Debug, PartialEq, Eq)]
pub enum SinkErr {
    /// The sink failed. Its count of faults says so too.
    Failed,
    /// Out of memory.
    NoMemory,
}

impl From<NoMemory> for SinkErr {
    ghost from_gives = { λ _ e. e ≡ OutOfMemory };

    fn from(_: NoMemory) -> SinkErr {
        SinkErr::NoMemory
    }
}

impl From<AllocError> for SinkErr {
    ghost from_gives = { λ _ e. e ≡ OutOfMemory };

    fn from(_: AllocError) -> SinkErr {
        SinkErr::NoMemory
    }
}

/// Takes bytes, and counts its faults.
pub trait Sink: Drop {
    /// The bytes that went out, where it tells them.
    ghost written: { Self → Option (List ℕ) };

    /// How often it failed.
    ghost faults: { Self → ℕ };

    /// Lets the bytes go out. After a refusal some prefix of them went out.
    fn put(&mut self, alloc: Global, bytes: &[u8]) -> Result<(), SinkErr>
        ensures went { OnOk result (written self.new ≡ gained (written self.old) bytes.now) }
        ensures part { OnErr result (GainsPrefix (written self.old) (written self.new) bytes.now) }
        ensures cause { HasCause SinkErr.Failed (faults self.old) (faults self.new) result };
}

//! Values that have an order, up to ties.
ghost use Rattle.std.specs.Prelude.{◌≡◌, IfOk};

use std::alloc::{AllocError, Global};
use std::cmp::Ordering;

/// Out of memory.
#[derive(Clone, Copy, Debug, PartialEq, Eq)]
pub struct NoMemory;

impl From<AllocError> for NoMemory {
    fn from(_: AllocError) -> NoMemory {
        NoMemory
    }
}

/// What has an order, up to ties, and can be copied.
pub trait Ranked: Drop {
    ghost use Rattle.std.specs.Cmp.{IsTotalOrder};
    ghost use Rattle.std.specs.declared.cmp.Ordering.{Ordering};

    ghost order: { Self → Self → Ordering };

    /// Where this value stands against the other. Values that differ may tie.
    fn cmp_rank(&self, other: &Self) -> Ordering
        ensures { result ≡ order self.now other.now };

    /// An equal value.
    fn copy(&self, alloc: Global) -> Result<Self, NoMemory>
    where
        Self: Sized,
        ensures { IfOk result (λ made. made ≡ self.now) };

    ghost total: { IsTotalOrder order };
}

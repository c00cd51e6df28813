//! The calls of an object in memory.
ghost use Rattle.std.specs.Prelude.{◌≡◌};

use res_base::List;
use std::alloc::Global;

/// Which calls of an object in memory are to fail, how many were made, and how many failed. All
/// its calls that can fail are counted together, from 0.
#[derive(Drop)]
pub(crate) struct Calls {
    pub(crate) failing: List<u64>,
    pub(crate) made: u64,
    pub(crate) faults: u64,
}

impl Calls {
    ghost use Rattle.link_base.specs.MemoryCalls.{is_to_fail, no_calls, with_call, with_fault};

    pub(crate) fn new(failing: List<u64>) -> Calls
        ensures { result ≡ no_calls failing }
    {
        Calls {
            failing,
            made: 0,
            faults: 0,
        }
    }

    /// Counts a call, and says whether it is to fail.
    pub(crate) fn next_fails(&mut self) -> bool
        ensures value { result ≡ is_to_fail self.old }
        ensures counts { self.new ≡ with_call self.old }
    {
        let call = self.made;
        self.made = self.made.saturating_add(1);
        self.failing.as_slice().contains(&call)
    }

    /// Counts a fault.
    pub(crate) fn add_fault(&mut self)
        ensures { self.new ≡ with_fault self.old }
    {
        self.faults = self.faults.saturating_add(1);
    }
}

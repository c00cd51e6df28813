//! A clock in memory.
ghost use Rattle.std.specs.Prelude.{◌≡◌, ◌<◌, length, None, Some};
ghost use Rattle.res_base.specs.Causes.{counted};

use crate::Clock;
use res_base::List;
use std::alloc::Global;

/// A clock that gives the moments of a list, and the last one again and again.
#[derive(Drop)]
pub struct MemClock {
    moments: List<u64>,
    calls: usize,
    last: Option<u64>,
    ghost some: { 0 < length moments },
}

impl MemClock {
    ghost use Rattle.link_base.specs.MemoryClocks.{calls_of, moments_of};

    /// A clock of these moments, of which there is one at least.
    pub fn new(_alloc: Global, moments: List<u64>) -> MemClock
        requires { 0 < length moments }
        ensures last { ⟦<MemClock as Clock>⟧.last result ≡ None }
        ensures moments { moments_of result ≡ moments }
        ensures calls { calls_of result ≡ 0 }
    {
        MemClock {
            moments,
            calls: 0,
            last: None,
        }
    }
}

impl Clock for MemClock {
    ghost use Rattle.link_base.specs.MemoryClocks.{calls_of, last_of, moment_at, moments_of};

    ghost last = { λ clock. clock.last };

    fn moment(&mut self) -> u64
        ensures value { result ≡ moment_at (moments_of self.old) (calls_of self.old) }
        ensures last { last_of self.new ≡ Some result }
        ensures moments { moments_of self.new ≡ moments_of self.old }
        ensures calls { calls_of self.new ≡ counted (calls_of self.old) }
    {
        let moments = self.moments.as_slice();
        let moment = if self.calls < moments.len() {
            moments[self.calls]
        } else {
            moments[moments.len() - 1]
        };
        self.calls = self.calls.saturating_add(1);
        self.last = Some(moment);
        moment
    }
}

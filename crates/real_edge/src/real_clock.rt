//! The system's clock.
ghost use Rattle.std.specs.Prelude.{◌≡◌, ◌/◌, None};
ghost use Rattle.std.specs.Time.{system_time_nanos};

use link_base::Clock;
use std::time;
use std::time::SystemTime;

/// Gives the seconds since 1970. Where the system's clock can't be read, it gives the last moment
/// again, or 0.
#[derive(Drop)]
pub struct RealClock<R> {
    runtime: R,
    last: Option<u64>,
}

/// The whole seconds from 1970 to a time.
fn seconds_of(time: SystemTime) -> u64
    ensures { result ≡ system_time_nanos time / 1_000_000_000 }
{
    match time.duration_since(SystemTime::UNIX_EPOCH) {
        Ok(passed) => passed.as_secs(),
        Err(_) => unreachable!(),
    }
}

impl<R: time::Clock + Drop> RealClock<R> {
    pub fn new(runtime: R) -> RealClock<R>
        ensures { ⟦<RealClock<R> as Clock>⟧.last result ≡ None }
    {
        RealClock {
            runtime,
            last: None,
        }
    }
}

impl<R: time::Clock + Drop> Clock for RealClock<R> {
    ghost last = { λ clock. clock.last };

    fn moment(&mut self) -> u64 {
        let moment = match SystemTime::now(&self.runtime) {
            Ok(now) => seconds_of(now),
            Err(_) => self.last.unwrap_or(0),
        };
        self.last = Some(moment);
        moment
    }
}

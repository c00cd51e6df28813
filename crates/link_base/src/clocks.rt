//! Clocks.
ghost use Rattle.std.specs.Prelude.{◌≡◌, ℕ, Option, Some};

/// Gives moments, in seconds. Nothing is claimed of them but which one came last.
pub trait Clock: Drop {
    /// The moment that it gave last, if it gave one.
    ghost last: { Self → Option ℕ };

    fn moment(&mut self) -> u64
        ensures { last self.new ≡ Some result };
}

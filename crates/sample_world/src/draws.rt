//! Numbers that are drawn: a linear congruential generator.
ghost use Rattle.std.specs.Prelude.{◌≡◌, ◌<◌};
ghost use Rattle.sample_world.specs.Draws.{drawn, state_after};

/// A generator of 64 bits, with the multiplier and the increment of Knuth's MMIX.
#[derive(Drop)]
pub(crate) struct Draws {
    pub state: u64,
}

/// The state that follows a state, modulo 2^64.
fn next_state(state: u64) -> u64
    ensures { result ≡ state_after state }
{
    let wide = state as u128 * 6_364_136_223_846_793_005 + 1_442_695_040_888_963_407;
    (wide % 0x1_0000_0000_0000_0000) as u64
}

impl Draws {
    /// Draws a number below a limit: the state goes on, and its upper 31 bits give the number.
    pub fn draw(&mut self, below: u64) -> u64
        requires { 0 < below }
        ensures state { self.new.state ≡ state_after self.old.state }
        ensures number { result ≡ drawn below self.new.state }
        ensures least { result < below }
    {
        self.state = next_state(self.state);
        (self.state >> 33) % below
    }
}

//! Generates pseudo-random numbers: the same seed gives the same numbers. They are meant only for
//! test traces, not for security.
ghost use Rattle.std.specs.Prelude.{◌≡◌, ℕ, ◌<◌};
ghost use Rattle.run_spec.specs.Generated.{random_event, next_state};

use std::marker::Model;

/// The state of a 64-bit linear congruential generator with the constants of Knuth's MMIX. In
/// contracts, the value of a generator is the number `state`.
#[derive(Drop)]
pub(crate) struct Draws {
    state: u64,
}

impl Model for Draws {
    ghost Value = { ℕ };

    ghost view = { λ d. d.state };
}

impl Draws {
    /// Creates a generator with the state `seed`.
    pub(crate) fn new(seed: u64) -> Draws
        ensures { result ≡ seed }
    {
        Draws { state: seed }
    }

    /// Returns the next random number, which is below `bound`. Precondition: `bound` isn't 0.
    pub(crate) fn draw(&mut self, bound: u32) -> u32
        requires { 0 < bound }
        ensures state { self.new ≡ next_state self.old }
        ensures number { result ≡ random_event (next_state self.old) bound }
        ensures below { result < bound }
    {
        self.state = self
            .state
            .wrapping_mul(6_364_136_223_846_793_005)
            .wrapping_add(1_442_695_040_888_963_407);
        (self.state >> 33) as u32 % bound
    }
}

//! The ticks over which a worker pool advances at once. The tables of these ticks are computed
//! before the caller needs them.
ghost use Rattle.std.specs.Prelude.{◌≡◌, ◌<◌, ◌^◌};
ghost use Rattle.replay_workers.specs.Crew.{last_of, moment_in};

use psi_base::Ns;

/// A sequence of ticks at equal distances.
#[derive(Clone, Copy, Debug)]
pub struct Ticks {
    /// The time (ns) of the first tick.
    pub first: Ns,
    /// The time (ns) between two consecutive ticks.
    pub length: Ns,
    /// The number of ticks.
    pub count: u32,
}

impl Ticks {
    /// Returns the time (ns) of tick `number`, counted from 0.
    pub(crate) fn moment(self, number: u32) -> Ns
        requires { moment_in self number < 2 ^ 64 }
        ensures { result ≡ moment_in self number }
    {
        self.first + u64::from(number) * self.length
    }

    /// Returns the time (ns) of the last tick.
    pub(crate) fn last(self) -> Ns
        requires some { 0 < self.count }
        requires fits { last_of self < 2 ^ 64 }
        ensures { result ≡ last_of self }
    {
        self.moment(self.count - 1)
    }
}

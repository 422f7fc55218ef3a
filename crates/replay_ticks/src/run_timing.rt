//! The ticks of a trace, and which of them have reports.
//!
//! The crate replay_rules decides at which ticks the rules are evaluated.
ghost use Rattle.std.specs.Prelude.{◌≡◌, ◌<◌};
ghost use Rattle.pressure_spec.specs.Ticks.{is_report, tick_moment};

use psi_base::Ns;
use replay_rules::is_due;

/// The version of a trace, the length and number of its ticks, and the period of its reports.
#[derive(Clone, Copy, Debug, PartialEq, Eq)]
pub(crate) struct RunTiming {
    /// The version of the trace. In version 2, reports include interrupts.
    pub(crate) version: u32,
    /// The length of a tick (ns).
    pub(crate) length: Ns,
    /// The time between reports (ns). 0 means a report at the last tick only.
    pub(crate) report: Ns,
    /// The number of ticks in the trace.
    pub(crate) last: u64,
}

impl RunTiming {
    /// Returns whether the tick `tick`, counted from 1, has reports. `at` is the time of the tick
    /// (ns). The last tick always has reports. Any other tick has reports if a multiple of the
    /// report period lies in the interval that ends at the tick.
    pub(crate) fn is_report(self, tick: u64, at: Ns) -> bool
        requires some { 0 < tick }
        requires moment { at ≡ tick_moment self.length tick }
        ensures { result ≡ is_report self.report self.length self.last tick }
    {
        if tick == self.last {
            return true;
        }
        self.report > 0 && is_due(self.report, self.length, at)
    }
}

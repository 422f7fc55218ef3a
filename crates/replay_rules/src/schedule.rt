//! Computes the times of ticks, and the ticks at which a periodic action is due.
//!
//! The functions have no state.
ghost use Rattle.std.specs.Prelude.{◌≡◌, ◌*◌, ◌<◌, ◌^◌, ℕ};
ghost use Rattle.pressure_spec.specs.Ticks.{is_due, tick_moment};

use psi_base::Ns;

/// Returns the time (ns) of the tick with the number `tick`. Ticks are numbered from 1 and are
/// `length` ns long.
pub fn tick_moment(length: Ns, tick: u64) -> Ns
    requires { tick_moment length tick < 2 ^ 64 }
    ensures { result ≡ tick_moment length tick }
{
    tick * length
}

/// Returns whether an action with this `period` (ns) is due at the tick at time `at` (ns), for
/// ticks of `length` ns. The action is due if a multiple of `period` lies in the interval (at -
/// length, at].
pub fn is_due(period: Ns, length: Ns, at: Ns) -> bool
    requires due { 0 < period }
    requires tick { (tick : ℕ) × (0 < tick) × (at ≡ tick_moment length tick) }
    ensures { (tick : ℕ) → 0 < tick → at ≡ tick_moment length tick →
        result ≡ is_due period length tick }
{
    let before = at - length;
    before / period < at / period
}

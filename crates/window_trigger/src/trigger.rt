//! The state of a single pressure trigger.
//!
//! The caller passes the total stall time on which the trigger depends.
ghost use Rattle.std.specs.Prelude.{◌≡◌, ◌≤◌, ◌<◌, ◌*◌, ◌/◌, ◌+◌, ◌-◌, MatchResult, true, false};
ghost use Rattle.psi_base.specs.declared.event.Cause.TheVariants as cause;
ghost use Rattle.psi_spec.specs.Refusal.{is_window};
ghost use Rattle.psi_spec.specs.Within.{last_moment};
ghost use Rattle.pressure_spec.specs.Signal as model;

use psi_base::{Cause, Ns};
use std::marker::Model;

/// The number of ns in a microsecond.
const MICROSECOND: Ns = 1000;

/// A trigger on the growth of a group's stall time in a sliding time window. It corresponds to the
/// kernel's `psi_trigger`, which a user sets by writing to a pressure file. Two signals of a
/// trigger are at least one window apart.
#[derive(Drop)]
pub struct Trigger {
    /// The growth (ns) of the total within a window that makes a signal pending.
    threshold: Ns,
    /// The length of the window (ns).
    size: Ns,
    /// The start of the current window (ns).
    start: Ns,
    /// The total (ns) at the start of the current window.
    start_value: u64,
    /// The total (ns) at the last tick.
    last_value: u64,
    /// The growth (ns) of the total during the previous window.
    previous: u64,
    /// Whether a signal is pending, which means that the trigger fires as soon as it may.
    pending: bool,
    /// The time of the last signal (ns), or `None` if there was no signal.
    last_event: Option<Ns>,
}

impl Model for Trigger {
    ghost use Rattle.pressure_spec.specs.Signal.{TriggerState};
    ghost use Rattle.window_trigger.specs.Bounds.{IsTrigger};

    ghost Value = { TriggerState };

    ghost view = { λ t. record {
      threshold = t.threshold;
      size = t.size;
      start = t.start;
      start_value = t.start_value;
      last_value = t.last_value;
      previous = t.previous;
      pending = t.pending;
      last_event = t.last_event;
    } };

    ghost invariant = { λ t. IsTrigger t.size t.previous t.last_event };
}

/// Returns the estimated growth (ns) of a total in the sliding window. Precondition: the current
/// window hasn't expired. The estimate is `growth`, the growth since the start of the current
/// window, plus a part of `previous`, the growth in the previous window. The part is the remaining
/// time (`size - elapsed`) divided by the length `size` of a window. The intermediate product needs
/// up to 89 bits.
fn slid(growth: u64, previous: u64, size: Ns, elapsed: Ns) -> u64
    requires growth { growth ≤ last_moment }
    requires previous { previous ≤ last_moment }
    requires some { 0 < size }
    requires elapsed { elapsed ≤ size }
    ensures { result ≡ growth + previous * (size - elapsed) / size }
{
    let left = size - elapsed;
    growth + (u128::from(previous) * u128::from(left) / u128::from(size)) as u64
}

impl Trigger {
    /// Creates a trigger that is set at time `at` (ns), when its total is `value` (ns). Fails with
    /// `BadWindow` if the window isn't between 500 ms and 10 s, or if the threshold isn't between 1
    /// us and the window.
    pub fn new(at: Ns, value: u64, threshold_us: u64, window_us: u64) -> Result<Trigger, Cause>
        requires at { at ≤ last_moment }
        requires value { value ≤ last_moment }
        ensures made { MatchResult result
            (λ t. (is_window threshold_us window_us ≡ true)
            × (t ≡ model.new_trigger at value threshold_us window_us))
            (λ why. (is_window threshold_us window_us ≡ false) × (why ≡ cause.BadWindow)) }
    {
        if !(500_000..=10_000_000).contains(&window_us)
            || threshold_us < 1
            || threshold_us > window_us
        {
            return Err(Cause::BadWindow);
        }
        Ok(Trigger {
            threshold: threshold_us * MICROSECOND,
            size: window_us * MICROSECOND,
            start: at,
            start_value: value,
            last_value: value,
            previous: 0,
            pending: false,
            last_event: None,
        })
    }

    /// Updates the trigger at the tick at time `now` (ns), at which the total is `value` (ns).
    /// Returns whether the trigger fires.
    #[tactic(auto, unfolding(pressure_spec::specs::Signal::trigger_step, pressure_spec::specs::Signal::fires))]
    pub fn step(&mut self, now: Ns, value: u64) -> bool
        requires now { now ≤ last_moment }
        requires value { value ≤ last_moment }
        ensures state { self.new ≡ model.trigger_step self.old now value }
        ensures fires { result ≡ model.fires self.old now value }
    {
        if value != self.last_value {
            self.grow(now, value);
        }
        self.signal(now)
    }

    /// Updates the state for a changed total at time `now` (ns). Starts a new window if the current
    /// window has expired, and makes a signal pending if the growth reaches the threshold.
    fn grow(&mut self, now: Ns, value: u64)
        requires now { now ≤ last_moment }
        requires value { value ≤ last_moment }
        ensures { self.new ≡ model.grown self.old now value }
    {
        let elapsed = now.saturating_sub(self.start);
        let since = value.saturating_sub(self.start_value);
        let growth = if elapsed > self.size {
            self.start = now;
            self.start_value = value;
            self.previous = since;
            since
        } else {
            slid(since, self.previous, self.size, elapsed)
        };
        if growth >= self.threshold {
            self.pending = true;
        }
        self.last_value = value;
    }

    /// Fires the pending signal, if any, unless the last signal was less than one window ago.
    /// Returns whether the trigger fires.
    fn signal(&mut self, now: Ns) -> bool
        requires { now ≤ last_moment }
        ensures state { self.new ≡ model.settled self.old now }
        ensures fires { result ≡ model.signals self.old now }
    {
        if !self.pending {
            return false;
        }
        if let Some(last) = self.last_event {
            if now < last + self.size {
                return false;
            }
        }
        self.pending = false;
        self.last_event = Some(now);
        true
    }
}

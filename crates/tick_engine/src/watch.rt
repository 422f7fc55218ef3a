//! The state of one trigger of a trace, and the function that updates all triggers at a tick.
//!
//! The crate `window_trigger` implements the window and the threshold of a trigger.

ghost use Rattle.std.specs.Prelude.{◌≡◌, ◌≤◌, ◌<◌, ◌+◌, ◌++◌, ◌∷◌, [], All, if◌then◌else◌, length, map, true, vec_capacity, vec_len};
ghost use Rattle.pressure_spec.specs.Signal.{new_trigger};
ghost use Rattle.psi_spec.specs.Refusal.{is_window};
ghost use Rattle.psi_spec.specs.Within.{IsTriggerWithin};
ghost use Rattle.psi_spec.specs.Within.{last_moment};
ghost use Rattle.tick_engine.specs.Engine.{AreWatchesWithin};
ghost use Rattle.tick_engine.specs.Step.{AreStatesWithin, fired_among, new_watch, watch_begun, watch_signals, watch_stepped, watched_total};

use crate::group::Group;
use psi_base::{Ns, State, TriggerSpec};
use window_trigger::Trigger;

/// A trigger of the trace, and its state. The state is `None` until the first tick at or after the
/// time of the line that sets the trigger.
#[derive(Drop)]
pub(crate) struct TriggerWatch {
    pub(crate) spec: TriggerSpec,
    pub(crate) trigger: Option<Trigger>,
}

/// Returns the total (ns) on whose growth the trigger fires.
fn watched_total(groups: &[Group], spec: &TriggerSpec) -> u64
    requires slot { spec.now.slot.0 < length groups.now }
    ensures { result ≡ watched_total groups.now spec.now }
{
    let totals = groups[spec.slot.0 as usize].totals.get();
    totals[State::of(spec.res, spec.level) as usize]
}

/// Returns the state that a trigger has at the time of the line that sets it. `total` is the
/// trigger's total (ns) at that time.
fn trigger_with(spec: &TriggerSpec, total: u64) -> Trigger
    requires at { spec.now.at ≤ last_moment }
    requires window { is_window spec.now.threshold_us spec.now.window_us ≡ true }
    requires total { total ≤ last_moment }
    ensures { result ≡ new_trigger spec.now.at total spec.now.threshold_us spec.now.window_us }
{
    match Trigger::new(spec.at, total, spec.threshold_us, spec.window_us) {
        Ok(trigger) => trigger,
        Err(_) => unreachable!(),
    }
}

impl TriggerWatch {
    /// Returns a trigger that isn't active yet.
    pub(crate) fn of(spec: TriggerSpec) -> TriggerWatch
        ensures { result ≡ new_watch spec }
    {
        TriggerWatch {
            spec,
            trigger: None,
        }
    }

    /// Activates the trigger at the tick at time `now` (ns), with its total at the previous tick.
    /// Does nothing if the trigger is active already, or if the line that sets it is later than the
    /// tick.
    fn begin(&mut self, groups: &[Group], now: Ns)
        requires spec { IsTriggerWithin last_moment (length groups.now) self.old.spec }
        requires totals { All (λ group. AreStatesWithin last_moment group) groups.now }
        ensures { self.new ≡ watch_begun groups.now now self.old }
    {
        if self.trigger.is_none() && self.spec.at <= now {
            let total = watched_total(groups, &self.spec);
            self.trigger = Some(trigger_with(&self.spec, total));
        }
    }

    /// Updates the trigger at the tick at time `now` (ns). Does nothing if the trigger isn't active
    /// or its group isn't live. Returns whether the trigger fires.
    fn step(&mut self, groups: &[Group], now: Ns) -> bool
        requires spec { IsTriggerWithin last_moment (length groups.now) self.old.spec }
        requires totals { All (λ group. AreStatesWithin last_moment group) groups.now }
        requires early { now ≤ last_moment }
        ensures state { self.new ≡ watch_stepped groups.now now self.old }
        ensures signals { result ≡ watch_signals groups.now now self.old }
    {
        if !groups[self.spec.slot.0 as usize].is_live(now) {
            return false;
        }
        let total = watched_total(groups, &self.spec);
        match &mut self.trigger {
            Some(trigger) => trigger.step(now, total),
            None => false,
        }
    }
}

/// Activates the triggers that become active at the tick at time `now` (ns): those whose line in
/// the trace is at or before `now`. They start from their totals at the previous tick. Active
/// triggers don't change.
pub(crate) fn begin_all(watches: &mut [TriggerWatch], groups: &[Group], now: Ns)
    requires watches { AreWatchesWithin (length groups.now) watches.old }
    requires totals { All (λ group. AreStatesWithin last_moment group) groups.now }
    ensures { watches.new ≡ map (watch_begun groups.now now) watches.old }
{
    'watches: for watch in watches.iter_mut() {
        watch.begin(groups, now);
    }
}

/// Appends the index `number` to `fired` if `has_signalled` is true. Precondition: the list isn't
/// full.
fn add_where(fired: &mut Vec<u32>, number: u32, has_signalled: bool)
    requires { vec_len fired.old < vec_capacity fired.old }
    ensures items { fired.new.items
        ≡ fired.old.items ++ (if has_signalled then number ∷ [] else []) }
    ensures few { vec_len fired.new ≤ vec_len fired.old + 1 }
    ensures room { vec_capacity fired.old ≤ vec_capacity fired.new }
{
    if has_signalled && fired.push(number).is_err() {
        unreachable!();
    }
}

/// Updates each active trigger of a live group at the tick at time `now` (ns). Afterwards `fired`
/// has the indexes of the triggers that fire.
pub(crate) fn step_all(
    watches: &mut [TriggerWatch],
    groups: &[Group],
    now: Ns,
    fired: &mut Vec<u32>,
)
    requires few { length watches.old ≤ 256 }
    requires room { length watches.old ≤ vec_capacity fired.old }
    requires watches { AreWatchesWithin (length groups.now) watches.old }
    requires totals { All (λ group. AreStatesWithin last_moment group) groups.now }
    requires early { now ≤ last_moment }
    ensures watches { watches.new ≡ map (watch_stepped groups.now now) watches.old }
    ensures fired { fired.new.items ≡ fired_among groups.now now watches.old
        (length watches.old) }
    ensures room { vec_capacity fired.old ≤ vec_capacity fired.new }
{
    fired.clear();
    'watches: for (number, watch) in watches.iter_mut().enumerate() {
        let has_signalled = watch.step(groups, now);
        add_where(fired, number as u32, has_signalled);
    }
}

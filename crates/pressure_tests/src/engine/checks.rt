//! Range checks of the groups, the triggers and the growth of times. They establish the
//! preconditions of the calls of the engine.

ghost use Rattle.std.specs.Prelude.{◌≡◌, ℕ, [], All, length, slice_index_or, true};
ghost use Rattle.psi_spec.specs.Within.{IsTriggerWithin};
ghost use Rattle.psi_spec.specs.Within.{last_moment};
ghost use Rattle.tick_engine.specs.Engine.{IsLifeWithin};
ghost use Rattle.pressure_tests.specs.Machine.{GrewWithin, RowGrewWithin, TableGrewWithin};

use aggregate::Rows;
use pressure_spec::{TIMES, Times};
use psi_base::{Ns, Slot, TriggerSpec};
use psi_spec::GroupLife;
use test_support::LAST_MOMENT;

/// The interrupt time of an interval may be longer than the interval by this time (ns).
const LONGEST_IRQ: Ns = 1_000_000_000;

/// The index of the interrupt time among the times of a group on a processor.
const IRQ: usize = TIMES - 1;

/// Returns whether a group's times of creation and removal are at most `LAST_MOMENT`.
fn is_life(life: &GroupLife) -> bool
    ensures { result ≡ true → IsLifeWithin last_moment life.now }
{
    let goes_early = match life.gone {
        Some(gone) => gone <= LAST_MOMENT,
        None => true,
    };
    life.made <= LAST_MOMENT && goes_early
}

/// Returns whether all groups' times of creation and removal are at most `LAST_MOMENT`.
pub fn are_lives(lives: &[GroupLife]) -> bool
    ensures { result ≡ true → All (λ life. IsLifeWithin last_moment life) lives.now }
{
    'lives: for life in lives {
        if !is_life(life) {
            return false;
        }
    }
    true
}

/// Returns whether the time, the slot, the threshold and the window of a trigger are in range for a
/// trace with `slots` groups.
fn is_trigger(trigger: &TriggerSpec, slots: usize) -> bool
    ensures { result ≡ true → IsTriggerWithin last_moment slots trigger.now }
{
    let in_range = (500_000..=10_000_000).contains(&trigger.window_us)
        && trigger.threshold_us >= 1
        && trigger.threshold_us <= trigger.window_us;
    trigger.at <= LAST_MOMENT && (trigger.slot.0 as usize) < slots && in_range
}

/// Returns whether all triggers are in range (`is_trigger`) for a trace with `slots` groups.
pub fn are_triggers(triggers: &[TriggerSpec], slots: usize) -> bool
    ensures { result ≡ true →
        All (λ trigger. IsTriggerWithin last_moment slots trigger) triggers.now }
{
    'triggers: for trigger in triggers {
        if !is_trigger(trigger, slots) {
            return false;
        }
    }
    true
}

/// Returns whether the times of one group on one processor grew within the bounds: no time
/// decreased, no state's time grew by more than `most` (ns), interrupt time grew by at most a
/// second more than `most`, and interrupt time is at most `at` (ns).
fn grew_within(most: Ns, at: Ns, before: &Times, now: &Times) -> bool
    ensures { result ≡ true → GrewWithin most at before.now now.now }
{
    'each: for i in 0..TIMES {
        if now[i] < before[i] || (i < IRQ && now[i] - before[i] > most) {
            return false;
        }
    }
    now[IRQ] - before[IRQ] <= most.saturating_add(LONGEST_IRQ) && now[IRQ] <= at
}

/// Returns whether the times of one group on each processor grew within the bounds of
/// `grew_within`.
fn row_grew_within(most: Ns, at: Ns, before: &[Times], now: &[Times]) -> bool
    requires { length before.now ≡ length now.now }
    ensures { result ≡ true → RowGrewWithin most at before.now now.now }
{
    'cpus: for cpu in 0..now.len() {
        if !grew_within(most, at, &before[cpu], &now[cpu]) {
            return false;
        }
    }
    true
}

/// Returns whether the times of `slots` groups on each processor grew within the bounds of
/// `grew_within`.
pub fn table_grew_within(most: Ns, at: Ns, slots: u32, before: &Rows, now: &Rows) -> bool
    requires slots { length before.now ≡ slots }
    requires slots_now { length now.now ≡ slots }
    requires cpus { (slot : ℕ) →
        length (slice_index_or before.now slot []) ≡ length (slice_index_or now.now slot []) }
    ensures { result ≡ true → TableGrewWithin most at before.now now.now }
{
    'slots: for slot in 0..slots {
        if !row_grew_within(most, at, before.row(Slot(slot)), now.row(Slot(slot))) {
            return false;
        }
    }
    true
}

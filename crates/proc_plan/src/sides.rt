//! Computes the trigger and the side events of one event. A side event is a memory sample, a
//! preference, or a task that joins or leaves a group.

ghost use Rattle.std.specs.Prelude.{◌≡◌, ◌++◌, IfSome, List};
ghost use Rattle.psi_spec.specs.Grammar.{ActFits};
ghost use Rattle.psi_spec.specs.Changes.{before};
ghost use Rattle.psi_spec.specs.Collected.{trigger_by};
ghost use Rattle.psi_spec.specs.Within.{listed};
ghost use Rattle.psi_spec.specs.World.{World};
ghost use Rattle.psi_spec.specs.declared.machine.GroupLife.{GroupLife};
ghost use Rattle.task_table.specs.Named.{named_slot};
ghost use Rattle.proc_plan.specs.Sides.{IsSmall, group_of, passage, sample_by, sides_by};

use crate::side::{Side, SideAct};
use psi_base::{Act, Event, How, Ns, Slot, TriggerSpec};
use psi_spec::Task;

/// The trigger and the side events of an event.
#[derive(Clone, Copy)]
pub(crate) struct SideValues {
    /// The trigger that the event sets, or `None`.
    pub(crate) trigger: Option<TriggerSpec>,
    /// The first side event, or `None`. `second` is the second side event.
    pub(crate) first: Option<Side>,
    pub(crate) second: Option<Side>,
}

// Returns the trigger that an event at the time `at` (ns) sets, or `None`. `slot` is the slot of
// the group that the event names.
#[inline(always)]
fn trigger_by(at: Ns, act: &Act, slot: Slot) -> Option<TriggerSpec>
    ensures { (groups : List GroupLife) → slot ≡ named_slot groups act.now →
        listed result ≡ trigger_by at groups act.now }
{
    match act {
        Act::Trigger {
            res,
            level,
            threshold_us,
            window_us,
            ..
        } => Some(TriggerSpec {
            at,
            slot,
            res: *res,
            level: *level,
            threshold_us: *threshold_us,
            window_us: *window_us,
        }),
        _ => None,
    }
}

// Returns the side event for a memory sample (of a group or of the host) or a preference at the
// time `at` (ns). Returns `None` for any other event. `slot` is the slot of the group that the
// event names.
#[inline(always)]
fn sample_by(at: Ns, act: &Act, slot: Slot) -> Option<Side>
    requires { ActFits act.now }
    ensures side { (groups : List GroupLife) → slot ≡ named_slot groups act.now →
        listed result ≡ sample_by at groups act.now }
    ensures small { IfSome result (λ side. IsSmall side.what) }
{
    let what = match act {
        Act::Mem {
            current,
            swap,
            scan,
            ..
        } => SideAct::Mem {
            slot,
            current: *current,
            swap: *swap,
            scan: *scan,
        },
        Act::Prefer { preference, .. } => SideAct::Prefer {
            slot,
            preference: *preference,
        },
        Act::Host {
            mem_total,
            swap_total,
            swap_free,
        } => SideAct::Host {
            mem_total: *mem_total,
            swap_total: *swap_total,
            swap_free: *swap_free,
        },
        _ => return None,
    };
    Some(Side { at, what })
}

fn group_of(task: Option<Task>) -> Option<Slot>
    ensures { result ≡ group_of task }
{
    task.map(|task| task.slot)
}

// Returns the side events of a task that moves from group `old` to group `new` at the time `at`
// (ns): the task leaves `old` and joins `new`. `old` is `None` if the task is created, and `new` is
// `None` if it exits. There is no side event if the groups are the same.
fn passage(at: Ns, old: Option<Slot>, new: Option<Slot>) -> (Option<Side>, Option<Side>)
    ensures sides { listed result.0 ++ listed result.1 ≡ passage at old new }
    ensures first { IfSome result.0 (λ side. IsSmall side.what) }
    ensures second { IfSome result.1 (λ side. IsSmall side.what) }
{
    let side = |slot, added| Side {
        at,
        what: SideAct::Tasks { slot, added },
    };
    match (old, new) {
        (Some(old), Some(new)) if old == new => (None, None),
        (old, new) => (
            old.map(|slot| side(slot, -1)),
            new.map(|slot| side(slot, 1)),
        ),
    }
}

// Returns the side events of an event in order, at most two. `task` is the task that the event
// changes, in its state before the event. `slot` is the slot of the group that the event names.
#[inline(always)]
fn sides_by(event: &Event, task: Option<Task>, slot: Slot) -> (Option<Side>, Option<Side>)
    requires { ActFits event.now.act }
    ensures sides { (w : World) → task ≡ before w.tasks event.now.act →
        slot ≡ named_slot w.groups event.now.act →
        listed result.0 ++ listed result.1 ≡ sides_by w event.now }
    ensures first { IfSome result.0 (λ side. IsSmall side.what) }
    ensures second { IfSome result.1 (λ side. IsSmall side.what) }
{
    let old = group_of(task);
    match &event.act {
        Act::Fork { .. } => passage(event.at, None, Some(slot)),
        Act::Switch { how: How::Exit, .. } => passage(event.at, old, None),
        Act::Move { .. } => match old {
            Some(old) => passage(event.at, Some(old), Some(slot)),
            None => (None, None),
        },
        // All other events leave each task in its group.
        act => (sample_by(event.at, act, slot), None),
    }
}

/// Returns the trigger and the side events of an event. `task` is the task that the event changes,
/// in its state before the event. `slot` is the slot of the group that the event names.
#[inline(always)]
pub(crate) fn known_by(event: &Event, task: Option<Task>, slot: Slot) -> SideValues
    requires { ActFits event.now.act }
    ensures trigger { (groups : List GroupLife) → slot ≡ named_slot groups event.now.act →
        listed result.trigger ≡ trigger_by event.now.at groups event.now.act }
    ensures sides { (w : World) → task ≡ before w.tasks event.now.act →
        slot ≡ named_slot w.groups event.now.act →
        listed result.first ++ listed result.second ≡ sides_by w event.now }
    ensures first { IfSome result.first (λ side. IsSmall side.what) }
    ensures second { IfSome result.second (λ side. IsSmall side.what) }
{
    let trigger = trigger_by(event.at, &event.act, slot);
    let (first, second) = sides_by(event, task, slot);
    SideValues {
        trigger,
        first,
        second,
    }
}

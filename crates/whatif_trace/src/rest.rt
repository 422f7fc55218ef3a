//! Copies the events after the exits of the killed tasks, without the events of these tasks.
//!
//! A killed task is called dead until it exits in the original trace.
ghost use Rattle.std.specs.Prelude.{◌≡◌};
ghost use Rattle.whatif_spec.specs.Without.{if_alive, is_alive, is_pid_among, switch_without, without_pid};
ghost use Rattle.psi_spec.specs.World.{events_at};
ghost use Rattle.whatif_trace.specs.Left.{Adds, act_left, dead_left, doer, left_if, rest_left};

use crate::copies::{keep, keep_copy};
use crate::runners::{runner_at, turn};
use psi_base::{Act, Cpu, Event, How, NoMemory, Ns, Pid};
use std::alloc::Global;
use std::collections::BTreeSet;

/// Returns whether the task with this pid is in the set of dead (killed) tasks.
#[tactic(auto, using(crate::proofs::Killed::among_keys))]
fn is_dead(dead: &BTreeSet<u32>, pid: Pid) -> bool
    ensures { result ≡ is_pid_among dead.now.keys pid.0 }
{
    dead.contains(&pid.0)
}

/// Returns whether `pid` is the pid of a task that isn't dead (killed). Returns false for `None`.
fn is_alive(dead: &BTreeSet<u32>, pid: Option<Pid>) -> bool
    ensures { result ≡ is_alive dead.now.keys pid }
{
    match pid {
        Some(pid) => !is_dead(dead, pid),
        None => false,
    }
}

/// Returns the pid `next`, or `None` if that task is dead (killed).
fn if_alive(dead: &BTreeSet<u32>, next: Option<Pid>) -> Option<Pid>
    ensures { result ≡ if_alive dead.now.keys next }
{
    if is_alive(dead, next) { next } else { None }
}

/// Returns the task that an event concerns: the task that wakes up, enters or leaves a memory
/// stall, migrates or moves. Returns `None` for a switch and for all other events.
fn doer(act: &Act) -> Option<Pid>
    ensures { result ≡ doer act.now }
{
    match act {
        Act::Wake { pid, .. } => Some(*pid),
        Act::Stall { pid } => Some(*pid),
        Act::Unstall { pid } => Some(*pid),
        Act::Migrate { pid, .. } => Some(*pid),
        Act::Move { pid, .. } => Some(*pid),
        _ => None,
    }
}

/// Appends what remains of a switch on processor `cpu` when the dead (killed) tasks are removed:
/// one event or none. In the original trace, `leaving` is switched out in the way `how` (or is
/// `None` if the processor was idle), and `next` is switched in. If `leaving` is dead, the way in
/// the new trace is `Idle`.
#[tactic(auto, using(crate::proofs::Kept::none_kept))]
fn keep_switch(
    kept: &mut Vec<Event>,
    at: Ns,
    dead: &BTreeSet<u32>,
    cpu: Cpu,
    leaving: Option<Pid>,
    next: Option<Pid>,
    how: How,
) -> Result<(), NoMemory>
    ensures { Adds kept.old.items kept.new.items result
        (events_at at (switch_without dead.now.keys cpu leaving next how)) }
{
    if is_alive(dead, leaving) {
        let next = if_alive(dead, next);
        keep(kept, at, Act::Switch { cpu, next, how })
    } else if is_alive(dead, next) {
        let how = How::Idle;
        keep(kept, at, Act::Switch { cpu, next, how })
    } else {
        Ok(())
    }
}

/// Appends a copy of an event that isn't a switch, unless the event concerns a dead task.
#[tactic(auto, using(crate::proofs::Kept::none_kept))]
fn keep_act(
    alloc: Global,
    kept: &mut Vec<Event>,
    dead: &BTreeSet<u32>,
    event: &Event,
) -> Result<(), NoMemory>
    ensures { Adds kept.old.items kept.new.items result
        (events_at event.now.at (left_if dead.now.keys (doer event.now.act) event.now.act)) }
{
    match doer(&event.act) {
        Some(pid) if is_dead(dead, pid) => Ok(()),
        _ => keep_copy(alloc, kept, event),
    }
}

/// Appends what remains of an event when the dead (killed) tasks are removed: one event or none.
fn keep_left(
    alloc: Global,
    kept: &mut Vec<Event>,
    dead: &BTreeSet<u32>,
    runners: &[Option<Pid>],
    event: &Event,
) -> Result<(), NoMemory>
    ensures { Adds kept.old.items kept.new.items result
        (events_at event.now.at (act_left dead.now.keys runners.now event.now.act)) }
{
    match &event.act {
        Act::Switch { cpu, next, how } => {
            let leaving = runner_at(runners, *cpu);
            keep_switch(kept, event.at, dead, *cpu, leaving, *next, *how)
        }
        _ => keep_act(alloc, kept, dead, event),
    }
}

/// Removes the task `leaving` from `dead`. The task exits in the original trace too, so its pid may
/// be reused.
#[tactic(auto, using(crate::proofs::Killed::taken_out))]
fn revive(dead: &mut BTreeSet<u32>, leaving: Option<Pid>)
    ensures { dead.new.keys ≡ without_pid dead.old.keys leaving }
{
    if let Some(pid) = leaving {
        let _count = dead.len();
        dead.remove(&pid.0);
    }
}

/// Removes the task that exits by an event from `dead`. Does nothing for an event that isn't an
/// exit.
fn note_exit(dead: &mut BTreeSet<u32>, runners: &[Option<Pid>], act: &Act)
    ensures { dead.new.keys ≡ dead_left dead.old.keys runners.now act.now }
{
    if let Act::Switch {
        cpu,
        how: How::Exit,
        ..
    } = act
    {
        revive(dead, runner_at(runners, *cpu));
    }
}

/// Appends what remains of the events when the dead (killed) tasks are removed. `runners` has the
/// running task of each processor before the events.
#[tactic(auto, using(crate::proofs::Kept::none_kept, crate::proofs::Kept::part_kept))]
pub(crate) fn keep_rest(
    alloc: Global,
    kept: &mut Vec<Event>,
    mut dead: BTreeSet<u32>,
    mut runners: Vec<Option<Pid>>,
    events: &[Event],
) -> Result<(), NoMemory>
    ensures { Adds kept.old.items kept.new.items result
        (rest_left dead.keys runners.items events.now) }
{
    let mut at = 0;
    'events: while at < events.len() {
        let event = &events[at];
        keep_left(alloc, kept, &dead, &runners, event)?;
        note_exit(&mut dead, &runners, &event.act);
        turn(&mut runners, &event.act);
        at += 1;
    }
    Ok(())
}

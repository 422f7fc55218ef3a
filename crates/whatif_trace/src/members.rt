//! Finds the live tasks of a killed group and of its descendants.
//!
//! Each live task was created by a `fork` event, so it suffices to check the tasks that the `fork`
//! events of the trace create.
ghost use Rattle.std.specs.Prelude.{◌≡◌, ◌&&◌, ◌||◌, ◌==◌, ℕ, IfOk, OnOk};
ghost use Rattle.std.specs.List.Sorted.{IsStrictlySortedBy};
ghost use Rattle.std.specs.Ordering.{nat_cmp};
ghost use Rattle.whatif_spec.specs.Without.{is_pid_among, members};
ghost use Rattle.whatif_trace.specs.Left.{AreForked, is_member, makes};

use psi_base::{Act, Event, NoMemory, Pid, Slot};
use std::alloc::Global;
use std::collections::BTreeSet;
use task_table::Table;

/// Returns whether the task with this pid is live and in the group `victim` or in one of its
/// descendants.
fn is_member(table: &Table, pid: Pid, victim: Slot) -> bool
    ensures { result ≡ is_member table.now.world victim.0 pid.0 }
{
    match table.task(pid) {
        Some(task) => table.groups().is_under(task.slot, victim),
        None => false,
    }
}

/// Adds a pid to the set if `test` is true.
#[tactic(auto, using(crate::proofs::Adding::none_in))]
fn add_if(members: &mut BTreeSet<u32>, test: bool, pid: Pid) -> Result<(), NoMemory>
    requires sorted { IsStrictlySortedBy nat_cmp members.old.keys }
    ensures sorted { OnOk result (IsStrictlySortedBy nat_cmp members.new.keys) }
    ensures among { OnOk result ((k : ℕ) → is_pid_among members.new.keys k
        ≡ (is_pid_among members.old.keys k || (k == pid.0 && test))) }
{
    if test {
        members.insert(pid.0)?;
    }
    Ok(())
}

/// Adds to `members` the pid of the task that `act` creates, if this task is live and in the group
/// `victim` or in one of its descendants. Does nothing if `act` isn't a `fork`.
#[tactic(auto, using(crate::proofs::Adding::same_member))]
fn add_forked(
    members: &mut BTreeSet<u32>,
    table: &Table,
    victim: Slot,
    act: &Act,
) -> Result<(), NoMemory>
    requires sorted { IsStrictlySortedBy nat_cmp members.old.keys }
    ensures sorted { OnOk result (IsStrictlySortedBy nat_cmp members.new.keys) }
    ensures among { OnOk result ((k : ℕ) → is_pid_among members.new.keys k
        ≡ (is_pid_among members.old.keys k
        || (makes k act.now && is_member table.now.world victim.0 k))) }
{
    match act {
        Act::Fork { pid, .. } => add_if(members, is_member(table, *pid, victim), *pid),
        _ => Ok(()),
    }
}

/// Returns the pids of the live tasks in the group `victim` and in its descendants. Precondition:
/// each live task was created by a `fork` event in `events`.
pub(crate) fn members(
    alloc: Global,
    table: &Table,
    events: &[Event],
    victim: Slot,
) -> Result<BTreeSet<u32>, NoMemory>
    requires { AreForked table.now.world.tasks events.now }
    ensures { IfOk result (λ pids. pids.keys ≡ members table.now.world victim.0) }
{
    let mut members = BTreeSet::new(alloc);
    let mut at = 0;
    'events: while at < events.len() {
        add_forked(&mut members, table, victim, &events[at].act)?;
        at += 1;
    }
    Ok(members)
}

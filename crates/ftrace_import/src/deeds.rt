//! Stores the acts of each ftrace line in a compact form (*deeds*) until all lines are read. An act
//! is an event without its time.
//!
//! import_spec defines the acts of each line. This module computes and stores the acts, but doesn't
//! apply them to the table of tasks.
ghost use Rattle.std.specs.Prelude.{◌≡◌, ◌∷◌, [], IfOk};
ghost use Rattle.import_spec.specs.Events.{acts_of, migration_acts, next_acts, runs_there, switch_acts, turn_acts, wakeup_acts};
ghost use Rattle.std.specs.Prelude.{None};
ghost use Rattle.ftrace_import.specs.Deeds.{Adds, act_by, event_by};

use import_spec::Seen;
use psi_base::{Act, Cpu, Event, How, NoMemory, Ns, Path, Pid};
use psi_spec::{Mode, Task};
use std::alloc::Global;
use task_table::Table;

/// An act of an import in compact form. No path is stored, because all tasks are in the root group.
#[derive(Clone, Copy)]
pub(crate) enum Deed {
    /// A task is created. It is ready on processor `cpu`.
    Fork {
        pid: Pid,
        cpu: Cpu,
    },
    /// A blocked task wakes on processor `cpu`.
    Wake {
        pid: Pid,
        cpu: Cpu,
    },
    /// The running task of processor `cpu` leaves in the way `how`, and the task `next` runs. If
    /// `next` is `None`, no task runs afterwards. If no task was running, `how` is `Idle`.
    Switch {
        cpu: Cpu,
        next: Option<Pid>,
        how: How,
    },
    /// A task moves to processor `cpu`.
    Migrate {
        pid: Pid,
        cpu: Cpu,
    },
}

/// An event of an import in compact form. It takes a third of the memory of an [`Event`].
#[derive(Clone, Copy)]
pub(crate) struct Kept {
    /// The time of the event (ns).
    pub(crate) at: Ns,
    pub(crate) deed: Deed,
}

/// Returns the event that `kept` represents. Allocates memory only for a fork: the root's path.
pub(crate) fn event_of(alloc: Global, kept: Kept) -> Result<Event, NoMemory>
    ensures { IfOk result (λ event. event ≡ event_by kept) }
{
    let act = match kept.deed {
        Deed::Fork { pid, cpu } => {
            let path = Path::root(alloc)?;
            Act::Fork { pid, path, cpu }
        }
        Deed::Wake { pid, cpu } => Act::Wake { pid, cpu },
        Deed::Switch { cpu, next, how } => Act::Switch { cpu, next, how },
        Deed::Migrate { pid, cpu } => Act::Migrate { pid, cpu },
    };
    Ok(Event { at: kept.at, act })
}

/// Appends one act, in compact form, at the time `at` (ns).
#[tactic(auto, using(crate::proofs::Keeping::one_kept))]
fn keep(kept: &mut Vec<Kept>, at: Ns, deed: Deed) -> Result<(), NoMemory>
    ensures { Adds kept.old.items kept.new.items result at (act_by deed ∷ []) }
{
    kept.push(Kept { at, deed })?;
    Ok(())
}

/// Appends nothing. A branch for a line without acts calls this function, so that all branches have
/// the same contract.
#[tactic(auto, using(crate::proofs::Keeping::none_kept))]
fn keep_none(kept: &mut Vec<Kept>, at: Ns) -> Result<(), NoMemory>
    ensures { Adds kept.old.items kept.new.items result at [] }
{
    let _ = kept;
    let _ = at;
    Ok(())
}

/// Appends the acts of a wakeup of the task `pid` on processor `cpu`, in compact form. `task` is
/// the state of the task before the wakeup, or `None` if the task doesn't exist yet.
fn keep_wakeup(
    kept: &mut Vec<Kept>,
    at: Ns,
    pid: Pid,
    cpu: Cpu,
    task: Option<Task>,
) -> Result<(), NoMemory>
    ensures { Adds kept.old.items kept.new.items result at (wakeup_acts pid cpu task) }
{
    let Some(task) = task else {
        return keep(kept, at, Deed::Fork { pid, cpu });
    };
    match task.mode {
        Mode::Blocked | Mode::Waiting => keep(kept, at, Deed::Wake { pid, cpu }),
        Mode::Ready | Mode::Running => keep_none(kept, at),
    }
}

/// Appends the acts of a migration of the task `pid` to processor `cpu`, in compact form. `task` is
/// the state of the task before the migration, or `None` if the task doesn't exist yet.
fn keep_migration(
    kept: &mut Vec<Kept>,
    at: Ns,
    pid: Pid,
    cpu: Cpu,
    task: Option<Task>,
) -> Result<(), NoMemory>
    ensures { Adds kept.old.items kept.new.items result at (migration_acts pid cpu task) }
{
    match task {
        Some(task) if task.mode == Mode::Ready && task.cpu.0 != cpu.0 => {
            keep(kept, at, Deed::Migrate { pid, cpu })
        }
        _ => keep_none(kept, at),
    }
}

/// Appends two acts, in compact form: the task `pid`, which runs on processor `from`, is preempted,
/// and then moves to processor `cpu`.
#[tactic(auto, using(crate::proofs::Keeping::two_kept))]
fn keep_pulled(kept: &mut Vec<Kept>, at: Ns, pid: Pid, cpu: Cpu, from: Cpu) -> Result<(), NoMemory>
    ensures { Adds kept.old.items kept.new.items result at
        (act_by (Deed.Switch from None How.Preempt) ∷ act_by (Deed.Migrate pid cpu) ∷ []) }
{
    keep(
        kept,
        at,
        Deed::Switch {
            cpu: from,
            next: None,
            how: How::Preempt,
        },
    )?;
    keep(kept, at, Deed::Migrate { pid, cpu })
}

/// Appends the acts that make the task `next` ready on processor `cpu`, where it will run. Appends
/// nothing for `None`.
fn keep_next(
    table: &Table,
    kept: &mut Vec<Kept>,
    at: Ns,
    cpu: Cpu,
    next: Option<Pid>,
) -> Result<(), NoMemory>
    ensures { Adds kept.old.items kept.new.items result at
        (next_acts table.now.world.tasks cpu next) }
{
    let Some(pid) = next else {
        return keep_none(kept, at);
    };
    let task = table.task(pid);
    match task {
        None => keep_wakeup(kept, at, pid, cpu, task),
        Some(there) => match there.mode {
            Mode::Blocked | Mode::Waiting => keep_wakeup(kept, at, pid, cpu, task),
            Mode::Ready => keep_migration(kept, at, pid, cpu, task),
            Mode::Running => keep_pulled(kept, at, pid, cpu, there.cpu),
        },
    }
}

/// Returns whether the task `pid` is running on processor `cpu`. Returns false for `None`.
fn runs_there(table: &Table, cpu: Cpu, pid: Option<Pid>) -> bool
    ensures { result ≡ runs_there table.now.world.tasks cpu pid }
{
    let Some(pid) = pid else {
        return false;
    };
    match table.task(pid) {
        Some(task) => task.cpu.0 == cpu.0 && task.mode == Mode::Running,
        None => false,
    }
}

/// Appends the act that makes the running task leave processor `cpu` and the task `next` run there.
/// The running task leaves in the way `how` if it is `previous`, and is preempted otherwise. If no
/// task runs on the processor and `next` is `None`, appends nothing.
#[tactic(auto, using(crate::proofs::Keeping::some_part))]
fn keep_turn(
    table: &Table,
    kept: &mut Vec<Kept>,
    at: Ns,
    cpu: Cpu,
    previous: Option<Pid>,
    next: Option<Pid>,
    how: How,
) -> Result<(), NoMemory>
    ensures { Adds kept.old.items kept.new.items result at
        (turn_acts table.now.world.tasks cpu previous next how) }
{
    let leaves = if runs_there(table, cpu, previous) {
        how
    } else {
        How::Preempt
    };
    match (table.running(cpu), next) {
        (Some(_), _) => keep(
            kept,
            at,
            Deed::Switch {
                cpu,
                next,
                how: leaves,
            },
        ),
        (None, Some(_)) => keep(
            kept,
            at,
            Deed::Switch {
                cpu,
                next,
                how: How::Idle,
            },
        ),
        (None, None) => keep_none(kept, at),
    }
}

/// Appends the acts of a switch on processor `cpu` from the task `previous`, which leaves in the
/// way `how`, to the task `next`. Appends nothing if `next` already runs there. `table` is the
/// table of tasks before the switch.
#[tactic(auto, using(crate::proofs::Keeping::both_kept))]
fn keep_switch(
    table: &Table,
    kept: &mut Vec<Kept>,
    at: Ns,
    cpu: Cpu,
    previous: Option<Pid>,
    next: Option<Pid>,
    how: How,
) -> Result<(), NoMemory>
    ensures { Adds kept.old.items kept.new.items result at
        (switch_acts table.now.world.tasks cpu previous next how) }
{
    if runs_there(table, cpu, next) {
        return keep_none(kept, at);
    }
    keep_next(table, kept, at, cpu, next)?;
    keep_turn(table, kept, at, cpu, previous, next, how)
}

/// Appends the acts of a line with the content `seen` at the time `at` (ns), in compact form.
/// `table` is the table of tasks before the line.
pub(crate) fn keep_seen(
    table: &Table,
    kept: &mut Vec<Kept>,
    at: Ns,
    seen: Seen,
) -> Result<(), NoMemory>
    ensures { Adds kept.old.items kept.new.items result at
        (acts_of table.now.world.tasks seen) }
{
    match seen {
        Seen::Switch {
            cpu,
            previous,
            next,
            how,
        } => keep_switch(table, kept, at, cpu, previous, next, how),
        Seen::Wakeup { pid, cpu } => keep_wakeup(kept, at, pid, cpu, table.task(pid)),
        Seen::Migration { pid, cpu } => keep_migration(kept, at, pid, cpu, table.task(pid)),
    }
}

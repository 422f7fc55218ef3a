//! Computes the changes that an event causes on processors from the task that the event changes and
//! the running tasks. No function here loops over all tasks.
ghost use Rattle.std.specs.Prelude.{◌≡◌, ℕ, if◌then◌else◌, Some, None, List, [], ◌∷◌, false, slice_index_or};
ghost use Rattle.psi_counts.specs.Counts.{counts_among};
ghost use Rattle.psi_counts.specs.Touch.{account_of, part, shown, change_by_cpu, IsBeside};
ghost use Rattle.psi_spec.specs.declared.machine.GroupLife.{GroupLife};
ghost use Rattle.psi_spec.specs.Names.{names};
ghost use Rattle.psi_spec.specs.Changes.{touched};
ghost use Rattle.psi_spec.specs.Stall.{irq_time_by};
ghost use Rattle.task_table.specs.Acts.{cpu_in, unless_on};
ghost use Rattle.task_table.specs.Named.{change_for, named_group, slot_or_root, touched_change};
ghost use Rattle.trace_player.specs.TaskActs.{is_task_act};

use crate::running::{Running, running_at};
use crate::task_update::TaskUpdate;
use psi_base::{Act, Cpu, Ns, Slot};
use psi_counts::{Change, Counts, Touch};
use psi_spec::{Mode, Task};

/// A `Touch` without changes, for an event that affects no processor.
const NOWHERE: Touch = Touch {
    first: None,
    second: None,
    account: None,
};

/// Returns the counts of a single task: each count is 1 if it includes the task, and 0 if not.
fn counts_of(task: Task) -> Counts
    ensures { result ≡ counts_among (task ∷ []) }
{
    // The code has no branches on the task's mode, because processors predict such branches badly.
    let active = (task.mode == Mode::Ready) | (task.mode == Mode::Running);
    Counts {
        io: u32::from(task.mode == Mode::Waiting),
        stalled: u32::from(task.stalled),
        running: u32::from(active),
        stalled_running: u32::from(active & task.stalled),
    }
}

/// Returns the slot and the counts of `task` if it is on processor `cpu`. Returns `None` if there
/// is no task, or if it is on another processor.
fn part_on(cpu: Cpu, task: Option<Task>) -> Option<(Slot, Counts)>
    ensures { result ≡ part cpu.0 task }
{
    match task {
        Some(task) if task.cpu.0 == cpu.0 => Some((task.slot, counts_of(task))),
        _ => None,
    }
}

/// Returns the slot of the group of the task that runs on processor `cpu`, and whether that task is
/// in a memory stall. Returns `None` if the processor idles.
pub(crate) fn current_on(running: &[Running], cpu: Cpu) -> Option<(Slot, bool)>
    ensures { result ≡ shown (slice_index_or running.now cpu.0 None) }
{
    match running_at(running, cpu.0) {
        Some((_, task)) => Some((task.slot, task.stalled)),
        None => None,
    }
}

/// Returns the change of processor `cpu` at the time `at` (ns), without interrupt time. `changed`
/// is the task that an event changes, before and after the event. `running` has the running tasks
/// after the event.
#[inline(always)]
fn change_of(at: Ns, changed: TaskUpdate, running: &[Running], cpu: Cpu) -> Change
    ensures { result ≡ change_for at changed (slice_index_or running.now cpu.0 None) 0 cpu.0 }
{
    Change {
        at,
        minus: part_on(cpu, changed.old),
        plus: part_on(cpu, changed.new),
        current: current_on(running, cpu),
        irq: 0,
        account: None,
    }
}

/// Returns the slot of the group whose pressure accounting an event turns on or off, and whether it
/// is on afterwards. Returns `None` if the event doesn't turn accounting on or off. `slot` is the
/// slot of the group that the event names.
#[inline(always)]
pub(crate) fn account_of(act: &Act, slot: Slot) -> Option<(Slot, bool)>
    ensures { (groups : List GroupLife) → slot ≡ slot_or_root (named_group groups act.now) →
        result ≡ account_of groups act.now }
{
    match act {
        Act::Pressure { on, .. } => Some((slot, *on)),
        _ => None,
    }
}

/// Returns the changes of an event that turns the accounting of a group on or off. It affects every
/// processor.
pub(crate) fn account_touch(account: (Slot, bool)) -> Touch
    ensures first { result.first ≡ None }
    ensures second { result.second ≡ None }
    ensures account { result.account ≡ Some account }
{
    Touch {
        account: Some(account),
        ..NOWHERE
    }
}

/// Returns the changes that an event at the time `at` (ns) causes on processors. Preconditions: the
/// event isn't a task event (`TaskAct`), and doesn't turn accounting on or off. `changed` is the
/// task that the event changes, before and after the event. `running` has the running tasks after
/// the event.
#[inline(always)]
pub(crate) fn touch_of(at: Ns, act: &Act, changed: TaskUpdate, running: &[Running]) -> Touch
    requires other { is_task_act act.now ≡ false }
    requires plain { (names act.now).switched ≡ None }
    ensures known { (cpu : ℕ) →
        change_by_cpu result cpu
        ≡ (if touched act.now changed.old cpu
        then Some (change_for at changed (slice_index_or running.now cpu None)
        (irq_time_by cpu act.now) cpu) else None) }
    ensures beside { IsBeside result.first result.second }
    ensures account { result.account ≡ None }
{
    match act {
        Act::Fork { cpu, .. } => Touch {
            first: Some((*cpu, change_of(at, changed, running, *cpu))),
            ..NOWHERE
        },
        Act::Irq { cpu, ns } => {
            let change = Change {
                irq: *ns,
                ..change_of(at, changed, running, *cpu)
            };
            Touch {
                first: Some((*cpu, change)),
                ..NOWHERE
            }
        }
        Act::Move { .. } => match changed.old {
            Some(task) => Touch {
                first: Some((task.cpu, change_of(at, changed, running, task.cpu))),
                ..NOWHERE
            },
            None => NOWHERE,
        },
        _ => NOWHERE,
    }
}

/// Returns the processor of a task. Returns `None` if there is no task, or if its processor is
/// `other`.
#[inline(always)]
pub(crate) fn cpu_unless(other: Cpu, task: Option<Task>) -> Option<Cpu>
    ensures { result ≡ unless_on other task }
{
    match task {
        Some(task) if task.cpu.0 == other.0 => None,
        Some(task) => Some(task.cpu),
        None => None,
    }
}

/// Returns the processor of a task, or `None` if there is no task.
#[inline(always)]
pub(crate) fn cpu_of(task: Option<Task>) -> Option<Cpu>
    ensures { result ≡ cpu_in task }
{
    match task {
        Some(task) => Some(task.cpu),
        None => None,
    }
}

/// Returns the number and the change of processor `cpu`, or `None` if `cpu` is `None`. `changed` is
/// the task that an event at the time `at` (ns) changes, and `running` has the running tasks after
/// the event.
#[inline(always)]
pub(crate) fn touched_change(
    at: Ns,
    changed: TaskUpdate,
    running: &[Running],
    cpu: Option<Cpu>,
) -> Option<(Cpu, Change)>
    ensures { result ≡ touched_change at changed running.now cpu }
{
    match cpu {
        Some(cpu) => Some((cpu, change_of(at, changed, running, cpu))),
        None => None,
    }
}

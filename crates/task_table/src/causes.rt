//! Finds the first cause for rejecting an event, in the order of checks that psi_spec defines. This
//! module checks only what the event does (`Act`), not its time, and changes nothing.
ghost use Rattle.std.specs.Prelude.{◌≡◌, ℕ, List, if◌then◌else◌, nat_le, length, slice_index_or, None, Option, Some, false};
ghost use Rattle.psi_base.specs.declared.event.Cause.TheVariants as cause;
ghost use Rattle.psi_spec.specs.Refusal.{has_member, is_window};
ghost use Rattle.psi_spec.specs.World.{Tasks, as_slot, most_tasks, slot_of};
ghost use Rattle.task_table.specs.Causes.{act_cause, account_cause, empty_cause, fork_cause, how_cause, irq_cause, migrate_cause, move_cause, next_cause, path_cause, stall_cause, switch_cause, trigger_cause, unstall_cause, wake_cause};
ghost use Rattle.task_table.specs.Named.{named_group, named_task};
ghost use Rattle.task_table.specs.Stands.{AreMembers, IsIndex};
ghost use Rattle.trace_player.specs.TaskActs.{is_task_act};

use crate::members::Members;
use crate::running::{Running, running_at};
use crate::task_map::TaskMap;
use group_tree::Tree;
use psi_base::{Act, Cause, Cpu, Event, How, Ns, Path, Pid, Slot};
use psi_spec::{Mode, Task};

/// The maximum number of live tasks.
const MOST_TASKS: usize = 65_536;

/// The maximum number of triggers in a trace.
const MOST_TRIGGERS: u32 = 256;

/// The maximum number of `pressure` lines in a trace.
const MOST_PRESSURES: u32 = 65_536;

/// The shortest window of a trigger (us).
const SHORTEST_WINDOW: u64 = 500_000;

const LONGEST_WINDOW: u64 = 10_000_000;

/// The longest interrupt time (ns) that one `irq` line may report.
const LONGEST_IRQ: u64 = 1_000_000_000;

/// Returns whether `live`, the number of live tasks, has reached its maximum.
pub(crate) fn is_full(live: usize) -> bool
    ensures { result ≡ nat_le most_tasks live }
{
    live >= MOST_TASKS
}

/// Returns the slot of the live group whose path an event names, or `None`. The path of a group
/// that the event creates isn't looked up.
pub(crate) fn named_group(tree: &Tree, act: &Act) -> Option<Slot>
    ensures { result ≡ named_group tree.now act.now }
{
    match act {
        Act::Remove { path }
        | Act::Prefer { path, .. }
        | Act::Fork { path, .. }
        | Act::Move { path, .. }
        | Act::Mem { path, .. }
        | Act::Trigger { path, .. }
        | Act::Pressure { path, .. } => tree.find(path),
        _ => None,
    }
}

fn path_refused(lacks_group: bool) -> Option<Cause>
    ensures { result ≡ path_cause lacks_group }
{
    if lacks_group {
        Some(Cause::UnknownGroup)
    } else {
        None
    }
}

fn has_tasks(members: &Members, group: Option<Slot>) -> bool
    ensures { (tasks : Tasks) (slot : Option ℕ) → AreMembers members.now tasks →
        group ≡ as_slot slot →
        result ≡ has_member tasks slot }
{
    match group {
        Some(slot) => members.has(slot),
        None => false,
    }
}

fn remove_refused(tree: &Tree, members: &Members, path: &Path, group: Option<Slot>) -> Option<Cause>
    requires { group ≡ as_slot (slot_of tree.now path.now) }
    ensures { (tasks : Tasks) → AreMembers members.now tasks →
        result ≡ empty_cause tree.now tasks path.now }
{
    if let Some(cause) = tree.remove_cause(path) {
        return Some(cause);
    }
    if has_tasks(members, group) {
        return Some(Cause::GroupBusy);
    }
    None
}

fn fork_refused(
    cpus: usize,
    lacks_group: bool,
    live: usize,
    task: Option<Task>,
    cpu: u32,
) -> Option<Cause>
    ensures { result ≡ fork_cause cpus lacks_group live task cpu }
{
    if is_full(live) {
        Some(Cause::TooManyTasks)
    } else if lacks_group {
        Some(Cause::UnknownGroup)
    } else if task.is_some() {
        Some(Cause::TaskExists)
    } else if cpus <= cpu as usize {
        Some(Cause::BadCpu)
    } else {
        None
    }
}

#[inline(always)]
pub(crate) fn wake_refused(task: Option<Task>, cpus: usize, cpu: u32) -> Option<Cause>
    ensures { result ≡ wake_cause cpus task cpu }
{
    let Some(task) = task else {
        return Some(Cause::UnknownTask);
    };
    if cpus <= cpu as usize {
        return Some(Cause::BadCpu);
    }
    match task.mode {
        Mode::Ready | Mode::Running => Some(Cause::NotBlocked),
        Mode::Blocked | Mode::Waiting => None,
    }
}

/// Returns the first cause for rejecting the start of the next task on processor `cpu`, or `None`
/// if the task can start. `task` is the live task with the pid `next`, and `cpus` is the number of
/// processors. If `next` is `None`, only the processor number is checked.
#[inline(always)]
fn next_refused(next: Option<Pid>, task: Option<Task>, cpus: usize, cpu: u32) -> Option<Cause>
    ensures { result ≡ next_cause cpus cpu next task }
{
    if next.is_none() {
        return cpu_refused(cpus, cpu);
    }
    let Some(task) = task else {
        return Some(Cause::UnknownTask);
    };
    if cpus <= cpu as usize {
        return Some(Cause::BadCpu);
    }
    if task.cpu.0 == cpu && task.mode == Mode::Ready {
        return None;
    }
    Some(Cause::NotReady)
}

fn cpu_refused(cpus: usize, cpu: u32) -> Option<Cause>
    ensures { result ≡ (if nat_le cpus cpu then Some cause.BadCpu else None) }
{
    if cpus <= cpu as usize {
        return Some(Cause::BadCpu);
    }
    None
}

/// Returns the cause for rejecting the way `how` in which the running task leaves its processor, or
/// `None` if the task can leave in that way.
#[inline(always)]
fn how_refused(how: How, running: Running) -> Option<Cause>
    ensures { result ≡ how_cause how running }
{
    match (how, running) {
        (How::Idle, None) => None,
        (_, None) => Some(Cause::WrongHow),
        (How::Idle, Some(_)) => Some(Cause::WrongHow),
        (How::Exit, Some((_, task))) if task.stalled => Some(Cause::InStall),
        (_, Some(_)) => None,
    }
}

#[inline(always)]
pub(crate) fn switch_refused(
    running: &[Running],
    cpu: u32,
    next: Option<Pid>,
    task: Option<Task>,
    how: How,
) -> Option<Cause>
    ensures { result ≡ switch_cause (length running.now) cpu next task how
        (slice_index_or running.now cpu None) }
{
    if let Some(cause) = next_refused(next, task, running.len(), cpu) {
        return Some(cause);
    }
    how_refused(how, running_at(running, cpu))
}

#[inline(always)]
pub(crate) fn stall_refused(task: Option<Task>) -> Option<Cause>
    ensures { result ≡ stall_cause task }
{
    let Some(task) = task else {
        return Some(Cause::UnknownTask);
    };
    if task.mode != Mode::Running {
        return Some(Cause::NotRunning);
    }
    if task.stalled {
        return Some(Cause::InStall);
    }
    None
}

#[inline(always)]
pub(crate) fn unstall_refused(task: Option<Task>) -> Option<Cause>
    ensures { result ≡ unstall_cause task }
{
    let Some(task) = task else {
        return Some(Cause::UnknownTask);
    };
    if task.mode != Mode::Running {
        return Some(Cause::NotRunning);
    }
    if !task.stalled {
        return Some(Cause::NotInStall);
    }
    None
}

#[inline(always)]
pub(crate) fn migrate_refused(task: Option<Task>, cpus: usize, cpu: u32) -> Option<Cause>
    ensures { result ≡ migrate_cause cpus task cpu }
{
    let Some(task) = task else {
        return Some(Cause::UnknownTask);
    };
    if cpus <= cpu as usize {
        return Some(Cause::BadCpu);
    }
    if task.mode != Mode::Ready {
        return Some(Cause::NotReady);
    }
    None
}

fn move_refused(lacks_group: bool, task: Option<Task>) -> Option<Cause>
    ensures { result ≡ move_cause lacks_group task }
{
    if lacks_group {
        Some(Cause::UnknownGroup)
    } else if task.is_none() {
        Some(Cause::UnknownTask)
    } else {
        None
    }
}

fn is_window(threshold_us: u64, window_us: u64) -> bool
    ensures { result ≡ is_window threshold_us window_us }
{
    SHORTEST_WINDOW <= window_us
        && window_us <= LONGEST_WINDOW
        && 1 <= threshold_us
        && threshold_us <= window_us
}

fn trigger_refused(
    lacks_group: bool,
    triggers: u32,
    threshold_us: u64,
    window_us: u64,
) -> Option<Cause>
    ensures { result ≡ trigger_cause lacks_group triggers threshold_us window_us }
{
    if triggers >= MOST_TRIGGERS {
        Some(Cause::TooManyTriggers)
    } else if lacks_group {
        Some(Cause::UnknownGroup)
    } else if !is_window(threshold_us, window_us) {
        Some(Cause::BadWindow)
    } else {
        None
    }
}

fn account_refused(tree: &Tree, pressures: u32, path: &Path) -> Option<Cause>
    ensures { result ≡ account_cause tree.now pressures path.now }
{
    if pressures >= MOST_PRESSURES {
        return Some(Cause::TooManyPressures);
    }
    tree.pressure_cause(path)
}

/// Returns the cause for rejecting an `irq` line at the time `at` (ns), or `None` if the line is
/// legal. The line states that interrupts took `ns` (ns) on processor `cpu`, one of `cpus`
/// processors. `irqs` has the time (ns) of each processor's last `irq` line.
fn irq_refused(irqs: &[Ns], cpus: usize, at: Ns, cpu: Cpu, ns: u64) -> Option<Cause>
    ensures { result ≡ irq_cause cpus irqs.now at cpu ns }
{
    if cpus <= cpu.0 as usize {
        return Some(Cause::BadCpu);
    }
    let last = irqs.get(cpu.0 as usize).copied().unwrap_or(0);
    if ns > LONGEST_IRQ || ns > at.saturating_sub(last) {
        return Some(Cause::IrqTooLong);
    }
    None
}

/// Returns the first cause for rejecting `event`, or `None` if it is legal. The checks that apply
/// to every event, such as the check of its time, aren't made here. Precondition: the event isn't a
/// task event (`TaskAct`). `running` has the running task of each processor, and `irqs` the time
/// (ns) of its last `irq` line. `triggers` and `pressures` are the numbers of earlier triggers and
/// `pressure` lines. `named` is the task with the pid that the event names, and `group` is the slot
/// of the live group with the path that the event names.
#[inline(always)]
pub(crate) fn act_refused(
    tree: &Tree,
    tasks: &TaskMap,
    running: &[Running],
    members: &Members,
    irqs: &[Ns],
    triggers: u32,
    pressures: u32,
    event: &Event,
    named: Option<Task>,
    group: Option<Slot>,
) -> Option<Cause>
    requires index { IsIndex running.now tasks.now }
    requires members { AreMembers members.now tasks.now }
    requires named { named ≡ named_task tasks.now event.now.act }
    requires group { group ≡ named_group tree.now event.now.act }
    requires other { is_task_act event.now.act ≡ false }
    ensures { result ≡ act_cause (length running.now) tree.now tasks.now irqs.now triggers
        pressures event.now.at event.now.act }
{
    let cpus = running.len();
    let lacks_group = group.is_none();
    match &event.act {
        Act::Group { path } => tree.add_cause(path),
        Act::Remove { path } => remove_refused(tree, members, path, group),
        Act::Prefer { .. } | Act::Mem { .. } => path_refused(lacks_group),
        Act::Fork { cpu, .. } => fork_refused(cpus, lacks_group, tasks.len(), named, cpu.0),
        Act::Move { .. } => move_refused(lacks_group, named),
        Act::Trigger {
            threshold_us,
            window_us,
            ..
        } => trigger_refused(lacks_group, triggers, *threshold_us, *window_us),
        Act::Irq { cpu, ns } => irq_refused(irqs, cpus, event.at, *cpu, *ns),
        Act::Pressure { path, .. } => account_refused(tree, pressures, path),
        _ => None,
    }
}

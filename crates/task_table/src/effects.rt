//! Applies a legal event to the tasks, the groups and the counters of a trace. The module `causes`
//! checks whether an event is legal.
ghost use Rattle.std.specs.Prelude.{◌≡◌, ℕ, ◌+◌, ◌<◌, ◌≤◌, ◌++◌, ◌||◌, if◌then◌else◌, List, [], ◌∷◌, Option, None, Some, IfOk, OnOk, OnErr, true, false, length, slice_index_or, slice_set, unwrap_or};
ghost use Rattle.std.specs.FinMap as tasks_by;
ghost use Rattle.psi_spec.specs.World.{change, ends, groups_after, irqs_after, is_pressure, is_running, is_trigger, most_tasks, new_group, new_task, put, prepared_changes, slot_of, task_of, tasks_after};
ghost use Rattle.psi_counts.specs.Touch.{changed};
ghost use Rattle.psi_spec.specs.Collected.{slot_named};
ghost use Rattle.psi_spec.specs.declared.machine.GroupLife.{GroupLife};
ghost use Rattle.group_tree.specs.Tree.{add_cause};
ghost use Rattle.task_table.specs.Causes.{act_cause, groups_cause, makes_group, takes_memory};
ghost use Rattle.task_table.specs.Named.{IsChanged, MayReplaceIf, named_group, named_task, slot_or_root};
ghost use Rattle.task_table.specs.Stands.{AreMembers, IsIndex};
ghost use Rattle.trace_player.specs.TaskActs.{is_task_act};

use crate::members::Members;
use crate::running::{Running, set_running};
use crate::task_map::TaskMap;
use crate::task_update::TaskUpdate;
use group_tree::Tree;
use psi_base::{Act, Cpu, Fault, NoMemory, Ns, Path, Slot};
use psi_spec::{Mode, Task};

/// The maximum number of processors.
pub(crate) const MOST_CPUS: usize = 64;

fn is_end(act: &Act) -> bool
    ensures { result ≡ ends act.now }
{
    matches!(act, Act::End)
}

/// Returns whether the trace has ended after the event `act`. `before` is whether the trace had
/// ended before the event.
#[inline(always)]
pub(crate) fn has_ended(before: bool, act: &Act) -> bool
    ensures { result ≡ (before || ends act.now) }
{
    before || is_end(act)
}

/// Returns the number of triggers after the event `act`. `before` is the number before the event.
#[inline(always)]
pub(crate) fn triggers_with(before: u32, act: &Act) -> u32
    requires { before ≤ 256 }
    ensures { result ≡ before + (if is_trigger act.now then 1 else 0) }
{
    match act {
        Act::Trigger { .. } => before + 1,
        _ => before,
    }
}

/// Returns the number of `pressure` lines after the event `act`. `before` is the number before the
/// event.
#[inline(always)]
pub(crate) fn pressures_with(before: u32, act: &Act) -> u32
    requires { before ≤ 65536 }
    ensures { result ≡ before + (if is_pressure act.now then 1 else 0) }
{
    match act {
        Act::Pressure { .. } => before + 1,
        _ => before,
    }
}

/// Stores `at` (ns) as the time of a processor's last `irq` line, if the event is such a line.
/// Other events change nothing.
#[inline(always)]
pub(crate) fn note_irq(irqs: &mut [Ns; MOST_CPUS], at: Ns, act: &Act)
    ensures { irqs.new ≡ irqs_after at irqs.old act.now }
{
    if let Act::Irq { cpu, .. } = act {
        set_irq(irqs, *cpu, at);
    }
}

fn set_irq(irqs: &mut [Ns], cpu: Cpu, at: Ns)
    ensures { irqs.new ≡ slice_set irqs.old cpu.0 at }
{
    let place = cpu.0 as usize;
    if place < irqs.len() {
        irqs[place] = at;
    }
}

/// Returns a new task in the group in `slot` on processor `cpu`. The task is ready and isn't in a
/// memory stall.
fn forked(slot: Slot, cpu: Cpu) -> Task
    ensures { (groups : List GroupLife) (path : List ℕ) → slot ≡ slot_named groups path →
        result ≡ new_task groups path cpu.0 }
{
    Task {
        slot,
        cpu,
        mode: Mode::Ready,
        stalled: false,
    }
}

/// Returns `task` as a ready task on processor `cpu`, or `None` if there is no task. A memory stall
/// of the task continues.
pub(crate) fn prepared_changes(task: Option<Task>, cpu: Cpu) -> Option<Task>
    ensures { result ≡ changed (prepared_changes cpu.0) task }
{
    match task {
        Some(task) => Some(Task {
            mode: Mode::Ready,
            cpu,
            ..task
        }),
        None => None,
    }
}

pub(crate) fn with_stall(task: Option<Task>, stalled: bool) -> Option<Task>
    ensures { result ≡ changed (λ t. record t { stalled = stalled }) task }
{
    match task {
        Some(task) => Some(Task { stalled, ..task }),
        None => None,
    }
}

fn moved(task: Option<Task>, slot: Slot) -> Option<Task>
    ensures { result ≡ changed (λ t. record t { slot = slot }) task }
{
    match task {
        Some(task) => Some(Task { slot, ..task }),
        None => None,
    }
}

/// Returns the live task with the pid that an event names, or `None`. Precondition: the event isn't
/// a task event (`TaskAct`).
#[inline(always)]
pub(crate) fn named_task(tasks: &TaskMap, act: &Act) -> Option<Task>
    requires { is_task_act act.now ≡ false }
    ensures { result ≡ named_task tasks.now act.now }
{
    match act {
        Act::Fork { pid, .. } | Act::Move { pid, .. } => tasks.get(pid.0),
        _ => None,
    }
}

/// Replaces the task `old` by the task `new` under the pid `pid`. Changes nothing if either is
/// `None`.
// The function is inlined so that the two tasks aren't passed through memory.
#[inline(always)]
pub(crate) fn replace(
    tasks: &mut TaskMap,
    running: &mut [Running],
    members: &mut Members,
    pid: u32,
    old: Option<Task>,
    new: Option<Task>,
) -> TaskUpdate
    requires index { IsIndex running.old tasks.old }
    requires members { AreMembers members.old tasks.old }
    requires few { tasks_by.len tasks.old ≤ most_tasks }
    requires old { old ≡ task_of tasks.old pid }
    requires new { MayReplaceIf (length members.old) old new }
    ensures tasks { (f : Task → Task) → new ≡ changed f old →
        tasks.new ≡ change tasks.old pid f }
    ensures index { IsIndex running.new tasks.new }
    ensures members { AreMembers members.new tasks.new }
    ensures cover { length members.new ≡ length members.old }
    ensures length { length running.new ≡ length running.old }
    ensures before { result.old ≡ old }
    ensures after { result.new ≡ new }
{
    let changed = TaskUpdate { old, new };
    let Some(old) = old else {
        return changed;
    };
    let Some(new) = new else {
        return changed;
    };
    members.leave(old.slot);
    members.join(new.slot);
    tasks.set(pid, new);
    set_running(running, pid, new);
    changed
}

/// Adds `task` under the new pid `pid`. If memory runs out, no task is added.
fn add_task(
    tasks: &mut TaskMap,
    members: &mut Members,
    pid: u32,
    task: Task,
) -> Result<TaskUpdate, NoMemory>
    requires members { AreMembers members.old tasks.old }
    requires new { task_of tasks.old pid ≡ None }
    requires off { is_running task.mode ≡ false }
    requires room { task.slot.0 < length members.old }
    requires few { tasks_by.len tasks.old ≤ most_tasks }
    ensures tasks { OnOk result (tasks.new ≡ put tasks.old pid task) }
    ensures err { OnErr result (tasks.new ≡ tasks.old) }
    ensures index { (running : List (Option (ℕ × Task))) → IsIndex running tasks.old →
        IsIndex running tasks.new }
    ensures members { AreMembers members.new tasks.new }
    ensures cover { length members.new ≡ length members.old }
    ensures changed { IfOk result (λ c. (c.old ≡ None) × (c.new ≡ Some task)) }
{
    match tasks.add(pid, task) {
        Ok(()) => {
            members.join(task.slot);
            Ok(TaskUpdate {
                old: None,
                new: Some(task),
            })
        }
        Err(fault) => Err(fault),
    }
}

/// Adds the group with the path `path` at the time `at` (ns). If memory runs out, no group is
/// added.
fn add_group(tree: &mut Tree, members: &mut Members, path: &Path, at: Ns) -> Result<(), NoMemory>
    requires legal { add_cause tree.old path.now ≡ None }
    requires cover { length tree.old ≤ length members.old }
    ensures groups { OnOk result (tree.new ≡ tree.old ++ new_group tree.old path.now at ∷ []) }
    ensures err { OnErr result (tree.new ≡ tree.old) }
    ensures same { (slot : ℕ) →
        slice_index_or members.new slot 0 ≡ slice_index_or members.old slot 0 }
    ensures cover { length tree.new ≤ length members.new }
{
    members.cover(tree.len() + 1)?;
    match tree.add(path, at) {
        Ok(_) => Ok(()),
        Err(Fault::NoMemory(none)) => Err(none),
        Err(Fault::Refused(_)) => unreachable!(),
    }
}

/// Applies a legal event to the tasks. Precondition: the event isn't a task event (`TaskAct`).
/// `named` is the task with the pid that the event names, and `slot` is the slot of the group that
/// the event names, or the root's slot. Only a fork allocates; if memory runs out, no task changes.
#[inline(always)]
pub(crate) fn change_tasks(
    tasks: &mut TaskMap,
    running: &mut [Running],
    members: &mut Members,
    tree: &Tree,
    act: &Act,
    named: Option<Task>,
    slot: Slot,
) -> Result<TaskUpdate, NoMemory>
    requires index { IsIndex running.old tasks.old }
    requires members { AreMembers members.old tasks.old }
    requires cover { length tree.now ≤ length members.old }
    requires few { tasks_by.len tasks.old ≤ most_tasks }
    requires named { named ≡ named_task tasks.old act.now }
    requires slot { slot ≡ slot_or_root (named_group tree.now act.now) }
    requires other { is_task_act act.now ≡ false }
    requires legal { (irqs : List ℕ) × (triggers : ℕ) × (pressures : ℕ) × (at : ℕ)
        × (act_cause (length running.old) tree.now tasks.old irqs triggers pressures at act.now
        ≡ None) }
    ensures tasks { OnOk result (tasks.new ≡ tasks_after tree.now tasks.old act.now) }
    ensures changed { IfOk result (λ changed. IsChanged tree.now tasks.old act.now changed) }
    ensures err { OnErr result ((tasks.new ≡ tasks.old) × (takes_memory act.now ≡ true)) }
    ensures index { IsIndex running.new tasks.new }
    ensures members { AreMembers members.new tasks.new }
    ensures cover { length members.new ≡ length members.old }
    ensures length { length running.new ≡ length running.old }
{
    match act {
        Act::Fork { pid, cpu, .. } => add_task(tasks, members, pid.0, forked(slot, *cpu)),
        Act::Move { pid, .. } => {
            let new = moved(named, slot);
            Ok(replace(tasks, running, members, pid.0, named, new))
        }
        _ => Ok(TaskUpdate {
            old: None,
            new: None,
        }),
    }
}

/// Applies a legal event at the time `at` (ns) to the groups. Only the creation of a group
/// allocates; if memory runs out, no group changes.
#[inline(always)]
pub(crate) fn change_groups(
    tree: &mut Tree,
    members: &mut Members,
    at: Ns,
    act: &Act,
) -> Result<(), NoMemory>
    requires cover { length tree.old ≤ length members.old }
    requires legal { groups_cause tree.old act.now ≡ None }
    ensures groups { OnOk result (tree.new ≡ groups_after at tree.old act.now) }
    ensures err { OnErr result ((tree.new ≡ tree.old) × (makes_group act.now ≡ true)) }
    ensures same { (slot : ℕ) →
        slice_index_or members.new slot 0 ≡ slice_index_or members.old slot 0 }
    ensures cover { length tree.new ≤ length members.new }
{
    match act {
        Act::Group { path } => add_group(tree, members, path, at),
        Act::Remove { path } => {
            let _ = tree.remove(path, at);
            Ok(())
        }
        Act::Pressure { path, on } => {
            let _ = tree.switch(path, *on);
            Ok(())
        }
        _ => Ok(()),
    }
}

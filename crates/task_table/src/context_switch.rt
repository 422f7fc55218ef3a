//! Performs a legal context switch: the running task leaves its processor, and the next task starts
//! there.
ghost use Rattle.std.specs.Prelude.{◌≡◌, ◌≢◌, ℕ, ◌<◌, List, None, IfSome, true, false, length, slice_index_or};
ghost use Rattle.psi_spec.specs.World.{is_ready, is_running, leave, left_by, running_on, start, task_part};
ghost use Rattle.psi_counts.specs.Touch.{left_if};
ghost use Rattle.psi_spec.specs.Refusal.{is_wrong};
ghost use Rattle.task_table.specs.Causes.{switch_cause};
ghost use Rattle.task_table.specs.Named.{next_task};
ghost use Rattle.task_table.specs.Stands.{AreMembers, IsIndex};
ghost use Rattle.psi_base.specs.declared.event.How.TheVariants.{Idle};

use crate::members::Members;
use crate::running::{Running, running_at};
use crate::task_map::TaskMap;
use crate::task_update::TaskUpdate;
use psi_base::{How, Pid};
use psi_spec::{Mode, Task};

/// Returns the state of the running task after it leaves its processor in the way `how`, or `None`
/// if the task exits.
#[inline(always)]
fn left(how: How, task: Task) -> Option<Task>
    ensures task { result ≡ left_by how task }
    ensures off { how ≢ Idle → IfSome result (λ t. is_running t.mode ≡ false) }
    ensures slot { IfSome result (λ t. t.slot ≡ task.slot) }
{
    match how {
        How::Preempt => Some(Task {
            mode: Mode::Ready,
            ..task
        }),
        How::Sleep => Some(Task {
            mode: Mode::Blocked,
            ..task
        }),
        How::IoWait => Some(Task {
            mode: Mode::Waiting,
            ..task
        }),
        How::Exit => None,
        How::Idle => Some(task),
    }
}

/// Makes the running task of processor `cpu` leave in the way `how`, and returns the task before
/// and after that. A task that exits is removed. Changes nothing if no task is running there.
#[inline(always)]
fn switch_out(
    tasks: &mut TaskMap,
    running: &mut [Running],
    members: &mut Members,
    cpu: u32,
    how: How,
) -> TaskUpdate
    requires index { IsIndex running.old tasks.old }
    requires members { AreMembers members.old tasks.old }
    requires room { cpu < length running.old }
    requires how { is_wrong how (running_on tasks.old cpu) ≡ false }
    ensures tasks { tasks.new ≡ leave how tasks.old (running_on tasks.old cpu) }
    ensures index { IsIndex running.new tasks.new }
    ensures members { AreMembers members.new tasks.new }
    ensures cover { length members.new ≡ length members.old }
    ensures length { length running.new ≡ length running.old }
    ensures free { slice_index_or running.new cpu None ≡ None }
    ensures before { result.old ≡ task_part (running_on tasks.old cpu) }
    ensures after { result.new ≡ left_if how (task_part (running_on tasks.old cpu)) }
{
    let Some((pid, task)) = running_at(running, cpu) else {
        return TaskUpdate {
            old: None,
            new: None,
        };
    };
    running[cpu as usize] = None;
    let new = left(how, task);
    match new {
        Some(after) => tasks.set(pid, after),
        None => {
            members.leave(task.slot);
            tasks.remove(pid);
        }
    }
    TaskUpdate {
        old: Some(task),
        new,
    }
}

/// Starts the ready task with the pid `next` and the state `task` on processor `cpu`, which idles.
/// Does nothing if `next` is `None`.
#[inline(always)]
fn switch_in(
    tasks: &mut TaskMap,
    running: &mut [Running],
    cpu: u32,
    next: Option<Pid>,
    task: Option<Task>,
)
    requires index { IsIndex running.old tasks.old }
    requires room { cpu < length running.old }
    requires free { slice_index_or running.old cpu None ≡ None }
    requires task { task ≡ next_task tasks.old next }
    requires ready { IfSome task (λ t. (t.cpu.0 ≡ cpu) × (is_ready t.mode ≡ true)) }
    ensures tasks { tasks.new ≡ start next tasks.old }
    ensures index { IsIndex running.new tasks.new }
    ensures members { (members : List ℕ) → AreMembers members tasks.old →
        AreMembers members tasks.new }
    ensures length { length running.new ≡ length running.old }
{
    let Some(pid) = next else {
        return;
    };
    let Some(task) = task else {
        return;
    };
    let after = Task {
        mode: Mode::Running,
        ..task
    };
    tasks.set(pid.0, after);
    running[cpu as usize] = Some((pid.0, after));
}

/// Performs a legal context switch on processor `cpu`. The running task leaves in the way `how`.
/// `next` and `task` are the pid and the state of the next task, or `None` if the processor idles
/// after the switch. Returns the task that leaves, before and after the switch.
#[inline(always)]
pub(crate) fn switch(
    tasks: &mut TaskMap,
    running: &mut [Running],
    members: &mut Members,
    cpu: u32,
    next: Option<Pid>,
    task: Option<Task>,
    how: How,
) -> TaskUpdate
    requires index { IsIndex running.old tasks.old }
    requires members { AreMembers members.old tasks.old }
    requires task { task ≡ next_task tasks.old next }
    requires legal { switch_cause (length running.old) cpu next task how (running_on tasks.old cpu)
        ≡ None }
    ensures tasks { tasks.new ≡ start next (leave how tasks.old (running_on tasks.old cpu)) }
    ensures index { IsIndex running.new tasks.new }
    ensures members { AreMembers members.new tasks.new }
    ensures cover { length members.new ≡ length members.old }
    ensures length { length running.new ≡ length running.old }
    ensures before { result.old ≡ task_part (running_on tasks.old cpu) }
    ensures after { result.new ≡ left_if how (task_part (running_on tasks.old cpu)) }
{
    let changed = switch_out(tasks, running, members, cpu, how);
    switch_in(tasks, running, cpu, next, task);
    changed
}

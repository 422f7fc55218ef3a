//! The fast path of the table of tasks. It is for task events, which are passed by value: wakeups,
//! switches, stalls, unstalls and migrations.
//!
//! Each method with the suffix `_task` does for a task event what the method without the suffix
//! does for all events. A task event (`TaskAct`) is passed in registers. The fast path neither
//! allocates nor changes groups, which saves a third of the time for an event. The general methods
//! call these methods for task events.
ghost use Rattle.std.specs.Prelude.{◌≡◌, ℕ, ◌<◌, ◌≤◌, if◌then◌else◌, IfNone, List, None, Some, length, slice_index_or};
ghost use Rattle.std.specs.FinMap as tasks_by;
ghost use Rattle.psi_counts.specs.Touch.{AllTouched, HasSlotsBelow, IsBeside, IsOfOne, IsTouch, change_by_cpu};
ghost use Rattle.psi_spec.specs.Changes.{before, touched};
ghost use Rattle.psi_spec.specs.Refusal.{cause_of};
ghost use Rattle.psi_spec.specs.Stall.{irq_time_by};
ghost use Rattle.psi_spec.specs.World.{Tasks, most_events, most_tasks, tasks_after};
ghost use Rattle.psi_spec.specs.declared.machine.GroupLife.{GroupLife};
ghost use Rattle.task_table.specs.Acts.{cpus_touched};
ghost use Rattle.task_table.specs.Causes.{act_cause};
ghost use Rattle.task_table.specs.Named.{IsChanged, change_for, named_task};
ghost use Rattle.task_table.specs.Stands.{AreMembers, HasPlayed, IsFinding, IsIndex, Judges, PlaysEvent};
ghost use Rattle.trace_player.specs.TaskActs.{as_act, as_event};

use crate::causes::{
    migrate_refused, stall_refused, switch_refused, unstall_refused, wake_refused,
};
use crate::context_switch::switch;
use crate::effects::{prepared_changes, replace, with_stall};
use crate::finding::Finding;
use crate::members::Members;
use crate::running::Running;
use crate::table::Table;
use crate::task_map::TaskMap;
use crate::task_update::TaskUpdate;
use crate::touch::{cpu_of, cpu_unless, touched_change};
use psi_base::{Cause, Cpu, Fault, Ns};
use psi_counts::Touch;
use psi_spec::Task;
use trace_player::TaskAct;

/// Returns the task with the pid that the task event `act` names, or `None`.
#[tactic(auto, using(crate::proofs::TaskActLaws::named_by_pid))]
#[inline(always)]
fn named_task(tasks: &TaskMap, act: TaskAct) -> Option<Task>
    ensures { result ≡ named_task tasks.now (as_act act) }
{
    match act.pid() {
        Some(pid) => tasks.get(pid.0),
        None => None,
    }
}

/// Returns the first cause for rejecting a task event, or `None` if the event is legal. The checks
/// that apply to every event aren't made here. `running` has the running task of each processor,
/// and `named` is the task with the pid that the event names.
#[inline(always)]
fn act_refused(running: &[Running], act: TaskAct, named: Option<Task>) -> Option<Cause>
    ensures { (groups : List GroupLife) (tasks : Tasks) (irqs : List ℕ)
        (triggers pressures at : ℕ) →
        IsIndex running.now tasks →
        named ≡ named_task tasks (as_act act) →
        result ≡ act_cause (length running.now) groups tasks irqs triggers pressures at
        (as_act act) }
{
    let cpus = running.len();
    match act {
        TaskAct::Wake { cpu, .. } => wake_refused(named, cpus, cpu.0),
        TaskAct::Switch { cpu, next, how } => switch_refused(running, cpu.0, next, named, how),
        TaskAct::Stall { .. } => stall_refused(named),
        TaskAct::Unstall { .. } => unstall_refused(named),
        TaskAct::Migrate { cpu, .. } => migrate_refused(named, cpus, cpu.0),
    }
}

/// Applies a legal task event to the tasks, and returns the changed task before and after the
/// event. `named` is the task with the pid that the event names.
#[inline(always)]
fn change_tasks(
    tasks: &mut TaskMap,
    running: &mut [Running],
    members: &mut Members,
    act: TaskAct,
    named: Option<Task>,
) -> TaskUpdate
    requires index { IsIndex running.old tasks.old }
    requires members { AreMembers members.old tasks.old }
    requires few { tasks_by.len tasks.old ≤ most_tasks }
    requires named { named ≡ named_task tasks.old (as_act act) }
    requires legal { (groups : List GroupLife) × (irqs : List ℕ) × (triggers : ℕ)
        × (pressures : ℕ) × (at : ℕ)
        × (act_cause (length running.old) groups tasks.old irqs triggers pressures at (as_act act)
        ≡ None) }
    ensures tasks { (groups : List GroupLife) →
        tasks.new ≡ tasks_after groups tasks.old (as_act act) }
    ensures changed { (groups : List GroupLife) →
        IsChanged groups tasks.old (as_act act) result }
    ensures index { IsIndex running.new tasks.new }
    ensures members { AreMembers members.new tasks.new }
    ensures cover { length members.new ≡ length members.old }
    ensures length { length running.new ≡ length running.old }
{
    // All events except a switch share one call of `replace`, so that its code is inlined only
    // once.
    let (pid, new) = match act {
        TaskAct::Switch { cpu, next, how } => {
            return switch(tasks, running, members, cpu.0, next, named, how);
        }
        TaskAct::Wake { pid, cpu } | TaskAct::Migrate { pid, cpu } => (
            pid,
            prepared_changes(named, cpu),
        ),
        TaskAct::Stall { pid } => (pid, with_stall(named, true)),
        TaskAct::Unstall { pid } => (pid, with_stall(named, false)),
    };
    replace(tasks, running, members, pid.0, named, new)
}

/// Returns the processors that a task event affects, at most two. `old` is the task that the event
/// changes, in its state before the event.
#[inline(always)]
fn cpus_touched(act: TaskAct, old: Option<Task>) -> (Option<Cpu>, Option<Cpu>)
    ensures { result ≡ cpus_touched act old }
{
    match act {
        TaskAct::Switch { cpu, .. } => (Some(cpu), None),
        TaskAct::Wake { cpu, .. } | TaskAct::Migrate { cpu, .. } => {
            (Some(cpu), cpu_unless(cpu, old))
        }
        TaskAct::Stall { .. } | TaskAct::Unstall { .. } => (cpu_of(old), None),
    }
}

/// Returns the changes that a task event at the time `at` (ns) causes on processors. `changed` is
/// the task that the event changes, before and after the event. `running` has the running tasks
/// after the event.
#[inline(always)]
fn touch_of(at: Ns, act: TaskAct, changed: TaskUpdate, running: &[Running]) -> Touch
    ensures known { (cpu : ℕ) →
        change_by_cpu result cpu
        ≡ (if touched (as_act act) changed.old cpu
        then Some (change_for at changed (slice_index_or running.now cpu None)
        (irq_time_by cpu (as_act act)) cpu) else None) }
    ensures beside { IsBeside result.first result.second }
    ensures account { result.account ≡ None }
{
    let (first, second) = cpus_touched(act, changed.old);
    Touch {
        first: touched_change(at, changed, running, first),
        second: touched_change(at, changed, running, second),
        account: None,
    }
}

impl Table {
    /// Returns the first cause for rejecting the task event `act` at the time `at` (ns), or `None`
    /// if the event is legal. `named` is the task with the pid that the event names.
    #[inline(always)]
    fn refused_task(&self, at: Ns, act: TaskAct, named: Option<Task>) -> Option<Cause>
        requires { named ≡ named_task self.now.world.tasks (as_act act) }
        ensures cause { result ≡ cause_of self.now.limits self.now.world (as_event at act) }
        ensures room { IfNone result (self.now.world.lines < most_events) }
        ensures forward { IfNone result (self.now.world.last ≤ at) }
        ensures early { IfNone result (at ≤ self.now.limits.latest) }
    {
        if let Some(cause) = self.line_refused(at) {
            return Some(cause);
        }
        act_refused(&self.running, act, named)
    }

    /// Returns the task whose counts a task event changes, in its state before the event, or
    /// `None`. `named` is the task with the pid that the event names.
    #[inline(always)]
    fn before_task(&self, act: TaskAct, named: Option<Task>) -> Option<Task>
        requires { named ≡ named_task self.now.world.tasks (as_act act) }
        ensures { result ≡ before self.now.world.tasks (as_act act) }
    {
        match act {
            TaskAct::Switch { cpu, .. } => self.running(cpu),
            _ => named,
        }
    }

    /// Checks the task event `act` at the time `at` (ns). Returns the same result as
    /// [`Table::judge`] for this event.
    #[inline(always)]
    pub fn judge_task(&self, at: Ns, act: TaskAct) -> Result<Finding, Cause>
        ensures { Judges self.now (as_event at act) result }
    {
        let named = named_task(&self.tasks, act);
        if let Some(cause) = self.refused_task(at, act, named) {
            return Err(cause);
        }
        Ok(Finding {
            named,
            before: self.before_task(act, named),
            group: None,
        })
    }

    /// Plays the task event `act` at the time `at` (ns). Has the same effect as [`Table::play`] for
    /// this event.
    #[inline(always)]
    pub fn play_task(&mut self, at: Ns, act: TaskAct) -> Result<(), Fault<Cause>>
        ensures { PlaysEvent self.old (as_event at act) self.new result }
    {
        let finding = self.judge_task(at, act)?;
        self.advance_task(at, act, finding);
        Ok(())
    }

    /// Performs the legal task event `act` at the time `at` (ns), and returns the changes that the
    /// event causes on processors. `finding` is the result of [`Table::judge_task`] for this event.
    /// Has the same effect as [`Table::perform`], but doesn't allocate.
    #[inline(always)]
    pub fn perform_task(&mut self, at: Ns, act: TaskAct, finding: Finding) -> Touch
        requires { IsFinding self.old (as_event at act) finding }
        ensures plays { HasPlayed self.old (as_event at act) self.new }
        ensures touch { IsTouch self.old.limits.cpus self.old.world (as_event at act) result }
        ensures cpus { AllTouched (λ cpu change. cpu < self.old.limits.cpus) result }
        ensures slots { AllTouched
            (λ cpu change. HasSlotsBelow (length self.old.world.groups) change) result }
        ensures ones { AllTouched (λ cpu change. IsOfOne change) result }
        ensures moment { AllTouched (λ cpu change. change.at ≡ at) result }
        ensures account { result.account ≡ None }
    {
        let changed = self.advance_task(at, act, finding);
        touch_of(at, act, changed, &self.running)
    }

    /// Performs the legal task event `act` at the time `at` (ns), and returns the task that the
    /// event changes, before and after the event.
    #[inline(always)]
    pub(super) fn advance_task(&mut self, at: Ns, act: TaskAct, finding: Finding) -> TaskUpdate
        requires { IsFinding self.old (as_event at act) finding }
        ensures plays { HasPlayed self.old (as_event at act) self.new }
        ensures changed { IsChanged self.old.world.groups self.old.world.tasks (as_act act) result }
    {
        let changed = change_tasks(
            &mut self.tasks,
            &mut self.running,
            &mut self.members,
            act,
            finding.named,
        );
        self.lines += 1;
        self.last = at;
        changed
    }
}

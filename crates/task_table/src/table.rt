//! The table of tasks. It has the state after the events played so far, checks the next event, and
//! performs it.
ghost use Rattle.std.specs.Prelude.{◌≡◌, ◌<◌, ◌≤◌, IfNone, IfOk, None, false, length, nat_le};
ghost use Rattle.std.specs.FinMap as tasks_by;
ghost use Rattle.psi_spec.specs.World.{first_world, most_events, most_tasks, running_on, task_of, task_part};
ghost use Rattle.psi_counts.specs.Touch.{AllTouched, HasSlotsBelow, IsOfOne, IsTouch, shown};
ghost use Rattle.psi_spec.specs.Changes.{before};
ghost use Rattle.psi_spec.specs.Refusal.{cause_of};
ghost use Rattle.task_table.specs.Named.{IsChanged, named_group, named_task};
ghost use Rattle.task_table.specs.Causes.{line_cause};
ghost use Rattle.task_table.specs.Stands.{IsFinding, Judges, PlaysEvent, PlaysLegal};
ghost use Rattle.trace_player.specs.TaskActs.{is_task_act};

mod task_act;

use crate::causes::{act_refused, is_full, named_group};
use crate::effects::{
    MOST_CPUS, change_groups, change_tasks, has_ended, named_task, note_irq, pressures_with,
    triggers_with,
};
use crate::finding::Finding;
use crate::members::Members;
use crate::running::{Running, running_at};
use crate::task_map::TaskMap;
use crate::task_update::TaskUpdate;
use crate::touch::{account_of, account_touch, current_on, touch_of};
use group_tree::Tree;
use psi_base::{Act, Cause, Cpu, Event, Fault, MOST_EVENTS, NoMemory, Ns, Pid, Slot};
use psi_counts::Touch;
use psi_spec::Task;
use std::alloc::Global;
use std::marker::Model;
use trace_player::TaskAct;

/// The state of all tasks and groups after the events played so far, and the limits of the trace.
#[derive(Drop)]
pub struct Table {
    /// The latest time (ns) that an event may have.
    latest: Ns,
    tasks: TaskMap,
    /// The running task of each processor.
    running: Vec<Running>,
    /// The number of live tasks in each group.
    members: Members,
    /// All groups ever created, including removed groups.
    tree: Tree,
    /// The time (ns) of each processor's last `irq` line, or 0 if there was none.
    irqs: [Ns; MOST_CPUS],
    /// The number of triggers that were set.
    triggers: u32,
    /// The number of `pressure` lines that were played.
    pressures: u32,
    /// The number of events that were played.
    lines: u32,
    /// The time (ns) of the last event.
    last: Ns,
    ended: bool,
}

impl Model for Table {
    ghost use Rattle.std.specs.Prelude.{length};
    ghost use Rattle.task_table.specs.Stands.{IsTable, TableView, table_of, view_code};

    ghost Value = { TableView };

    ghost coded = { view_code };

    ghost view = { λ t. table_of (length t.running.items) t.latest t.tasks t.tree
        t.irqs t.triggers t.pressures t.lines t.last t.ended };

    ghost invariant = { λ t. IsTable (table_of (length t.running.items) t.latest t.tasks t.tree
        t.irqs t.triggers t.pressures t.lines t.last t.ended) t.running.items t.members };
}

impl Table {
    /// Creates a table that has played no event, with `cpus` processors (1 to 64). `latest` is the
    /// latest time (ns) that an event may have.
    pub fn new(alloc: Global, cpus: u32, latest: Ns) -> Result<Table, NoMemory>
        requires some { 1 ≤ cpus }
        requires few { cpus ≤ 64 }
        ensures { IfOk result (λ t.
            t ≡ record { limits = record { cpus = cpus; latest = latest }; world = first_world }) }
    {
        let mut running: Vec<Running> = Vec::new(alloc);
        for _ in 0..cpus {
            running.push(None)?;
        }
        Ok(Table {
            latest,
            tasks: TaskMap::new(alloc)?,
            running,
            members: Members::new(alloc)?,
            tree: Tree::new(alloc)?,
            irqs: [0; MOST_CPUS],
            triggers: 0,
            pressures: 0,
            lines: 0,
            last: 0,
            ended: false,
        })
    }

    /// Returns the number of processors, at most 64.
    pub fn cpus(&self) -> u32
        ensures cpus { result ≡ self.now.limits.cpus }
        ensures few { result ≤ 64 }
    {
        self.running.len() as u32
    }

    /// Returns the number of events played, at most 4,000,000.
    pub fn lines(&self) -> u32
        ensures lines { result ≡ self.now.world.lines }
        ensures few { result ≤ most_events }
    {
        self.lines
    }

    /// Returns the time (ns) of the last event, or 0 before the first event.
    pub fn last(&self) -> Ns
        ensures { result ≡ self.now.world.last }
    {
        self.last
    }

    /// Returns whether the event that ends the trace has been played.
    pub fn is_ended(&self) -> bool
        ensures { result ≡ self.now.world.ended }
    {
        self.ended
    }

    /// Returns whether the number of live tasks has reached its limit (65,536).
    pub fn is_full(&self) -> bool
        ensures { result ≡ nat_le most_tasks (tasks_by.len self.now.world.tasks) }
    {
        is_full(self.tasks.len())
    }

    /// Returns the tree of all groups ever created.
    pub fn groups(&self) -> &Tree
        ensures { result.now ≡ self.now.world.groups }
    {
        &self.tree
    }

    /// Returns the tree of all groups ever created, and drops the rest of the table of tasks.
    pub fn into_groups(self) -> Tree
        ensures { result ≡ self.world.groups }
    {
        self.tree
    }

    /// Returns the live task with this pid, or `None`.
    pub fn task(&self, pid: Pid) -> Option<Task>
        ensures { result ≡ task_of self.now.world.tasks pid.0 }
    {
        self.tasks.get(pid.0)
    }

    /// Returns the running task of a processor, or `None` if the processor idles.
    #[tactic(auto, using(crate::proofs::Index::running_known))]
    pub fn running(&self, cpu: Cpu) -> Option<Task>
        ensures { result ≡ task_part (running_on self.now.world.tasks cpu.0) }
    {
        match running_at(&self.running, cpu.0) {
            Some((_, task)) => Some(task),
            None => None,
        }
    }

    /// Returns the slot of the running task's group, and whether that task is in a memory stall, in
    /// the format of a `Change`. Returns `None` if the processor idles.
    #[tactic(auto, using(crate::proofs::Index::running_known))]
    pub fn current(&self, cpu: Cpu) -> Option<(Slot, bool)>
        ensures { result ≡ shown (running_on self.now.world.tasks cpu.0) }
    {
        current_on(&self.running, cpu)
    }

    /// Checks the time `at` (ns) of an event, and whether the trace may have another event. Returns
    /// the first cause for rejecting any event at that time, or `None`.
    #[tactic(auto, using(std::proofs::lemmas::Bool::Decides::nat_tests))]
    #[inline(always)]
    fn line_refused(&self, at: Ns) -> Option<Cause>
        ensures cause { result ≡ line_cause self.now.limits self.now.world at }
        ensures room { IfNone result (self.now.world.lines < most_events) }
        ensures forward { IfNone result (self.now.world.last ≤ at) }
        ensures early { IfNone result (at ≤ self.now.limits.latest) }
    {
        if self.ended {
            return Some(Cause::AfterEnd);
        }
        if at < self.last {
            return Some(Cause::TimeBack);
        }
        if self.latest < at {
            return Some(Cause::TimeTooLate);
        }
        if self.lines >= MOST_EVENTS {
            return Some(Cause::TooManyEvents);
        }
        None
    }

    /// Returns the first cause for rejecting an event, or `None` if the event is legal.
    /// Precondition: the event isn't a task event (`TaskAct`). `named` is the task with the pid
    /// that the event names, and `group` is the slot of the live group with the path that the event
    /// names.
    #[inline(always)]
    fn refused(&self, event: &Event, named: Option<Task>, group: Option<Slot>) -> Option<Cause>
        requires other { is_task_act event.now.act ≡ false }
        requires named { named ≡ named_task self.now.world.tasks event.now.act }
        requires group { group ≡ named_group self.now.world.groups event.now.act }
        ensures cause { result ≡ cause_of self.now.limits self.now.world event.now }
        ensures room { IfNone result (self.now.world.lines < most_events) }
        ensures forward { IfNone result (self.now.world.last ≤ event.now.at) }
        ensures early { IfNone result (event.now.at ≤ self.now.limits.latest) }
    {
        if let Some(cause) = self.line_refused(event.at) {
            return Some(cause);
        }
        act_refused(
            &self.tree,
            &self.tasks,
            &self.running,
            &self.members,
            &self.irqs,
            self.triggers,
            self.pressures,
            event,
            named,
            group,
        )
    }

    /// Returns the task whose counts the event `act` changes, in its state before the event.
    /// Returns `None` if the event changes no existing task. Precondition: the event isn't a task
    /// event (`TaskAct`). `named` is the task with the pid that the event names.
    #[inline(always)]
    fn before(&self, act: &Act, named: Option<Task>) -> Option<Task>
        requires other { is_task_act act.now ≡ false }
        requires named { named ≡ named_task self.now.world.tasks act.now }
        ensures { result ≡ before self.now.world.tasks act.now }
    {
        match act {
            Act::Fork { .. } => None,
            _ => named,
        }
    }

    /// Checks an event. Returns the tasks and the group of a legal event, or the first cause for
    /// rejecting an illegal event.
    #[inline(always)]
    pub fn judge(&self, event: &Event) -> Result<Finding, Cause>
        ensures { Judges self.now event.now result }
    {
        if let Some(act) = TaskAct::of(&event.act) {
            return self.judge_task(event.at, act);
        }
        let named = named_task(&self.tasks, &event.act);
        let group = named_group(&self.tree, &event.act);
        if let Some(cause) = self.refused(event, named, group) {
            return Err(cause);
        }
        Ok(Finding {
            named,
            before: self.before(&event.act, named),
            group,
        })
    }

    /// Returns the first cause for rejecting an event, or `None` if the event is legal. No program
    /// of this repository calls this function.
    pub fn check(&self, event: &Event) -> Option<Cause>
        ensures cause { result ≡ cause_of self.now.limits self.now.world event.now }
        ensures room { IfNone result (self.now.world.lines < most_events) }
        ensures forward { IfNone result (self.now.world.last ≤ event.now.at) }
        ensures early { IfNone result (event.now.at ≤ self.now.limits.latest) }
    {
        self.judge(event).err()
    }

    /// Plays an event: checks the event and performs it. Fails with `Refused` and the first cause
    /// if the event is illegal, or with `NoMemory` if memory runs out for a legal fork or a legal
    /// new group. The table is unchanged on failure.
    #[inline(always)]
    pub fn play(&mut self, event: &Event) -> Result<(), Fault<Cause>>
        ensures { PlaysEvent self.old event.now self.new result }
    {
        match TaskAct::of(&event.act) {
            Some(act) => self.play_task(event.at, act),
            None => self.play_other(event),
        }
    }

    /// The general path of [`Table::play`]. Precondition: the event isn't a task event (`TaskAct`).
    /// The function isn't inlined, which keeps the fast path small enough to be inlined.
    #[inline(never)]
    fn play_other(&mut self, event: &Event) -> Result<(), Fault<Cause>>
        requires { is_task_act event.now.act ≡ false }
        ensures { PlaysEvent self.old event.now self.new result }
    {
        let finding = self.judge(event)?;
        self.advance(event, finding)?;
        Ok(())
    }

    /// Plays an event as [`Table::play`] does, and returns the changes that the event causes on
    /// processors. No program of this repository calls this function.
    pub fn step(&mut self, event: &Event) -> Result<Touch, Fault<Cause>>
        ensures plays { PlaysEvent self.old event.now self.new result }
        ensures touch { IfOk result (λ touch.
            IsTouch self.old.limits.cpus self.old.world event.now touch) }
        ensures cpus { IfOk result
            (λ touch. AllTouched (λ cpu change. cpu < self.old.limits.cpus) touch) }
        ensures slots { IfOk result (λ touch.
            AllTouched (λ cpu change. HasSlotsBelow (length self.old.world.groups) change) touch) }
        ensures ones { IfOk result (λ touch. AllTouched (λ cpu change. IsOfOne change) touch) }
        ensures moment { IfOk result
            (λ touch. AllTouched (λ cpu change. change.at ≡ event.now.at) touch) }
    {
        let finding = self.judge(event)?;
        Ok(self.perform(event, finding)?)
    }

    /// Performs a legal event, and returns the changes that the event causes on processors.
    /// `finding` is the result of [`Table::judge`] for this event. Only a fork or a new group
    /// allocates; if memory runs out, the table is unchanged.
    #[inline(always)]
    pub fn perform(&mut self, event: &Event, finding: Finding) -> Result<Touch, NoMemory>
        requires { IsFinding self.old event.now finding }
        ensures plays { PlaysLegal self.old event.now self.new result }
        ensures touch { IfOk result (λ touch.
            IsTouch self.old.limits.cpus self.old.world event.now touch) }
        ensures cpus { IfOk result
            (λ touch. AllTouched (λ cpu change. cpu < self.old.limits.cpus) touch) }
        ensures slots { IfOk result (λ touch.
            AllTouched (λ cpu change. HasSlotsBelow (length self.old.world.groups) change) touch) }
        ensures ones { IfOk result (λ touch. AllTouched (λ cpu change. IsOfOne change) touch) }
        ensures moment { IfOk result
            (λ touch. AllTouched (λ cpu change. change.at ≡ event.now.at) touch) }
    {
        if let Some(act) = TaskAct::of(&event.act) {
            return Ok(self.perform_task(event.at, act, finding));
        }
        let account = account_of(&event.act, finding.slot());
        let changed = self.advance(event, finding)?;
        if let Some(account) = account {
            return Ok(account_touch(account));
        }
        Ok(touch_of(event.at, &event.act, changed, &self.running))
    }

    /// Performs a legal event, and returns the task that the event changes, before and after the
    /// event. Precondition: the event isn't a task event (`TaskAct`). If memory runs out, the table
    /// is unchanged.
    #[inline(always)]
    fn advance(&mut self, event: &Event, finding: Finding) -> Result<TaskUpdate, NoMemory>
        requires other { is_task_act event.now.act ≡ false }
        requires finding { IsFinding self.old event.now finding }
        ensures plays { PlaysLegal self.old event.now self.new result }
        ensures changed { IfOk result (λ c.
            IsChanged self.old.world.groups self.old.world.tasks event.now.act c) }
    {
        let act = &event.act;
        let changed = change_tasks(
            &mut self.tasks,
            &mut self.running,
            &mut self.members,
            &self.tree,
            act,
            finding.named,
            finding.slot(),
        )?;
        change_groups(&mut self.tree, &mut self.members, event.at, act)?;
        note_irq(&mut self.irqs, event.at, act);
        self.triggers = triggers_with(self.triggers, act);
        self.pressures = pressures_with(self.pressures, act);
        self.lines += 1;
        self.last = event.at;
        self.ended = has_ended(self.ended, act);
        Ok(changed)
    }
}

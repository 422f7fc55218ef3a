//! The planner, which splits a trace by processor, one event at a time. It checks each event, and
//! rejects the trace at the first illegal event.

ghost use Rattle.std.specs.Prelude.{◌≡◌, ◌≤◌, ℕ, [], false, length, IfOk, OnErr};
ghost use Rattle.std.specs.List.{All};
ghost use Rattle.psi_spec.specs.Grammar.{Fits};
ghost use Rattle.psi_spec.specs.Stall.{parents_of};
ghost use Rattle.psi_spec.specs.Trace.{IsCpuCount};
ghost use Rattle.psi_spec.specs.Within.{last_moment};
ghost use Rattle.psi_spec.specs.World.{most_events};
ghost use Rattle.plan_laws.specs.Plan.{IsPlan};
ghost use Rattle.slot_clocks.specs.Clocks.{parent_numbers};
ghost use Rattle.proc_plan.specs.Plans.{HasTaken, HasTrace, PlannerTakes, RepresentTaken, limits_by, plan_over, plans_over};
ghost use Rattle.proc_plan.specs.Room.{changes_in};
ghost use Rattle.trace_player.specs.TaskActs.{as_event, exits};

use crate::changes::Changes;
use crate::plan::Plan;
use crate::plans::Plans;
use crate::room::{add_changes, add_side, add_touched, add_trigger, make_room, reserve_task};
use crate::side::Side;
use crate::sides::known_by;
use group_tree::Tree;
use psi_base::{Cause, Event, Fault, NoMemory, Ns, Slot, TriggerSpec};
use std::alloc::Global;
use std::marker::Model;
use task_table::Table;
use trace_player::TaskAct;

/// Splits a trace by processor. A planner has the table of tasks after the events added so far, and
/// the changes, triggers and side events that these events caused.
#[derive(Drop)]
pub struct Planner {
    table: Table,
    /// The changes of each processor.
    changes: Vec<Changes>,
    triggers: Vec<TriggerSpec>,
    sides: Vec<Side>,
}

impl Model for Planner {
    ghost use Rattle.proc_plan.specs.Plans.{IsPlanner, PlannerView, planner_code, planner_view};
    ghost use Rattle.proc_plan.specs.Room.{lists_of};

    ghost Value = { PlannerView };

    ghost coded = { planner_code };

    ghost view = { λ p.
        planner_view p.table (lists_of p.changes.items) p.triggers.items p.sides.items };

    ghost invariant = { λ p. IsPlanner
        (planner_view p.table (lists_of p.changes.items) p.triggers.items p.sides.items) };
}

fn no_changes(alloc: Global, cpus: u32) -> Result<Vec<Changes>, NoMemory>
    ensures each { IfOk result (λ changes. length changes.items ≡ cpus) }
    ensures none { IfOk result (λ changes. (cpu : ℕ) → changes_in changes.items cpu ≡ []) }
{
    let mut changes = Vec::new(alloc);
    'cpus: for _ in 0..cpus {
        changes.push(Changes::new(alloc))?;
    }
    Ok(changes)
}

fn parents_of(alloc: Global, groups: &Tree) -> Result<Vec<Option<Slot>>, NoMemory>
    ensures { IfOk result (λ parents. parent_numbers parents.items ≡ parents_of groups.now) }
{
    let mut parents = Vec::new(alloc);
    'groups: for life in groups.lives() {
        parents.push(life.parent)?;
    }
    Ok(parents)
}

// Returns one plan for each processor's list of changes. Each plan has the parents of all groups.
fn make_plans(alloc: Global, changes: Vec<Changes>, groups: &Tree) -> Result<Vec<Plan>, NoMemory>
    requires { All (λ changes. IsPlan (plan_over groups.now changes.list)) changes.items }
    ensures { IfOk result (λ plans. plans.items ≡ plans_over groups.now changes.items) }
{
    let mut plans = Vec::new(alloc);
    'cpus: for changes in changes {
        let plan = Plan::new(changes, parents_of(alloc, groups)?);
        plans.push(plan)?;
    }
    Ok(plans)
}

impl Planner {
    /// Creates the planner of a trace with `cpus` processors (1 to 64), before the first event.
    /// `latest` is the latest time (ns) that an event may have.
    pub fn new(alloc: Global, cpus: u32, latest: Ns) -> Result<Planner, NoMemory>
        requires counted { IsCpuCount cpus }
        requires short { latest ≤ last_moment }
        ensures { IfOk result (λ planner. HasTaken planner (limits_by cpus latest) []) }
    {
        Ok(Planner {
            table: Table::new(alloc, cpus, latest)?,
            changes: no_changes(alloc, cpus)?,
            triggers: Vec::new(alloc),
            sides: Vec::new(alloc),
        })
    }

    /// Returns the number of events added so far, at most 4,000,000.
    pub fn lines(&self) -> u32
        ensures lines { result ≡ self.now.table.world.lines }
        ensures few { result ≤ most_events }
    {
        self.table.lines()
    }

    /// Returns whether the event that ends the trace has been added.
    pub fn is_ended(&self) -> bool
        ensures { result ≡ self.now.table.world.ended }
    {
        self.table.is_ended()
    }

    /// The fast path of [`Planner::take`] for a task event (`TaskAct`: a wakeup, switch, stall,
    /// unstall or migration) at the time `at` (ns). Precondition: the event doesn't make a task
    /// exit. Such an event adds changes to plans, but no trigger and no side event.
    #[inline(always)]
    pub fn take_task(&mut self, at: Ns, act: TaskAct) -> Result<(), Fault<Cause>>
        requires fits { Fits (as_event at act) }
        requires stays { exits act ≡ false }
        ensures takes { PlannerTakes self.old self.new (as_event at act) result }
        ensures same { OnErr result (self.new ≡ self.old) }
    {
        let finding = self.table.judge_task(at, act)?;
        reserve_task(&mut self.changes, act, finding.before)?;
        let touch = self.table.perform_task(at, act, finding);
        add_touched(&mut self.changes, &touch);
        Ok(())
    }

    /// Adds the next event: checks the event, reserves memory for everything that it adds to the
    /// plans, and appends it. Fails with `Refused` and the first cause if the event is illegal, or
    /// with `NoMemory` if memory runs out for a legal event. The planner is unchanged on failure.
    /// Precondition: the event's values are in the ranges of the trace format.
    #[inline(always)]
    pub fn take(&mut self, event: &Event) -> Result<(), Fault<Cause>>
        requires { Fits event.now }
        ensures takes { PlannerTakes self.old self.new event.now result }
        ensures same { OnErr result (self.new ≡ self.old) }
    {
        match TaskAct::of(&event.act) {
            Some(act) if !act.exits() => self.take_task(event.at, act),
            _ => self.take_other(event),
        }
    }

    /// The general path of [`Planner::take`], for all events. The function isn't inlined, which
    /// keeps the fast path small enough to be inlined.
    #[inline(never)]
    pub(crate) fn take_other(&mut self, event: &Event) -> Result<(), Fault<Cause>>
        requires { Fits event.now }
        ensures takes { PlannerTakes self.old self.new event.now result }
        ensures same { OnErr result (self.new ≡ self.old) }
    {
        let finding = self.table.judge(event)?;
        let known = known_by(event, finding.before, finding.slot());
        make_room(
            &mut self.changes,
            &mut self.triggers,
            &mut self.sides,
            &event.act,
            finding.before,
            &known,
        )?;
        let touch = self.table.perform(event, finding)?;
        add_changes(&mut self.changes, event.at, &touch, &self.table);
        add_trigger(&mut self.triggers, known.trigger);
        add_side(&mut self.sides, known.first);
        add_side(&mut self.sides, known.second);
        Ok(())
    }

    /// Returns the plans of the events added so far.
    pub fn finish(self, alloc: Global) -> Result<Plans, NoMemory>
        requires { HasTrace self }
        ensures { IfOk result (RepresentTaken self) }
    {
        let finish = self.table.last();
        let groups = self.table.into_groups();
        let plans = make_plans(alloc, self.changes, &groups)?;
        Ok(Plans::new(plans, groups, self.triggers, self.sides, finish))
    }
}

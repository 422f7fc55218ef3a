//! The plans of all processors of a trace (the list of each processor's changes), with the groups,
//! the triggers and the side events of the trace.

ghost use Rattle.std.specs.Prelude.{◌≡◌, ◌<◌, ◌≤◌, length, IfErr, IfOk, OnOk};
ghost use Rattle.plan_laws.specs.Plan.{IsPlan};
ghost use Rattle.psi_spec.specs.LegalGroups.{AreGroups};
ghost use Rattle.psi_spec.specs.Trace.{AllFit, IsAccepted, IsCpuCount};
ghost use Rattle.psi_spec.specs.Within.{last_moment};
ghost use Rattle.psi_spec.specs.Stall.{parents_of};
ghost use Rattle.proc_plan.specs.Plans.{ArePlans, AreSmall, HasTakenAll, IsFaultAt, IsRefusal, IsRefusedAll, Represent, limits_by, plan_at, plans_view};

use crate::plan::Plan;
use crate::planner::Planner;
use crate::side::Side;
use group_tree::Tree;
use psi_base::{Cause, Cpu, Event, Fault, NoMemory, Ns, Refusal, TriggerSpec};
use psi_spec::GroupLife;
use std::alloc::Global;
use std::marker::Model;

/// A trace that is split by processor: the plan of each processor, all groups ever created, the
/// triggers, the side events, and the time of the trace's end. In contracts these are the parts of
/// a `PlansView`.
#[derive(Drop)]
pub struct Plans {
    /// The plan of each processor.
    plans: Vec<Plan>,
    groups: Tree,
    triggers: Vec<TriggerSpec>,
    sides: Vec<Side>,
    /// The time (ns) of the trace's end.
    finish: Ns,
}

impl Model for Plans {
    ghost use Rattle.proc_plan.specs.Plans.{ArePlans, PlansView, plans_view};

    ghost Value = { PlansView };

    ghost view = { λ p. plans_view p.plans.items p.groups p.triggers.items p.sides.items p.finish };

    ghost invariant = { λ p.
        ArePlans (plans_view p.plans.items p.groups p.triggers.items p.sides.items p.finish) };
}

fn at_line(line: u32, fault: Fault<Cause>) -> Fault<Refusal>
    ensures { IsFaultAt line fault result }
{
    match fault {
        Fault::Refused(cause) => Fault::Refused(Refusal { line, cause }),
        Fault::NoMemory(none) => Fault::NoMemory(none),
    }
}

// Adds all events of a trace to a planner. Fails if an event is illegal, or if the last event isn't
// `end`.
fn take_all(planner: &mut Planner, events: &[Event]) -> Result<(), Fault<Refusal>>
    requires fit { AllFit events.now }
    ensures taken { OnOk result (HasTakenAll planner.old planner.new events.now) }
    ensures refused { IfErr result (IsRefusedAll planner.old events.now) }
{
    'events: for event in events {
        if let Err(fault) = planner.take(event) {
            return Err(at_line(planner.lines() + 2, fault));
        }
    }
    if !planner.is_ended() {
        return Err(at_line(planner.lines() + 2, Fault::Refused(Cause::NoEnd)));
    }
    Ok(())
}

impl Plans {
    /// Creates the plans of a trace from their parts.
    pub(crate) fn new(
        plans: Vec<Plan>,
        groups: Tree,
        triggers: Vec<TriggerSpec>,
        sides: Vec<Side>,
        finish: Ns,
    ) -> Plans
        requires { ArePlans (plans_view plans.items groups triggers.items sides.items finish) }
        ensures { result ≡ plans_view plans.items groups triggers.items sides.items finish }
    {
        Plans {
            plans,
            groups,
            triggers,
            sides,
            finish,
        }
    }

    /// Splits a trace with `cpus` processors (1 to 64). `latest` is the latest time (ns) that an
    /// event may have. Precondition: all values in the events are in the ranges of the trace
    /// format.
    ///
    /// Fails with `Refused` at the first illegal event, with the first cause for rejecting it. The
    /// event with index `i` (from 0) is reported at line `i + 2`. If all events are legal but the
    /// last event isn't `end`, the cause is `NoEnd`, reported at the line after the last event.
    pub fn build(
        alloc: Global,
        cpus: u32,
        latest: Ns,
        events: &[Event],
    ) -> Result<Plans, Fault<Refusal>>
        requires counted { IsCpuCount cpus }
        requires short { latest ≤ last_moment }
        requires fit { AllFit events.now }
        ensures represents { IfOk result (λ plans. Represent plans cpus events.now) }
        ensures accepted { OnOk result (IsAccepted (limits_by cpus latest) events.now) }
        ensures refused { IfErr result (IsRefusal (limits_by cpus latest) events.now) }
    {
        let mut planner = Planner::new(alloc, cpus, latest)?;
        match take_all(&mut planner, events) {
            Ok(()) => Ok(planner.finish(alloc)?),
            Err(fault) => Err(fault),
        }
    }

    /// Returns the number of processors, 1 to 64.
    pub fn cpus(&self) -> u32
        ensures cpus { result ≡ length self.now.plans }
        ensures counted { IsCpuCount result }
    {
        self.plans.len() as u32
    }

    /// Returns the time (ns) of the trace's end.
    pub fn finish(&self) -> Ns
        ensures { result ≡ self.now.finish }
    {
        self.finish
    }

    /// Returns the plan of a processor.
    pub fn plan(&self, cpu: Cpu) -> &Plan
        requires { cpu.0 < length self.now.plans }
        ensures plan { result.now ≡ plan_at self.now cpu.0 }
        ensures whole { IsPlan result.now }
        ensures parents { result.now.parents ≡ parents_of self.now.lives }
    {
        &self.plans[cpu.0 as usize]
    }

    /// Returns the tree of all groups ever created.
    pub fn groups(&self) -> &Tree
        ensures lives { result.now ≡ self.now.lives }
        ensures groups { AreGroups result.now }
    {
        &self.groups
    }

    /// Returns all groups ever created, indexed by slot.
    pub fn lives(&self) -> &[GroupLife]
        ensures lives { result.now ≡ self.now.lives }
        ensures groups { AreGroups result.now }
    {
        self.groups.lives()
    }

    /// Returns the triggers, in the order of the trace.
    pub fn triggers(&self) -> &[TriggerSpec]
        ensures { result.now ≡ self.now.triggers }
    {
        &self.triggers
    }

    /// Returns the side events in the order of the trace. Each number of bytes or pages in a side
    /// event is at most 2^60.
    pub fn sides(&self) -> &[Side]
        ensures sides { result.now ≡ self.now.sides }
        ensures small { AreSmall result.now }
    {
        &self.sides
    }
}

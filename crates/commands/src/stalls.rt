//! The output of `stall`: the stall times of each group at the end of a trace. The trace has been
//! split by processor. A thread for each processor applies the processor's changes to its clocks.
ghost use Rattle.std.specs.Prelude.{◌≡◌, ℕ, ◌<◌, ◌≤◌, List, length};
ghost use Rattle.psi_base.specs.declared.event.Event.{Event};
ghost use Rattle.outside.specs.Outside.{SameInner};
ghost use Rattle.run_spec.specs.Text.{stall_text};
ghost use Rattle.psi_spec.specs.Header.{IsVersion, version_of};
ghost use Rattle.trace_file.specs.Reads.{trace_with};
ghost use Rattle.psi_spec.specs.World.{Limits};
ghost use Rattle.proc_plan.specs.Plans.{HasTaken, HasTrace, plan_at};
ghost use Rattle.commands.specs.Lines.{HasMadeAll};
ghost use Rattle.replay_workers.specs.Crew.{clocks_at};
ghost use Rattle.run_outcomes.specs.Writes.{WritesText};

use crate::lines::put_lines;
use outside::{OpenGate, Sink, WriteFailed};
use proc_plan::{PlainClocks, Planner, Plans, ProcClocks};
use psi_base::{Cpu, Ns};
use replay_workers::{first_clocks, make_until};
use run_spec::Status;
use std::alloc::Global;
use std::thread;
use std::thread::Threads;

// Applies all changes of each plan to the clocks of its processor. Each processor has its own
// thread, if the thread can be started. The threads don't communicate.
fn make_each<R: Threads + Sync>(rt: &R, plans: &Plans, clocks: &mut [PlainClocks<'_>])
    requires each { length clocks.old ≡ length plans.now.plans }
    requires few { length clocks.old ≤ 64 }
    requires fresh { (cpu : ℕ) → cpu < length clocks.old →
        clocks_at clocks.old cpu ≡ record { plan = plan_at plans.now cpu; made = 0 } }
    ensures each { length clocks.new ≡ length clocks.old }
    ensures all { (cpu : ℕ) → cpu < length clocks.old →
        HasMadeAll (plan_at plans.now cpu) (clocks_at clocks.new cpu) }
{
    let workers = clocks.len();
    if workers == 0 {
        return;
    }
    thread::for_each_mut(
        rt,
        clocks,
        workers,
        &|place: usize, clocks: &mut PlainClocks<'_>|
            requires { (place < 64) × (place < length plans.now.plans)
                × (clocks.now ≡ record { plan = plan_at plans.now place; made = 0 }) }
            ensures { HasMadeAll (plan_at plans.entry.now place) clocks.new }
        {
            let cpu = Cpu(place as u32);
            make_until(clocks, cpu, plans.plan(cpu).len(), &OpenGate);
        },
    );
}

/// Writes the stall times of the trace that `planner` has split by processor. `version` is the
/// trace's version. If memory runs out, nothing is written.
pub fn write_stalls<R: Threads + Sync, K: Sink>(
    rt: &R,
    alloc: Global,
    version: u32,
    planner: Planner,
    out: &mut K,
) -> Status
    requires trace { HasTrace planner }
    requires version { IsVersion version }
    ensures writes { (limits : Limits) (events : List Event) → HasTaken planner limits events →
        WritesText (stall_text (trace_with (version_of version) limits.cpus events))
        (K.faults out.old) (K.faults out.new) (K.has out.old) (K.has out.new) result }
    ensures below { SameInner (K.below out.old) (K.below out.new) }
{
    let plans = match planner.finish(alloc) {
        Ok(plans) => plans,
        Err(none) => return Status::NoMemory(none),
    };
    let order = match plans.groups().live_order(alloc) {
        Ok(order) => order,
        Err(none) => {
            drop(plans);
            return Status::NoMemory(none);
        }
    };
    let mut clocks = match first_clocks(alloc, &plans) {
        Ok(clocks) => clocks,
        Err(none) => return Status::NoMemory(none),
    };
    make_each(rt, &plans, &mut clocks);
    match put_lines(out, version, &plans, &mut clocks, &order, plans.finish()) {
        Ok(()) => {
            drop(clocks);
            drop(plans);
            Status::Done
        }
        Err(WriteFailed) => {
            drop(clocks);
            drop(plans);
            Status::WriteFault
        }
    }
}

//! Helpers for tests of journals: they create entries and the lists of observers. All entries are
//! samples of the root group of a trace with one processor.

ghost use Rattle.std.specs.Prelude.{◌≡◌, ◌≤◌, length, IfOk};
ghost use Rattle.observer_log.specs.Entries.{AreBy};
ghost use Rattle.proc_plan.specs.Plans.{plan_at};
ghost use Rattle.plan_laws.specs.Plan.{IsClock};
ghost use Rattle.clock_row.specs.Steps.{new_reader};

use crate::walk::clocks_after;
use clock_row::{ClockReader, Row, Sample};
use observer_log::{Entry, Own, Watcher};
use outside::{Gate, OpenGate};
use proc_plan::{Plan, Plans, ProcClocks};
use psi_base::{Cpu, NoMemory, Slot};
use std::alloc::Global;
use std::process::Abort;

const ROOT: Slot = Slot(0);

const FIRST: Cpu = Cpu(0);

/// Returns the journal entry in which `observer` samples the root after `count` changes of a plan
/// with only the root.
pub fn entry_after<'a>(
    rt: &impl Abort,
    alloc: Global,
    observer: u32,
    plan: &'a Plan,
    count: u64,
) -> Entry<'a>
    requires root { length plan.now.parents ≡ 1 }
    requires count { count ≤ length plan.now.changes }
    ensures observer { result.observer ≡ observer }
    ensures count { result.count ≡ count }
{
    let mut clocks = clocks_after(alloc, plan, 1, count).expect(rt, "memory");
    let sample = Sample {
        count: clocks.count(),
        clock: clocks.own(ROOT),
    };
    Entry::take(observer, plan, FIRST, ROOT, &sample)
}

// Returns a reader of a new clock row, and a sample of the root's clock before any change.
fn first_sample(rt: &impl Abort, alloc: Global, plan: &Plan) -> (ClockReader, Sample)
    requires { length plan.now.parents ≡ 1 }
    ensures reader { result.0.knows ≡ new_reader plan.now result.1.count }
    ensures clock { IsClock result.1.clock plan.now 0 result.1.count }
{
    let mut writer = Row::make(alloc, plan, 1).expect(rt, "memory");
    let reader = writer.reader().expect(rt, "memory");
    let sample = Sample {
        count: writer.count(),
        clock: writer.own(ROOT),
    };
    (reader, sample)
}

/// Samples the root once as the observer `observer`, before any change, and returns the list of
/// this observer's entries. Calls the gate before the sample. Returns `Err` if memory runs out.
pub fn look_at_gate<'a, G: Gate>(
    rt: &impl Abort,
    alloc: Global,
    observer: u32,
    plans: &'a Plans,
    gate: &G,
) -> Result<Own<'a>, NoMemory>
    requires one { length plans.now.plans ≡ 1 }
    requires root { length plans.now.lives ≡ 1 }
    ensures by { IfOk result (AreBy observer) }
{
    let (reader, last) = first_sample(rt, alloc, plans.plan(FIRST));
    let readers = vec![in alloc; reader].expect(rt, "memory");
    let mut watcher = Watcher::make(alloc, observer, plans, readers);
    let looked = watcher.look(FIRST, ROOT, &last, gate);
    let own = watcher.into_own();
    match looked {
        Ok(()) => Ok(own),
        Err(none) => Err(none),
    }
}

/// Samples the root once as the observer `observer`, before any change, and returns the list of
/// this observer's entries.
pub fn one_look<'a>(rt: &impl Abort, alloc: Global, observer: u32, plans: &'a Plans) -> Own<'a>
    requires one { length plans.now.plans ≡ 1 }
    requires root { length plans.now.lives ≡ 1 }
    ensures by { AreBy observer result }
{
    look_at_gate(rt, alloc, observer, plans, &OpenGate).expect(rt, "memory")
}

//! Tests of the interrupt times that clocks charge to groups: for the plans of two processors, and
//! for a trace with only the root group.

ghost use Rattle.std.specs.Prelude.{◌≡◌, length};

use super::changes::nth;
use crate::events::{INTERRUPTS, plans_of};
use crate::walk::clocks_after;
use proc_plan::{IrqClocks, Plan, ProcClocks};
use psi_base::{Cpu, Slot};
use std::alloc::Global;
use std::process::Abort;
use test_support::assert_equal;

/// A trace with the groups /, /a, /a/b and /c. A task of /a/b runs on the first processor, moves to
/// /c, migrates to the second processor and exits there.
const LINES: [&[u8]; 21] = [
    b"0 group /a",
    b"0 group /a/b",
    b"0 group /c",
    b"0 fork 1 /a/b 0",
    b"0 switch 0 1 idle",
    b"0 irq 1 0",
    b"1000 irq 0 100",
    b"1000 irq 0 0",
    b"1001 irq 0 1",
    b"2000 irq 1 700",
    b"3000 move 1 /c",
    b"3000 irq 0 20",
    b"4000 switch 0 0 preempt",
    b"4000 irq 0 300",
    b"5000 migrate 1 1",
    b"5000 switch 1 1 idle",
    b"6000 irq 1 4",
    b"6000 irq 0 5",
    b"7000 switch 1 0 exit",
    b"7000 irq 1 600",
    b"8000 end",
];

/// Each row has a processor, a number of changes, and the interrupt times (ns) of the root, /a,
/// /a/b and /c after these changes.
const ROWS: [(u32, u64, [u64; 4]); 16] = [
    // The task is created and starts to run.
    (0, 0, [0, 0, 0, 0]),
    (0, 2, [0, 0, 0, 0]),
    // Interrupts of 100 ns, of 0 ns at the same time, and of 1 ns later.
    (0, 3, [100, 100, 100, 0]),
    (0, 4, [100, 100, 100, 0]),
    (0, 5, [101, 101, 101, 0]),
    // The task moves to /c.
    (0, 6, [101, 101, 101, 0]),
    (0, 7, [121, 101, 101, 20]),
    // The only task is ready but not running, so the processor is idle. Then the task migrates to
    // the second processor.
    (0, 9, [121, 101, 101, 20]),
    (0, 10, [121, 101, 101, 20]),
    (0, 11, [121, 101, 101, 20]),
    // The second processor is idle until the task migrates to it and starts to run.
    (1, 1, [0, 0, 0, 0]),
    (1, 2, [0, 0, 0, 0]),
    (1, 4, [0, 0, 0, 0]),
    (1, 5, [4, 0, 0, 4]),
    // The task exits, and later interrupts are charged to no group.
    (1, 6, [4, 0, 0, 4]),
    (1, 7, [4, 0, 0, 4]),
];

// Returns the interrupt times (ns) of the four groups after `changes` changes of a plan, or after
// all changes if there are fewer.
fn irqs_after(rt: &impl Abort, alloc: Global, plan: &Plan, changes: u64) -> [u64; 4]
    requires { length plan.now.parents ≡ 4 }
{
    let changes = changes.min(plan.len());
    let mut clocks = clocks_after(alloc, plan, 4, changes).expect(rt, "memory");
    [
        clocks.own_irq(Slot(0)),
        clocks.own_irq(Slot(1)),
        clocks.own_irq(Slot(2)),
        clocks.own_irq(Slot(3)),
    ]
}

// Interrupt time is charged to the group of the running task and all its ancestors, and to no group
// if the processor is idle. It remains charged to these groups when the task moves, migrates or
// exits.
#[test]
fn interrupts_of_each_processor(rt: HostRuntime) {
    let plans = plans_of(&rt, rt.alloc(), 2, 8000, &LINES);
    assert_equal!(rt; plans.lives().len(), 4, "groups");
    for &(cpu, changes, want) in &ROWS {
        assert!(rt; cpu < plans.cpus());
        let irqs = irqs_after(&rt, rt.alloc(), plans.plan(Cpu(cpu)), changes);
        assert_equal!(rt; irqs, want, (cpu, changes));
    }
}

// Reads the root's interrupt time (ns) twice after `changes` changes of a plan with only the root.
// Returns both results, and the number of changes that the clocks then report.
fn root_after(rt: &impl Abort, alloc: Global, plan: &Plan, changes: u64) -> (u64, u64, u64)
    requires { length plan.now.parents ≡ 1 }
{
    let changes = changes.min(plan.len());
    let mut clocks = clocks_after(alloc, plan, 1, changes).expect(rt, "memory");
    let first = clocks.own_irq(Slot(0));
    let second = clocks.own_irq(Slot(0));
    (first, second, clocks.count())
}

// Reading the interrupt time twice gives the same result, and makes no change of the plan.
#[test]
fn interrupts_of_the_root(rt: HostRuntime) {
    let plans = plans_of(&rt, rt.alloc(), 1, 2_000_000_000, &INTERRUPTS);
    assert_equal!(rt; plans.lives().len(), 1, "groups");
    assert_root_irqs(&rt, rt.alloc(), plans.plan(Cpu(0)));
}

fn assert_root_irqs(rt: &impl Abort, alloc: Global, plan: &Plan)
    requires { length plan.now.parents ≡ 1 }
{
    assert_equal!(rt; plan.len(), 5, "changes");
    let change = nth(rt, plan, 3);
    assert_equal!(rt; change.irq, 250_000_000, 3);
    assert_equal!(rt; change.minus, None, 3);
    assert_equal!(rt; change.plus, None, 3);
    assert_equal!(rt; change.current, Some((Slot(0), false)), 3);
    assert_equal!(rt; nth(rt, plan, 4).irq, 0, 4);
    assert_equal!(rt; nth(rt, plan, 5).irq, 500_000_000, 5);
    assert_equal!(rt; nth(rt, plan, 5).current, None, 5);
    assert_equal!(rt; root_after(rt, alloc, plan, 0), (0, 0, 0), "at first");
    let all = (250_000_000, 250_000_000, 5);
    assert_equal!(rt; root_after(rt, alloc, plan, 5), all, "after all");
}

//! Tests of the interrupt times that a writer stores in addition to its clock row. The traces have
//! interrupts while tasks run and on an idle processor.

ghost use Rattle.std.specs.Prelude.{◌≡◌, ◌≤◌, length};

use crate::events::{INTERRUPTS, plans_of};
use crate::rows::shown::{Shown, show, writer_after};
use proc_plan::{IrqClocks, Plan, Plans};
use psi_base::{Cpu, Slot};
use std::alloc::Global;
use std::process::Abort;
use test_support::assert_equal;

const ROOT: Slot = Slot(0);

/// The root's clock while the task runs; interrupts don't change it.
const RUNNING: [u64; 9] = [0, 0, 0, 0, 0, 0, 0, 0b100_0000, 0];

// Returns the root's interrupt time (ns) after `changes` changes of a plan with only the root, and
// the values of the root's clock at the writer and at the reader.
fn shown_after(rt: &impl Abort, alloc: Global, plan: &Plan, changes: u64) -> (u64, Shown)
    requires root { 1 ≡ length plan.now.parents }
    requires changes { changes ≤ length plan.now.changes }
{
    let (mut writer, mut reader) = writer_after(rt, alloc, plan, 1, changes);
    let irq = writer.own_irq(ROOT);
    (irq, show(&mut writer, &mut reader, ROOT))
}

// Interrupt time is charged only while a task runs. It isn't part of the row: an interrupt leaves
// the clock unchanged, but the reader counts it as a change.
#[test]
fn interrupts_of_the_root(rt: HostRuntime) {
    let plans = plans_of(&rt, rt.alloc(), 1, 2_000_000_000, &INTERRUPTS);
    assert_irqs_of_the_root(&rt, rt.alloc(), &plans);
}

fn assert_irqs_of_the_root(rt: &impl Abort, alloc: Global, plans: &Plans)
    requires { length plans.now.plans ≡ 1 }
{
    let plan = plans.plan(Cpu(0));
    assert_equal!(rt; plans.lives().len(), 1, "groups");
    assert_equal!(rt; plan.len(), 5, "changes");
    let (last, _) = shown_after(rt, alloc, plan, 5);
    assert_equal!(rt; last, 250_000_000, "after the last change");
    let want = Shown {
        made: 3,
        own: RUNNING,
        seen: 0,
        sampled: Some((3, RUNNING)),
        seen_then: 3,
    };
    let third = shown_after(rt, alloc, plan, 3);
    assert_equal!(rt; third, (250_000_000, want), "after the third change");
}

/// A trace with four interrupts: while a task of a nested group runs, while a task of another group
/// runs, after that task has moved to the root, and on the idle processor.
const GROUPS: [&[u8]; 14] = [
    b"0 group /a",
    b"0 group /a/b",
    b"0 group /c",
    b"0 fork 1 /a/b 0",
    b"0 fork 2 /c 0",
    b"0 switch 0 1 idle",
    b"10 irq 0 5",
    b"20 switch 0 2 preempt",
    b"20 irq 0 3",
    b"30 move 2 /",
    b"40 irq 0 7",
    b"50 switch 0 0 sleep",
    b"60 irq 0 11",
    b"60 end",
];

/// Checks that the writer's interrupt times (ns) of four slots are `wanted` after `changes`
/// changes.
fn assert_irqs(rt: &impl Abort, alloc: Global, plan: &Plan, changes: u64, wanted: [u64; 4])
    requires slots { 4 ≡ length plan.now.parents }
    requires changes { changes ≤ length plan.now.changes }
{
    let (mut writer, _reader) = writer_after(rt, alloc, plan, 4, changes);
    let found = [
        writer.own_irq(Slot(0)),
        writer.own_irq(Slot(1)),
        writer.own_irq(Slot(2)),
        writer.own_irq(Slot(3)),
    ];
    assert_equal!(rt; (changes, found), (changes, wanted), "by changes");
}

// A group's interrupt time includes the interrupts of tasks in its descendants. The time remains
// charged to the group when a task leaves it.
#[test]
fn interrupts_of_groups(rt: HostRuntime) {
    let plans = plans_of(&rt, rt.alloc(), 1, 2_000_000_000, &GROUPS);
    assert_irqs_of_groups(&rt, rt.alloc(), &plans);
}

fn assert_irqs_of_groups(rt: &impl Abort, alloc: Global, plans: &Plans)
    requires { length plans.now.plans ≡ 1 }
{
    let plan = plans.plan(Cpu(0));
    assert_equal!(rt; plans.lives().len(), 4, "groups");
    assert_equal!(rt; plan.len(), 10, "changes");
    assert_irqs(rt, alloc, plan, 3, [0, 0, 0, 0]);
    assert_irqs(rt, alloc, plan, 4, [5, 5, 5, 0]);
    assert_irqs(rt, alloc, plan, 6, [8, 5, 5, 3]);
    assert_irqs(rt, alloc, plan, 8, [15, 5, 5, 3]);
    assert_irqs(rt, alloc, plan, 10, [15, 5, 5, 3]);
}

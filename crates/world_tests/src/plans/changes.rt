//! Tests of the changes in plans, on a trace of two processors in which a task sleeps on one
//! processor and wakes on the other.

use crate::events::plans_of;
use proc_plan::{Plan, Side, SideAct};
use psi_base::{Cpu, Ns, Slot};
use psi_counts::{Change, Counts};
use std::process::Abort;
use test_support::assert_equal;

/// A trace of a task that waits for IO on the first processor, and wakes up on the second.
const LINES: [&[u8]; 5] = [
    b"0 fork 1 / 0",
    b"0 switch 0 1 idle",
    b"0 switch 0 0 iowait",
    b"2000000000 wake 1 1",
    b"4000000000 end",
];

/// The time (ns) of the wakeup.
const WOKEN: Ns = 2_000_000_000;

/// The counts of a group with one task, which is ready or running.
const UP: Counts = Counts {
    io: 0,
    stalled: 0,
    running: 1,
    stalled_running: 0,
};

/// The counts of a group with one task, which waits for IO.
const WAITS: Counts = Counts {
    io: 1,
    stalled: 0,
    running: 0,
    stalled_running: 0,
};

/// Makes a change of the root's counts: `minus` is subtracted and `plus` is added. `runs` is
/// whether the task is running after the change.
fn change(at: Ns, minus: Option<Counts>, plus: Option<Counts>, runs: bool) -> Change {
    let root = Slot(0);
    Change {
        at,
        minus: minus.map(|counts| (root, counts)),
        plus: plus.map(|counts| (root, counts)),
        current: if runs { Some((root, false)) } else { None },
        irq: 0,
        account: None,
    }
}

/// Returns change number `k` of a plan, counted from 1.
pub fn nth(rt: &impl Abort, plan: &Plan, k: u64) -> Change {
    assert!(rt; 1 <= k && k <= plan.len(), "no change {k}");
    plan.change(k)
}

/// Checks that a plan has exactly the changes `want`, in order.
fn assert_changes(rt: &impl Abort, plan: &Plan, want: &[Change]) {
    assert_equal!(rt; plan.len(), want.len() as u64, "changes");
    for k in 1..=plan.len() {
        let change = want[k as usize - 1];
        assert_equal!(rt; plan.change(k), change, k);
        assert_equal!(rt; plan.moment(k), change.at, k);
    }
}

// The wakeup changes both processors, and each plan has only the changes of its own processor. A
// switch that changes no count is also a change.
#[test]
fn changes_of_each_processor(rt: HostRuntime) {
    let plans = plans_of(&rt, rt.alloc(), 2, 4_000_000_000, &LINES);
    assert_equal!(rt; plans.cpus(), 2, "processors");
    let first = [
        change(0, None, Some(UP), false),
        change(0, None, None, true),
        change(0, Some(UP), Some(WAITS), false),
        change(WOKEN, Some(WAITS), None, false),
    ];
    assert_changes(&rt, plans.plan(Cpu(0)), &first);
    let second = [change(WOKEN, None, Some(UP), false)];
    assert_changes(&rt, plans.plan(Cpu(1)), &second);
}

// The number of changes up to a time includes the changes at exactly that time.
#[test]
fn changes_up_to_a_moment(rt: HostRuntime) {
    let plans = plans_of(&rt, rt.alloc(), 2, 4_000_000_000, &LINES);
    let (first, second) = (plans.plan(Cpu(0)), plans.plan(Cpu(1)));
    for &(at, want) in &[
        (0, (3, 0)),
        (1, (3, 0)),
        (WOKEN - 1, (3, 0)),
        (WOKEN, (4, 1)),
        (WOKEN + 1, (4, 1)),
        (u64::MAX, (4, 1)),
    ] {
        assert_equal!(rt; (first.until(at), second.until(at)), want, at);
    }
}

// Checks the parts of the plans that all processors share, such as the groups.
#[test]
fn what_all_processors_share(rt: HostRuntime) {
    let plans = plans_of(&rt, rt.alloc(), 2, 4_000_000_000, &LINES);
    assert_equal!(rt; plans.finish(), 4_000_000_000, "finish");
    assert_equal!(rt; plans.groups().len(), 1, "groups");
    assert_equal!(rt; plans.lives().len(), 1, "groups");
    assert_equal!(rt; plans.lives()[0].path.text(), "/", "path");
    assert_equal!(rt; plans.triggers().len(), 0, "triggers");
    let came = Side {
        at: 0,
        what: SideAct::Tasks {
            slot: Slot(0),
            added: 1,
        },
    };
    assert_equal!(rt; plans.sides(), [came].as_slice(), "sides");
}

//! Tests of groups whose pressure accounting is switched off and on: the switches in the plans of
//! processors, and their effect on the clocks.

ghost use Rattle.std.specs.Prelude.{◌≡◌, length};

use super::changes::nth;
use crate::events::plans_of;
use crate::walk::clocks_after;
use proc_plan::{IrqClocks, Plans, ProcClocks};
use psi_base::{Cpu, Ns, Slot};
use psi_counts::Change;
use std::alloc::Global;
use std::process::Abort;
use test_support::{SECOND, assert_equal};

/// A trace in which a task of /a waits for IO. The accounting of /a is switched off for half a
/// second.
const LINES: [&[u8]; 7] = [
    b"0 group /a",
    b"0 fork 1 /a 0",
    b"0 switch 0 1 idle",
    b"0 switch 0 0 iowait",
    b"1000000000 pressure /a off",
    b"1500000000 pressure /a on",
    b"2000000000 end",
];

/// Returns the change that turns the accounting of slot 1 on or off (`on`), for a processor that
/// runs no task.
fn account(at: Ns, on: bool) -> Change {
    Change {
        at,
        minus: None,
        plus: None,
        current: None,
        irq: 0,
        account: Some((Slot(1), on)),
    }
}

// The plans of both processors contain the switches of accounting. The plan of the second processor
// has no other change.
#[test]
fn accounts_of_each_processor(rt: HostRuntime) {
    let plans = plans_of(&rt, rt.alloc(), 2, 2_000_000_000, &LINES);
    assert_accounts(&rt, &plans);
}

fn assert_accounts(rt: &impl Abort, plans: &Plans)
    requires { length plans.now.plans ≡ 2 }
{
    let (first, second) = (plans.plan(Cpu(0)), plans.plan(Cpu(1)));
    assert_equal!(rt; (first.len(), second.len()), (5, 2), "changes");
    let off = account(1_000_000_000, false);
    let on = account(1_500_000_000, true);
    assert_equal!(rt; nth(rt, first, 3).account, None, "before");
    assert_equal!(rt; nth(rt, first, 4), off, "off on 0");
    assert_equal!(rt; nth(rt, first, 5), on, "on on 0");
    assert_equal!(rt; nth(rt, second, 1), off, "off on 1");
    assert_equal!(rt; nth(rt, second, 2), on, "on on 1");
}

/// A row of a test: the expected interrupt time (ns) of the group in `slot` on the first processor
/// after `changes` changes, and the words of the group's clock.
struct Row {
    changes: u64,
    slot: u32,
    irq: u64,
    words: [u64; 9],
}

fn assert_row(rt: &impl Abort, alloc: Global, plans: &Plans, row: &Row)
    requires { length plans.now.plans ≡ 1 }
{
    let plan = plans.plan(Cpu(0));
    let slots = plans.groups().len() as u32;
    assert!(rt; row.changes <= plan.len());
    assert!(rt; row.slot < slots);
    let mut clocks = clocks_after(alloc, plan, slots, row.changes).expect(rt, "memory");
    let slot = Slot(row.slot);
    let case = (row.changes, row.slot);
    assert_equal!(rt; clocks.own_irq(slot), row.irq, case);
    assert_equal!(rt; clocks.own(slot).to_words(), row.words, case);
}

/// Checks that `counts` are the number of groups and the number of changes of the first processor,
/// and checks its clocks against `rows`.
fn assert_rows(rt: &impl Abort, alloc: Global, plans: &Plans, counts: (usize, u64), rows: &[Row])
    requires { length plans.now.plans ≡ 1 }
{
    let found = (plans.lives().len(), plans.plan(Cpu(0)).len());
    assert_equal!(rt; found, counts, "groups and changes");
    for row in rows {
        assert_row(rt, alloc, plans, row);
    }
}

/// The time (ns) at which `LINES` switches accounting on again.
const AGAIN: Ns = 1_500_000_000;

/// The expected clocks of `LINES`. The task has waited for one second when the accounting of its
/// group is switched off. While accounting is off, the group is in no state, and its times don't
/// change. The root's clock continues.
const OFF_AND_ON: [Row; 4] = [
    Row {
        changes: 4,
        slot: 1,
        irq: 0,
        words: [SECOND, SECOND, 0, 0, 0, 0, SECOND, 0, SECOND],
    },
    Row {
        changes: 4,
        slot: 0,
        irq: 0,
        words: [0, 0, 0, 0, 0, 0, 0, 0b100_0011, 0],
    },
    Row {
        changes: 5,
        slot: 1,
        irq: 0,
        words: [SECOND, SECOND, 0, 0, 0, 0, SECOND, 0b100_0011, AGAIN],
    },
    Row {
        changes: 5,
        slot: 0,
        irq: 0,
        words: [0, 0, 0, 0, 0, 0, 0, 0b100_0011, 0],
    },
];

#[test]
fn clocks_of_a_group_off(rt: HostRuntime) {
    let plans = plans_of(&rt, rt.alloc(), 1, 2_000_000_000, &LINES);
    assert_rows(&rt, rt.alloc(), &plans, (2, 5), &OFF_AND_ON);
}

/// A trace in which a task of /a/b runs, waits for IO and is ready. The accounting of /a is off
/// from 1,000 to 3,000 ns, and the accounting of /a/b is off after 3,000 ns.
const NESTED: [&[u8]; 12] = [
    b"0 group /a",
    b"0 group /a/b",
    b"0 fork 1 /a/b 0",
    b"0 switch 0 1 idle",
    b"1000 pressure /a off",
    b"1000 irq 0 100",
    b"2000 switch 0 0 iowait",
    b"3000 pressure /a/b off",
    b"3000 pressure /a on",
    b"4000 wake 1 0",
    b"4500 pressure /a/b off",
    b"5000 end",
];

/// The expected clocks of `NESTED`. A switch affects one group only: the accounting of its
/// ancestors and descendants continues. The clock of a group that is switched on again includes
/// changes of tasks that happened while it was off.
const OF_NESTED: [Row; 3] = [
    Row {
        changes: 9,
        slot: 0,
        irq: 100,
        words: [2000, 2000, 0, 0, 0, 0, 4000, 0b111_0000, 4000],
    },
    Row {
        changes: 9,
        slot: 1,
        irq: 0,
        words: [1000, 1000, 0, 0, 0, 0, 2000, 0b111_0000, 4000],
    },
    Row {
        changes: 9,
        slot: 2,
        irq: 100,
        words: [1000, 1000, 0, 0, 0, 0, 3000, 0, 3000],
    },
];

#[test]
fn accounts_of_groups_in_groups(rt: HostRuntime) {
    let plans = plans_of(&rt, rt.alloc(), 1, 5000, &NESTED);
    assert_rows(&rt, rt.alloc(), &plans, (3, 9), &OF_NESTED);
}

//! Tests the clock of the root group, change by change, for the plan of a trace with one task.

ghost use Rattle.std.specs.Prelude.{◌≡◌, length};

use crate::events::{WAITS, plans_of};
use proc_plan::{PlainClocks, Plan, ProcClocks};
use psi_base::{Cpu, Slot};
use std::alloc::Global;
use std::process::Abort;
use test_support::assert_equal;

#[test]
fn clocks_of_the_root(rt: HostRuntime) {
    let plans = plans_of(&rt, rt.alloc(), 1, 2_000_000_000, &WAITS);
    assert_equal!(rt; plans.lives().len(), 1, "groups");
    assert_root_clock(&rt, rt.alloc(), plans.plan(Cpu(0)));
}

// Checks the words of the root's clock: the times (ns) of IO some and full, memory some and full,
// CPU some and full and nonidle, a mask with one bit for each of these states, and the start (ns).
fn assert_root_clock(rt: &impl Abort, alloc: Global, plan: &Plan)
    requires { length plan.now.parents ≡ 1 }
{
    assert_equal!(rt; plan.len(), 4, "changes");
    assert_equal!(rt; plan.moment(4), 1_500_000_000, "the time of change 4");
    let root = Slot(0);
    let mut clocks = PlainClocks::make(alloc, plan, 1).expect(rt, "memory");
    assert_equal!(rt; clocks.count(), 0, "changes");
    assert_equal!(rt; clocks.own(root).to_words(), [0; 9], "words");
    clocks.apply();
    clocks.apply();
    clocks.apply();
    assert_equal!(rt; clocks.count(), 3, "changes");
    let words = [0, 0, 0, 0, 0, 0, 500_000_000, 0b100_0011, 500_000_000];
    assert_equal!(rt; clocks.own(root).to_words(), words, "words");
    clocks.apply();
    assert_equal!(rt; clocks.count(), 4, "changes");
    let clock = clocks.own(root);
    let (half, second) = (500_000_000, 1_000_000_000);
    let times = [second, second, 0, 0, half, half, 2_000_000_000];
    assert_equal!(rt; clock.opened(2_000_000_000), times, "times");
}

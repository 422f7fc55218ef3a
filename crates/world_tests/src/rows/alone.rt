//! Tests of clock rows whose reader and writer are in one thread. The clocks follow the plans of
//! traces with one or two tasks.

ghost use Rattle.std.specs.Prelude.{◌≡◌, ◌≤◌, length};

use crate::events::{WAITS, plans_of};
use crate::rows::shown::{Shown, show, show_late, writer_after};
use cpu_clock::Clock;
use proc_plan::{Plan, Plans};
use psi_base::{Cpu, Slot};
use std::alloc::Global;
use std::process::Abort;
use test_support::assert_equal;

const ROOT: Slot = Slot(0);

/// The root's clock after three changes: a task waits for IO, and no task runs.
const WAITING: [u64; 9] = [0, 0, 0, 0, 0, 0, 500_000_000, 0b100_0011, 500_000_000];

// Returns the values of the root's clock after three changes: first for a reader that was created
// before them, then for a reader that was created after them.
fn shown_early_and_late(rt: &impl Abort, alloc: Global, plan: &Plan) -> [Shown; 2]
    requires root { length plan.now.parents ≡ 1 }
    requires changes { 3 ≤ length plan.now.changes }
{
    let (mut writer, mut reader) = writer_after(rt, alloc, plan, 1, 3);
    let early = show(&mut writer, &mut reader, ROOT);
    [early, show_late(rt, &mut writer, ROOT)]
}

// Returns the expected values of the root's clock after three changes, if the reader had seen
// `seen` of them before it sampled.
fn waiting(seen: u64) -> Shown {
    Shown {
        made: 3,
        own: WAITING,
        seen,
        sampled: Some((3, WAITING)),
        seen_then: 3,
    }
}

// Each reader's sample is equal to the writer's clock. A reader created after the changes has seen
// them before it samples. A reader created before the changes gets the same sample, even if the
// writer doesn't call `meet`.
#[test]
fn one_slot_after_three_changes(rt: HostRuntime) {
    let plans = plans_of(&rt, rt.alloc(), 1, 2_000_000_000, &WAITS);
    assert_same_samples(&rt, rt.alloc(), &plans);
}

fn assert_same_samples(rt: &impl Abort, alloc: Global, plans: &Plans)
    requires { length plans.now.plans ≡ 1 }
{
    let plan = plans.plan(Cpu(0));
    assert_equal!(rt; plans.lives().len(), 1, "groups");
    assert_equal!(rt; plan.len(), 4, "changes");
    let [early, late] = shown_early_and_late(rt, alloc, plan);
    assert_equal!(rt; early, waiting(0), "by the reader from before");
    assert_equal!(rt; late, waiting(3), "by the reader from after");
}

/// A trace with two tasks, one of them in a group, which run alternately on one processor.
const TURNS: [&[u8]; 6] = [
    b"0 group /a",
    b"0 fork 1 /a 0",
    b"0 fork 2 / 0",
    b"0 switch 0 1 idle",
    b"1000000000 switch 0 2 preempt",
    b"2000000000 end",
];

// Returns the clocks of both slots after four changes and a call of `meet`. The reader samples both
// clocks after the same number of changes.
fn all_after_four(rt: &impl Abort, alloc: Global, plan: &Plan) -> [Clock; 2]
    requires slots { length plan.now.parents ≡ 2 }
    requires changes { 4 ≤ length plan.now.changes }
{
    let (mut writer, mut reader) = writer_after(rt, alloc, plan, 2, 4);
    writer.meet(&mut reader).expect(rt, "memory");
    let mut clocks = [Clock::zero(), Clock::zero()];
    assert_equal!(rt; reader.try_sample_all(&mut clocks), Ok(4), "changes");
    clocks
}

// The last switch doesn't change the root's states, so it restarts only the clock of the group
// `/a`.
#[test]
fn all_slots_at_one_count(rt: HostRuntime) {
    let plans = plans_of(&rt, rt.alloc(), 1, 2_000_000_000, &TURNS);
    assert_group_restarted(&rt, rt.alloc(), &plans);
}

fn assert_group_restarted(rt: &impl Abort, alloc: Global, plans: &Plans)
    requires { length plans.now.plans ≡ 1 }
{
    let plan = plans.plan(Cpu(0));
    assert_equal!(rt; plans.lives().len(), 2, "groups");
    assert_equal!(rt; plan.len(), 4, "changes");
    let [root, group] = all_after_four(rt, alloc, plan);
    let stayed = [0, 0, 0, 0, 0, 0, 0, 0b101_0000, 0];
    assert_equal!(rt; root.to_words(), stayed, "the root");
    let turned = [0, 0, 0, 0, 0, 0, 1_000_000_000, 0b111_0000, 1_000_000_000];
    assert_equal!(rt; group.to_words(), turned, "the group");
}

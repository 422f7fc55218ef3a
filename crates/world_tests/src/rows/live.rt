//! Tests of samples that a reader takes in one thread while a writer makes 100,002 changes in
//! another.

ghost use Rattle.std.specs.Prelude.{◌≡◌, ◌≤◌, ◌^◌, length};

use crate::events::plans_of;
use crate::rows::threads::{are_plain, beside};
use clock_row::Sample;
use proc_plan::Plans;
use psi_base::{Cpu, Slot};
use std::alloc::Global;
use std::process::Abort;
use std::thread::Threads;
use test_support::assert_equal;

/// The number of rounds of the trace. In each round, a task of the root and a task of `/a` run
/// alternately, which takes three changes.
const ROUNDS: u64 = 33_333;

// Appends the lines of one round, which starts at time `at` (ns).
fn put_round(rt: &impl Abort, text: &mut String, at: u64)
    requires { at ≤ 2 ^ 63 }
{
    let (stalls, wakes) = (at + 300, at + 500);
    writeln!(text, "{at} switch 0 2 preempt").expect(rt, "memory");
    writeln!(text, "{stalls} switch 0 1 iowait").expect(rt, "memory");
    writeln!(text, "{wakes} wake 2 0").expect(rt, "memory");
}

/// Returns the lines of a trace with 100,002 changes.
fn lines(rt: &impl Abort, alloc: Global) -> String {
    let begin = "0 group /a\n0 fork 1 / 0\n0 fork 2 /a 0\n0 switch 0 1 idle\n";
    let mut text = String::from_str(alloc, begin).expect(rt, "memory");
    'rounds: for round in 1..=ROUNDS {
        put_round(rt, &mut text, 1_000 * round);
    }
    text.push_str("60000000000 end\n").expect(rt, "memory");
    text
}

fn plans_of_rounds(rt: &impl Abort, alloc: Global) -> Plans
    ensures { length result.plans ≡ 1 }
{
    let text = lines(rt, alloc);
    let mut lines = Vec::new(alloc);
    for line in text.lines() {
        lines.push(line.as_bytes()).expect(rt, "memory");
    }
    plans_of(rt, alloc, 1, 60_000_000_000, &lines)
}

// Returns samples of `/a` that a reader takes while a writer makes all changes.
fn sampled<R: Abort + Threads + Sync>(rt: &R, alloc: Global, plans: &Plans) -> Vec<Sample>
    requires { length plans.now.plans ≡ 1 }
{
    let group = Slot(1);
    let plan = plans.plan(Cpu(0));
    assert_equal!(rt; plans.lives().len(), 2, "groups");
    assert_equal!(rt; plan.len(), 100_002, "changes");
    let (made, samples) = beside(rt, alloc, plan, 2, 100_002, group);
    assert_equal!(rt; made, 100_002, "changes");
    assert!(rt; !samples.is_empty());
    let plain = are_plain(alloc, plan, 2, group, &samples).expect(rt, "memory");
    assert!(rt; plain);
    samples
}

// Each sample equals the clock of a single thread after the same number of changes, and the numbers
// of changes never decrease.
#[test]
fn samples_beside_the_writer(rt: HostRuntime) {
    let plans = plans_of_rounds(&rt, rt.alloc());
    let samples = sampled(&rt, rt.alloc(), &plans);
    if !samples
        .iter()
        .any(|sample| 0 < sample.count && sample.count < 100_002)
    {
        println!(rt; "no sample was taken while the writer ran").expect(&rt, "printing");
    }
}

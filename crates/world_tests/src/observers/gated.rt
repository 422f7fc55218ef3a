//! Tests that an observer calls its gate (a hook for tests) once before each sample. The samples
//! are taken from a trace with one task.

ghost use Rattle.std.specs.Prelude.{◌≡◌, length};

use crate::events::plans_of;
use crate::observers::entries::look_at_gate;
use outside::Gate;
use proc_plan::Plans;
use psi_base::Cpu;
use std::alloc::Global;
use std::process::Abort;
use std::sync::atomic::AtomicU64;
use std::sync::atomic::Ordering::SeqCst;
use test_support::assert_equal;

/// A trace with one task, which runs until the end.
const RUNS: [&[u8]; 3] = [b"0 fork 1 / 0", b"0 switch 0 1 idle", b"2000000000 end"];

/// The number of the observer whose calls are counted in `ahead`.
const OBSERVER: u32 = 5;

/// A gate that counts its calls before a sample of `OBSERVER` on processor 0 (`ahead`), and all
/// other calls (`otherwise`).
#[derive(Drop)]
struct Counting {
    ahead: AtomicU64,
    otherwise: AtomicU64,
}

impl Gate for Counting {
    fn moved(&self, _cpu: Cpu, _count: u64) {
        self.otherwise.fetch_add(1, SeqCst);
    }

    fn before_sample(&self, cpu: Cpu, index: u32) {
        let calls = if cpu == Cpu(0) && index == OBSERVER {
            &self.ahead
        } else {
            &self.otherwise
        };
        calls.fetch_add(1, SeqCst);
    }

    fn sampled(&self, _cpu: Cpu, _count: u64) {
        self.otherwise.fetch_add(1, SeqCst);
    }
}

// The gate is called once, before the sample, with the number of the observer. If memory runs out,
// the observer takes no sample and doesn't call the gate.
#[test]
fn a_look_calls_its_gate_once(rt: HostRuntime) {
    let plans = plans_of(&rt, rt.alloc(), 1, 2_000_000_000, &RUNS);
    assert_called_once(&rt, rt.alloc(), &plans);
}

// Takes one sample, and returns the number of the observer's entries, or `None` if memory ran out.
fn entries_of(
    rt: &impl Abort,
    alloc: Global,
    observer: u32,
    plans: &Plans,
    gate: &Counting,
) -> Option<usize>
    requires one { length plans.now.plans ≡ 1 }
    requires root { length plans.now.lives ≡ 1 }
{
    match look_at_gate(rt, alloc, observer, plans, gate) {
        Ok(own) => Some(own.entries().len()),
        Err(_) => None,
    }
}

// Returns the number of calls before a sample of `OBSERVER`, and the number of all other calls.
fn calls(gate: &Counting) -> [u64; 2] {
    [gate.ahead.load(SeqCst), gate.otherwise.load(SeqCst)]
}

fn assert_called_once(rt: &impl Abort, alloc: Global, plans: &Plans)
    requires { length plans.now.plans ≡ 1 }
{
    assert_equal!(rt; plans.lives().len(), 1, "groups");
    let gate = Counting {
        ahead: AtomicU64::new(0),
        otherwise: AtomicU64::new(0),
    };
    let first = entries_of(rt, alloc, OBSERVER, plans, &gate);
    let looks = if first.is_some() { 1 } else { 0 };
    assert_equal!(rt; calls(&gate), [looks, 0], "calls for the observer");
    assert_equal!(rt; first, Some(1), "entries of the observer");
    let other = entries_of(rt, alloc, 0, plans, &gate);
    assert_equal!(rt; other, Some(1), "entries of another");
    assert_equal!(rt; calls(&gate), [1, 1], "calls for both");
}

//! Tests of the calls that a run makes of its gate: one for each change of a processor, and two for
//! each sample of an observer.

use crate::runs::{Host, Ran, assert_ends, run_gated};
use outside::Gate;
use psi_base::{Cpu, read_number};
use std::sync::atomic::AtomicU64;
use std::sync::atomic::Ordering::SeqCst;
use test_support::{CHANGES, ChangeCounts, THREE_TICKS, assert_equal};

const TICKS: u64 = 3;

const CPUS: u64 = 2;

/// An exclusive upper bound on the number of changes before a sample.
const ROOM: u64 = 8;

/// The number of observers.
const OBSERVERS: u64 = 3;

/// Returns `many` counters, all of them 0.
fn counters(rt: &impl Host, many: u64) -> Vec<AtomicU64> {
    let mut counters = Vec::new(rt.alloc());
    for _ in 0..many {
        counters.push(AtomicU64::new(0)).expect(rt, "memory");
    }
    counters
}

/// A gate that counts its calls, and records whether a call was unexpected.
#[derive(Drop)]
struct Counting {
    changes: ChangeCounts,
    /// A list for each processor. The entry at index `i` is the number of calls after samples that
    /// include `i` changes.
    samples: [Vec<AtomicU64>; 2],
    /// The number of calls before a sample, for each observer.
    requested: Vec<AtomicU64>,
}

impl Counting {
    fn new(rt: &impl Host) -> Counting {
        Counting {
            changes: ChangeCounts::new(),
            samples: [counters(rt, ROOM), counters(rt, ROOM)],
            requested: counters(rt, OBSERVERS),
        }
    }

    /// Returns whether `cpu` is the next processor in the observer's order.
    fn is_next_cpu(&self, cpu: Cpu, observer: u32) -> Option<bool> {
        let before = self.requested.get(observer as usize)?.fetch_add(1, SeqCst);
        Some(before % CPUS == u64::from(cpu.0))
    }

    /// Counts a sample of processor `cpu` that includes `count` changes.
    fn count(&self, cpu: Cpu, count: u64) -> Option<bool> {
        let samples = self.samples.get(cpu.0 as usize)?;
        samples.get(count as usize)?.fetch_add(1, SeqCst);
        Some(true)
    }
}

impl Gate for Counting {
    fn moved(&self, cpu: Cpu, count: u64) {
        self.changes.add(cpu, count);
    }

    fn before_sample(&self, cpu: Cpu, index: u32) {
        self.changes.record(self.is_next_cpu(cpu, index));
    }

    fn sampled(&self, cpu: Cpu, count: u64) {
        self.changes.record(self.count(cpu, count));
    }
}

/// Returns the processor and the number of changes in the line of a sample, or `None` for any other
/// line.
fn sample_of(line: &[u8]) -> Option<(u64, u64)> {
    let rest = line.strip_prefix(b"sample observer=")?;
    let mut words = rest.split(|byte| *byte == b' ').skip(1);
    let cpu = read_number(words.next()?.strip_prefix(b"cpu=")?)?;
    let count = read_number(words.next()?.strip_prefix(b"count=")?)?;
    Some((cpu, count))
}

/// Returns whether the gate was called once for each printed sample of processor `cpu`, and for no
/// other sample. `known` has the number of calls for each number of changes.
fn are_printed(ran: &Ran, cpu: u64, known: &[AtomicU64]) -> bool {
    known.iter().enumerate().all(|(count, known)| {
        let lines = ran.output.split(|byte| *byte == b'\n');
        let samples = lines.filter_map(|line| sample_of(line));
        let printed = samples
            .filter(|sample| *sample == (cpu, count as u64))
            .count();
        known.load(SeqCst) == printed as u64
    })
}

#[test]
fn each_change_and_each_sample(rt: HostRuntime) {
    let gate = Counting::new(&rt);
    let ran = run_gated(&rt, "t 3 /", THREE_TICKS, &gate);
    assert_ends(&rt, "t 3 /", &ran, "\nend 6000000000 samples=18\n");
    assert!(rt; gate.changes.are_right(), "a call has another number");
    assert_equal!(rt; gate.changes.counts(), CHANGES, "changes");
    for requested in &gate.requested {
        assert_equal!(rt; requested.load(SeqCst), TICKS * CPUS, "samples of an observer");
    }
    for (cpu, known) in gate.samples.iter().enumerate() {
        let are_printed = are_printed(&ran, cpu as u64, known);
        assert!(rt;
            are_printed,
            "cpu {cpu}, expected: the reported samples, actual: {ran}"
        );
    }
}

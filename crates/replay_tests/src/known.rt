//! Tests of the calls that a replay makes of its gate: one for each change of a processor, and two
//! for each live sample.

use crate::runs::{Host, Ran, run_gated};
use outside::Gate;
use psi_base::{Cpu, read_number};
use replay_core::Status;
use std::sync::atomic::AtomicU64;
use std::sync::atomic::Ordering::SeqCst;
use test_support::{CHANGES, ChangeCounts, THREE_TICKS, assert_equal};

/// The maximum number of samples of a processor that can be stored.
const ROOM: usize = 16;

/// The calls of the gate for the samples of one processor.
#[derive(Drop)]
struct Notice {
    /// The number of calls before a sample.
    requested: AtomicU64,
    /// The number of calls after a sample.
    sampled: AtomicU64,
    /// The number of changes that each sample includes.
    counts: Vec<AtomicU64>,
}

impl Notice {
    fn new(rt: &impl Host) -> Notice {
        let mut counts = Vec::new(rt.alloc());
        for _ in 0..ROOM {
            counts.push(AtomicU64::new(0)).expect(rt, "memory");
        }
        Notice {
            requested: AtomicU64::new(0),
            sampled: AtomicU64::new(0),
            counts,
        }
    }

    /// Returns the number of changes that sample number `number` includes, or `None` if there are
    /// fewer samples.
    fn count_at(&self, number: usize) -> Option<u64> {
        self.counts.get(number).map(|count| count.load(SeqCst))
    }
}

/// A gate that counts its calls for each processor, and records whether a call was unexpected.
#[derive(Drop)]
struct Counting {
    changes: ChangeCounts,
    known: Vec<Notice>,
    /// The number of samples of a processor in an interval.
    each: u64,
}

impl Counting {
    fn new(rt: &impl Host, each: u64) -> Counting {
        let known = vec![in rt.alloc(); Notice::new(rt), Notice::new(rt)];
        Counting {
            changes: ChangeCounts::new(),
            known: known.expect(rt, "memory"),
            each,
        }
    }

    /// Returns whether sample `index` of a processor is the next sample of its interval, and the
    /// previous sample has been taken.
    fn is_next_sample(&self, cpu: Cpu, index: u32) -> Option<bool> {
        let known = self.known.get(cpu.0 as usize)?;
        let before = known.requested.fetch_add(1, SeqCst);
        let place = before.checked_rem(self.each)?;
        Some(place == u64::from(index) && known.sampled.load(SeqCst) == before)
    }

    /// Stores `count`, the number of changes that a sample includes, and returns whether the gate
    /// was called before this sample.
    fn is_requested(&self, cpu: Cpu, count: u64) -> Option<bool> {
        let known = self.known.get(cpu.0 as usize)?;
        let before = known.sampled.fetch_add(1, SeqCst);
        known.counts.get(before as usize)?.store(count, SeqCst);
        let requested = known.requested.load(SeqCst);
        Some(before < requested && requested - before == 1)
    }
}

impl Gate for Counting {
    fn moved(&self, cpu: Cpu, count: u64) {
        self.changes.add(cpu, count);
    }

    fn before_sample(&self, cpu: Cpu, index: u32) {
        self.changes.record(self.is_next_sample(cpu, index));
    }

    fn sampled(&self, cpu: Cpu, count: u64) {
        self.changes.record(self.is_requested(cpu, count));
    }
}

/// Returns the number of changes in a live line of processor `cpu`, or `None` for any other line.
fn live_count(line: &[u8], cpu: u8) -> Option<u64> {
    let rest = line.strip_prefix(b"live ")?;
    let mut words = rest.split(|byte| *byte == b' ').skip(1);
    let digit = words.next()?.strip_prefix(b"cpu=")?;
    if digit != [b'0' + cpu % 10].as_slice() {
        return None;
    }
    read_number(words.next()?.strip_prefix(b"count=")?)
}

/// Returns whether a processor has `samples` live lines, with the numbers of changes that the gate
/// was called with.
fn are_lines(ran: &Ran, cpu: u8, known: &Notice, samples: usize) -> bool {
    let lines = ran.output.split(|byte| *byte == b'\n');
    let live = lines.filter_map(|line| live_count(line, cpu)).count();
    let lines = ran.output.split(|byte| *byte == b'\n');
    let counts = lines.filter_map(|line| live_count(line, cpu));
    live == samples
        && known.requested.load(SeqCst) == samples as u64
        && known.sampled.load(SeqCst) == samples as u64
        && counts
            .enumerate()
            .all(|(number, count)| known.count_at(number) == Some(count))
}

/// Checks that a run calls its gate for each change, and for `samples` samples of each processor.
/// Between two ticks a processor has `per_interval` samples.
fn assert_reported(rt: &impl Host, line: &str, per_interval: u64, samples: usize) {
    let gate = Counting::new(rt, per_interval);
    let ran = run_gated(rt, line, THREE_TICKS, &gate);
    let found = (ran.status, gate.changes.counts());
    assert_equal!(rt; found, (Status::Done, CHANGES), line);
    assert!(rt;
        gate.changes.are_right(),
        "{line}: an unexpected call, {ran}"
    );
    for (cpu, known) in (0..2).zip(&gate.known) {
        assert!(rt;
            are_lines(&ran, cpu, known, samples),
            "{line}, expected: {samples} reported samples of cpu {cpu}, actual: {ran}"
        );
    }
}

// The calls don't depend on the number of workers.
#[test]
fn each_change_once(rt: HostRuntime) {
    assert_reported(&rt, "replay t", 1, 0);
    assert_reported(&rt, "replay t --workers 1", 1, 0);
    assert_reported(&rt, "replay t --tick-ms 1", 1, 0);
    assert_reported(&rt, "replay t --live /nope", 1, 0);
}

#[test]
fn each_sample_by_two_calls(rt: HostRuntime) {
    assert_reported(&rt, "replay t --live /", 1, 3);
    assert_reported(&rt, "replay t --live / --workers 1", 1, 3);
    assert_reported(&rt, "replay t --live / --live-count 4", 4, 12);
}

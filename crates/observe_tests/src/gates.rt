//! Tests that observers and the threads of a replay run at the same time: a gate blocks each thread
//! until another thread has arrived.

use crate::runs::{Host, assert_ends, run_gated};
use observe_core::ObserveStatus;
use outside::Gate;
use psi_base::Cpu;
use std::sync::atomic::AtomicU64;
use std::sync::atomic::Ordering::SeqCst;
use test_support::{
    ONE_PROCESSOR, SampleBetween, Signal, as_text, assert_equal, first_bytes, line_of,
};

/// The output of one observer of `ONE_PROCESSOR` that takes its sample after the third change.
const AFTER_THREE: &str = "sample observer=0 cpu=0 count=3 at=500000000 0 0 0 0 0 0 500000000\n\
    board observer=0 tick=1 events=0 kills=0\n\
    end 2000000000 samples=1\n";

/// A trace with a group whose task runs, waits for IO for a second and is ready. The group is
/// removed after the task has left it, and created again.
const COMES_AGAIN: &str = "psitrace 1 cpus=1\n\
    0 group /a\n\
    0 fork 1 /a 0\n\
    0 switch 0 1 idle\n\
    500000000 switch 0 0 iowait\n\
    1500000000 wake 1 0\n\
    4500000000 move 1 /\n\
    4500000000 rmgroup /a\n\
    6500000000 group /a\n\
    8000000000 end\n";

/// The output of one observer of `COMES_AGAIN` whose first sample is after the third change. At the
/// third tick the group isn't live; at the fourth it is a new group, in which no time has passed.
const BOTH_LIVES: &str = "sample observer=0 cpu=0 count=3 at=500000000 0 0 0 0 0 0 500000000\n\
    sample observer=0 cpu=0 count=4 at=1500000000 1000000000 1000000000 0 0 0 0 1500000000\n\
    sample observer=0 cpu=0 count=5 at=4500000000 0 0 0 0 0 0 0\n\
    board observer=0 tick=4 events=0 kills=0\n\
    end 8000000000 samples=3\n";

/// Checks the output for a trace if the gate forces the first sample between the third and the
/// fourth change.
fn assert_after_third(rt: &impl Host, line: &str, trace: &str, output: &str) {
    let gate = SampleBetween::new(Cpu(0), 3);
    let ran = run_gated(rt, line, trace, &gate);
    assert_equal!(rt; ran.results(), (ObserveStatus::Done, output, ""), line);
    assert!(rt; gate.is_met(), "{line}: a thread waited in vain");
}

#[test]
fn samples_while_the_replay_goes_on(rt: HostRuntime) {
    assert_after_third(&rt, "t 1 /", ONE_PROCESSOR, AFTER_THREE);
}

#[test]
fn a_group_goes_and_comes_again(rt: HostRuntime) {
    assert_after_third(&rt, "t 1 /a", COMES_AGAIN, BOTH_LIVES);
}

/// A gate at which observer 0 waits until another observer has added its sample to the journal.
#[derive(Drop)]
struct OtherFirst {
    sampled: Signal,
}

impl Gate for OtherFirst {
    fn moved(&self, _cpu: Cpu, _count: u64) {}

    fn before_sample(&self, _cpu: Cpu, index: u32) {
        if index == 0 {
            self.sampled.wait();
        }
    }

    fn sampled(&self, _cpu: Cpu, _count: u64) {
        self.sampled.send();
    }
}

// The samples are in the order of the journal, and the states of the board are ordered by observer.
#[test]
fn observers_in_the_order_of_the_journal(rt: HostRuntime) {
    let gate = OtherFirst {
        sampled: Signal::new(),
    };
    let ran = run_gated(&rt, "t 2 /", ONE_PROCESSOR, &gate);
    assert!(rt; gate.sampled.is_met(), "observer 0 waited in vain");
    let begins = ["sample observer=1 cpu=0 ", "sample observer=0 cpu=0 "];
    for (number, begin) in begins.iter().enumerate() {
        let line = first_bytes(line_of(&ran.output, number), begin.len());
        assert_equal!(rt; as_text(line), *begin, number);
    }
    let end = "\nboard observer=0 tick=1 events=0 kills=0\n\
        board observer=1 tick=1 events=0 kills=0\n\
        end 2000000000 samples=2\n";
    assert_ends(&rt, "t 2 /", &ran, end);
}

/// The maximum number of observers in a run.
const OBSERVERS: u64 = 8;

/// A gate at which each observer waits, before its only sample, until all observers have arrived.
#[derive(Drop)]
struct AllMeet {
    come: AtomicU64,
    all: Signal,
}

impl Gate for AllMeet {
    fn moved(&self, _cpu: Cpu, _count: u64) {}

    fn before_sample(&self, _cpu: Cpu, _index: u32) {
        if self.come.fetch_add(1, SeqCst) == OBSERVERS - 1 {
            self.all.send();
        }
        self.all.wait();
    }

    fn sampled(&self, _cpu: Cpu, _count: u64) {}
}

#[test]
fn observers_in_threads_of_their_own(rt: HostRuntime) {
    let gate = AllMeet {
        come: AtomicU64::new(0),
        all: Signal::new(),
    };
    let ran = run_gated(&rt, "t 8 /", ONE_PROCESSOR, &gate);
    assert!(rt; gate.all.is_met(), "an observer waited in vain");
    assert_equal!(rt; gate.come.load(SeqCst), OBSERVERS, "observers at the gate");
    assert_ends(&rt, "t 8 /", &ran, "\nend 2000000000 samples=8\n");
}

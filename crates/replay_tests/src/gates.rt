//! Tests that the threads of a replay run at the same time: a gate blocks each thread until another
//! thread has arrived.

use crate::runs::{Host, run_gated, run_open};
use outside::Gate;
use psi_base::Cpu;
use replay_core::Status;
use test_support::{ONE_PROCESSOR, SampleBetween, Signal, as_text, assert_equal, line_of};

/// The possible live lines of `ONE_PROCESSOR`, by the number of changes made.
pub const LIVE_LINES: [&str; 5] = [
    "live 2000000000 cpu=0 count=0 0 0 0 0 0 0 0",
    "live 2000000000 cpu=0 count=1 0 0 0 0 2000000000 2000000000 2000000000",
    "live 2000000000 cpu=0 count=2 0 0 0 0 0 0 2000000000",
    "live 2000000000 cpu=0 count=3 1500000000 1500000000 0 0 0 0 2000000000",
    "live 2000000000 cpu=0 count=4 1000000000 1000000000 0 0 500000000 500000000 2000000000",
];

/// A trace of two processors: a task waits for IO on the first, and a task runs for a second on the
/// second.
const TWO_PROCESSORS: &str = "psitrace 1 cpus=2\n\
    0 fork 1 / 0\n\
    0 fork 2 / 1\n\
    0 switch 0 1 idle\n\
    0 switch 0 0 iowait\n\
    0 switch 1 2 idle\n\
    1000000000 switch 1 0 sleep\n\
    2000000000 end\n";

/// The report on `TWO_PROCESSORS`: the first processor has twice the weight of the second.
const REPORTED: &str = "report 2000000000 / io\n\
    some avg10=11.95 avg60=2.15 avg300=0.45 total=1333333\n\
    full avg10=11.95 avg60=2.15 avg300=0.45 total=1333333\n\
    report 2000000000 / memory\n\
    some avg10=0.00 avg60=0.00 avg300=0.00 total=0\n\
    full avg10=0.00 avg60=0.00 avg300=0.00 total=0\n\
    report 2000000000 / cpu\n\
    some avg10=0.00 avg60=0.00 avg300=0.00 total=0\n\
    full avg10=0.00 avg60=0.00 avg300=0.00 total=0\n\
    end 2000000000 ticks=1 events=0 kills=0\n";

/// A gate at which each of processors 0 and 1 waits, at its first change, for the other.
#[derive(Drop)]
struct Meeting {
    first: Signal,
    second: Signal,
}

impl Gate for Meeting {
    fn moved(&self, cpu: Cpu, count: u64) {
        if count != 1 {
            return;
        }
        if cpu.0 == 0 {
            self.first.send();
            self.second.wait();
        } else {
            self.second.send();
            self.first.wait();
        }
    }

    fn before_sample(&self, _cpu: Cpu, _index: u32) {}

    fn sampled(&self, _cpu: Cpu, _count: u64) {}
}

#[test]
fn workers_meet(rt: HostRuntime) {
    let gate = Meeting {
        first: Signal::new(),
        second: Signal::new(),
    };
    let ran = run_gated(&rt, "replay t", TWO_PROCESSORS, &gate);
    assert_equal!(rt; ran.results(), (Status::Done, REPORTED, ""), "replay t");
    let are_met = [gate.first.is_met(), gate.second.is_met()];
    assert_equal!(rt; are_met, [true, true], "no worker waited in vain");
}

/// Checks that a command line prints the expected live line if the gate forces the first sample of
/// a processor between two of its changes.
fn assert_samples_between(
    rt: &impl Host,
    line: &str,
    trace: &str,
    gate: &SampleBetween,
    number: usize,
    live: &str,
) {
    let ran = run_gated(rt, line, trace, gate);
    let printed = (ran.status, as_text(line_of(&ran.output, number)));
    assert_equal!(rt; printed, (Status::Done, live), line);
    assert!(rt; gate.is_met(), "{line}: a thread waited in vain");
}

#[test]
fn samples_while_workers_run(rt: HostRuntime) {
    let line = "replay t --live /";
    assert_samples_between(
        &rt,
        line,
        ONE_PROCESSOR,
        &SampleBetween::new(Cpu(0), 3),
        0,
        LIVE_LINES[3],
    );
    let other = "live 2000000000 cpu=1 count=2 0 0 0 0 0 0 2000000000";
    for line in &[
        "replay t --live / --workers 1",
        "replay t --live / --workers 64",
    ] {
        let gate = SampleBetween::new(Cpu(1), 2);
        assert_samples_between(&rt, line, TWO_PROCESSORS, &gate, 1, other);
    }
}

/// Returns the index of a line among the possible live lines, or `None` if it is below `from` or
/// the line isn't one of them.
fn place_from(line: &[u8], from: usize) -> Option<usize> {
    let place = LIVE_LINES.iter().position(|live| live.as_bytes() == line)?;
    if place < from { None } else { Some(place) }
}

/// Returns whether an output consists of `count` live lines, whose numbers of changes never
/// decrease, followed by `end`.
fn begins_live(output: &[u8], count: usize, end: &[u8]) -> bool {
    let mut from = 0;
    for number in 0..count {
        match place_from(line_of(output, number), from) {
            Some(place) => from = place,
            None => return false,
        }
    }
    output.ends_with(end) && line_of(output, count) == line_of(end, 0)
}

/// Checks that a command line prints `count` live lines, followed by `plain`, the output without
/// live samples.
fn assert_begins_live(rt: &impl Host, line: &str, count: usize, plain: &[u8]) {
    let ran = run_open(rt, line, ONE_PROCESSOR);
    assert!(rt;
        begins_live(&ran.output, count, plain),
        "{line}, expected: {count} live lines and {:?}, actual: {ran}",
        as_text(plain)
    );
}

#[test]
fn samples_any_change(rt: HostRuntime) {
    let plain = run_open(&rt, "replay t", ONE_PROCESSOR);
    assert_begins_live(&rt, "replay t --live /", 1, &plain.output);
    assert_begins_live(&rt, "replay t --live / --live-count 16", 16, &plain.output);
    let nope = run_open(&rt, "replay t --live /nope", ONE_PROCESSOR);
    assert_equal!(rt; nope.results(), plain.results(), "a group that doesn't exist");
}

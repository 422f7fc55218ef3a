//! Tests of the limit on the number of samples of a run: traces that reach a million samples, or
//! that would exceed it.

use crate::runs::{Host, assert_ends, assert_prints_nothing, run_open};
use observe_core::ObserveStatus;
use test_support::assert_equal;

/// A trace with the largest number of ticks that eight observers of 50 processors may sample, and a
/// trace with one more tick.
const MOST_TICKS: &str = "psitrace 1 cpus=50\n5000000000000 end\n";

const ONE_TICK_MORE: &str = "psitrace 1 cpus=50\n5002000000000 end\n";

/// A trace long enough that two observers of one processor would take two samples more than the
/// limit.
const TWO_SAMPLES_MORE: &str = "psitrace 1 cpus=1\n1000002000000000 end\n";

/// A trace with a hundredth of the ticks of `MOST_TICKS`.
const SOME_TICKS: &str = "psitrace 1 cpus=50\n50000000000 end\n";

#[test]
fn as_many_as_may_be(rt: HostRuntime) {
    let ran = run_open(&rt, "t 8 /nope", MOST_TICKS);
    let first = "board observer=0 tick=2500 events=0 kills=0\n";
    let beginning = ran.beginning(first.len());
    assert_equal!(rt; beginning, (ObserveStatus::Done, first, ""), "the first line");
    assert_ends(&rt, "t 8 /nope", &ran, "\nend 5000000000000 samples=0\n");
}

/// Checks that a run is rejected because it would take `samples` samples, more than the limit.
fn assert_too_many(rt: &impl Host, line: &str, trace: &str, samples: u64) {
    let status = ObserveStatus::TooManySamples { samples };
    assert_prints_nothing(rt, line, trace, status, "too many samples\n");
}

// The limit applies to the number of requested samples, whether or not the group is ever live.
#[test]
fn too_many(rt: HostRuntime) {
    assert_too_many(&rt, "t 8 /", ONE_TICK_MORE, 1_000_400);
    assert_too_many(&rt, "t 8 /nope", ONE_TICK_MORE, 1_000_400);
    assert_too_many(&rt, "t 2 /", TWO_SAMPLES_MORE, 1_000_002);
}

#[test]
fn ten_thousand(rt: HostRuntime) {
    let ran = run_open(&rt, "t 8 /", SOME_TICKS);
    assert_ends(&rt, "t 8 /", &ran, "\nend 50000000000 samples=10000\n");
    // Each sample, each of the eight board states and the last line end with a newline.
    let ends = ran.output.iter().filter(|byte| **byte == b'\n').count();
    assert_equal!(rt; ends, 10_009, "lines");
}

//! Tests of command lines that aren't a request or that name a missing file, and of the exit codes
//! of all statuses.

use crate::runs::{Host, assert_prints_nothing};
use observe_core::ObserveStatus;
use psi_base::Cause;
use test_support::{ONE_PROCESSOR, assert_equal, no_memory};

/// Command lines that aren't the name of a trace, a number from 1 to 8 and a path.
const NOTHING_REQUESTED: [&str; 14] = [
    "t 9 /",
    "t 0 /",
    "t 01 /",
    "t +1 /",
    "t one /",
    "t 4294967297 /",
    "t 1",
    "t 1 / /",
    "t 1 a",
    "t 1 /a/",
    " 1 /",
    "-t 1 /",
    "-- 1 /",
    "",
];

/// Checks that a command line prints nothing, and ends with this status and note.
fn assert_reported(rt: &impl Host, line: &str, status: ObserveStatus, note: &str) {
    assert_prints_nothing(rt, line, ONE_PROCESSOR, status, note);
}

#[test]
fn words_that_ask_for_nothing(rt: HostRuntime) {
    let usage = "usage: psi_observe TRACE OBSERVERS PATH\n";
    for line in &NOTHING_REQUESTED {
        assert_reported(&rt, line, ObserveStatus::Usage, usage);
    }
}

// The shelf in memory has only the file `t`.
#[test]
fn names_that_are_not_held(rt: HostRuntime) {
    assert_reported(&rt, "u 1 /", ObserveStatus::NoFile, "no file: u\n");
    assert_reported(&rt, "- 8 /a", ObserveStatus::NoFile, "no file: -\n");
}

#[test]
fn codes_of_statuses(rt: HostRuntime) {
    let cause = Cause::NoEnd;
    let no_memory = no_memory(rt.alloc());
    let codes = [
        ObserveStatus::Done.code(),
        ObserveStatus::Usage.code(),
        ObserveStatus::Trace { line: 1, cause }.code(),
        ObserveStatus::NoFile.code(),
        ObserveStatus::ReadFault.code(),
        ObserveStatus::WriteFault.code(),
        ObserveStatus::NoMemory(no_memory).code(),
        ObserveStatus::TooManySamples { samples: 1 }.code(),
    ];
    assert_equal!(rt; codes, [0, 1, 2, 4, 5, 6, 7, 8], "exit codes");
}

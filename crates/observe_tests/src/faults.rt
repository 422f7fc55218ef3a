//! Tests of rejected traces, and of reads and writes that fail: the status, the note and the
//! printed prefix. All traces are short.

use crate::runs::{Host, assert_prints_nothing, run_failing};
use observe_core::ObserveStatus;
use psi_base::Cause;
use test_support::{Failing, NO_CALL, NO_FAILURE, as_text, assert_equal, first_bytes};

/// A trace with two ticks and no task, so that no processor changes.
const TWO_TICKS: &str = "psitrace 1 cpus=1\n2500000000 group /a\n4000000000 end\n";

/// The output of two observers of a group that doesn't exist at any tick of `TWO_TICKS`: there are
/// no samples.
const PRINTED: &str = "board observer=0 tick=2 events=0 kills=0\n\
    board observer=1 tick=2 events=0 kills=0\n\
    end 4000000000 samples=0\n";

/// The number of reads if each read returns one byte: one for each byte of the trace, and one after
/// the end.
const READS: u64 = 54;

/// The number of writes if each write takes one byte: the number of bytes of `PRINTED`.
const WRITES: u64 = 107;

/// Checks that a trace is rejected at the second line for this cause, and that the note names the
/// cause.
fn assert_refused(rt: &impl Host, line: &str, trace: &str, cause: Cause, note: &str) {
    let status = ObserveStatus::Trace { line: 2, cause };
    assert_prints_nothing(rt, line, trace, status, note);
}

#[test]
fn traces_that_are_refused(rt: HostRuntime) {
    let trace = "psitrace 1 cpus=1\n0 fork 1 nope 0\n0 end\n";
    let cause = Cause::BadField(2);
    assert_refused(&rt, "t 1 /", trace, cause, "trace line 2: BadField 2\n");
    // A trace can have at most a million ticks.
    let trace = "psitrace 1 cpus=1\n2000000000000001 end\n";
    let cause = Cause::TimeTooLate;
    assert_refused(&rt, "t 8 /", trace, cause, "trace line 2: TimeTooLate\n");
}

/// Runs two observers with failing calls, one byte per call. Checks the status and note, and that
/// the first `length` bytes of `PRINTED` are printed.
fn assert_prefix(rt: &impl Host, failing: Failing, status: ObserveStatus, length: u64, note: &str) {
    let ran = run_failing(rt, "t 2 /a/b", TWO_TICKS, 1, failing);
    let prefix = as_text(first_bytes(PRINTED.as_bytes(), length as usize));
    assert_equal!(rt; ran.results(), (status, prefix, note), failing);
}

#[test]
fn each_call_fails_in_turn(rt: HostRuntime) {
    assert_prefix(&rt, NO_FAILURE, ObserveStatus::Done, WRITES, "");
    let fault = ObserveStatus::ReadFault;
    for read in 0..READS {
        let failing = Failing { read, ..NO_FAILURE };
        assert_prefix(&rt, failing, fault, 0, "read fault\n");
    }
    let fault = ObserveStatus::WriteFault;
    for write in 0..WRITES {
        let failing = Failing {
            write,
            ..NO_FAILURE
        };
        assert_prefix(&rt, failing, fault, write, "write fault\n");
    }
}

// A failed write to the note doesn't change the status.
#[test]
fn a_note_that_fails(rt: HostRuntime) {
    let failing = Failing {
        read: 0,
        write: NO_CALL,
        note: 1,
    };
    let ran = run_failing(&rt, "t 2 /", TWO_TICKS, 7, failing);
    let expected = (ObserveStatus::ReadFault, "", "read fa");
    assert_equal!(rt; ran.results(), expected, "a note that fails");
}

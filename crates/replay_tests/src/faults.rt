//! Tests of reads and writes that fail, and of the status and note that report them. The command is
//! `stall` on small traces.

use crate::runs::{Host, ONE_WAIT, assert_prints_nothing, assert_prints_prefix, run_trace};
use psi_base::Cause;
use replay_core::Status;
use test_support::{Failing, NO_CALL, assert_equal};

const SUMS: &str = "stall cpu=0 / 2000000000 2000000000 0 0 0 0 2000000000\n";

const REFUSED_IN_PREFIX: &str = "psitrace 1 cpus=1\n5 fork 1 / 0\n4 end\n5 end\n";

const AFTER_THE_END: &str = "psitrace 1 cpus=1\n5 end\nxyz";

/// Checks that `stall` prints nothing and ends with this status and note if read number `read`
/// fails. A read returns at most `most` bytes.
fn assert_unread(rt: &impl Host, trace: &str, most: usize, read: u64, status: Status, note: &str) {
    assert_prints_nothing(rt, "stall t", trace, most, read, status, note);
}

#[test]
fn reads_that_fail(rt: HostRuntime) {
    let fault = Status::ReadFault;
    let known = "read fault\n";
    assert_unread(&rt, ONE_WAIT, 65536, 0, fault, known);
    assert_unread(&rt, ONE_WAIT, 1, 40, fault, known);
    // The read after the end fails.
    assert_unread(&rt, ONE_WAIT, 65536, 1, fault, known);
    // A rejected line that was already read is reported, although the next read would fail.
    let back = Status::Trace {
        line: 3,
        cause: Cause::TimeBack,
    };
    assert_unread(
        &rt,
        REFUSED_IN_PREFIX,
        65536,
        1,
        back,
        "trace line 3: TimeBack\n",
    );
    // One byte after the end is enough for the error, so the next read isn't made.
    let refused = Status::Trace {
        line: 3,
        cause: Cause::AfterEnd,
    };
    assert_unread(
        &rt,
        AFTER_THE_END,
        1,
        25,
        refused,
        "trace line 3: AfterEnd\n",
    );
}

#[test]
fn writes_that_fail(rt: HostRuntime) {
    for write in &[0, 1, 5] {
        assert_prints_prefix(&rt, "stall t", ONE_WAIT, 7, *write, SUMS);
    }
    // A failed write to the note doesn't change the status.
    let failing = Failing {
        read: 0,
        write: NO_CALL,
        note: 1,
    };
    let ran = run_trace(&rt, "stall t", ONE_WAIT, 7, failing);
    let expected = (Status::ReadFault, "", "read fa");
    assert_equal!(rt; ran.results(), expected, "a note that fails");
}

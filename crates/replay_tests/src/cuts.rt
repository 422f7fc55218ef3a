//! Tests that each command rejects a truncated trace. A trace of one processor is truncated after
//! each of its bytes.

use crate::runs::{Host, assert_prints, assert_refused};
use psi_base::Cause;

/// A trace in which a group is removed and created again, and a waiting task moves into the new
/// group.
const TRACE: &str = "psitrace 1 cpus=1\n\
    0 fork 1 / 0\n\
    0 switch 0 1 idle\n\
    0 switch 0 0 iowait\n\
    1500000000 group /a\n\
    2500000000 rmgroup /a\n\
    3100000000 group /a\n\
    3100000000 move 1 /a\n\
    6000000000 end\n";

const COMMANDS: [&str; 3] = ["check t", "stall t", "replay t --report-s 2"];

/// Checks that each command rejects this prefix of the trace at line `line`, the first incomplete
/// line of the prefix.
fn assert_prefix_refused(rt: &impl Host, prefix: &[u8], line: u32) {
    let (cause, name) = if line == 1 {
        (Cause::BadHeader, "BadHeader")
    } else {
        (Cause::NoEnd, "NoEnd")
    };
    for command in &COMMANDS {
        assert_refused(rt, command, prefix, line, cause, name);
    }
}

#[test]
fn traces_cut_anywhere(rt: HostRuntime) {
    let known = "ok lines=9 events=8 end=6000000000\n";
    assert_prints(&rt, "check t", TRACE, 65536, known);
    let trace = TRACE.as_bytes();
    let mut line = 1u32;
    for length in 0..trace.len() {
        assert_prefix_refused(&rt, &trace[..length], line);
        if trace[length] == b'\n' {
            line = line.saturating_add(1);
        }
    }
}

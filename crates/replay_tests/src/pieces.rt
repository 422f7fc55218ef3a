//! Tests of `stall` and `check` on accepted traces. The trace is read, and the output is written,
//! in pieces of different sizes.

use crate::runs::{Host, assert_prints};
use std::process::Abort;

/// Traces, each followed by the outputs of `stall` and `check`. In the order of the traces:
///
/// - there is no task;
/// - a task waits for IO until the end;
/// - a task waits for IO only for a short time;
/// - one of two tasks waits for IO while the other runs;
/// - of two tasks, the running task is in a memory stall, so memory full holds;
/// - a task waits on one processor and wakes on another;
/// - of two tasks, the running task moves up to the root, and the ready task migrates to another
///   processor;
/// - a group is removed and created again, and a waiting task moves into the new group;
/// - tasks of two groups compete for one processor: the group of the ready task doesn't run, so CPU
///   full holds for it, but not for the root;
/// - groups are printed in the byte order of their paths, and removed groups aren't printed.
const TRACES: &str = "psitrace 1 cpus=1\n\
    5 end\n|\
    stall cpu=0 / 0 0 0 0 0 0 0\n|\
    ok lines=2 events=1 end=5\n~\
    psitrace 1 cpus=1\n\
    0 fork 1 / 0\n\
    0 switch 0 1 idle\n\
    0 switch 0 0 iowait\n\
    2000000000 end\n|\
    stall cpu=0 / 2000000000 2000000000 0 0 0 0 2000000000\n|\
    ok lines=5 events=4 end=2000000000\n~\
    psitrace 1 cpus=1\n\
    0 fork 1 / 0\n\
    0 switch 0 1 idle\n\
    0 switch 0 0 iowait\n\
    900000 wake 1 0\n\
    900000 switch 0 1 idle\n\
    900000 switch 0 0 sleep\n\
    2000000000 end\n|\
    stall cpu=0 / 900000 900000 0 0 0 0 900000\n|\
    ok lines=8 events=7 end=2000000000\n~\
    psitrace 1 cpus=1\n\
    0 fork 1 / 0\n\
    0 fork 2 / 0\n\
    0 switch 0 1 idle\n\
    1000000000 switch 0 2 iowait\n\
    1500000000 switch 0 0 sleep\n\
    2000000000 wake 1 0\n\
    3000000000 end\n|\
    stall cpu=0 / 1000000000 500000000 0 0 2000000000 1000000000 3000000000\n|\
    ok lines=8 events=7 end=3000000000\n~\
    psitrace 1 cpus=1\n\
    0 fork 1 / 0\n\
    0 fork 2 / 0\n\
    0 switch 0 1 idle\n\
    0 stall 1\n\
    1000000000 unstall 1\n\
    1000000000 end\n|\
    stall cpu=0 / 0 0 1000000000 1000000000 1000000000 0 1000000000\n|\
    ok lines=7 events=6 end=1000000000\n~\
    psitrace 1 cpus=2\n\
    0 fork 1 / 0\n\
    0 switch 0 1 idle\n\
    0 switch 0 0 iowait\n\
    2000000000 wake 1 1\n\
    4000000000 end\n|\
    stall cpu=0 / 2000000000 2000000000 0 0 0 0 2000000000\n\
    stall cpu=1 / 0 0 0 0 2000000000 2000000000 2000000000\n|\
    ok lines=6 events=5 end=4000000000\n~\
    psitrace 1 cpus=2\n\
    0 group /a\n\
    0 fork 1 /a 0\n\
    0 fork 2 / 0\n\
    0 switch 0 1 idle\n\
    1000000000 move 1 /\n\
    2000000000 migrate 2 1\n\
    3000000000 end\n|\
    stall cpu=0 / 0 0 0 0 2000000000 0 3000000000\n\
    stall cpu=0 /a 0 0 0 0 0 0 1000000000\n\
    stall cpu=1 / 0 0 0 0 1000000000 1000000000 1000000000\n\
    stall cpu=1 /a 0 0 0 0 0 0 0\n|\
    ok lines=8 events=7 end=3000000000\n~\
    psitrace 1 cpus=1\n\
    0 fork 1 / 0\n\
    0 switch 0 1 idle\n\
    0 switch 0 0 iowait\n\
    1500000000 group /a\n\
    2500000000 rmgroup /a\n\
    3100000000 group /a\n\
    3100000000 move 1 /a\n\
    6000000000 end\n|\
    stall cpu=0 / 6000000000 6000000000 0 0 0 0 6000000000\n\
    stall cpu=0 /a 2900000000 2900000000 0 0 0 0 2900000000\n|\
    ok lines=9 events=8 end=6000000000\n~\
    psitrace 1 cpus=1\n\
    0 group /a\n\
    0 group /b\n\
    0 fork 1 /a 0\n\
    0 fork 2 /b 0\n\
    0 switch 0 1 idle\n\
    1000 switch 0 2 preempt\n\
    3000 end\n|\
    stall cpu=0 / 0 0 0 0 3000 0 3000\n\
    stall cpu=0 /a 0 0 0 0 2000 2000 3000\n\
    stall cpu=0 /b 0 0 0 0 1000 1000 3000\n|\
    ok lines=8 events=7 end=3000\n~\
    psitrace 1 cpus=1\n\
    0 group /b\n\
    0 group /a\n\
    0 group /c\n\
    0 group /a/b\n\
    0 group /a-b\n\
    0 rmgroup /c\n\
    0 mem /a 1 2 3\n\
    0 host 1 2 3\n\
    0 prefer /a avoid\n\
    0 trigger /a io some 1 500000\n\
    7 end\n|\
    stall cpu=0 / 0 0 0 0 0 0 0\n\
    stall cpu=0 /a 0 0 0 0 0 0 0\n\
    stall cpu=0 /a-b 0 0 0 0 0 0 0\n\
    stall cpu=0 /a/b 0 0 0 0 0 0 0\n\
    stall cpu=0 /b 0 0 0 0 0 0 0\n|\
    ok lines=12 events=11 end=7\n";

/// Splits a row after its first part.
fn part_of<'a>(rt: &impl Abort, row: &'a str) -> (&'a str, &'a str) {
    row.split_once('|').expect(rt, "a trace and two outputs")
}

/// Checks that `stall` and `check` print the outputs in a row for its trace. The shelf and the
/// sinks transfer at most `most` bytes per call.
fn assert_row(rt: &impl Host, row: &str, most: usize) {
    let (trace, outputs) = part_of(rt, row);
    let (sums, line) = part_of(rt, outputs);
    assert_prints(rt, "stall t", trace, most, sums);
    assert_prints(rt, "check t", trace, most, line);
}

#[test]
fn traces_in_pieces(rt: HostRuntime) {
    for row in TRACES.split('~') {
        for most in &[1, 7, 65536] {
            assert_row(&rt, row, *most);
        }
    }
}

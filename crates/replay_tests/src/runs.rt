//! Helpers for the tests: run a command line in memory, with one trace and at most one rules file
//! and one drop-in file, and check the run. A test aborts if memory runs out.

use outside::{Gate, OpenGate};
use psi_base::Cause;
use replay_core::{Status, run};
use std::process::Abort;
use std::thread::Threads;
use test_support::{
    Failing, NO_FAILURE, Streams, as_text, assert_equal, file_of, first_bytes, words_of,
};

/// The capacity (bytes) of each sink.
const ROOM: usize = 4096;

/// A trace of one task that waits for IO until the end.
pub const ONE_WAIT: &str = "psitrace 1 cpus=1\n\
    0 fork 1 / 0\n\
    0 switch 0 1 idle\n\
    0 switch 0 0 iowait\n\
    2000000000 end\n";

/// What a test needs from its runtime: threads, memory, and a way to abort.
pub trait Host: Threads + AllocGlobal + Sync + Abort {}

impl<R: Threads + AllocGlobal + Sync + Abort> Host for R {}

/// The results of a run of psi_oomd.
pub type Ran = test_support::Ran<Status>;

/// The files on the shelf: a trace named `t`, rules named `r`, and a drop-in file named `d`.
#[derive(Clone, Copy)]
pub struct Files<'a> {
    pub trace: &'a [u8],
    pub rules: &'a str,
    pub drop_in: &'a str,
}

/// Returns files with this trace, and with empty rules and drop-in files.
pub fn trace_alone(trace: &[u8]) -> Files<'_> {
    Files {
        trace,
        rules: "",
        drop_in: "",
    }
}

/// Makes the shelf with these files, the output and the note.
fn streams_of(rt: &impl Host, files: Files, most: usize, failing: Failing) -> Streams {
    let alloc = rt.alloc();
    let held = vec![in alloc;
        file_of(alloc, "t", files.trace).expect(rt, "memory"),
        file_of(alloc, "r", files.rules.as_bytes()).expect(rt, "memory"),
        file_of(alloc, "d", files.drop_in.as_bytes()).expect(rt, "memory"),
    ];
    let held = held.expect(rt, "memory");
    Streams::make(alloc, held, ROOM, most, failing).expect(rt, "memory")
}

/// Runs a command line with these files, failing calls, and a gate that may block threads. The
/// shelf and both sinks transfer at most `most` bytes per call.
fn run_over(
    rt: &impl Host,
    line: &str,
    files: Files,
    most: usize,
    failing: Failing,
    gate: &impl Gate,
) -> Ran {
    let words = words_of(rt.alloc(), line, ' ').expect(rt, "memory");
    let mut streams = streams_of(rt, files, most, failing);
    let status = run(
        rt,
        rt.alloc(),
        &words,
        &mut streams.shelf,
        &mut streams.output,
        &mut streams.note,
        gate,
    );
    streams.into_ran(status)
}

/// Runs a command line with these files and failing calls.
pub fn run_files(rt: &impl Host, line: &str, files: Files, most: usize, failing: Failing) -> Ran {
    run_over(rt, line, files, most, failing, &OpenGate)
}

/// Runs a command line with this trace and a gate that may block threads, without rules or failing
/// calls.
pub fn run_gated(rt: &impl Host, line: &str, trace: &str, gate: &impl Gate) -> Ran {
    run_over(
        rt,
        line,
        trace_alone(trace.as_bytes()),
        65536,
        NO_FAILURE,
        gate,
    )
}

/// Runs a command line with this trace, without rules or failing calls.
pub fn run_open(rt: &impl Host, line: &str, trace: &str) -> Ran {
    run_gated(rt, line, trace, &OpenGate)
}

/// Runs a command line with this trace and failing calls, without rules.
pub fn run_trace(rt: &impl Host, line: &str, trace: &str, most: usize, failing: Failing) -> Ran {
    run_files(rt, line, trace_alone(trace.as_bytes()), most, failing)
}

/// Checks that a command line prints exactly this output for this trace if no call fails.
pub fn assert_prints(rt: &impl Host, line: &str, trace: &str, most: usize, output: &str) {
    let ran = run_trace(rt, line, trace, most, NO_FAILURE);
    assert_equal!(rt; ran.results(), (Status::Done, output, ""), (line, most));
}

/// Checks that a command line prints nothing and ends with this status and note if read number
/// `read` fails.
pub fn assert_prints_nothing(
    rt: &impl Host,
    line: &str,
    trace: &str,
    most: usize,
    read: u64,
    status: Status,
    note: &str,
) {
    let ran = run_trace(rt, line, trace, most, Failing { read, ..NO_FAILURE });
    assert_equal!(rt; ran.results(), (status, "", note), (line, most, read));
}

/// Checks that a command line prints a proper prefix of this output if write number `write` fails.
pub fn assert_prints_prefix(
    rt: &impl Host,
    line: &str,
    trace: &str,
    most: usize,
    write: u64,
    output: &str,
) {
    let ran = run_trace(
        rt,
        line,
        trace,
        most,
        Failing {
            write,
            ..NO_FAILURE
        },
    );
    let length = ran.output.len().min(output.len().saturating_sub(1));
    let prefix = as_text(first_bytes(output.as_bytes(), length));
    let expected = (Status::WriteFault, prefix, "write fault\n");
    assert_equal!(rt; ran.results(), expected, (line, most, write));
}

/// Checks that this trace is rejected at line `number` for this cause, and that the note names the
/// cause.
pub fn assert_refused(
    rt: &impl Host,
    line: &str,
    trace: &[u8],
    number: u32,
    cause: Cause,
    name: &str,
) {
    let ran = run_files(rt, line, trace_alone(trace), 65536, NO_FAILURE);
    let status = Status::Trace {
        line: number,
        cause,
    };
    let note = format!(in rt.alloc(); "trace line {number}: {name}\n");
    let note = note.expect(rt, "memory");
    assert_equal!(rt; ran.results(), (status, "", note.as_str()), (line, trace.len()));
}

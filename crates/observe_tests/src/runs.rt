//! Helpers for the tests: run a command line of psi_observe with one trace in memory, and check the
//! run. A test aborts if memory runs out.

use observe_core::{ObserveStatus, observe};
use outside::{Gate, OpenGate};
use std::process::Abort;
use std::sync::Wait;
use std::thread::Threads;
use test_support::{Failing, NO_FAILURE, Streams, assert_equal, file_of, words_of};

/// What a test needs from its runtime: threads that can wait, memory, and a way to abort.
pub trait Host: Threads + Wait + AllocGlobal + Sync + Abort {}

impl<R: Threads + Wait + AllocGlobal + Sync + Abort> Host for R {}

/// The results of a run of psi_observe.
pub type Ran = test_support::Ran<ObserveStatus>;

/// The capacity (bytes) of each sink.
const ROOM: usize = 1 << 20;

/// Runs a command line with this trace as the file `t`, with failing calls and a gate that may
/// block threads. The shelf and both sinks transfer at most `most` bytes per call.
fn run_over(
    rt: &impl Host,
    line: &str,
    trace: &str,
    most: usize,
    failing: Failing,
    gate: &impl Gate,
) -> Ran {
    let alloc = rt.alloc();
    let words = words_of(alloc, line, ' ').expect(rt, "memory");
    let file = file_of(alloc, "t", trace.as_bytes()).expect(rt, "memory");
    let files = vec![in alloc; file].expect(rt, "memory");
    let mut streams = Streams::make(alloc, files, ROOM, most, failing).expect(rt, "memory");
    let status = observe(
        rt,
        alloc,
        &words,
        &mut streams.shelf,
        &mut streams.output,
        &mut streams.note,
        gate,
    );
    streams.into_ran(status)
}

/// Runs a command line with this trace and a gate that may block threads.
pub fn run_gated(rt: &impl Host, line: &str, trace: &str, gate: &impl Gate) -> Ran {
    run_over(rt, line, trace, 65536, NO_FAILURE, gate)
}

/// Runs a command line with this trace and failing calls.
pub fn run_failing(rt: &impl Host, line: &str, trace: &str, most: usize, failing: Failing) -> Ran {
    run_over(rt, line, trace, most, failing, &OpenGate)
}

/// Runs a command line with this trace.
pub fn run_open(rt: &impl Host, line: &str, trace: &str) -> Ran {
    run_failing(rt, line, trace, 65536, NO_FAILURE)
}

/// Checks that a run succeeded without a note, and that its output ends with `end`.
pub fn assert_ends(rt: &impl Abort, line: &str, ran: &Ran, end: &str) {
    assert_equal!(rt; ran.ending(end.len()), (ObserveStatus::Done, end, ""), line);
}

/// Checks that a command line prints exactly this output for this trace.
pub fn assert_prints(rt: &impl Host, line: &str, trace: &str, output: &str) {
    let ran = run_open(rt, line, trace);
    assert_equal!(rt; ran.results(), (ObserveStatus::Done, output, ""), line);
}

/// Checks that a run of this command line on this trace returns this status, writes this note, and
/// prints no output.
pub fn assert_prints_nothing(
    rt: &impl Host,
    line: &str,
    trace: &str,
    status: ObserveStatus,
    note: &str,
) {
    let ran = run_open(rt, line, trace);
    assert_equal!(rt; ran.results(), (status, "", note), line);
}

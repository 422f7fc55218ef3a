//! Tests of replays in which each read and each write fails in turn. The traces have one kill and
//! one live sample, and are read in small pieces.

use crate::gates::LIVE_LINES;
use crate::replays::REPLAYED;
use crate::runs::{Files, Host, ONE_WAIT, Ran, run_files, trace_alone};
use replay_core::Status;
use test_support::{
    Failing, NO_CALL, NO_FAILURE, ONE_PROCESSOR, as_text, assert_equal, first_bytes, last_bytes,
};

/// The maximum number of bytes per read or write.
const MOST: usize = 7;

/// A trace with a group that always uses more memory than the rules allow. The first evaluation is
/// at 5 s.
const LOADED: &str = "psitrace 1 cpus=1\n\
    0 group /s\n\
    0 group /s/a\n\
    0 fork 1 /s/a 0\n\
    0 mem /s/a 100 0 0\n\
    22000000000 end\n";

/// Rules that kill the group after 15 seconds above the limit.
const RULES: &str = "{\"rulesets\":[{\"name\":\"r\",\"detectors\":[[\"g\",\
    {\"name\":\"memory_above\",\"args\":{\"cgroup\":\"s/a\",\"threshold\":\"50\",\"duration\":\"15\"}}]],\
    \"actions\":[{\"name\":\"kill_by_memory_size_or_growth\",\"args\":{\"cgroup\":\"s/*\"}}]}]}";

/// A replay, and its possible outputs if no call fails.
#[derive(Clone, Copy)]
struct Replay<'a> {
    line: &'a str,
    files: Files<'a>,
    outputs: &'a [Vec<u8>],
}

impl Replay<'_> {
    /// Returns whether a run succeeded and printed one of the possible outputs completely.
    fn is_whole(&self, ran: &Ran) -> bool {
        ran.status == Status::Done && ran.note.is_empty() && self.outputs.contains(&ran.output)
    }

    /// Returns whether a run ended with a failed write, and printed a proper prefix of a possible
    /// output.
    fn is_prefix_of(&self, ran: &Ran) -> bool {
        let is_reported = ran.note.as_slice() == b"write fault\n".as_slice();
        let is_prefix_of = self.outputs.iter().any(|whole| ran.output.len() < whole.len()
            && whole.starts_with(&ran.output));
        ran.status == Status::WriteFault && is_reported && is_prefix_of
    }
}

/// Returns whether a run ended with a failed read, and printed nothing.
fn is_unread(ran: &Ran) -> bool {
    let is_reported = ran.note.as_slice() == b"read fault\n".as_slice();
    ran.status == Status::ReadFault && is_reported && ran.output.is_empty()
}

/// Runs a replay in which read number `read` fails. Returns true if the run makes fewer reads and
/// therefore succeeds. Otherwise checks that the run ends with the failed read, and returns false.
fn assert_read_fails(rt: &impl Host, replay: &Replay, read: u64) -> bool {
    let failing = Failing { read, ..NO_FAILURE };
    let ran = run_files(rt, replay.line, replay.files, MOST, failing);
    let is_whole = replay.is_whole(&ran);
    assert!(rt;
        is_whole || is_unread(&ran),
        "{}, read {read}, expected: the whole output or a read fault, actual: {ran}",
        replay.line
    );
    is_whole
}

/// Runs a replay in which write number `write` fails. Returns true if the run makes fewer writes
/// and therefore succeeds. Otherwise checks that the run ends with the failed write, and returns
/// false.
fn assert_write_fails(rt: &impl Host, replay: &Replay, write: u64) -> bool {
    let failing = Failing {
        write,
        ..NO_FAILURE
    };
    let ran = run_files(rt, replay.line, replay.files, MOST, failing);
    let is_whole = replay.is_whole(&ran);
    assert!(rt;
        is_whole || replay.is_prefix_of(&ran),
        "{}, write {write}, expected: the whole output or a write fault, actual: {ran}",
        replay.line
    );
    is_whole
}

/// Returns the number of reads of a replay. Checks for each read that the run fails if this read
/// fails.
fn count_reads(rt: &impl Host, replay: &Replay) -> u64 {
    for read in 0..NO_CALL {
        if assert_read_fails(rt, replay, read) {
            return read;
        }
    }
    panic!(rt; "{}: each read fails", replay.line)
}

/// Returns the number of writes of a replay. Checks for each write that the run fails if this write
/// fails.
fn count_writes(rt: &impl Host, replay: &Replay) -> u64 {
    for write in 0..NO_CALL {
        if assert_write_fails(rt, replay, write) {
            return write;
        }
    }
    panic!(rt; "{}: each write fails", replay.line)
}

/// Checks that a replay makes at least as many calls as these bytes require.
fn assert_enough(rt: &impl Host, line: &str, calls: u64, bytes: usize) {
    assert!(rt;
        (bytes / MOST) as u64 <= calls,
        "{line}: {bytes} bytes by {calls} calls"
    );
}

/// Checks a replay in which no call fails, and in which each read and each write fails in turn.
fn assert_each_call_fails(rt: &impl Host, line: &str, files: Files, outputs: &[Vec<u8>]) {
    let replay = Replay {
        line,
        files,
        outputs,
    };
    let printed = outputs.first().map_or(0, |output| output.len());
    assert_enough(rt, line, count_reads(rt, &replay), files.trace.len());
    assert_enough(rt, line, count_writes(rt, &replay), printed);
}

/// Returns the output of a command line if no call fails.
fn printed(rt: &impl Host, line: &str, files: Files) -> Vec<u8> {
    run_files(rt, line, files, 65536, NO_FAILURE).output
}

/// Returns a list that contains only `output`.
fn one_output(rt: &impl Host, output: Vec<u8>) -> Vec<Vec<u8>> {
    vec![in rt.alloc(); output].expect(rt, "memory")
}

/// Returns, for each possible live line, that line followed by the output `plain`.
fn with_live_lines(rt: &impl Host, plain: &[u8]) -> Vec<Vec<u8>> {
    let mut outputs = Vec::new(rt.alloc());
    for live in &LIVE_LINES {
        let output = [live.as_bytes(), b"\n", plain].concat(rt.alloc());
        let output = output.expect(rt, "memory");
        outputs.push(output).expect(rt, "memory");
    }
    outputs
}

#[test]
fn one_wait(rt: HostRuntime) {
    let output = Vec::from_slice(rt.alloc(), REPLAYED.as_bytes());
    let outputs = one_output(&rt, output.expect(&rt, "memory"));
    assert_each_call_fails(&rt, "replay t", trace_alone(ONE_WAIT.as_bytes()), &outputs);
}

/// The rules file and the trace are read from the same shelf, the rules file first.
#[test]
fn one_kill(rt: HostRuntime) {
    let line = "replay t --rules r --tick-ms 1000 --report-s 0";
    let files = Files {
        rules: RULES,
        ..trace_alone(LOADED.as_bytes())
    };
    let whole = printed(&rt, line, files);
    let first = "kill 20000000000 ruleset=0 action=0 /s/a\nreport 22000000000 / io\n";
    let beginning = as_text(first_bytes(&whole, first.len()));
    assert_equal!(rt; beginning, first, "the beginning");
    let last = "\nend 22000000000 ticks=22 events=0 kills=1\n";
    assert_equal!(rt; as_text(last_bytes(&whole, last.len())), last, "the end");
    assert_each_call_fails(&rt, line, files, &one_output(&rt, whole));
}

/// The live line may show the state at the previous tick or after any later change, and may differ
/// between runs.
#[test]
fn one_live_line(rt: HostRuntime) {
    let files = trace_alone(ONE_PROCESSOR.as_bytes());
    let plain = printed(&rt, "replay t", files);
    let last = "\nend 2000000000 ticks=1 events=0 kills=0\n";
    assert_equal!(rt; as_text(last_bytes(&plain, last.len())), last, "the end");
    let outputs = with_live_lines(&rt, &plain);
    assert_each_call_fails(&rt, "replay t --live /", files, &outputs);
}

//! Tests of `whatif`, which replays a trace without the victims of kills: the kills that it prints,
//! and its failures.

use crate::runs::{Files, Host, Ran, run_files};
use replay_core::Status;
use test_support::{Failing, NO_FAILURE, as_text, assert_equal};

const WHATIF: &str = "whatif t --rules r --tick-ms 1000 --report-s 0";

/// Rules that kill a child of `/s` whenever there is one, but not during the post-action delay of
/// 15 s after a kill. The victim is the child with the most memory, and among equal children the
/// one with the first path in byte order.
const KILLS: &str =
    r#"{"rulesets":[{"name":"r","detectors":[["g",{"name":"exists","args":{"cgroup":"s/*"}}]],"actions":[{"name":"kill_by_memory_size_or_growth","args":{"cgroup":"s/*"}}]}]}"#;

/// Rules that kill `/s/a` and then `/s/b` at one evaluation.
const BOTH: &str =
    r#"{"rulesets":[{"name":"r","detectors":[["g",{"name":"exists","args":{"cgroup":"s/*"}}]],"actions":[{"name":"kill_by_memory_size_or_growth","args":{"cgroup":"s/a","always_continue":"true"}},{"name":"kill_by_memory_size_or_growth","args":{"cgroup":"s/b"}}]}]}"#;

/// A trace with one group of one task.
const ONE: &str = "psitrace 1 cpus=1\n\
    0 group /s\n\
    0 group /s/a\n\
    0 fork 1 /s/a 0\n\
    36000000000 end\n";

/// A trace with two groups of one task each.
const TWO: &str = "psitrace 1 cpus=1\n\
    0 group /s\n\
    0 group /s/a\n\
    0 fork 1 /s/a 0\n\
    0 group /s/b\n\
    0 fork 2 /s/b 0\n\
    36000000000 end\n";

/// A trace in which the victim forks another task after the kill. The new task isn't removed, and
/// may be killed later.
const LATER: &str = "psitrace 1 cpus=1\n\
    0 group /s\n\
    0 group /s/a\n\
    0 fork 1 /s/a 0\n\
    0 switch 0 1 idle\n\
    6000000000 fork 3 /s/a 0\n\
    7000000000 switch 0 3 exit\n\
    36000000000 end\n";

/// A trace that ends at the first evaluation.
const AT_END: &str = "psitrace 1 cpus=1\n\
    0 group /s\n\
    0 group /s/a\n\
    0 fork 1 /s/a 0\n\
    5000000000 end\n";

/// Runs a command line with this trace, these rules and failing calls.
fn run_over(rt: &impl Host, line: &str, trace: &str, rules: &str, failing: Failing) -> Ran {
    let files = Files {
        trace: trace.as_bytes(),
        rules,
        drop_in: r#"{"rulesets":[]}"#,
    };
    run_files(rt, line, files, 65536, failing)
}

/// Returns whether an output begins with the lines `kills`, has no other kill, and ends with the
/// line `end`.
fn has_kills(output: &[u8], kills: &str, end: &str) -> bool {
    let others = output.strip_prefix(kills.as_bytes());
    let others = others.and_then(|others| str::from_utf8(others).ok());
    let others = others.unwrap_or("kill ");
    let no_more = others.lines().all(|line| !line.starts_with("kill "));
    no_more && output.ends_with(end.as_bytes())
}

/// Checks that the output of `whatif` begins with the lines `kills`, has no other kill, and ends
/// with the line `end`.
fn assert_shows(rt: &impl Host, trace: &str, rules: &str, kills: &str, end: &str) {
    let ran = run_over(rt, WHATIF, trace, rules, NO_FAILURE);
    let is_done = ran.status == Status::Done && ran.note.is_empty();
    let is_reported = has_kills(&ran.output, kills, end);
    assert!(rt;
        is_done && is_reported,
        "expected: {kills:?} to {end:?}, actual: {ran}"
    );
}

#[test]
fn one_group(rt: HostRuntime) {
    let kills = "kill 5000000000 ruleset=0 action=0 /s/a\n";
    let end = "end 36000000000 ticks=36 events=0 kills=1\n";
    assert_shows(&rt, ONE, KILLS, kills, end);
}

#[test]
fn one_after_the_other(rt: HostRuntime) {
    let kills = "kill 5000000000 ruleset=0 action=0 /s/a\n\
        kill 20000000000 ruleset=0 action=0 /s/b\n";
    let end = "end 36000000000 ticks=36 events=0 kills=2\n";
    assert_shows(&rt, TWO, KILLS, kills, end);
}

#[test]
fn two_in_one_tick(rt: HostRuntime) {
    let kills = "kill 5000000000 ruleset=0 action=0 /s/a\n\
        kill 5000000000 ruleset=0 action=1 /s/b\n";
    let end = "end 36000000000 ticks=36 events=0 kills=2\n";
    assert_shows(&rt, TWO, BOTH, kills, end);
}

#[test]
fn forked_later(rt: HostRuntime) {
    let kills = "kill 5000000000 ruleset=0 action=0 /s/a\n\
        kill 20000000000 ruleset=0 action=0 /s/a\n";
    let end = "end 36000000000 ticks=36 events=0 kills=2\n";
    assert_shows(&rt, LATER, KILLS, kills, end);
}

#[test]
fn at_the_last_tick(rt: HostRuntime) {
    let kills = "kill 5000000000 ruleset=0 action=0 /s/a\n";
    let end = "end 5000000000 ticks=5 events=0 kills=1\n";
    assert_shows(&rt, AT_END, KILLS, kills, end);
}

#[test]
fn as_replay_without_kills(rt: HostRuntime) {
    let replay = "replay t --rules r --tick-ms 1000 --report-s 0 --interval-s 3600";
    let whatif = "whatif t --rules r --tick-ms 1000 --report-s 0 --interval-s 3600 --drop-in d";
    let wanted = run_over(&rt, replay, TWO, KILLS, NO_FAILURE);
    let ran = run_over(&rt, whatif, TWO, KILLS, NO_FAILURE);
    let output = as_text(&wanted.output);
    assert_equal!(rt; ran.results(), (Status::Done, output, ""), whatif);
    assert!(rt; !ran.output.is_empty(), "whatif prints nothing");
}

/// Checks that `whatif` prints nothing if a call fails, and ends with this status and note.
fn assert_fault(rt: &impl Host, failing: Failing, status: Status, note: &str) {
    let ran = run_over(rt, WHATIF, ONE, KILLS, failing);
    assert_equal!(rt; ran.results(), (status, "", note), failing);
}

#[test]
fn faults(rt: HostRuntime) {
    for read in 0..2 {
        let failing = Failing { read, ..NO_FAILURE };
        assert_fault(&rt, failing, Status::ReadFault, "read fault\n");
    }
    let failing = Failing {
        write: 0,
        ..NO_FAILURE
    };
    assert_fault(&rt, failing, Status::WriteFault, "write fault\n");
}

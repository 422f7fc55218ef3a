//! Tests of drop-in files that are applied to rules: their effects, and the messages if they are
//! rejected. A part is a ruleset of a drop-in file.

use crate::runs::{Files, Host, Ran, run_files};
use replay_core::Status;
use std::process::Abort;
use test_support::{Failing, NO_FAILURE, assert_equal};

/// A trace with a group of one task. A kill doesn't change the trace, so the rules `KILLS` kill the
/// group again each time their post-action delay has passed.
const LIVING: &str = "psitrace 1 cpus=1\n\
    0 group /s\n\
    0 group /s/a\n\
    0 fork 1 /s/a 0\n\
    36000000000 end\n";

const KILLS: &str =
    r#"{"rulesets":[{"name":"r","detectors":[["g",{"name":"exists","args":{"cgroup":"s/*"}}]],"actions":[{"name":"kill_by_memory_size_or_growth","args":{"cgroup":"s/*"}}]}]}"#;

/// Two rulesets with the same name.
const TWICE: &str =
    r#"{"rulesets":[{"name":"r","detectors":[["g",{"name":"exists","args":{"cgroup":"s/*"}}]],"actions":[{"name":"kill_by_memory_size_or_growth","args":{"cgroup":"s/*"}}]},
    {"name":"r","detectors":[["g",{"name":"exists","args":{"cgroup":"s/*"}}]],"actions":[{"name":"kill_by_memory_size_or_growth","args":{"cgroup":"s/*"}}]}]}"#;

const NEVER: &str =
    r#"{"name":"r","detectors":[["h",{"name":"swap_free","args":{"threshold_pct":"5"}}]]}"#;

const ALWAYS: &str =
    r#"{"name":"r","detectors":[["h",{"name":"exists","args":{"cgroup":"s/a"}}]]}"#;

const NEVER_FOR_Q: &str =
    r#"{"name":"q","detectors":[["h",{"name":"swap_free","args":{"threshold_pct":"5"}}]]}"#;

const NEITHER: &str = r#"{"name":"r","post_action_delay":"1"}"#;

const REPLAY: &str = "replay t --rules r --drop-in d --tick-ms 1000 --report-s 0";

/// The rules `KILLS` as `rules` prints them: one line.
const PRINTED: &str =
    "{\"rulesets\":[{\"actions\":[{\"args\":{\"always_continue\":\"false\",\"cgroup\":\"s/*\",\"growing_size_percentile\":\"80\",\"min_growth_ratio\":\"1.250\",\"post_action_delay\":\"15\",\"recursive\":\"false\",\"size_threshold\":\"50\"},\"name\":\"kill_by_memory_size_or_growth\"}],\"detectors\":[[\"g\",{\"args\":{\"cgroup\":\"s/*\",\"negate\":\"false\"},\"name\":\"exists\"}]],\"name\":\"r\"}]}\n";

/// The last line of a run with three kills, and of a run without kills.
const THREE: &str = "end 36000000000 ticks=36 events=0 kills=3\n";

const NONE_KILLED: &str = "end 36000000000 ticks=36 events=0 kills=0\n";

/// Makes a drop-in file with these parts.
fn drop_in_of(rt: &impl Host, parts: &[&str]) -> String {
    let parts = parts.join(rt.alloc(), ",").expect(rt, "memory");
    format!(in rt.alloc(); "{{\"rulesets\":[{parts}]}}").expect(rt, "memory")
}

/// Runs a command line with the trace `LIVING`, these rules, and a drop-in file with these parts.
fn run_over(rt: &impl Host, line: &str, rules: &str, parts: &[&str]) -> Ran {
    let drop_in = drop_in_of(rt, parts);
    let files = Files {
        trace: LIVING.as_bytes(),
        rules,
        drop_in: &drop_in,
    };
    run_files(rt, line, files, 65536, NO_FAILURE)
}

/// Checks that a run succeeded, and that its output begins with `first` and ends with `last`.
fn assert_done(rt: &impl Abort, ran: &Ran, first: &str, last: &str) {
    assert_equal!(rt; ran.beginning(first.len()), (Status::Done, first, ""), "the beginning");
    assert_equal!(rt; ran.ending(last.len()), (Status::Done, last, ""), "the end");
}

/// Checks that a run ended with this exit code and this note, and printed nothing.
fn assert_reported(rt: &impl Abort, line: &str, ran: &Ran, code: u8, note: &str) {
    let (status, output, printed) = ran.results();
    assert_equal!(rt; (status.code(), output, printed), (code, "", note), line);
}

/// Checks the last line of a replay with the rules `KILLS` and these drop-in parts.
fn assert_replays(rt: &impl Host, parts: &[&str], last: &str) {
    assert_done(rt, &run_over(rt, REPLAY, KILLS, parts), "", last);
}

#[test]
fn parts_replace(rt: HostRuntime) {
    // A drop-in file without parts changes nothing.
    assert_replays(&rt, &[], THREE);
    assert_replays(&rt, &[NEVER], NONE_KILLED);
    // Two parts for one ruleset are applied in order.
    assert_replays(&rt, &[ALWAYS, NEVER], NONE_KILLED);
    assert_replays(&rt, &[NEVER, ALWAYS], THREE);
    // If two rulesets have the same name, the part applies to the first; the second one still
    // kills.
    let ran = run_over(&rt, REPLAY, TWICE, &[NEVER]);
    let first = "kill 5000000000 ruleset=1 action=0 /s/a\n";
    assert_done(&rt, &ran, first, THREE);
}

/// Checks that `replay` and `rules` both reject these drop-in parts with this exit code and note.
fn assert_refused(rt: &impl Host, rules: &str, parts: &[&str], code: u8, note: &str) {
    for line in &[REPLAY, "rules r --drop-in d"] {
        assert_reported(rt, line, &run_over(rt, line, rules, parts), code, note);
    }
}

/// Checks that `replay` and `rules` both reject these drop-in parts for the rules `KILLS`. The note
/// names the part and the error.
fn assert_parts_refused(rt: &impl Host, parts: &[&str], note: &str) {
    assert_refused(rt, KILLS, parts, 9, note);
}

#[test]
fn refused_parts(rt: HostRuntime) {
    let unknown = "drop-in ruleset 0: UnknownRule\n";
    assert_parts_refused(&rt, &[NEVER_FOR_Q], unknown);
    assert_parts_refused(&rt, &[NEVER, NEITHER], "drop-in ruleset 1: NoParts\n");
    // The first part is checked completely before the second part.
    assert_parts_refused(&rt, &[NEVER_FOR_Q, NEITHER], unknown);
    // A malformed part is reported before errors in other parts.
    assert_parts_refused(&rt, &[NEITHER, "1"], "drop-in ruleset 1: WrongKind\n");
    assert_parts_refused(&rt, &["{"], "drop-in: BadJson\n");
    // An error in the rules file is reported before any error in the drop-in file.
    assert_refused(&rt, "[]", &["{"], 3, "rules: WrongKind\n");
}

/// Each row has a command line, and its exit code and note if the drop-in file is faulty.
const ORDER: [(&str, u8, &str); 6] = [
    (
        "replay u --rules r --drop-in d",
        9,
        "drop-in ruleset 0: UnknownRule\n",
    ),
    ("replay u --rules r --drop-in v", 4, "no file: v\n"),
    ("replay u --rules w --drop-in v", 4, "no file: w\n"),
    ("replay u --rules r", 4, "no file: u\n"),
    ("rules r --drop-in v", 4, "no file: v\n"),
    ("rules w --drop-in v", 4, "no file: w\n"),
];

#[test]
fn order_of_files(rt: HostRuntime) {
    for (line, code, note) in &ORDER {
        let ran = run_over(&rt, line, KILLS, &[NEVER_FOR_Q]);
        assert_reported(&rt, line, &ran, *code, note);
    }
}

/// Files with the rules `KILLS`, and with a drop-in file that has no parts.
const RULES_ALONE: Files = Files {
    trace: b"",
    rules: KILLS,
    drop_in: r#"{"rulesets":[]}"#,
};

/// Checks the exit code and the note of `rules` if one call fails.
fn assert_fault(rt: &impl Host, line: &str, failing: Failing, code: u8, note: &str) {
    let ran = run_files(rt, line, RULES_ALONE, 65536, failing);
    assert_reported(rt, line, &ran, code, note);
}

/// Checks that `rules` prints one line, and that the failure of each single call is reported.
#[test]
fn printed_rules(rt: HostRuntime) {
    for line in &["rules r", "rules r --drop-in d"] {
        let ran = run_files(&rt, line, RULES_ALONE, 65536, NO_FAILURE);
        assert_equal!(rt; ran.results(), (Status::Done, PRINTED, ""), *line);
    }
    // Each file takes two reads: the first returns its bytes, and the second finds its end.
    for read in 0..4 {
        let failing = Failing { read, ..NO_FAILURE };
        assert_fault(&rt, "rules r --drop-in d", failing, 5, "read fault\n");
    }
    let failing = Failing {
        write: 0,
        ..NO_FAILURE
    };
    assert_fault(&rt, "rules r", failing, 6, "write fault\n");
}

//! Tests of traces at their limits, and one beyond each limit. The limits of event lines are tested
//! with the built program, the limits of a rules file in rule_tests.

use crate::runs::{Host, assert_prints, assert_refused};
use psi_base::Cause;
use std::process::Abort;

const HEADER: &str = "psitrace 1 cpus=1\n";

/// Appends `piece` to a text.
fn push(rt: &impl Abort, text: &mut String, piece: &str) {
    text.push_str(piece).expect(rt, "memory");
}

/// Makes a growable text that begins with `prefix`.
fn text_of(rt: &impl Host, prefix: &str) -> String {
    String::from_str(rt.alloc(), prefix).expect(rt, "memory")
}

/// Makes a text of `prefix` and `times` copies of `piece`.
fn repeated(rt: &impl Host, prefix: &str, piece: &str, times: usize) -> String {
    let mut text = text_of(rt, prefix);
    for _ in 0..times {
        push(rt, &mut text, piece);
    }
    text
}

/// Checks that `check` accepts these lines, followed by an end line, and prints `known`.
fn assert_accepted(rt: &impl Host, lines: &str, known: &str) {
    let trace = repeated(rt, lines, "0 end\n", 1);
    assert_prints(rt, "check t", &trace, 65536, known);
}

/// Checks that `check` rejects line `number` for this cause.
fn assert_line_refused(rt: &impl Host, lines: &str, number: u32, cause: Cause, name: &str) {
    assert_refused(rt, "check t", lines.as_bytes(), number, cause, name);
}

#[test]
fn groups(rt: HostRuntime) {
    let mut lines = text_of(&rt, HEADER);
    for number in 0..1023u32 {
        write!(lines, "0 group /{number}\n").expect(&rt, "memory");
    }
    assert_accepted(&rt, &lines, "ok lines=1025 events=1024 end=0\n");
    push(&rt, &mut lines, "0 group /more\n");
    assert_line_refused(&rt, &lines, 1025, Cause::TooManyGroups, "TooManyGroups");
}

#[test]
fn components_of_a_path(rt: HostRuntime) {
    let mut lines = text_of(&rt, HEADER);
    let mut path = String::new(rt.alloc());
    for _ in 0..32 {
        push(&rt, &mut path, "/a");
        write!(lines, "0 group {path}\n").expect(&rt, "memory");
    }
    assert_accepted(&rt, &lines, "ok lines=34 events=33 end=0\n");
    write!(lines, "0 group {path}/a\n").expect(&rt, "memory");
    assert_line_refused(&rt, &lines, 34, Cause::BadField(1), "BadField 1");
}

#[test]
fn bytes_of_a_path(rt: HostRuntime) {
    let mut line = repeated(&rt, "psitrace 1 cpus=1\n0 group /", "a", 254);
    let longer = repeated(&rt, &line, "a\n", 1);
    push(&rt, &mut line, "\n");
    assert_accepted(&rt, &line, "ok lines=3 events=2 end=0\n");
    assert_line_refused(&rt, &longer, 2, Cause::BadField(1), "BadField 1");
}

#[test]
fn tasks(rt: HostRuntime) {
    let mut lines = text_of(&rt, HEADER);
    for pid in 1..=65_536u32 {
        write!(lines, "0 fork {pid} / 0\n").expect(&rt, "memory");
    }
    assert_accepted(&rt, &lines, "ok lines=65538 events=65537 end=0\n");
    push(&rt, &mut lines, "0 fork 65537 / 0\n");
    assert_line_refused(&rt, &lines, 65538, Cause::TooManyTasks, "TooManyTasks");
}

#[test]
fn triggers(rt: HostRuntime) {
    let trigger = "0 trigger / io some 1 500000\n";
    let mut lines = repeated(&rt, HEADER, trigger, 256);
    assert_accepted(&rt, &lines, "ok lines=258 events=257 end=0\n");
    push(&rt, &mut lines, trigger);
    assert_line_refused(&rt, &lines, 258, Cause::TooManyTriggers, "TooManyTriggers");
}

#[test]
fn bytes_of_a_line(rt: HostRuntime) {
    let mut line = repeated(&rt, HEADER, "a", 512);
    let longer = repeated(&rt, &line, "a\n", 1);
    push(&rt, &mut line, "\n");
    assert_line_refused(&rt, &line, 2, Cause::BadTime, "BadTime");
    assert_line_refused(&rt, &longer, 2, Cause::LineTooLong, "LineTooLong");
}

#[test]
fn bytes_of_memory(rt: HostRuntime) {
    let most = "psitrace 1 cpus=1\n0 mem / 1152921504606846976 0 0\n";
    assert_accepted(&rt, most, "ok lines=3 events=2 end=0\n");
    let more = "psitrace 1 cpus=1\n0 mem / 1152921504606846977 0 0\n";
    assert_line_refused(&rt, more, 2, Cause::BadField(2), "BadField 2");
}

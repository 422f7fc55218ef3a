//! Tests of event lines: which are parsed and written again unchanged (a round trip), and which are
//! rejected with which cause.
ghost use Rattle.psi_spec.specs.Header.{IsVersion};

use psi_base::{Cause, Fault};
use psi_trace::{read_event, write_event};
use std::alloc::Global;
use std::process::Abort;
use test_support::{as_text, assert_equal};

/// Parses a line of a trace of this version, and appends the written event.
fn rewrite(rt: &impl Abort, alloc: Global, version: u32, line: &str, written: &mut Vec<u8>)
    requires { IsVersion version }
{
    let event = read_event(alloc, version, line.as_bytes()).expect(rt, line);
    write_event(&event, written).expect(rt, "memory");
}

/// Checks that each line of a trace of this version is parsed, and written again unchanged.
fn assert_rewritten(rt: &impl Abort, alloc: Global, version: u32, lines: &[&str])
    requires { IsVersion version }
{
    for line in lines {
        let mut written = Vec::new(alloc);
        rewrite(rt, alloc, version, line, &mut written);
        assert_equal!(rt; written.as_slice(), line.as_bytes(), line);
    }
}

/// Checks that a line of a trace of this version is rejected for this cause.
fn assert_refused(rt: &impl Abort, alloc: Global, version: u32, line: &str, cause: Cause)
    requires { IsVersion version }
{
    let refused = read_event(alloc, version, line.as_bytes()).err();
    assert_equal!(rt; refused, Some(Fault::Refused(cause)), line);
}

/// Checks that each line of a trace of this version is rejected with the cause next to it.
fn assert_all_refused(rt: &impl Abort, alloc: Global, version: u32, rows: &[(&str, Cause)])
    requires { IsVersion version }
{
    for (line, cause) in rows {
        assert_refused(rt, alloc, version, line, *cause);
    }
}

/// Valid lines of both versions.
const LINES: [&str; 31] = [
    "0 end",
    "18446744073709551615 end",
    "5 group /",
    "5 group /a",
    "5 group /a/b.c/_.@:-\\Z09",
    "5 rmgroup /a",
    "5 prefer / prefer",
    "5 prefer / avoid",
    "5 prefer /a none",
    "5 fork 1 / 0",
    "5 fork 4294967295 /a/b 4294967295",
    "5 wake 1 0",
    "5 wake 4294967295 4294967295",
    "5 switch 0 0 idle",
    "5 switch 0 1 preempt",
    "5 switch 1 2 sleep",
    "5 switch 1 0 iowait",
    "5 switch 4294967295 4294967295 exit",
    "5 stall 7",
    "5 unstall 7",
    "5 migrate 7 63",
    "5 move 7 /",
    "5 mem / 0 1 2",
    "5 mem /a 1152921504606846976 1152921504606846976 1152921504606846976",
    "5 host 0 1 2",
    "5 host 1152921504606846976 1152921504606846976 1152921504606846976",
    "5 trigger / io some 150000 1000000",
    "5 trigger /a memory full 0 18446744073709551615",
    "5 trigger /a cpu some 18446744073709551615 0",
    "5 group /aaaaaaaaaaaaaaaaaaaaaaaaaaaaaaaaaaaaaaaaaaaaaaaaaaaaaaaaaaaaaaaaaaaaaaaaaaaaaaaaaaaaaaaaaaaaaaaaaaaaaaaaaaaaaaaaaaaaaaaaaaaaaaaaaaaaaaaaaaaaaaaaaaaaaaaaaaaaaaaaaaaaaaaaaaaaaaaaaaaaaaaaaaaaaaaaaaaaaaaaaaaaaaaaaaaaaaaaaaaaaaaaaaaaaaaaaaaaaaaaaaaaaaaaaaaaaa",
    "5 group /a/a/a/a/a/a/a/a/a/a/a/a/a/a/a/a/a/a/a/a/a/a/a/a/a/a/a/a/a/a/a/a",
];

#[test]
fn writes_what_it_reads(rt: HostRuntime) {
    assert_rewritten(&rt, rt.alloc(), 1, &LINES);
    assert_rewritten(&rt, rt.alloc(), 2, &LINES);
}

/// Valid lines of version 2 only: interrupts, and switching of accounting.
const SECOND: [&str; 6] = [
    "5 irq 0 0",
    "5 irq 63 1000000000",
    "18446744073709551615 irq 4294967295 18446744073709551615",
    "5 pressure / on",
    "5 pressure /a off",
    "18446744073709551615 pressure /a/b.c on",
];

#[test]
fn knows_verbs_of_the_second_version(rt: HostRuntime) {
    for line in &SECOND {
        assert_refused(&rt, rt.alloc(), 1, line, Cause::BadVerb);
    }
    assert_rewritten(&rt, rt.alloc(), 2, &SECOND);
}

#[test]
fn appends_to_what_is_there(rt: HostRuntime) {
    let mut written = Vec::from_slice(rt.alloc(), b"psitrace 1 cpus=1\n").expect(&rt, "memory");
    rewrite(&rt, rt.alloc(), 1, "0 fork 1 / 0", &mut written);
    let text = "psitrace 1 cpus=1\n0 fork 1 / 0";
    assert_equal!(rt; as_text(&written), text, "a line after a header");
}

/// Malformed lines that switch accounting, each with its cause.
const ACCOUNTS: [(&str, Cause); 12] = [
    ("x pressure /a off", Cause::BadTime),
    ("5 Pressure /a off", Cause::BadVerb),
    ("5 pressures /a off", Cause::BadVerb),
    ("5 pressure", Cause::BadField(1)),
    ("5 pressure a no", Cause::BadField(1)),
    ("5 pressure /a", Cause::BadField(2)),
    ("5 pressure /a ", Cause::BadField(2)),
    ("5 pressure /a no", Cause::BadField(2)),
    ("5 pressure /a On", Cause::BadField(2)),
    ("5 pressure /a offf", Cause::BadField(2)),
    ("5 pressure /a off ", Cause::BadField(3)),
    ("5 pressure /a on off", Cause::BadField(3)),
];

/// Malformed lines of interrupts, each with its cause.
const INTERRUPTS: [(&str, Cause); 12] = [
    ("x irq 0 1", Cause::BadTime),
    ("5 Irq 0 1", Cause::BadVerb),
    ("5 irqs 0 1", Cause::BadVerb),
    ("5 irq", Cause::BadField(1)),
    ("5 irq x", Cause::BadField(1)),
    ("5 irq 4294967296 1", Cause::BadField(1)),
    ("5 irq 0", Cause::BadField(2)),
    ("5 irq 0 ", Cause::BadField(2)),
    ("5 irq 0 01", Cause::BadField(2)),
    ("5 irq 0 18446744073709551616", Cause::BadField(2)),
    ("5 irq 0 1 ", Cause::BadField(3)),
    ("5 irq 0 1 1", Cause::BadField(3)),
];

/// Malformed lines, each with its cause: lines without a time or a verb, or with words after a verb
/// that takes none.
const TIMES_AND_VERBS: [(&str, Cause); 24] = [
    ("", Cause::BadTime),
    (" ", Cause::BadTime),
    (" 5 end", Cause::BadTime),
    ("007 wake 1 0", Cause::BadTime),
    ("00 end", Cause::BadTime),
    ("-1 end", Cause::BadTime),
    ("+5 end", Cause::BadTime),
    ("5a end", Cause::BadTime),
    ("5\tend", Cause::BadTime),
    ("end", Cause::BadTime),
    ("end 5", Cause::BadTime),
    ("18446744073709551616 end", Cause::BadTime),
    ("99999999999999999999999 end", Cause::BadTime),
    ("5", Cause::BadVerb),
    ("5 ", Cause::BadVerb),
    ("5  end", Cause::BadVerb),
    ("5 End", Cause::BadVerb),
    ("5 ends", Cause::BadVerb),
    ("5 en", Cause::BadVerb),
    ("5 end\r", Cause::BadVerb),
    ("5 grouprm /a", Cause::BadVerb),
    ("18446744073709551615 x", Cause::BadVerb),
    ("5 end ", Cause::BadField(1)),
    ("5 end x", Cause::BadField(1)),
];

/// Malformed lines of tasks, each with its cause.
const TASKS: [(&str, Cause); 41] = [
    ("5 wake", Cause::BadField(1)),
    ("5 wake ", Cause::BadField(1)),
    ("5 wake 01 0", Cause::BadField(1)),
    ("5 wake 0 0", Cause::BadField(1)),
    ("5 wake 4294967296 0", Cause::BadField(1)),
    ("5 wake x", Cause::BadField(1)),
    ("5 wake x y z", Cause::BadField(1)),
    ("5 wake  1 0", Cause::BadField(1)),
    ("5 wake 1", Cause::BadField(2)),
    ("5 wake 1 ", Cause::BadField(2)),
    ("5 wake 1  0", Cause::BadField(2)),
    ("5 wake 1 4294967296", Cause::BadField(2)),
    ("5 wake 1 x y", Cause::BadField(2)),
    ("5 wake 1 0\r", Cause::BadField(2)),
    ("5 wake 1 0 ", Cause::BadField(3)),
    ("5 wake 1 0 0", Cause::BadField(3)),
    ("5 wake 1 0  ", Cause::BadField(3)),
    ("5 fork 0 / 0", Cause::BadField(1)),
    ("5 fork 1 0 /", Cause::BadField(2)),
    ("5 fork 1 / -", Cause::BadField(3)),
    ("5 fork 1 /", Cause::BadField(3)),
    ("5 fork 1 / 0 0", Cause::BadField(4)),
    ("5 switch 0", Cause::BadField(2)),
    ("5 switch 0 00 idle", Cause::BadField(2)),
    ("5 switch 0 4294967296 idle", Cause::BadField(2)),
    ("5 switch x x x", Cause::BadField(1)),
    ("5 switch 0 0", Cause::BadField(3)),
    ("5 switch 0 0 Sleep", Cause::BadField(3)),
    ("5 switch 0 0 sleeps", Cause::BadField(3)),
    ("5 switch 0 0 idle\r", Cause::BadField(3)),
    ("5 switch 0 0 idle idle", Cause::BadField(4)),
    ("5 stall", Cause::BadField(1)),
    ("5 stall 0", Cause::BadField(1)),
    ("5 stall 1 1", Cause::BadField(2)),
    ("5 unstall 4294967296", Cause::BadField(1)),
    ("5 unstall 1 ", Cause::BadField(2)),
    ("5 migrate 1", Cause::BadField(2)),
    ("5 migrate 1 0 0", Cause::BadField(3)),
    ("5 move / 1", Cause::BadField(1)),
    ("5 move 1 a", Cause::BadField(2)),
    ("5 move 1 / /", Cause::BadField(3)),
];

/// Malformed lines of groups, of the host and of triggers, each with its cause.
const GROUPS: [(&str, Cause); 36] = [
    ("5 group", Cause::BadField(1)),
    ("5 group a", Cause::BadField(1)),
    ("5 group /a/", Cause::BadField(1)),
    ("5 group //", Cause::BadField(1)),
    ("5 group /.", Cause::BadField(1)),
    ("5 group /a/..", Cause::BadField(1)),
    ("5 group /a,b", Cause::BadField(1)),
    ("5 group /a b", Cause::BadField(2)),
    ("5 rmgroup ", Cause::BadField(1)),
    ("5 rmgroup / ", Cause::BadField(2)),
    (
        "5 group /aaaaaaaaaaaaaaaaaaaaaaaaaaaaaaaaaaaaaaaaaaaaaaaaaaaaaaaaaaaaaaaaaaaaaaaaaaaaaaaaaaaaaaaaaaaaaaaaaaaaaaaaaaaaaaaaaaaaaaaaaaaaaaaaaaaaaaaaaaaaaaaaaaaaaaaaaaaaaaaaaaaaaaaaaaaaaaaaaaaaaaaaaaaaaaaaaaaaaaaaaaaaaaaaaaaaaaaaaaaaaaaaaaaaaaaaaaaaaaaaaaaaaaaaaaaaaaa",
        Cause::BadField(1),
    ),
    (
        "5 group /a/a/a/a/a/a/a/a/a/a/a/a/a/a/a/a/a/a/a/a/a/a/a/a/a/a/a/a/a/a/a/a/a",
        Cause::BadField(1),
    ),
    ("5 prefer none", Cause::BadField(1)),
    ("5 prefer /", Cause::BadField(2)),
    ("5 prefer / plain", Cause::BadField(2)),
    ("5 prefer / None", Cause::BadField(2)),
    ("5 prefer / none none", Cause::BadField(3)),
    ("5 mem 0 0 0", Cause::BadField(1)),
    ("5 mem / 1152921504606846977 0 0", Cause::BadField(2)),
    ("5 mem / 0 1152921504606846977 0", Cause::BadField(3)),
    ("5 mem / 0 0 1152921504606846977", Cause::BadField(4)),
    ("5 mem / 0 0", Cause::BadField(4)),
    ("5 mem / 0 0 0 0", Cause::BadField(5)),
    ("5 host", Cause::BadField(1)),
    ("5 host 1152921504606846977 x", Cause::BadField(1)),
    ("5 host 0 01 0", Cause::BadField(2)),
    ("5 host 0 0", Cause::BadField(3)),
    ("5 host 0 0 1152921504606846977", Cause::BadField(3)),
    ("5 host 0 0 0 0", Cause::BadField(4)),
    ("5 trigger io some 1 1", Cause::BadField(1)),
    ("5 trigger / net some 1 1", Cause::BadField(2)),
    ("5 trigger / io half 1 1", Cause::BadField(3)),
    (
        "5 trigger / io some 18446744073709551616 1",
        Cause::BadField(4),
    ),
    ("5 trigger / io some 1", Cause::BadField(5)),
    (
        "5 trigger / io some 1 18446744073709551616",
        Cause::BadField(5),
    ),
    ("5 trigger / io some 1 1 1", Cause::BadField(6)),
];

/// Checks that each line is rejected for the cause next to it, in a trace of either version.
fn assert_refused_in_both(rt: &impl Abort, alloc: Global, rows: &[(&str, Cause)]) {
    assert_all_refused(rt, alloc, 1, rows);
    assert_all_refused(rt, alloc, 2, rows);
}

#[test]
fn refuses_the_leftmost_fault(rt: HostRuntime) {
    assert_refused_in_both(&rt, rt.alloc(), &TIMES_AND_VERBS);
    assert_refused_in_both(&rt, rt.alloc(), &TASKS);
    assert_refused_in_both(&rt, rt.alloc(), &GROUPS);
    assert_all_refused(&rt, rt.alloc(), 2, &ACCOUNTS);
    assert_all_refused(&rt, rt.alloc(), 2, &INTERRUPTS);
}

//! Tests of removing the victim of a kill from a trace: the lines that remain of small traces with
//! two processors.

ghost use Rattle.psi_spec.specs.Trace.{AllFit};

use crate::events::events_of;
use proc_plan::Plans;
use psi_base::{Event, Slot};
use psi_trace::write_event;
use std::alloc::Global;
use std::process::Abort;
use test_support::assert_equal;
use whatif_trace::without;

/// The number of processors of each trace.
const CPUS: u32 = 2;

/// The latest time (ns) of a trace.
const LATEST: u64 = 2_000_000_000_000_000;

/// A trace with a single task, which is ready and in the group of the victim, `/s/a`.
const READY: [&[u8]; 4] = [
    b"0 group /s",
    b"0 group /s/a",
    b"0 fork 1 /s/a 0",
    b"36 end",
];

/// The lines that remain of `READY` after a kill at 5 ns: at 6 ns the killed task is switched in
/// and exits.
const READY_LEFT: [&[u8]; 6] = [
    b"0 group /s",
    b"0 group /s/a",
    b"0 fork 1 /s/a 0",
    b"6 switch 0 1 idle",
    b"6 switch 0 0 exit",
    b"36 end",
];

/// A trace with four tasks of the victim at 10 ns: task 1 waits for IO, task 2 runs in a stall,
/// task 3 is blocked in a stall, and task 4 is ready. Task 5 of the root runs, and is switched out
/// for the exits of tasks 3 and 4. Later, a task of the root reuses the PID 1.
const MANY: [&[u8]; 22] = [
    b"0 group /s",
    b"0 group /s/a",
    b"0 fork 1 /s/a 0",
    b"0 fork 2 /s/a 0",
    b"0 fork 3 /s/a 1",
    b"0 fork 4 /s/a 1",
    b"0 fork 5 / 1",
    b"1 switch 0 1 idle",
    b"2 switch 0 2 iowait",
    b"3 stall 2",
    b"4 switch 1 3 idle",
    b"5 stall 3",
    b"6 switch 1 5 sleep",
    b"20 switch 1 4 preempt",
    b"21 switch 1 5 sleep",
    b"22 switch 0 0 preempt",
    b"24 wake 1 1",
    b"25 switch 1 1 preempt",
    b"26 switch 1 5 exit",
    b"27 fork 1 / 0",
    b"28 switch 0 1 idle",
    b"29 end",
];

/// The lines that remain of `MANY` after a kill at 10 ns: the exits of the four tasks at 11 ns, and
/// the later lines without these tasks.
const MANY_LEFT: [&[u8]; 31] = [
    b"0 group /s",
    b"0 group /s/a",
    b"0 fork 1 /s/a 0",
    b"0 fork 2 /s/a 0",
    b"0 fork 3 /s/a 1",
    b"0 fork 4 /s/a 1",
    b"0 fork 5 / 1",
    b"1 switch 0 1 idle",
    b"2 switch 0 2 iowait",
    b"3 stall 2",
    b"4 switch 1 3 idle",
    b"5 stall 3",
    b"6 switch 1 5 sleep",
    b"11 wake 1 0",
    b"11 switch 0 1 preempt",
    b"11 switch 0 2 exit",
    b"11 unstall 2",
    b"11 switch 0 0 exit",
    b"11 wake 3 1",
    b"11 switch 1 3 preempt",
    b"11 unstall 3",
    b"11 switch 1 5 exit",
    b"11 switch 1 4 preempt",
    b"11 switch 1 5 exit",
    b"20 switch 1 0 preempt",
    b"21 switch 1 5 idle",
    b"25 switch 1 0 preempt",
    b"26 switch 1 5 idle",
    b"27 fork 1 / 0",
    b"28 switch 0 1 idle",
    b"29 end",
];

/// Returns the lines of events, each with a newline.
fn text_of(rt: &impl Abort, alloc: Global, events: &[Event]) -> Vec<u8>
    requires { AllFit events.now }
{
    let mut text: Vec<u8> = Vec::new(alloc);
    let mut at = 0;
    'events: while at < events.len() {
        write_event(&events[at], &mut text).expect(rt, "memory");
        text.push(b'\n').expect(rt, "memory");
        at += 1;
    }
    text
}

/// Returns the lines that remain if the tasks of the group `victim` are killed at time `at` (ns).
fn left_of(rt: &impl Abort, alloc: Global, lines: &[&[u8]], at: u64, victim: Slot) -> Vec<u8> {
    let events = events_of(alloc, lines).expect(rt, "events");
    drop(Plans::build(alloc, CPUS, LATEST, &events).expect(rt, "a legal trace"));
    let left = without(alloc, CPUS, LATEST, &events, at, victim).expect(rt, "what is left");
    text_of(rt, alloc, &left)
}

/// Checks that exactly the lines `want` remain if the tasks of the group `victim` are killed at
/// time `at` (ns).
fn assert_left(
    rt: &impl Abort,
    alloc: Global,
    lines: &[&[u8]],
    at: u64,
    victim: Slot,
    want: &[&[u8]],
) {
    let wanted = events_of(alloc, want).expect(rt, "events");
    let wanted = text_of(rt, alloc, &wanted);
    let left = left_of(rt, alloc, lines, at, victim);
    assert_equal!(rt; left.as_slice(), wanted.as_slice(), at);
}

#[test]
fn a_ready_task(rt: HostRuntime) {
    assert_left(&rt, rt.alloc(), &READY, 5, Slot(2), &READY_LEFT);
}

#[test]
fn the_end_moment(rt: HostRuntime) {
    assert_left(&rt, rt.alloc(), &READY, 36, Slot(2), &READY);
}

#[test]
fn tasks_of_every_kind(rt: HostRuntime) {
    assert_left(&rt, rt.alloc(), &MANY, 10, Slot(2), &MANY_LEFT);
}

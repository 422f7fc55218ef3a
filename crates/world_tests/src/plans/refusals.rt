//! Tests of illegal traces, for which no plans are built. The result is the first rejected line and
//! the cause.

use crate::events::events_of;
use proc_plan::Plans;
use psi_base::{Cause, Fault, Refusal};
use std::alloc::Global;
use std::process::Abort;
use test_support::assert_equal;

/// Illegal traces of one processor. The latest allowed time is 1,000 ns. Each row has the lines
/// after the header, the number of the first rejected line, and the cause.
const ROWS: [(&[&[u8]], u32, Cause); 12] = [
    (&[b"1 fork 1 /a 0", b"2 end"], 2, Cause::UnknownGroup),
    (&[b"1 fork 1 / 1", b"2 end"], 2, Cause::BadCpu),
    (
        &[b"1 fork 1 / 0", b"2 wake 1 0", b"2 fork 1 / 0", b"3 end"],
        3,
        Cause::NotBlocked,
    ),
    (
        &[b"1 fork 1 / 0", b"2 switch 0 1 idle", b"1 end", b"2 end"],
        4,
        Cause::TimeBack,
    ),
    (&[b"1000 fork 1 / 0", b"1001 end"], 3, Cause::TimeTooLate),
    (&[b"1 fork 1 / 0", b"2 switch 0 1 idle"], 4, Cause::NoEnd),
    (
        &[b"1 fork 1 / 0", b"2 end", b"3 stall 1", b"4 end"],
        4,
        Cause::AfterEnd,
    ),
    (&[b"1 end", b"1 end"], 3, Cause::AfterEnd),
    (&[b"9 irq 0 9", b"8 irq 0 1", b"9 end"], 3, Cause::TimeBack),
    (
        &[b"9 irq 0 9", b"9 irq 0 1", b"9 end"],
        3,
        Cause::IrqTooLong,
    ),
    (
        &[b"9 irq 0 9", b"9 irq 0 0", b"11 irq 0 3", b"11 end"],
        4,
        Cause::IrqTooLong,
    ),
    (&[], 2, Cause::NoEnd),
];

/// Returns the reason why no plans can be built from the lines, or `None` if plans can be built.
fn fault_of(rt: &impl Abort, alloc: Global, lines: &[&[u8]]) -> Option<Fault<Refusal>> {
    let events = events_of(alloc, lines).expect(rt, "events");
    Plans::build(alloc, 1, 1000, &events).err()
}

#[test]
fn first_refused_lines(rt: HostRuntime) {
    for &(lines, line, cause) in &ROWS {
        let fault = fault_of(&rt, rt.alloc(), lines);
        let want = Fault::Refused(Refusal { line, cause });
        assert_equal!(rt; fault, Some(want), (line, cause));
    }
}

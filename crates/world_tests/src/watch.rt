//! Tests of the side watch, which follows the memory samples, preferences and task counts of groups
//! through a trace.

use crate::events::plans_of;
use proc_plan::Plans;
use psi_base::{Preference, Slot};
use side_watch::{GroupMemory, SideWatch};
use std::alloc::Global;
use std::process::Abort;
use test_support::assert_equal;

/// A trace in which a task moves from a nested group to the parent and exits. The nested group is
/// removed and created again.
const LINES: [&[u8]; 16] = [
    b"1 group /a",
    b"1 group /a/b",
    b"2 fork 1 /a/b 0",
    b"3 mem /a/b 4096 8192 7",
    b"3 mem /a/b 100 200 9",
    b"4 prefer /a avoid",
    b"4 prefer /a/b prefer",
    b"5 host 1000 500 250",
    b"7 move 1 /a",
    b"8 rmgroup /a/b",
    b"8 group /a/b",
    b"9 switch 0 1 idle",
    b"9 mem /a/b 1 2 3",
    b"10 switch 0 0 exit",
    b"11 prefer /a none",
    b"12 end",
];

/// Returns whether each of the four groups has a live task in it or in its descendants: the root,
/// `/a`, and the two groups with the path `/a/b`.
fn populated(watch: &SideWatch) -> [bool; 4] {
    [
        watch.is_populated(Slot(0)),
        watch.is_populated(Slot(1)),
        watch.is_populated(Slot(2)),
        watch.is_populated(Slot(3)),
    ]
}

fn preferences(watch: &SideWatch) -> [Preference; 4] {
    [
        watch.preference(Slot(0)),
        watch.preference(Slot(1)),
        watch.preference(Slot(2)),
        watch.preference(Slot(3)),
    ]
}

/// Returns the memory samples of the two groups with the path `/a/b`.
fn memories(watch: &SideWatch) -> [GroupMemory; 2] {
    [watch.memory(Slot(2)), watch.memory(Slot(3))]
}

fn memory(current: u64, swap: u64, scan: u64) -> GroupMemory {
    GroupMemory {
        current,
        swap,
        scan,
    }
}

/// Returns the host's total memory, total swap and free swap, in bytes.
fn host(watch: &SideWatch) -> [u64; 3] {
    let host = watch.host();
    [host.mem_total, host.swap_total, host.swap_free]
}

/// The values of a group without a memory sample.
const NONE: GroupMemory = GroupMemory {
    current: 0,
    swap: 0,
    scan: 0,
};

// At 1 ns no task is live. At 3 ns one task is live: its group and all ancestors are populated. Of
// the two samples at 3 ns, the later sample is used. The host has no sample before 5 ns.
fn assert_first_times(rt: &impl Abort, watch: &mut SideWatch, plans: &Plans) {
    let plain = Preference::Plain;
    watch.advance(plans.sides(), 1);
    assert_equal!(rt; populated(watch), [false; 4], "populated at 1");
    assert_equal!(rt; preferences(watch), [plain; 4], "preferences at 1");
    assert_equal!(rt; memories(watch), [NONE; 2], "memories at 1");

    watch.advance(plans.sides(), 3);
    let alive = [true, true, true, false];
    assert_equal!(rt; populated(watch), alive, "populated at 3");
    let known = [memory(100, 200, 9), NONE];
    assert_equal!(rt; memories(watch), known, "memories at 3");

    watch.advance(plans.sides(), 4);
    assert_equal!(rt; host(watch), [0, 0, 0], "the host at 4");
}

// At 8 ns the path `/a/b` has a new group without a sample. At 12 ns the task has exited.
fn assert_last_times(rt: &impl Abort, watch: &mut SideWatch, plans: &Plans) {
    let [plain, avoid, prefer] = [Preference::Plain, Preference::Avoid, Preference::Prefer];
    watch.advance(plans.sides(), 8);
    assert_equal!(rt; host(watch), [1000, 500, 250], "the host at 8");
    let alive = [true, true, false, false];
    assert_equal!(rt; populated(watch), alive, "populated at 8");
    let preferred = [plain, avoid, prefer, plain];
    assert_equal!(rt; preferences(watch), preferred, "preferences at 8");
    let known = [memory(100, 200, 9), NONE];
    assert_equal!(rt; memories(watch), known, "memories at 8");

    watch.advance(plans.sides(), 12);
    assert_equal!(rt; populated(watch), [false; 4], "populated at 12");
    let preferred = [plain, plain, prefer, plain];
    assert_equal!(rt; preferences(watch), preferred, "preferences at 12");
    let known = [memory(100, 200, 9), memory(1, 2, 3)];
    assert_equal!(rt; memories(watch), known, "memories at 12");
}

// Checks all times of the trace in order, with a single watch.
fn assert_all_times(rt: &impl Abort, alloc: Global, plans: &Plans) {
    let mut watch = SideWatch::make(alloc, plans.lives()).expect(rt, "memory");
    assert_first_times(rt, &mut watch, plans);
    assert_last_times(rt, &mut watch, plans);
}

#[test]
fn moments_of_a_trace(rt: HostRuntime) {
    let plans = plans_of(&rt, rt.alloc(), 1, 12, &LINES);
    assert_all_times(&rt, rt.alloc(), &plans);
}

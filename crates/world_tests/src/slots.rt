//! Tests of the clocks of four groups on one processor, change by change: tasks run, stall, wait,
//! move and exit.

use crate::processor::Processor;
use psi_base::{Ns, Slot};
use psi_counts::Counts;
use std::alloc::Global;
use std::process::Abort;
use test_support::assert_equal;

/// The counts that one ready or running task adds to its group.
const READY: Counts = Counts {
    io: 0,
    stalled: 0,
    running: 1,
    stalled_running: 0,
};

/// The counts that one ready or running task in a memory stall adds to its group.
const READY_IN_STALL: Counts = Counts {
    io: 0,
    stalled: 1,
    running: 1,
    stalled_running: 1,
};

/// The counts that one task adds to its group if it waits for IO in a memory stall.
const WAITS_IN_STALL: Counts = Counts {
    io: 1,
    stalled: 1,
    running: 0,
    stalled_running: 0,
};

/// A change, and the expected state after it.
#[derive(Clone, Copy)]
struct Row {
    at: Ns,
    /// The number of the task that changes. `now` is its group and counts after the change, or
    /// `None` if the task isn't live.
    task: usize,
    now: Option<(Slot, Counts)>,
    /// The group of the running task, and whether that task is in a memory stall. `None` if the
    /// processor is idle.
    current: Option<(Slot, bool)>,
    /// The words of the four clocks: the times (ns) of IO some and full, memory some and full, CPU
    /// some and full and nonidle, a mask with one bit for each of these states, and the start (ns).
    clocks: [[u64; 9]; 4],
}

/// The words of a clock that no change has affected.
const ZERO: [u64; 9] = [0; 9];

/// The changes and the expected clocks of the root, /a, /a/b and /c.
const ROWS: [Row; 7] = [
    // Task 0 is created in /a/b.
    Row {
        at: 10,
        task: 0,
        now: Some((Slot(2), READY)),
        current: None,
        clocks: [
            [0, 0, 0, 0, 0, 0, 0, 0b111_0000, 10],
            [0, 0, 0, 0, 0, 0, 0, 0b111_0000, 10],
            [0, 0, 0, 0, 0, 0, 0, 0b111_0000, 10],
            ZERO,
        ],
    },
    // The idle processor switches to task 0. No count changes, so the row names task 2, which is
    // never live.
    Row {
        at: 20,
        task: 2,
        now: None,
        current: Some((Slot(2), false)),
        clocks: [
            [0, 0, 0, 0, 10, 10, 10, 0b100_0000, 20],
            [0, 0, 0, 0, 10, 10, 10, 0b100_0000, 20],
            [0, 0, 0, 0, 10, 10, 10, 0b100_0000, 20],
            ZERO,
        ],
    },
    // Task 0 enters a memory stall.
    Row {
        at: 35,
        task: 0,
        now: Some((Slot(2), READY_IN_STALL)),
        current: Some((Slot(2), true)),
        clocks: [
            [0, 0, 0, 0, 10, 10, 25, 0b100_1100, 35],
            [0, 0, 0, 0, 10, 10, 25, 0b100_1100, 35],
            [0, 0, 0, 0, 10, 10, 25, 0b100_1100, 35],
            ZERO,
        ],
    },
    // Task 1 is created in /a. The group is still in the state memory full, because the running
    // task is in a stall; the counts alone don't imply that state.
    Row {
        at: 50,
        task: 1,
        now: Some((Slot(1), READY)),
        current: Some((Slot(2), true)),
        clocks: [
            [0, 0, 15, 15, 10, 10, 40, 0b101_1100, 50],
            [0, 0, 15, 15, 10, 10, 40, 0b101_1100, 50],
            [0, 0, 0, 0, 10, 10, 25, 0b100_1100, 35],
            ZERO,
        ],
    },
    // Task 0 waits for IO, still in its stall, and task 1 runs.
    Row {
        at: 70,
        task: 0,
        now: Some((Slot(2), WAITS_IN_STALL)),
        current: Some((Slot(1), false)),
        clocks: [
            [0, 0, 35, 35, 30, 10, 60, 0b100_0101, 70],
            [0, 0, 35, 35, 30, 10, 60, 0b100_0101, 70],
            [0, 0, 35, 35, 10, 10, 60, 0b100_1111, 70],
            ZERO,
        ],
    },
    // Task 1 moves to /c, and runs there.
    Row {
        at: 90,
        task: 1,
        now: Some((Slot(3), READY)),
        current: Some((Slot(3), false)),
        clocks: [
            [0, 0, 35, 35, 30, 10, 60, 0b100_0101, 70],
            [20, 0, 55, 35, 30, 10, 80, 0b100_1111, 90],
            [0, 0, 35, 35, 10, 10, 60, 0b100_1111, 70],
            [0, 0, 0, 0, 0, 0, 0, 0b100_0000, 90],
        ],
    },
    // Task 1 exits.
    Row {
        at: 100,
        task: 1,
        now: None,
        current: None,
        clocks: [
            [30, 0, 65, 35, 30, 10, 90, 0b100_1111, 100],
            [20, 0, 55, 35, 30, 10, 80, 0b100_1111, 90],
            [0, 0, 35, 35, 10, 10, 60, 0b100_1111, 70],
            [0, 0, 0, 0, 0, 0, 10, 0, 100],
        ],
    },
];

/// Creates a processor with `tasks` tasks and groups with these parents.
fn processor(
    rt: &impl Abort,
    alloc: Global,
    parents: Vec<Option<Slot>>,
    tasks: usize,
) -> Processor {
    match Processor::new(alloc, parents, tasks) {
        Ok(processor) => processor,
        Err(_) => panic!(rt; "no processor over these groups"),
    }
}

/// Returns the words of the clocks of the first four groups.
fn words(processor: &Processor) -> [[u64; 9]; 4] {
    [Slot(0), Slot(1), Slot(2), Slot(3)].map(|slot| processor.clock(slot).to_words())
}

#[test]
fn changes_of_a_processor(rt: HostRuntime) {
    let parents = [None, Some(Slot(0)), Some(Slot(1)), Some(Slot(0))];
    let parents = Vec::from_array(rt.alloc(), parents).expect(&rt, "memory");
    let mut processor = processor(&rt, rt.alloc(), parents, 3);
    for row in &ROWS {
        let is_made = processor.change(row.at, row.task, row.now, row.current);
        assert_equal!(rt; is_made, true, row.at);
        assert_equal!(rt; words(&processor), row.clocks, row.at);
    }
    // The times in the states up to 170 ns, which is after the last change.
    let opened = processor.opened(Slot(2), 170);
    assert_equal!(rt; opened, Some([100, 100, 135, 135, 10, 10, 160]), "opened");
}

/// Returns the parents of a hundred groups, each of which is a child of the previous one.
fn nested(rt: &impl Abort, alloc: Global) -> Vec<Option<Slot>> {
    let mut parents = Vec::new(alloc);
    parents.push(None).expect(rt, "memory");
    for slot in 0..99u32 {
        parents.push(Some(Slot(slot))).expect(rt, "memory");
    }
    parents
}

/// Checks that each group except the root has had a task waiting for the processor since 7 ns.
fn assert_waiting_since_seven(rt: &impl Abort, processor: &Processor) {
    for slot in 1..100u32 {
        let words = processor.clock(Slot(slot)).to_words();
        assert_equal!(rt; words, [0, 0, 0, 0, 0, 0, 0, 0b111_0000, 7], Slot(slot));
    }
}

// One change affects a group and all its ancestors. A change of a group that doesn't exist is
// rejected, and the clock of such a slot is zero.
#[test]
fn groups_that_a_change_first_reaches(rt: HostRuntime) {
    let parents = nested(&rt, rt.alloc());
    let mut processor = processor(&rt, rt.alloc(), parents, 1);
    assert!(rt; processor.change(5, 0, Some((Slot(0), READY)), None));
    assert!(rt; !processor.change(5, 0, Some((Slot(100), READY)), None));
    assert_equal!(rt; processor.clock(Slot(99)).start, 0, Slot(99));
    assert!(rt; processor.change(7, 0, Some((Slot(99), READY)), None));
    assert_equal!(rt; processor.clock(Slot(0)).start, 5, Slot(0));
    assert_waiting_since_seven(&rt, &processor);
    assert_equal!(rt; processor.clock(Slot(100)).to_words(), ZERO, Slot(100));
}

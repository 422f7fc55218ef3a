//! Tests of the changes that each accepted line makes on processors: one trace with stalls,
//! migrations, moves and interrupts.

use psi_base::{Cpu, Ns, Slot};
use psi_counts::{Change, Counts, Touch};
use psi_trace::read_event;
use std::alloc::Global;
use std::process::Abort;
use task_table::Table;
use test_support::assert_equal;

/// A trace in which a task enters a memory stall, sleeps, wakes on another processor, migrates and
/// moves to another group. Later it leaves the stall, waits for IO and sleeps again. A wakeup or a
/// migration from one processor to another changes both processors. A wakeup or migration to the
/// task's own processor is also a change. So are a move to the task's own group and an interrupt.
///
/// Each line is followed by the changes of processors, with a `|` before each change. A change has
/// the number of the processor, the task whose counts are subtracted, the task whose counts are
/// added, and the slot of the running task afterwards; `..` means no task. Each task is preceded by
/// the slot of its group. A task is `a` if it is blocked, `w` if it waits for IO, and `r` if it is
/// ready or running. `A` and `R` are tasks in a memory stall. The slot of the running task is
/// followed by `!` if this task is in a stall, and by `=` otherwise. A `+` is followed by the
/// interrupt time (ns) on the processor. A line that switches accounting is followed only by the
/// slot of the group and `on` or `off`, because the switch applies to every processor.
const LINES: &str = "1 group /a;\
    1 fork 1 /a 0 | 0 .. 1r ..;\
    2 switch 0 1 idle | 0 .. .. 1=;\
    3 stall 1 | 0 1r 1R 1!;\
    4 switch 0 0 sleep | 0 1R 1A ..;\
    5 wake 1 1 | 1 .. 1R .. | 0 1A .. ..;\
    6 migrate 1 1 | 1 1R 1R ..;\
    7 migrate 1 0 | 0 .. 1R .. | 1 1R .. ..;\
    8 move 1 / | 0 1R 0R ..;\
    9 move 1 / | 0 0R 0R ..;\
    10 switch 0 1 idle | 0 .. .. 0!;\
    10 irq 0 3 | 0 .. .. 0! +3;\
    10 irq 1 7 | 1 .. .. .. +7;\
    10 irq 1 0 | 1 .. .. .. +0;\
    11 unstall 1 | 0 0R 0r 0=;\
    12 switch 0 0 iowait | 0 0r 0w ..;\
    13 wake 1 0 | 0 0w 0r ..;\
    14 switch 0 1 idle | 0 .. .. 0=;\
    15 switch 0 0 sleep | 0 0r 0a ..;\
    16 mem / 1 1 1;\
    16 pressure /a off | 1 off;\
    16 pressure /a off | 1 off;\
    16 pressure /a on | 1 on;\
    17 rmgroup /a;\
    18 end";

/// Returns the value of a decimal digit.
fn number(digit: u8) -> u32 {
    u32::from(digit.wrapping_sub(b'0'))
}

/// Parses a task, such as `1r`: returns the slot of its group and the counts of the task. Returns
/// `None` if there is no task.
fn part(kind: u8, slot: u8) -> Option<(Slot, Counts)> {
    let (io, stalled, running, stalled_running) = match kind {
        b'a' => (0, 0, 0, 0),
        b'w' => (1, 0, 0, 0),
        b'r' => (0, 0, 1, 0),
        b'A' => (0, 1, 0, 0),
        b'R' => (0, 1, 1, 1),
        _ => return None,
    };
    let counts = Counts {
        io,
        stalled,
        running,
        stalled_running,
    };
    Some((Slot(number(slot)), counts))
}

/// Parses a change of a row, whose time is `at` (ns): returns the processor and its change. Returns
/// `None` if `known` isn't the text of a change.
fn change(at: Ns, known: &str) -> Option<(Cpu, Change)> {
    let (known, irq) = known.split_once(" +").unwrap_or((known, "0"));
    let [cpu, _, from, minus, _, to, plus, _, slot, current] = known.as_bytes() else {
        return None;
    };
    let is_running = *current != b'.';
    let change = Change {
        at,
        minus: part(*minus, *from),
        plus: part(*plus, *to),
        current: is_running.then_some((Slot(number(*slot)), *current == b'!')),
        irq: irq
            .bytes()
            .next()
            .map_or(0, |digit| u64::from(number(digit))),
        account: None,
    };
    Some((Cpu(number(*cpu)), change))
}

/// Parses a switch of accounting: returns the slot of the group and whether its accounting is
/// switched on. Returns `None` if `known` isn't a switch.
fn account(known: &str) -> Option<(Slot, bool)> {
    match known.as_bytes() {
        [slot, b' ', b'o', b'n'] => Some((Slot(number(*slot)), true)),
        [slot, b' ', b'o', b'f', b'f'] => Some((Slot(number(*slot)), false)),
        _ => None,
    }
}

/// Parses the expected changes of a line, whose time is `at` (ns).
fn touch(at: Ns, known: &str) -> Touch {
    let (first, second) = known.split_once(" | ").unwrap_or((known, ""));
    Touch {
        first: change(at, first),
        second: change(at, second),
        account: account(known),
    }
}

/// Checks that the event line of a row causes exactly the changes that the row lists.
fn assert_row(rt: &impl Abort, alloc: Global, table: &mut Table, row: &str) {
    let (line, known) = row.split_once(" | ").unwrap_or((row, ""));
    let event = read_event(alloc, 2, line.as_bytes()).expect(rt, line);
    let touched = table.step(&event).expect(rt, line);
    assert_equal!(rt; touched, touch(event.at, known), row);
}

#[test]
fn touches_of_each_line(rt: HostRuntime) {
    let mut table = Table::new(rt.alloc(), 2, 1000).expect(&rt, "memory");
    for row in LINES.split(';') {
        assert_row(&rt, rt.alloc(), &mut table, row);
    }
}

//! Tests of the lines that the table of tasks rejects, and of the causes: the lines of a trace one
//! after another, and lines at the limits of the table.

ghost use Rattle.std.specs.Prelude.{◌≤◌};

use psi_base::{Act, Cause, Cpu, Event, Fault, Ns, Path, Pid, Slot};
use psi_trace::read_event;
use std::alloc::Global;
use std::process::Abort;
use task_table::Table;
use test_support::assert_equal;

/// A trace of two processors, whose latest allowed time is 1,000 ns. Each line is followed by the
/// cause for which it is rejected, or by `ok`. A rejected line doesn't change the table. If a line
/// has two causes, the table reports the cause that it checks first.
const LINES: &str = "5 fork 1 / 0 | ok;\
    4 fork 2 / 0 | TimeBack;\
    4 fork 1 / 2 | TimeBack;\
    1001 fork 1 / 2 | TimeTooLate;\
    5 fork 2 /a 0 | UnknownGroup;\
    5 fork 1 /a 2 | UnknownGroup;\
    5 fork 1 / 2 | TaskExists;\
    5 fork 2 / 2 | BadCpu;\
    5 group / | GroupExists;\
    5 group /a/b | NoParent;\
    5 group /a | ok;\
    5 group /a | GroupExists;\
    5 group /a/b | ok;\
    5 rmgroup / | GroupBusy;\
    5 rmgroup /a | GroupBusy;\
    5 rmgroup /c | UnknownGroup;\
    5 fork 2 /a/b 1 | ok;\
    5 rmgroup /a/b | GroupBusy;\
    5 prefer /c avoid | UnknownGroup;\
    5 prefer /a avoid | ok;\
    5 mem /c 1 2 3 | UnknownGroup;\
    5 mem /a/b 1 2 3 | ok;\
    5 host 1 2 3 | ok;\
    5 trigger /c io some 0 499999 | UnknownGroup;\
    5 trigger / io some 1 499999 | BadWindow;\
    5 trigger / io some 500001 500000 | BadWindow;\
    5 trigger / io some 0 500000 | BadWindow;\
    5 trigger / io some 1 10000001 | BadWindow;\
    5 trigger /a cpu full 500000 500000 | ok;\
    5 trigger /a cpu full 1 10000000 | ok;\
    5 move 9 /c | UnknownGroup;\
    5 move 9 /a | UnknownTask;\
    5 move 1 /a | ok;\
    5 wake 9 2 | UnknownTask;\
    5 wake 1 2 | BadCpu;\
    5 wake 1 0 | NotBlocked;\
    6 switch 2 9 idle | UnknownTask;\
    6 switch 2 1 idle | BadCpu;\
    6 switch 1 1 sleep | NotReady;\
    6 switch 0 1 sleep | WrongHow;\
    6 stall 9 | UnknownTask;\
    6 stall 1 | NotRunning;\
    6 unstall 1 | NotRunning;\
    6 switch 0 1 idle | ok;\
    6 migrate 9 2 | UnknownTask;\
    6 migrate 1 2 | BadCpu;\
    6 migrate 1 1 | NotReady;\
    6 unstall 1 | NotInStall;\
    6 stall 1 | ok;\
    6 stall 1 | InStall;\
    6 switch 0 1 idle | NotReady;\
    6 switch 0 0 idle | WrongHow;\
    6 switch 0 0 exit | InStall;\
    6 switch 0 0 sleep | ok;\
    6 stall 1 | NotRunning;\
    7 wake 1 1 | ok;\
    7 migrate 1 0 | ok;\
    7 switch 0 1 idle | ok;\
    8 unstall 1 | ok;\
    8 switch 0 0 exit | ok;\
    8 stall 1 | UnknownTask;\
    8 rmgroup /a/b | GroupBusy;\
    8 move 2 / | ok;\
    8 rmgroup /a | GroupBusy;\
    9 rmgroup /a/b | ok;\
    9 rmgroup /a/b | UnknownGroup;\
    9 fork 3 /a/b 0 | UnknownGroup;\
    9 group /a/b | ok;\
    9 fork 3 /a/b 0 | ok;\
    1000 end | ok;\
    1000 end | AfterEnd;\
    4 fork 1 / 2 | AfterEnd";

/// A trace of two processors with `irq` lines, in the format of `LINES`. The latest allowed time is
/// 4 s. The interrupt time of an `irq` line may not exceed the time since the previous `irq` line
/// of its processor, even if other lines come between them.
const IRQ_LINES: &str = "5 irq 2 6 | BadCpu;\
    5 irq 2 1000000001 | BadCpu;\
    5 irq 0 6 | IrqTooLong;\
    5 irq 0 5 | ok;\
    5 irq 0 1 | IrqTooLong;\
    5 irq 0 0 | ok;\
    5 irq 1 5 | ok;\
    4 irq 0 0 | TimeBack;\
    4 irq 2 9 | TimeBack;\
    4000000001 irq 2 9 | TimeTooLate;\
    9 irq 0 5 | IrqTooLong;\
    9 irq 0 4 | ok;\
    12 host 1 2 3 | ok;\
    13 irq 0 5 | IrqTooLong;\
    13 irq 0 4 | ok;\
    13 irq 1 9 | IrqTooLong;\
    13 irq 1 8 | ok;\
    2000000013 irq 0 1000000001 | IrqTooLong;\
    2000000013 irq 0 18446744073709551615 | IrqTooLong;\
    2000000013 irq 0 1000000000 | ok;\
    2000000014 end | ok;\
    2000000014 irq 0 0 | AfterEnd";

/// A trace of two processors with `pressure` lines, in the format of `LINES`. The latest allowed
/// time is 1,000 ns. A line that sets the current setting again is legal.
const PRESSURE_LINES: &str = "5 pressure /x on | UnknownGroup;\
    5 pressure / off | RootPressure;\
    5 pressure / on | RootPressure;\
    5 group /a | ok;\
    4 pressure / off | TimeBack;\
    5 pressure /a on | ok;\
    5 pressure /a off | ok;\
    5 pressure /a off | ok;\
    6 group /a/b | ok;\
    6 pressure /a/b off | ok;\
    7 rmgroup /a/b | ok;\
    7 pressure /a/b on | UnknownGroup;\
    7 pressure /a on | ok;\
    8 end | ok;\
    8 pressure / off | AfterEnd";

/// Creates the table of a trace of `cpus` processors, with no event later than `latest` (ns).
fn table(rt: &impl Abort, alloc: Global, cpus: u32, latest: Ns) -> Table
    requires some { 1 ≤ cpus }
    requires few { cpus ≤ 64 }
{
    Table::new(alloc, cpus, latest).expect(rt, "memory")
}

/// Parses the event of a line in format version 2.
fn event(rt: &impl Abort, alloc: Global, line: &str) -> Event {
    read_event(alloc, 2, line.as_bytes()).expect(rt, line)
}

/// Returns whether `cause` has the name `name`, which is `ok` if there is no cause.
fn is_named(rt: &impl Abort, alloc: Global, cause: Option<Cause>, name: &str) -> bool {
    match cause {
        Some(cause) => format!(in alloc; "{cause:?}").expect(rt, "memory").as_str() == name,
        None => name == "ok",
    }
}

/// Plays an event, and returns the cause for which it is rejected, or `None` if it is accepted.
fn played(rt: &impl Abort, table: &mut Table, event: &Event) -> Option<Cause> {
    match table.step(event) {
        Ok(_) => None,
        Err(Fault::Refused(cause)) => Some(cause),
        Err(Fault::NoMemory(none)) => panic!(rt; "{none:?}"),
    }
}

/// Checks that the table's `check` and `step` both give the cause that the row expects.
fn assert_row(rt: &impl Abort, alloc: Global, table: &mut Table, row: &str) {
    let (line, want) = row.split_once(" | ").expect(rt, row);
    let event = event(rt, alloc, line);
    let checked = table.check(&event);
    let played = played(rt, table, &event);
    assert_equal!(rt; played, checked, row);
    assert_equal!(rt; is_named(rt, alloc, played, want), true, row);
}

/// Checks each row of `rows` in order, with `assert_row`.
fn assert_rows(rt: &impl Abort, alloc: Global, table: &mut Table, rows: &str) {
    for row in rows.split(';') {
        assert_row(rt, alloc, table, row);
    }
}

/// Returns the slot of the live group with this path, or `None` if there is no such group.
fn found(rt: &impl Abort, alloc: Global, table: &Table, path: &str) -> Option<Slot> {
    let read = Path::read(alloc, path.as_bytes()).expect(rt, "memory");
    table.groups().find(&read.expect(rt, path))
}

#[test]
fn causes_in_their_order(rt: HostRuntime) {
    let mut table = table(&rt, rt.alloc(), 2, 1000);
    assert_rows(&rt, rt.alloc(), &mut table, LINES);
    assert!(rt; table.is_ended());
    assert_equal!(rt; table.last(), 1000, "last");
    assert_equal!(rt; table.groups().len(), 4, "groups");
    let found = found(&rt, rt.alloc(), &table, "/a/b");
    assert_equal!(rt; found, Some(Slot(3)), "/a/b");
}

#[test]
fn interrupts_from_line_to_line(rt: HostRuntime) {
    let mut table = table(&rt, rt.alloc(), 2, 4_000_000_000);
    assert_rows(&rt, rt.alloc(), &mut table, IRQ_LINES);
}

#[test]
fn accounts_that_are_switched(rt: HostRuntime) {
    let mut table = table(&rt, rt.alloc(), 2, 1000);
    assert_rows(&rt, rt.alloc(), &mut table, PRESSURE_LINES);
    let groups = table.groups().lives().iter();
    let on: Vec<bool> = groups
        .map(|life| life.on)
        .collect(rt.alloc())
        .expect(&rt, "memory");
    let want = [true, true, false].as_slice();
    assert_equal!(rt; on.as_slice(), want, "accounting is on");
}

/// Checks that the line can be played `times` times.
fn assert_accepted(rt: &impl Abort, alloc: Global, table: &mut Table, line: &str, times: u32) {
    let event = event(rt, alloc, line);
    for count in 0..times {
        assert_equal!(rt; table.play(&event), Ok(()), count);
    }
}

/// Checks that the line is rejected for this cause.
fn assert_refused(rt: &impl Abort, alloc: Global, table: &mut Table, line: &str, cause: Cause) {
    let event = event(rt, alloc, line);
    assert_equal!(rt; table.play(&event), Err(Fault::Refused(cause)), line);
}

// A trace may set at most 256 triggers: the 257th is rejected.
#[test]
fn triggers_up_to_the_limit(rt: HostRuntime) {
    let mut table = table(&rt, rt.alloc(), 1, 1000);
    let line = "1 trigger / io some 1 500000";
    assert_accepted(&rt, rt.alloc(), &mut table, line, 256);
    assert_refused(&rt, rt.alloc(), &mut table, line, Cause::TooManyTriggers);
}

// A trace may have at most 65,536 `pressure` lines. The next such line is rejected with
// TooManyPressures, even if it would also be rejected for another cause.
#[test]
fn pressure_lines_up_to_the_limit(rt: HostRuntime) {
    let mut table = table(&rt, rt.alloc(), 1, 1000);
    assert_accepted(&rt, rt.alloc(), &mut table, "1 group /a", 1);
    assert_accepted(&rt, rt.alloc(), &mut table, "1 pressure /a off", 65_536);
    for line in &["1 pressure / off", "1 pressure /a off"] {
        assert_refused(&rt, rt.alloc(), &mut table, line, Cause::TooManyPressures);
    }
}

/// Creates the task `pid` in the root, on the first processor.
fn fork(rt: &impl Abort, alloc: Global, table: &mut Table, pid: u32) -> Result<(), Fault<Cause>> {
    let act = Act::Fork {
        pid: Pid(pid),
        path: Path::root(alloc).expect(rt, "memory"),
        cpu: Cpu(0),
    };
    table.play(&Event { at: 1, act })
}

// The 65,537th task is rejected.
#[test]
fn tasks_up_to_the_limit(rt: HostRuntime) {
    let mut table = table(&rt, rt.alloc(), 1, 1000);
    for pid in 1..=65_536u32 {
        assert_equal!(rt; fork(&rt, rt.alloc(), &mut table, pid), Ok(()), pid);
    }
    let last = fork(&rt, rt.alloc(), &mut table, 65_537);
    assert_equal!(rt; last, Err(Fault::Refused(Cause::TooManyTasks)), 65_537);
}

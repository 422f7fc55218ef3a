//! Tests of writing: the exact text of each kind of output line, pressure files and reports, and a
//! write that fails.
use fixed_average::Averages;
use outside::WriteFailed;
use outside_fakes::{HonestSink, MemSink};
use pressure_spec::Amounts;
use pressure_text::{
    PressureFile, PressureLine, read_file, read_irq, write_check, write_end, write_file,
    write_fired, write_irq, write_kill, write_live, write_report, write_report_head, write_stall,
    write_stall_irq,
};
use psi_base::{Cpu, Level, Path, Res, Slot, TriggerSpec};
use std::alloc::Global;
use std::process::Abort;
use test_support::assert_equal;

/// Two seconds (ns).
const TICK: u64 = 2_000_000_000;

// Returns the averages of a group after one update. Up to the update, the group was in all states
// and was interrupted all the time.
fn stalled_averages() -> Averages {
    let mut averages = Averages::new(0);
    averages.update(TICK, [TICK; 7]);
    averages
}

/// Creates an empty sink with a capacity of `room` bytes.
fn sink(rt: &impl Abort, alloc: Global, room: usize) -> HonestSink {
    HonestSink::new(alloc, room).expect(rt, "memory")
}

/// Returns the path of the root.
fn root(rt: &impl Abort, alloc: Global) -> Path {
    Path::root(alloc).expect(rt, "memory")
}

/// Writes the first four lines of `LINES`.
fn write_first_lines(rt: &impl Abort, out: &mut HonestSink, root: &Path) {
    let seven = [1, 2, 3, 4, 5, 6, u64::MAX];
    write_stall(out, Cpu(63), root, seven).expect(rt, "a stall");
    let eight = [1, 2, 3, 4, 5, 6, TICK, u64::MAX];
    write_stall_irq(out, Cpu(0), root, eight).expect(rt, "a stall with interrupts");
    write_check(out, 4, TICK).expect(rt, "a check");
    write_live(out, TICK, Cpu(1), 12, [0; 7]).expect(rt, "a live line");
}

/// Writes the other four lines of `LINES`.
fn write_last_lines(rt: &impl Abort, out: &mut HonestSink, root: &Path) {
    let spec = TriggerSpec {
        at: 5,
        slot: Slot(0),
        res: Res::Memory,
        level: Level::FullStalled,
        threshold_us: 150_000,
        window_us: 1_000_000,
    };
    write_fired(out, TICK, 3, root, &spec).expect(rt, "an event");
    write_kill(out, TICK, 0, 2, root).expect(rt, "a kill");
    write_report_head(out, TICK, root, Res::Cpu).expect(rt, "a report's head");
    write_end(out, 7, 1, 2, 3).expect(rt, "an end");
}

/// One output line of each kind.
const LINES: &[u8] = b"stall cpu=63 / 1 2 3 4 5 6 18446744073709551615
stall cpu=0 / 1 2 3 4 5 6 2000000000 18446744073709551615
ok lines=5 events=4 end=2000000000
live 2000000000 cpu=1 count=12 0 0 0 0 0 0 0
event 2000000000 trigger=3 / memory full 150000 1000000
kill 2000000000 ruleset=0 action=2 /
report 2000000000 / cpu
end 7 ticks=1 events=2 kills=3
";

#[test]
fn lines(rt: HostRuntime) {
    let mut out = sink(&rt, rt.alloc(), 1024);
    let root = root(&rt, rt.alloc());
    write_first_lines(&rt, &mut out, &root);
    write_last_lines(&rt, &mut out, &root);
    assert_equal!(rt; out.bytes.as_slice(), LINES, "lines");
}

/// The totals of a group (ns).
const TOTALS: Amounts = [1_000, 2_000, 3_999, 4_000, TICK, 999, 5_000];

/// Checks that the pressure file of a group with the totals `TOTALS` is `text`.
fn assert_file(rt: &impl Abort, alloc: Global, res: Res, root: bool, text: &[u8]) {
    let mut out = sink(rt, alloc, 256);
    write_file(&mut out, res, root, TOTALS, &stalled_averages()).expect(rt, "a file");
    assert_equal!(rt; out.bytes.as_slice(), text, "a file");
}

#[test]
fn files(rt: HostRuntime) {
    let numbers = b"some avg10=18.11 avg60=3.27 avg300=0.68 total=1
full avg10=18.11 avg60=3.27 avg300=0.68 total=2
";
    assert_file(&rt, rt.alloc(), Res::Io, true, numbers);
    let memory = b"some avg10=18.11 avg60=3.27 avg300=0.68 total=3
full avg10=18.11 avg60=3.27 avg300=0.68 total=4
";
    assert_file(&rt, rt.alloc(), Res::Memory, true, memory);
    let group = b"some avg10=18.11 avg60=3.27 avg300=0.68 total=2000000
full avg10=18.11 avg60=3.27 avg300=0.68 total=0
";
    assert_file(&rt, rt.alloc(), Res::Cpu, false, group);
    let machine = b"some avg10=18.11 avg60=3.27 avg300=0.68 total=2000000
full avg10=0.00 avg60=0.00 avg300=0.00 total=0
";
    assert_file(&rt, rt.alloc(), Res::Cpu, true, machine);
}

/// Returns a report on the IO pressure of the root.
fn report(rt: &impl Abort, alloc: Global) -> Vec<u8> {
    let root = root(rt, alloc);
    let mut out = sink(rt, alloc, 256);
    write_report(
        &mut out,
        TICK,
        &root,
        Res::Io,
        true,
        [TICK; 7],
        &stalled_averages(),
    )
    .expect(rt, "a report");
    out.bytes
}

#[test]
fn reports_are_read_again(rt: HostRuntime) {
    let written = report(&rt, rt.alloc());
    let head = b"report 2000000000 / io\n".as_slice();
    let bytes = written.as_slice().strip_prefix(head).expect(&rt, "a head");
    let line = PressureLine {
        hundredths: [1811, 327, 68],
        total_us: 2_000_000,
    };
    let file = PressureFile {
        some_line: line,
        full_line: line,
    };
    assert_equal!(rt; read_file(bytes), Some(file), "a report");
}

/// Returns a report on the interrupts of the root. Interrupts took half of the time up to the
/// report.
fn irq_report(rt: &impl Abort, alloc: Global) -> Vec<u8> {
    let mut averages = Averages::new(0);
    averages.update(TICK, [0, 0, 0, 0, 0, 0, TICK / 2]);
    let root = root(rt, alloc);
    let mut out = sink(rt, alloc, 256);
    write_irq(&mut out, TICK, &root, TICK / 2, &averages).expect(rt, "a report");
    out.bytes
}

#[test]
fn a_report_on_interrupts_is_read_again(rt: HostRuntime) {
    let written = irq_report(&rt, rt.alloc());
    let text = b"report 2000000000 / irq
full avg10=9.05 avg60=1.63 avg300=0.34 total=1000000
"
        .as_slice();
    assert_equal!(rt; written.as_slice(), text, "a report on interrupts");
    let head = b"report 2000000000 / irq\n".as_slice();
    let bytes = written.as_slice().strip_prefix(head).expect(&rt, "a head");
    let line = PressureLine {
        hundredths: [905, 163, 34],
        total_us: 1_000_000,
    };
    assert_equal!(rt; read_irq(bytes), Some(line), "what it shows");
}

// The write of the third piece of the line fails.
#[test]
fn a_failure_leaves_a_prefix(rt: HostRuntime) {
    let fails = vec![in rt.alloc(); 2].expect(&rt, "memory");
    let mut out = MemSink::new(rt.alloc(), 256, 256, fails).expect(&rt, "memory");
    assert_equal!(rt; write_end(&mut out, 7, 1, 2, 3), Err(WriteFailed), "a line that fails");
    assert_equal!(rt; out.bytes.as_slice(), b"end 7".as_slice(), "what is left of it");
    assert_equal!(rt; (out.calls, out.faults), (3, 1), "calls and faults");
}

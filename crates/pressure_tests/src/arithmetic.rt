//! Tests of the arithmetic of pressure: averages, triggers, and the weighted mean of a group's
//! times on the processors. The tests call single functions with fixed times.

use aggregate::{Rows, Totals, share};
use fixed_average::{Averages, load, power};
use psi_base::{Cause, Cpu, MILLISECOND, Slot, State};
use std::alloc::Global;
use std::process::Abort;
use test_support::{SECOND, assert_equal};
use window_trigger::Trigger;

#[test]
fn loads(rt: HostRuntime) {
    assert_equal!(rt; load(0, 1677, 204_800), 37_100, "active, of none");
    assert_equal!(rt; load(37_100, 1677, 204_800), 67_480, "active, of some");
    assert_equal!(rt; load(37_100, 1677, 0), 30_379, "idle, of some");
    assert_equal!(rt; load(204_800, 1677, 204_800), 204_800, "active, of all");
    assert_equal!(rt; load(0, 1677, 0), 0, "idle, of none");
}

#[test]
fn powers(rt: HostRuntime) {
    assert_equal!(rt; power(1677, 0), 2048, "1677 to the 0");
    assert_equal!(rt; power(1677, 1), 1677, "1677 to the 1");
    assert_equal!(rt; power(1677, 2), 1373, "1677 to the 2");
    assert_equal!(rt; power(1981, 2), 1916, "1981 to the 2");
    assert_equal!(rt; power(2034, 2), 2020, "2034 to the 2");
    assert_equal!(rt; power(1677, u64::MAX), 0, "1677 to the greatest");
}

/// Returns the totals (ns) at time `at` (ns) of a group that has been in an IO stall (some and
/// full) since time 0.
fn io_until(at: u64) -> [u64; 7] {
    [at, at, 0, 0, 0, 0, 0]
}

// With ticks of 2 s, each tick updates the averages for one full period.
#[test]
fn averages_of_full_periods(rt: HostRuntime) {
    let mut averages = Averages::new(0);
    averages.update(SECOND, io_until(SECOND));
    assert_equal!(rt; averages.get(State::IoSome), [0, 0, 0], "after 1 s");
    averages.update(2 * SECOND, io_until(2 * SECOND));
    let one = [37_100, 6_700, 1_400];
    assert_equal!(rt; averages.get(State::IoSome), one, "after 2 s");
    averages.update(4 * SECOND, io_until(4 * SECOND));
    let two = [67_480, 13_181, 2_791];
    assert_equal!(rt; averages.get(State::IoSome), two, "after 4 s");
    assert_equal!(rt; averages.get(State::IoFull), two, "of all tasks");
    assert_equal!(rt; averages.get(State::MemSome), [0, 0, 0], "memory");
    assert_equal!(rt; averages.get(State::CpuFull), [0, 0, 0], "processors");
    assert_equal!(rt; averages.irq(), [0, 0, 0], "interrupts");
}

// Interrupts take half of the first two seconds, and no time in the next two.
#[test]
fn averages_of_interrupts(rt: HostRuntime) {
    let mut averages = Averages::new(0);
    averages.update(2 * SECOND, [0, 0, 0, 0, 0, 0, SECOND]);
    assert_equal!(rt; averages.irq(), [18_550, 3_350, 700], "after 2 s");
    averages.update(4 * SECOND, [0, 0, 0, 0, 0, 0, SECOND]);
    assert_equal!(rt; averages.irq(), [15_189, 3_240, 695], "after 4 s");
    assert_equal!(rt; averages.get(State::CpuFull), [0, 0, 0], "processors");
}

// With ticks of 5 s, the first tick misses one averaging period of 2 s, and the second tick misses
// two. Stall time beyond the length of a sample is carried over to the next sample.
#[test]
fn averages_of_missed_periods(rt: HostRuntime) {
    let mut averages = Averages::new(0);
    averages.update(5 * SECOND, io_until(5 * SECOND));
    let one = [37_100, 6_700, 1_400];
    assert_equal!(rt; averages.get(State::IoSome), one, "after 5 s");
    averages.update(10 * SECOND, io_until(10 * SECOND));
    assert_equal!(rt; averages.get(State::IoSome)[0], 57_467, "after 10 s");
}

// Tasks on processor 0 wait for IO all the time, and processor 1 is busy half of the time.
#[test]
fn weighted_shares(rt: HostRuntime) {
    let waits = [2 * SECOND, 2 * SECOND, 0, 0, 0, 0, 2 * SECOND, 0];
    let runs = [0, 0, 0, 0, 0, 0, SECOND, 0];
    let part = 1_333_333_333;
    let want = [part, part, 0, 0, 0, 0, 0];
    assert_equal!(rt; share(&[waits, runs]), want, "waits and runs");
    // Time shorter than a timer tick doesn't count.
    let short = [900_000, 900_000, 0, 0, 0, 0, 900_000, 900_000];
    assert_equal!(rt; share(&[short]), [0; 7], "less than a timer tick");
    assert_equal!(rt; share(&[]), [0; 7], "no processors");
    let every = [1, 2, 3, 4, 5, 6, 7 * SECOND, 8];
    assert_equal!(rt; share(&[every]), [1, 2, 3, 4, 5, 6, 8], "every state");
}

// Processor 0 is busy for two seconds, one of them with interrupts; processor 1 is busy for a
// second without interrupts. A plain mean would be half a second.
#[test]
fn weighted_interrupts(rt: HostRuntime) {
    let interrupted = [0, 0, 0, 0, 0, 0, 2 * SECOND, SECOND];
    let free = [0, 0, 0, 0, 0, 0, SECOND, 0];
    let want = [0, 0, 0, 0, 0, 0, 666_666_666];
    assert_equal!(rt; share(&[interrupted, free]), want, "interrupted first");
    assert_equal!(rt; share(&[free, interrupted]), want, "interrupted last");
}

#[test]
fn totals_are_sums(rt: HostRuntime) {
    let mut totals = Totals::zero();
    totals.add([1, 2, 3, 4, 5, 6, 7]);
    totals.add([10, 20, 30, 40, 50, 60, 70]);
    assert_equal!(rt; totals.get(), [11, 22, 33, 44, 55, 66, 77], "sums");
}

#[test]
fn rows_by_slot_and_processor(rt: HostRuntime) {
    let mut rows = Rows::make(rt.alloc(), 2, 3).expect(&rt, "memory");
    rows.set(Cpu(1), Slot(1), [1; 8]);
    rows.set(Cpu(0), Slot(2), [2; 8]);
    assert_equal!(rt; rows.row(Slot(0)), &[[0; 8], [0; 8]], "slot 0");
    assert_equal!(rt; rows.row(Slot(1)), &[[0; 8], [1; 8]], "slot 1");
    assert_equal!(rt; rows.row(Slot(2)), &[[2; 8], [0; 8]], "slot 2");
}

/// Checks that a trigger with this threshold and window (us) can be created if `good`, and is
/// rejected with the cause `BadWindow` otherwise.
fn assert_made(rt: &impl Abort, threshold: u64, window: u64, good: bool) {
    let refused = Trigger::new(0, 0, threshold, window).err();
    let wanted = if good { None } else { Some(Cause::BadWindow) };
    assert_equal!(rt; refused, wanted, (threshold, window));
}

#[test]
fn windows_in_range(rt: HostRuntime) {
    assert_made(&rt, 1, 499_999, false);
    assert_made(&rt, 500_000, 500_000, true);
    assert_made(&rt, 500_001, 500_000, false);
    assert_made(&rt, 0, 500_000, false);
    assert_made(&rt, 1, 10_000_001, false);
    assert_made(&rt, 1, 10_000_000, true);
    assert_made(&rt, 10_000_000, 10_000_000, true);
    assert_made(&rt, u64::MAX, u64::MAX, false);
}

/// Checks when a trigger with a threshold of 150 ms and a window of 1 s fires. There are ticks
/// every 100 ms up to 2,500 ms, and a stall from time 0 to `until` (ms). `wanted` has the times
/// (ms) of the ticks at which the trigger fires.
fn assert_signals(rt: &impl Abort, alloc: Global, until: u64, wanted: &[u64]) {
    let mut at = Vec::new(alloc);
    let mut trigger = Trigger::new(0, 0, 150_000, 1_000_000).expect(rt, "a trigger");
    for tick in 1..26u64 {
        let now = tick * 100;
        if trigger.step(now * MILLISECOND, now.min(until) * MILLISECOND) {
            at.push(now).expect(rt, "memory");
        }
    }
    assert_equal!(rt; at.as_slice(), wanted, "signals");
}

// During a stall that doesn't end, the trigger fires once per window. If the stall ends after the
// first signal, one pending event is still signalled, and no further one.
#[test]
fn signals_of_a_trigger(rt: HostRuntime) {
    assert_signals(&rt, rt.alloc(), 2500, &[200, 1200, 2200]);
    assert_signals(&rt, rt.alloc(), 300, &[200, 1200]);
    assert_signals(&rt, rt.alloc(), 200, &[200]);
    assert_signals(&rt, rt.alloc(), 100, &[]);
}

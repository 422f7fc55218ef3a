//! Tests of detectors: each test passes several readings to a detector, and compares the result
//! after each reading with the expected result. A reading has the values of the host and of all
//! live groups at one evaluation of the rules.

use crate::checks::MOST;
use crate::readings::{NO_HOST, bare_group, life, scanned, using};
use crate::rig::Rig;
use detectors::{Detector, GroupReading, HostReading};
use path_match::Patterns;
use psi_base::{Res, State};
use psi_spec::GroupLife;
use ruleset_json::{DetectorSpec, Size};
use std::alloc::Global;
use std::process::Abort;
use test_support::{SECOND, assert_equal};

/// A reading and the expected result: the time (s), the host, the groups, and whether the detector
/// is true.
#[derive(Clone, Copy)]
struct Case {
    at_s: u32,
    host: HostReading,
    groups: [Option<GroupReading>; 2],
    is_true: bool,
}

/// Makes a group with these IO `full` averages over 10 s and over 60 s, in fixed point (2,048 is
/// one percent).
fn pressed(slot: u32, ten: u64, sixty: u64) -> Option<GroupReading> {
    let mut group = bare_group(slot);
    group.averages[State::IoFull as usize] = [ten, sixty, 0];
    Some(group)
}

/// Makes a case with these groups, and without a sample of the host.
fn row(at_s: u32, groups: [Option<GroupReading>; 2], is_true: bool) -> Case {
    Case {
        at_s,
        host: NO_HOST,
        groups,
        is_true,
    }
}

/// Makes a case with a host of `mem_total` bytes of memory, and one group that uses `current`
/// bytes.
fn filled(at_s: u32, mem_total: u64, current: u64, is_true: bool) -> Case {
    let host = HostReading {
        mem_total,
        swap_total: 0,
        swap_free: 0,
    };
    Case {
        at_s,
        host,
        groups: [using(1, current), None],
        is_true,
    }
}

/// Makes a case with a host of `swap_total` bytes of swap, `swap_free` bytes of which are free.
fn swapped(at_s: u32, swap_total: u64, swap_free: u64, is_true: bool) -> Case {
    let host = HostReading {
        mem_total: 0,
        swap_total,
        swap_free,
    };
    Case {
        at_s,
        host,
        groups: [None, None],
        is_true,
    }
}

/// Makes the groups `/`, `/a`, `/b` and `/a/x`, in the order of slots. The tests don't need their
/// parents.
fn groups(rt: &impl Abort, alloc: Global) -> [GroupLife; 4] {
    [
        life(rt, alloc, "/", None),
        life(rt, alloc, "/a", None),
        life(rt, alloc, "/b", None),
        life(rt, alloc, "/a/x", None),
    ]
}

/// Parses the patterns in a text.
fn patterns(rt: &impl Abort, alloc: Global, text: &str) -> Patterns {
    Patterns::read(alloc, text).expect(rt, text)
}

/// Checks whether a detector is true in each case, in order.
fn assert_answers(rt: &impl Abort, alloc: Global, spec: &DetectorSpec, rows: &[Case]) {
    let mut rig = Rig::make(rt, alloc, &groups(rt, alloc));
    let detector = Detector::new(alloc, spec, rig.reading.lives().len() as u32);
    let mut detector = detector.expect(rt, "memory");
    'rows: for row in rows {
        rig.read(rt, u64::from(row.at_s) * SECOND, row.host, &row.groups);
        let is_true = detector.step(&rig.reading);
        assert_equal!(rt; is_true, row.is_true, ("seconds", row.at_s));
    }
}

// Makes a detector that is true if `full` IO pressure over 10 s has been above 40 percent (81,920
// in fixed point) for `duration_s` seconds.
fn pressure_above(rt: &impl Abort, alloc: Global, text: &str, duration_s: u32) -> DetectorSpec {
    DetectorSpec::PressureAbove {
        cgroup: patterns(rt, alloc, text),
        resource: Res::Io,
        threshold: 40,
        duration_s,
    }
}

// Makes a detector that is true if three conditions hold. The `full` IO pressure over 60 s has been
// above 40 percent for `duration_s` seconds. The `full` IO pressure over 10 s is above 40 percent
// now, and it is at least 0.85 of its value at the previous reading.
fn pressure_rising(rt: &impl Abort, alloc: Global, text: &str, duration_s: u32) -> DetectorSpec {
    DetectorSpec::PressureRisingBeyond {
        cgroup: patterns(rt, alloc, text),
        resource: Res::Io,
        threshold: 40,
        duration_s,
        ratio: 850,
    }
}

fn memory_above(rt: &impl Abort, alloc: Global, text: &str, threshold: Size) -> DetectorSpec {
    DetectorSpec::MemoryAbove {
        cgroup: patterns(rt, alloc, text),
        threshold,
        duration_s: 0,
    }
}

fn memory_reclaim(rt: &impl Abort, alloc: Global, text: &str) -> DetectorSpec {
    DetectorSpec::MemoryReclaim {
        cgroup: patterns(rt, alloc, text),
        duration_s: 5,
    }
}

fn exists(rt: &impl Abort, alloc: Global, text: &str, negate: bool) -> DetectorSpec {
    DetectorSpec::Exists {
        cgroup: patterns(rt, alloc, text),
        negate,
    }
}

// ---- pressure

#[test]
fn pressure_holds_for_its_duration(rt: HostRuntime) {
    let rows = [
        row(5, [pressed(1, 90_000, 0), None], false),
        row(10, [pressed(1, 81_921, 0), None], false),
        row(15, [pressed(1, 90_000, 0), None], true),
        row(20, [pressed(1, 81_920, 0), None], false),
        row(25, [pressed(1, 90_000, 0), None], false),
        row(34, [pressed(1, 90_000, 0), None], false),
        row(35, [pressed(1, 90_000, 0), None], true),
    ];
    let spec = pressure_above(&rt, rt.alloc(), "a", 10);
    assert_answers(&rt, rt.alloc(), &spec, &rows);
}

#[test]
fn pressure_is_the_greatest_of_the_matches(rt: HostRuntime) {
    let rows = [
        row(5, [pressed(1, 90_000, 0), pressed(2, 3, 0)], true),
        row(10, [pressed(1, 3, 0), pressed(2, 90_000, 0)], true),
        row(15, [pressed(0, 90_000, 0), pressed(3, 90_000, 0)], false),
        row(20, [None, None], false),
    ];
    let spec = pressure_above(&rt, rt.alloc(), "a,b", 0);
    assert_answers(&rt, rt.alloc(), &spec, &rows);
}

#[test]
fn pressure_of_memory(rt: HostRuntime) {
    let spec = DetectorSpec::PressureAbove {
        cgroup: patterns(&rt, rt.alloc(), "a"),
        resource: Res::Memory,
        threshold: 0,
        duration_s: 0,
    };
    let mut seen = bare_group(1);
    seen.averages[State::MemFull as usize] = [1, 0, 0];
    let rows = [
        row(5, [pressed(1, 90_000, 90_000), None], false),
        row(10, [Some(seen), None], true),
    ];
    assert_answers(&rt, rt.alloc(), &spec, &rows);
}

#[test]
fn pressure_rises(rt: HostRuntime) {
    let rows = [
        row(5, [pressed(1, 100_000, 90_000), None], false),
        row(10, [pressed(1, 85_000, 91_000), None], true),
    ];
    let spec = pressure_rising(&rt, rt.alloc(), "a", 5);
    assert_answers(&rt, rt.alloc(), &spec, &rows);
}

#[test]
fn pressure_falls_too_fast(rt: HostRuntime) {
    let rows = [
        row(5, [pressed(1, 100_000, 90_000), None], false),
        row(10, [pressed(1, 84_999, 91_000), None], false),
    ];
    let spec = pressure_rising(&rt, rt.alloc(), "a", 5);
    assert_answers(&rt, rt.alloc(), &spec, &rows);
}

#[test]
fn pressure_rises_from_the_matches_before(rt: HostRuntime) {
    let rows = [
        row(5, [pressed(1, 200_000, 90_000), None], true),
        row(10, [None, pressed(2, 90_000, 90_000)], false),
        row(15, [None, None], false),
        row(
            20,
            [pressed(0, 200_000, 90_000), pressed(1, 90_000, 90_000)],
            true,
        ),
        row(25, [pressed(1, 81_920, 90_000), None], false),
        row(30, [pressed(1, 81_921, 81_920), None], false),
    ];
    let spec = pressure_rising(&rt, rt.alloc(), "a,b", 0);
    assert_answers(&rt, rt.alloc(), &spec, &rows);
}

// ---- memory

#[test]
fn memory_above_a_percentage(rt: HostRuntime) {
    let rows = [
        filled(5, 100, 50, false),
        filled(10, 100, 51, true),
        filled(15, 0, 0, false),
        filled(20, 0, 1, true),
    ];
    let spec = memory_above(&rt, rt.alloc(), "a", Size::Percent(50));
    assert_answers(&rt, rt.alloc(), &spec, &rows);
}

#[test]
fn memory_above_the_most(rt: HostRuntime) {
    let rows = [
        filled(5, MOST, MOST, false),
        filled(10, MOST - 1, MOST, true),
    ];
    let spec = memory_above(&rt, rt.alloc(), "a", Size::Percent(100));
    assert_answers(&rt, rt.alloc(), &spec, &rows);
}

#[test]
fn memory_above_bytes(rt: HostRuntime) {
    let rows = [
        row(5, [using(1, 1536), using(2, 1)], false),
        row(10, [using(1, 1537), using(2, 1)], true),
        row(15, [using(1, 1), using(2, 1537)], true),
        row(20, [using(0, 1537), using(3, 1537)], false),
        row(25, [None, None], false),
    ];
    let spec = memory_above(&rt, rt.alloc(), "a,b", Size::Bytes(1536));
    assert_answers(&rt, rt.alloc(), &spec, &rows);
}

#[test]
fn pages_were_scanned(rt: HostRuntime) {
    let rows = [
        row(5, [scanned(1, 100), None], false),
        row(10, [scanned(1, 101), None], true),
        row(15, [scanned(1, 101), None], true),
        row(20, [scanned(1, 101), None], false),
    ];
    let spec = memory_reclaim(&rt, rt.alloc(), "a");
    assert_answers(&rt, rt.alloc(), &spec, &rows);
}

#[test]
fn pages_of_groups_that_come_and_go(rt: HostRuntime) {
    let rows = [
        row(5, [scanned(1, 100), None], false),
        row(11, [None, None], false),
        row(17, [scanned(1, 200), scanned(2, 7)], false),
        row(23, [scanned(1, 199), scanned(2, 7)], false),
        row(29, [scanned(1, 199), scanned(2, 8)], true),
        row(35, [scanned(0, 1), scanned(3, 1)], false),
        row(41, [scanned(0, 2), scanned(3, 2)], false),
    ];
    let spec = memory_reclaim(&rt, rt.alloc(), "a,b");
    assert_answers(&rt, rt.alloc(), &spec, &rows);
}

// ---- the host

#[test]
fn swap_is_short(rt: HostRuntime) {
    let rows = [
        swapped(5, 100, 15, false),
        swapped(10, 100, 14, true),
        swapped(15, 0, 0, false),
        swapped(20, MOST, MOST, false),
    ];
    let spec = DetectorSpec::SwapFree { threshold_pct: 15 };
    assert_answers(&rt, rt.alloc(), &spec, &rows);
}

#[test]
fn swap_is_short_at_the_most(rt: HostRuntime) {
    let rows = [
        swapped(5, MOST, MOST, false),
        swapped(10, MOST, MOST - 1, true),
    ];
    let spec = DetectorSpec::SwapFree { threshold_pct: 100 };
    assert_answers(&rt, rt.alloc(), &spec, &rows);
}

// ---- matches

#[test]
fn there_is_a_match(rt: HostRuntime) {
    let rows = [
        row(5, [using(0, 1), None], false),
        row(10, [using(1, 1), using(3, 1)], true),
        row(15, [using(2, 1), None], true),
        row(20, [using(3, 1), None], false),
    ];
    let spec = exists(&rt, rt.alloc(), "a,b", false);
    assert_answers(&rt, rt.alloc(), &spec, &rows);
}

#[test]
fn there_is_no_match(rt: HostRuntime) {
    let rows = [
        row(5, [None, None], true),
        row(10, [using(1, 1), using(2, 1)], false),
        row(15, [using(0, 1), using(3, 1)], true),
    ];
    let spec = exists(&rt, rt.alloc(), "a,b", true);
    assert_answers(&rt, rt.alloc(), &spec, &rows);
}

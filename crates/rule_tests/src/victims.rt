//! Tests of the choice of a victim. Each test passes several readings to an action, and compares
//! the victim at the last reading with the expected group. A reading has the values of the host and
//! of all live groups at one evaluation of the rules.

ghost use Rattle.std.specs.Prelude.{◌≡◌, length};

use crate::checks::{MOST, is_action};
use crate::readings::{NO_HOST, bare_group, life, scanned, using};
use crate::rig::Rig;
use detectors::{GroupReading, Reading};
use path_match::Patterns;
use psi_base::{Ns, Preference, Res, Slot, State};
use psi_spec::GroupLife;
use ruleset_json::{Action, After, Size};
use std::alloc::Global;
use std::process::Abort;
use test_support::{SECOND, assert_equal};
use victim_rank::{MatchTable, Past, victim};

/// The groups of a reading in the byte order of their paths, with `None` for a group that isn't
/// live.
type Row = [Option<GroupReading>; 3];

/// Makes a group that uses `current` bytes of memory and has this kill preference.
fn preferring(slot: u32, current: u64, preference: Preference) -> Option<GroupReading> {
    let mut group = bare_group(slot);
    group.current = current;
    group.preference = preference;
    Some(group)
}

/// Makes a group that uses `current` bytes of memory and has no task.
fn empty(slot: u32, current: u64) -> Option<GroupReading> {
    let mut group = bare_group(slot);
    group.current = current;
    group.populated = false;
    Some(group)
}

/// Makes a group that uses `swap` bytes of swap.
fn swapping(slot: u32, swap: u64) -> Option<GroupReading> {
    let mut group = bare_group(slot);
    group.swap = swap;
    Some(group)
}

/// Makes a group with these memory `full` averages over 10 s and over 60 s, in fixed point (2,048
/// is one percent).
fn pressed(slot: u32, ten: u64, sixty: u64) -> Option<GroupReading> {
    let mut group = bare_group(slot);
    group.averages[State::MemFull as usize] = [ten, sixty, 0];
    Some(group)
}

/// Makes six groups in the order of slots: the root, three of its children, and two children of the
/// first child. In the byte order of paths, the last two come before the second and third child.
fn lives(rt: &impl Abort, alloc: Global) -> [GroupLife; 6] {
    [
        life(rt, alloc, "/", None),
        life(rt, alloc, "/a", Some(Slot(0))),
        life(rt, alloc, "/b", Some(Slot(0))),
        life(rt, alloc, "/c", Some(Slot(0))),
        life(rt, alloc, "/a/x", Some(Slot(1))),
        life(rt, alloc, "/a/y", Some(Slot(1))),
    ]
}

/// Makes the settings that every action has: no delay, and a recursive choice if `recursive` is
/// true.
fn after(recursive: bool) -> After {
    After {
        recursive,
        always_continue: false,
        delay_s: 0,
    }
}

/// Makes a pattern that matches the children of the root.
fn below_root(rt: &impl Abort, alloc: Global) -> Patterns {
    Patterns::read(alloc, "*").expect(rt, "patterns")
}

/// Makes an action that chooses a child of the root by size or growth: a child with at least half
/// of all memory, or a child that grew by a factor of at least 1.25.
fn size_or_growth(rt: &impl Abort, alloc: Global, percentile: u32, recursive: bool) -> Action {
    Action::SizeOrGrowth {
        cgroup: below_root(rt, alloc),
        size_threshold: 50,
        percentile,
        ratio: 1250,
        after: after(recursive),
    }
}

fn swap_usage(rt: &impl Abort, alloc: Global, threshold: Size) -> Action {
    Action::SwapUsage {
        cgroup: below_root(rt, alloc),
        threshold,
        after: after(false),
    }
}

fn pressure(rt: &impl Abort, alloc: Global, recursive: bool) -> Action {
    Action::Pressure {
        cgroup: below_root(rt, alloc),
        resource: Res::Memory,
        after: after(recursive),
    }
}

fn pg_scan(rt: &impl Abort, alloc: Global) -> Action {
    Action::PgScan {
        cgroup: below_root(rt, alloc),
        after: after(false),
    }
}

/// Checks that the action's victim at a reading is the group in slot `wanted`, or that there is no
/// victim if `wanted` is `None`.
fn assert_victim(
    rt: &impl Abort,
    alloc: Global,
    action: &Action,
    reading: &Reading,
    past: &Past,
    wanted: Option<Slot>,
)
    requires { length past.now.sizes ≡ length reading.now.lives }
{
    assert!(rt; is_action(action), "the action is out of range");
    let lives = reading.lives();
    let table = MatchTable::of(alloc, action, lives).expect(rt, "memory");
    let victim = victim(action, &table, reading, past, lives);
    assert_equal!(rt; victim, wanted, "the slot of the victim");
}

/// Checks that the action's victim at the last of these readings is the group in slot `wanted`, or
/// that there is no victim if `wanted` is `None`.
fn assert_kills(
    rt: &impl Abort,
    alloc: Global,
    action: &Action,
    rows: &[Row],
    wanted: Option<Slot>,
) {
    let mut rig = Rig::make(rt, alloc, &lives(rt, alloc));
    let past = Past::make(alloc, rig.reading.lives().len() as u32);
    let mut past = past.expect(rt, "memory");
    let mut now: Ns = 0;
    'rows: for row in rows {
        past.push(&rig.reading);
        now = now.saturating_add(5 * SECOND);
        rig.read(rt, now, NO_HOST, row);
    }
    assert_victim(rt, alloc, action, &rig.reading, &past, wanted);
}

// ---- size or growth

// No group has half of the total of 108. The second group grew from a mean of 30 to 38, by a factor
// of 1.27. Without earlier readings, the largest group is chosen.
#[test]
fn growth_is_over_the_mean_of_the_past(rt: HostRuntime) {
    let before = [using(1, 40), using(2, 30), using(3, 30)];
    let now = [using(1, 40), using(2, 38), using(3, 30)];
    let action = size_or_growth(&rt, rt.alloc(), 0, false);
    assert_kills(
        &rt,
        rt.alloc(),
        &action,
        &[before, before, before, now],
        Some(Slot(2)),
    );
    assert_kills(&rt, rt.alloc(), &action, &[now], Some(Slot(1)));
}

// A reading at which the group wasn't live doesn't count, nor does the fifth size before the
// current one. With four sizes of 30 the group grew by a factor of 1.23; with three of them and one
// of 10 it would be 1.48.
#[test]
fn the_past_has_four_sizes(rt: HostRuntime) {
    let first = [using(1, 40), using(2, 10), using(3, 40)];
    let before = [using(1, 40), using(2, 30), using(3, 40)];
    let gone = [using(1, 40), None, using(3, 40)];
    let now = [using(1, 40), using(2, 37), using(3, 40)];
    let action = size_or_growth(&rt, rt.alloc(), 0, false);
    assert_kills(
        &rt,
        rt.alloc(),
        &action,
        &[first, before, before, gone, before, before, now],
        Some(Slot(1)),
    );
    assert_kills(
        &rt,
        rt.alloc(),
        &action,
        &[first, before, gone, before, before, now],
        Some(Slot(2)),
    );
}

// Of three groups, 20 percent (0.6, rounded up to one group) are above percentile 80, so the group
// that grew isn't considered. Two groups are above percentile 60.
#[test]
fn the_percentile_is_rounded_up(rt: HostRuntime) {
    let before = [using(1, 40), using(2, 30), using(3, 30)];
    let now = [using(1, 40), using(2, 39), using(3, 30)];
    assert_kills(
        &rt,
        rt.alloc(),
        &size_or_growth(&rt, rt.alloc(), 80, false),
        &[before, now],
        Some(Slot(1)),
    );
    assert_kills(
        &rt,
        rt.alloc(),
        &size_or_growth(&rt, rt.alloc(), 60, false),
        &[before, now],
        Some(Slot(2)),
    );
}

// A group with half of the total is chosen although another group grew. If the total is 0, every
// group has half of it, and the group with the first path is chosen.
#[test]
fn half_of_all_is_large(rt: HostRuntime) {
    let before = [using(1, 50), using(2, 10), None];
    let now = [using(1, 50), using(2, 25), using(3, 25)];
    let nothing = [using(1, 0), using(2, 0), using(3, 0)];
    let most = [using(1, MOST), using(2, MOST), using(3, MOST)];
    let action = size_or_growth(&rt, rt.alloc(), 0, false);
    assert_kills(&rt, rt.alloc(), &action, &[before, now], Some(Slot(1)));
    assert_kills(&rt, rt.alloc(), &action, &[nothing], Some(Slot(1)));
    assert_kills(
        &rt,
        rt.alloc(),
        &action,
        &[most, most, most, most, most],
        Some(Slot(1)),
    );
}

// ---- preferences

#[test]
fn preference_comes_first(rt: HostRuntime) {
    let avoided = [
        preferring(1, 60, Preference::Avoid),
        using(2, 10),
        using(3, 20),
    ];
    let preferred = [
        using(1, 60),
        using(2, 20),
        preferring(3, 10, Preference::Prefer),
    ];
    let tasks = [empty(1, 60), using(2, 20), using(3, 20)];
    let action = size_or_growth(&rt, rt.alloc(), 0, false);
    assert_kills(&rt, rt.alloc(), &action, &[avoided], Some(Slot(3)));
    assert_kills(&rt, rt.alloc(), &action, &[preferred], Some(Slot(3)));
    assert_kills(&rt, rt.alloc(), &action, &[tasks], Some(Slot(2)));
    assert_kills(&rt, rt.alloc(), &action, &[[None, None, None]], None);
}

// ---- swap, pressure and scans

#[test]
fn swap_at_the_threshold_is_enough(rt: HostRuntime) {
    let none = [swapping(1, 0), swapping(2, 0), None];
    let some = [swapping(1, 9), swapping(2, 10), swapping(3, 10)];
    assert_kills(
        &rt,
        rt.alloc(),
        &swap_usage(&rt, rt.alloc(), Size::Bytes(0)),
        &[none],
        Some(Slot(1)),
    );
    assert_kills(
        &rt,
        rt.alloc(),
        &swap_usage(&rt, rt.alloc(), Size::Percent(50)),
        &[none],
        Some(Slot(1)),
    );
    assert_kills(
        &rt,
        rt.alloc(),
        &swap_usage(&rt, rt.alloc(), Size::Bytes(10)),
        &[some],
        Some(Slot(2)),
    );
    assert_kills(
        &rt,
        rt.alloc(),
        &swap_usage(&rt, rt.alloc(), Size::Bytes(11)),
        &[some],
        None,
    );
}

#[test]
fn pressure_and_scans_are_above_zero(rt: HostRuntime) {
    let none = [pressed(1, 0, 0), pressed(2, 0, 0), None];
    let some = [pressed(1, 3, 3), pressed(2, 0, 7), pressed(3, 6, 0)];
    assert_kills(
        &rt,
        rt.alloc(),
        &pressure(&rt, rt.alloc(), false),
        &[none],
        None,
    );
    assert_kills(
        &rt,
        rt.alloc(),
        &pressure(&rt, rt.alloc(), false),
        &[some],
        Some(Slot(2)),
    );
    let before = [scanned(1, 5), scanned(2, 5), None];
    let now = [scanned(1, 6), scanned(2, 7), scanned(3, 90)];
    assert_kills(&rt, rt.alloc(), &pg_scan(&rt, rt.alloc()), &[before], None);
    assert_kills(
        &rt,
        rt.alloc(),
        &pg_scan(&rt, rt.alloc()),
        &[before, now],
        Some(Slot(2)),
    );
}

// ---- children

// The choice descends to a child even if no pattern matches the child. It stops if no child is
// eligible.
#[test]
fn recursive_goes_down(rt: HostRuntime) {
    let sizes = [using(1, 60), using(4, 20), using(5, 40)];
    assert_kills(
        &rt,
        rt.alloc(),
        &size_or_growth(&rt, rt.alloc(), 0, true),
        &[sizes],
        Some(Slot(5)),
    );
    assert_kills(
        &rt,
        rt.alloc(),
        &size_or_growth(&rt, rt.alloc(), 0, false),
        &[sizes],
        Some(Slot(1)),
    );
    let pressures = [pressed(1, 9, 9), pressed(4, 0, 0), pressed(5, 0, 0)];
    assert_kills(
        &rt,
        rt.alloc(),
        &pressure(&rt, rt.alloc(), true),
        &[pressures],
        Some(Slot(1)),
    );
}

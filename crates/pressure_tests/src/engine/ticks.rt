//! Tests of groups and triggers over several ticks. The expected numbers were computed
//! independently of this program, from the rules of shares, averages and triggers.

use crate::engine::known::{assert_averages, assert_signalled, assert_totals};
use crate::engine::machine::Machine;
use pressure_spec::Times;
use psi_base::{Level, Ns, Path, Res, Slot, TriggerSpec};
use psi_spec::GroupLife;
use std::alloc::Global;
use std::process::Abort;
use test_support::{SECOND, assert_equal};

/// Makes a group that is created at `made` (ns) and, if `gone` is given, removed at that time (ns).
/// The engine doesn't read its path.
fn group(rt: &impl Abort, alloc: Global, made: Ns, gone: Option<Ns>) -> GroupLife {
    GroupLife {
        path: Path::root(alloc).expect(rt, "memory"),
        parent: None,
        made,
        gone,
        on: true,
    }
}

/// Makes a trigger on a group, set at `at` (ns), with its threshold and window (us).
fn trigger(
    at: Ns,
    slot: u32,
    res: Res,
    level: Level,
    threshold_us: u64,
    window_us: u64,
) -> TriggerSpec {
    TriggerSpec {
        at,
        slot: Slot(slot),
        res,
        level,
        threshold_us,
        window_us,
    }
}

/// Returns how much (ns) the time at index `place` grows in the interval before tick number `tick`:
/// a pseudo-random fraction of the interval's length `interval` (ns).
fn growth(tick: u64, slot: u64, cpu: u64, place: u64, interval: Ns) -> Ns {
    let mixed = tick
        .wrapping_mul(5)
        .wrapping_add(slot.wrapping_mul(3))
        .wrapping_add(cpu.wrapping_mul(7))
        .wrapping_add(place.wrapping_mul(2));
    interval.wrapping_mul(mixed % 11) / 10
}

/// Makes the groups of the test `groups_that_come_and_go`.
fn groups(rt: &impl Abort, alloc: Global) -> [GroupLife; 4] {
    [
        group(rt, alloc, 0, None),
        group(rt, alloc, 0, Some(5 * SECOND)),
        group(rt, alloc, 2_500_000_000, None),
        group(rt, alloc, 4 * SECOND, None),
    ]
}

/// Makes the triggers of the test `groups_that_come_and_go`.
fn triggers() -> [TriggerSpec; 6] {
    let some = Level::SomeStalled;
    let full = Level::FullStalled;
    [
        trigger(0, 0, Res::Io, some, 100_000, 1_000_000),
        trigger(4 * SECOND, 0, Res::Memory, some, 500_000, 2_000_000),
        trigger(4 * SECOND, 3, Res::Cpu, some, 1_000_000, 10_000_000),
        trigger(4 * SECOND + 1, 0, Res::Memory, some, 500_000, 2_000_000),
        trigger(SECOND, 1, Res::Io, full, 1, 500_000),
        trigger(2_500_000_000, 2, Res::Cpu, full, 300_000, 500_000),
    ]
}

/// Makes the machine of the test `groups_that_come_and_go`.
fn large_machine(rt: &impl Abort, alloc: Global) -> Machine {
    Machine::make(rt, alloc, 3, &groups(rt, alloc), &triggers())
}

/// Returns the time (ns) of tick number `tick`, or 0 for the start.
fn moment(tick: u64) -> Ns {
    match tick {
        0 => 0,
        1 => 1_000_000_000,
        2 => 2_000_000_000,
        3 => 4_000_000_000,
        4 => 5_000_000_000,
        5 => 11_000_000_000,
        6 => 12_500_000_000,
        _ => 14_000_000_000,
    }
}

/// Returns the time (ns) with index `place` of a group on a processor, up to tick number `tick`.
/// This is the time in a state, or the interrupt time.
fn time(tick: u64, slot: u32, cpu: u32, place: u64) -> Ns {
    let mut time = 0u64;
    for past in 1..=tick {
        let interval = moment(past).wrapping_sub(moment(past.wrapping_sub(1)));
        let grown = growth(past, u64::from(slot), u64::from(cpu), place, interval);
        time = time.wrapping_add(grown);
    }
    time
}

/// Returns all times (ns) of a group on a processor, up to tick number `tick`.
fn times(tick: u64, slot: u32, cpu: u32) -> Times {
    [
        time(tick, slot, cpu, 0),
        time(tick, slot, cpu, 1),
        time(tick, slot, cpu, 2),
        time(tick, slot, cpu, 3),
        time(tick, slot, cpu, 4),
        time(tick, slot, cpu, 5),
        time(tick, slot, cpu, 6),
        time(tick, slot, cpu, 7),
    ]
}

/// Sets the times of four groups on three processors, and makes tick number `tick`.
fn play(rt: &impl Abort, machine: &mut Machine, tick: u64) {
    for place in 0..12u32 {
        let slot = place / 3;
        let cpu = place % 3;
        machine.set(rt, cpu, slot, times(tick, slot, cpu));
    }
    machine.tick(rt, moment(tick));
}

/// Checks that the totals of the four groups are the numbers in `text`, in which `|` separates the
/// groups.
fn assert_all_totals(rt: &impl Abort, machine: &Machine, text: &str) {
    let mut slot = 0u32;
    for totals in text.split('|') {
        assert_totals(rt, machine, slot, totals);
        slot = slot.wrapping_add(1);
    }
    assert_equal!(rt; slot, 4, "groups of a row");
}

/// Makes tick number `tick`, and checks that the triggers and the totals in `row` are correct.
/// `row` is a row of `TICKS`.
fn assert_row(rt: &impl Abort, machine: &mut Machine, tick: u64, row: &str) {
    let (digits, totals) = row
        .split_once('|')
        .expect(rt, "a row has digits and totals");
    play(rt, machine, tick);
    assert_signalled(rt, machine, digits);
    assert_all_totals(rt, machine, totals);
}

/// One row per tick: the numbers of the triggers that fire, followed by the totals (ns) of each
/// group.
const TICKS: &str = "04|\
    611764705 811764705 429411764 241176470 441176470 511764705 329411764|\
    613333333 813333333 353333333 553333333 386666666 586666666 253333333|\
    0 0 0 0 0 0 0|\
    0 0 0 0 0 0 0;\
    04|\
    1091764705 1491764705 1309411764 551176470 951176470 891764705 1109411764|\
    1276491227 1097543859 837543859 890175438 923508771 1149824560 637543859|\
    0 0 0 0 0 0 0|\
    0 0 0 0 0 0 0;\
    01245|\
    2177478990 2977478990 1937983192 1579747898 1594033612 1934621847 2795126049|\
    2409824560 2630877192 1304210525 1756842104 1456842104 2083157893 2370877192|\
    960000000 1360000000 1760000000 620000000 1020000000 760000000 1560000000|\
    1326315789 568421052 968421052 673684210 1073684210 1126315789 768421052;\
    05|\
    2855256767 3244145656 2404649858 1879747898 2094033612 2512399624 3161792715|\
    2409824560 2630877192 1304210525 1756842104 1456842104 2083157893 2370877192|\
    1502857142 2102857142 2074285714 1134285714 1341428571 1281428571 2402857142|\
    1892982455 1335087718 1201754385 1107017543 1340350876 1592982455 1635087718;\
    0135|\
    5800711312 7389600201 7750104403 4225202443 3239488157 4857854169 7907247260|\
    2409824560 2630877192 1304210525 1756842104 1456842104 2083157893 2370877192|\
    5569523808 3702857142 4874285714 2934285714 4341428571 4748095237 4602857142|\
    5417982455 6060087718 3414254385 4519517543 3890350876 4517982455 3247587718;\
    05|\
    6720711312 8609600201 8280104403 5055202443 3819488157 5737854169 8287247260|\
    2409824560 2630877192 1304210525 1756842104 1456842104 2083157893 2370877192|\
    6305887444 4739220778 6210649350 3520649350 4627792207 5334458873 5789220778|\
    6452982455 6570087718 4224254385 5052017543 4722850876 5402982455 3907587718;\
    01235|\
    7715448154 9035915990 9006420192 5560465600 4624751314 6582591011 8863563049|\
    2409824560 2630877192 1304210525 1756842104 1456842104 2083157893 2370877192|\
    7225887444 5959220778 6740649350 4350649350 5207792207 6214458873 6169220778|\
    7237597839 7654703102 4593485154 5721248312 5184389337 6164520916 5142203102";

/// The averages of each group after the last tick, in fixed point (2,048 is one percent).
const AVERAGES: &str =
    "94268 23401 5194, 110736 27710 6168, 103858 24776 5465, 60827 15667 3497, 54267 13794 3081, 74548 18957 4225, 109978 27234 6048;\
    39915 7835 1660, 44601 8592 1815, 20989 4199 893, 29320 5733 1214, 23621 4724 1004, 34383 6777 1437, 41324 7772 1636;\
    77486 16699 3608, 63912 14735 3223, 81155 17990 3908, 49316 11085 2411, 70754 15285 3303, 75985 16172 3486, 80522 18276 3986;\
    92356 19450 4172, 92356 19450 4172, 58387 13127 2844, 85307 18177 3906, 71951 15765 3402, 92356 19450 4172, 73527 15652 3364";

/// Checks that the averages of the four groups are the numbers in `AVERAGES`.
fn assert_all_averages(rt: &impl Abort, machine: &Machine) {
    let mut slot = 0u32;
    for row in AVERAGES.split(';') {
        assert_averages(rt, machine, slot, row);
        slot = slot.wrapping_add(1);
    }
    assert_equal!(rt; slot, 4, "groups with averages");
}

// The machine has three processors and four groups. The third group is created between the second
// and the third tick, and the fourth group at the third tick. The second group is removed at the
// fourth tick. Stall times also grow while a group isn't live, but no total includes that growth.
// The second trigger is set exactly at the time of a tick, the third when its group is created, and
// the fourth a nanosecond later. The fifth is on the removed group. Some ticks miss averaging
// periods.
#[test]
fn groups_that_come_and_go(rt: HostRuntime) {
    let mut machine = large_machine(&rt, rt.alloc());
    let mut tick = 0u64;
    for row in TICKS.split(';') {
        tick = tick.wrapping_add(1);
        assert_row(&rt, &mut machine, tick, row);
    }
    assert_equal!(rt; tick, 7, "ticks");
    assert_all_averages(&rt, &machine);
}

/// Creates a machine with one processor and one group.
fn small_machine(rt: &impl Abort, alloc: Global, triggers: &[TriggerSpec]) -> Machine {
    let lives = [group(rt, alloc, 0, None)];
    Machine::make(rt, alloc, 1, &lives, triggers)
}

/// Makes a tick at `now` (ns). Up to the tick, all tasks of the group waited for IO, and none for
/// memory or CPU. Checks the group's totals and averages, and that no trigger fired.
fn assert_waiting(rt: &impl Abort, machine: &mut Machine, now: Ns, totals: &str, averages: &str) {
    machine.set(rt, 0, 0, [now, now, 0, 0, 0, 0, now, 0]);
    machine.tick(rt, now);
    assert_totals(rt, machine, 0, totals);
    assert_averages(rt, machine, 0, averages);
    assert_signalled(rt, machine, "");
}

// All tasks of the only processor wait for IO all the time. The ticks are two seconds apart.
#[test]
fn waits_without_end(rt: HostRuntime) {
    let mut machine = small_machine(&rt, rt.alloc(), &[]);
    let totals = "2000000000 2000000000 0 0 0 0 0";
    let averages = "37100 6700 1400, 37100 6700 1400, 0 0 0, 0 0 0, 0 0 0, 0 0 0, 0 0 0";
    assert_waiting(&rt, &mut machine, 2 * SECOND, totals, averages);
    let totals = "4000000000 4000000000 0 0 0 0 0";
    let averages = "67480 13181 2791, 67480 13181 2791, 0 0 0, 0 0 0, 0 0 0, 0 0 0, 0 0 0";
    assert_waiting(&rt, &mut machine, 4 * SECOND, totals, averages);
}

/// Makes a tick at `now` (ns). Up to the tick, the group was busy all the time without a stall, and
/// interrupts took `irq` ns. Checks the group's averages, and that its only total that isn't 0 is
/// `irq`.
fn assert_interrupt(rt: &impl Abort, machine: &mut Machine, now: Ns, irq: Ns, averages: &str) {
    machine.set(rt, 0, 0, [0, 0, 0, 0, 0, 0, now, irq]);
    machine.tick(rt, now);
    assert_equal!(rt; machine.totals(rt, 0), [0, 0, 0, 0, 0, 0, irq], averages);
    assert_averages(rt, machine, 0, averages);
}

/// Makes one tick per row, and checks the interrupt total and the averages after each tick. A row
/// has the time of the tick (ns), the interrupt time (ns) up to the tick, and the averages.
fn assert_interrupts(rt: &impl Abort, alloc: Global, rows: &[(Ns, Ns, &str)]) {
    let mut machine = small_machine(rt, alloc, &[]);
    for (now, irq, averages) in rows {
        assert_interrupt(rt, &mut machine, *now, *irq, averages);
    }
}

// Interrupts take half of the first two seconds on the only processor, and no time in the next two.
#[test]
fn interrupts_of_half_a_period(rt: HostRuntime) {
    let half = "0 0 0, 0 0 0, 0 0 0, 0 0 0, 0 0 0, 0 0 0, 18550 3350 700";
    let none = "0 0 0, 0 0 0, 0 0 0, 0 0 0, 0 0 0, 0 0 0, 15189 3240 695";
    let rows = [(2 * SECOND, SECOND, half), (4 * SECOND, SECOND, none)];
    assert_interrupts(&rt, rt.alloc(), &rows);
}

// A trace reports an interrupt after the interrupt's end. Therefore the interrupt time of an
// interval (half a second here) may be up to a second longer than the interval.
#[test]
fn interrupts_known_late(rt: HostRuntime) {
    let none = "0 0 0, 0 0 0, 0 0 0, 0 0 0, 0 0 0, 0 0 0, 0 0 0";
    let late = "0 0 0, 0 0 0, 0 0 0, 0 0 0, 0 0 0, 0 0 0, 27825 5025 1050";
    let half = SECOND / 2;
    let rows = [
        (SECOND, 0, none),
        (SECOND + half, SECOND + half, none),
        (2 * SECOND, SECOND + half, late),
    ];
    assert_interrupts(&rt, rt.alloc(), &rows);
}

/// Creates 256 triggers with thresholds of 10 ms, 20 ms and so on to 2560 ms, in windows of ten
/// seconds.
fn many_triggers(rt: &impl Abort, alloc: Global) -> Vec<TriggerSpec> {
    let mut triggers = Vec::new(alloc);
    for i in 0..256u64 {
        let threshold_us = (i + 1) * 10_000;
        let next = trigger(0, 0, Res::Io, Level::SomeStalled, threshold_us, 10_000_000);
        triggers.push(next).expect(rt, "memory");
    }
    triggers
}

/// Returns whether the numbers are `from`, `from + 1` and so on up to `to`, excluding `to`.
fn is_range(numbers: &[u32], from: u32, to: u32) -> bool {
    let mut next = from;
    for number in numbers {
        if *number != next {
            return false;
        }
        next = next.wrapping_add(1);
    }
    next == to
}

/// Returns the range of the triggers that must fire after `second` seconds: the number of the first
/// trigger, and the number after the last trigger.
fn owed(second: u64) -> (u32, u32) {
    match second {
        1 | 11 => (0, 100),
        2 | 12 => (100, 200),
        3 => (200, 256),
        _ => (0, 0),
    }
}

/// Makes the tick at `second` seconds after one more second of IO stall. Checks that exactly the
/// triggers in the range `owed` fire.
fn assert_stall(rt: &impl Abort, machine: &mut Machine, second: u64) {
    let now = second.wrapping_mul(SECOND);
    let (from, to) = owed(second);
    machine.set(rt, 0, 0, [now, 0, 0, 0, 0, 0, now, 0]);
    machine.tick(rt, now);
    let fired = machine.fired();
    assert!(rt;
        is_range(fired, from, to),
        "triggers at {second} s, expected: {from}..{to}, actual: {fired:?}"
    );
}

// The group is in an IO stall all the time, so its stall total grows by one second per second.
#[test]
fn many_triggers_on_one_group(rt: HostRuntime) {
    let mut machine = small_machine(&rt, rt.alloc(), &many_triggers(&rt, rt.alloc()));
    for second in 1..13u64 {
        assert_stall(&rt, &mut machine, second);
    }
}

//! Tests of the triggers and the side events in the plans. Side events are memory samples,
//! preferences and changes of task counts. They change no processor.

use crate::events::plans_of;
use proc_plan::{Side, SideAct};
use psi_base::{Cpu, Level, Ns, Preference, Res, Slot, TriggerSpec};
use test_support::assert_equal;

/// A trace with triggers and every kind of side event: samples of a group and of the host,
/// preferences, and tasks that join and leave groups.
const LINES: [&[u8]; 19] = [
    b"1 group /a",
    b"1 group /a/b",
    b"2 fork 1 /a 0",
    b"3 mem /a/b 4096 8192 7",
    b"4 prefer /a avoid",
    b"4 prefer /a none",
    b"5 host 100 50 25",
    b"6 trigger /a io some 150000 1000000",
    // The task moves to another group, and then to the same group again.
    b"7 move 1 /a/b",
    b"8 move 1 /a/b",
    b"9 switch 0 1 idle",
    b"9 trigger / memory full 1 500000",
    b"10 switch 0 0 exit",
    // From here on, the path /a/b names a new group, in slot 3.
    b"11 rmgroup /a/b",
    b"11 group /a/b",
    b"12 mem /a/b 1 2 3",
    b"12 prefer / prefer",
    b"12 fork 1 /a/b 0",
    b"13 end",
];

fn side(at: Ns, what: SideAct) -> Side {
    Side { at, what }
}

/// Makes the side event of a task that joins the group in `slot` (`added` is 1) or leaves it
/// (`added` is -1).
fn task(at: Ns, slot: u32, added: i8) -> Side {
    let slot = Slot(slot);
    side(at, SideAct::Tasks { slot, added })
}

fn mem(at: Ns, slot: u32, current: u64, swap: u64, scan: u64) -> Side {
    let what = SideAct::Mem {
        slot: Slot(slot),
        current,
        swap,
        scan,
    };
    side(at, what)
}

fn prefer(at: Ns, slot: u32, preference: Preference) -> Side {
    let slot = Slot(slot);
    side(at, SideAct::Prefer { slot, preference })
}

#[test]
fn sides_in_their_order(rt: HostRuntime) {
    let plans = plans_of(&rt, rt.alloc(), 1, 13, &LINES);
    let host = SideAct::Host {
        mem_total: 100,
        swap_total: 50,
        swap_free: 25,
    };
    let want = [
        task(2, 1, 1),
        mem(3, 2, 4096, 8192, 7),
        prefer(4, 1, Preference::Avoid),
        prefer(4, 1, Preference::Plain),
        side(5, host),
        task(7, 1, -1),
        task(7, 2, 1),
        task(10, 2, -1),
        mem(12, 3, 1, 2, 3),
        prefer(12, 0, Preference::Prefer),
        task(12, 3, 1),
    ];
    assert_equal!(rt; plans.sides(), want.as_slice(), "sides");
}

#[test]
fn triggers_in_their_order(rt: HostRuntime) {
    let plans = plans_of(&rt, rt.alloc(), 1, 13, &LINES);
    let want = [
        TriggerSpec {
            at: 6,
            slot: Slot(1),
            res: Res::Io,
            level: Level::SomeStalled,
            threshold_us: 150_000,
            window_us: 1_000_000,
        },
        TriggerSpec {
            at: 9,
            slot: Slot(0),
            res: Res::Memory,
            level: Level::FullStalled,
            threshold_us: 1,
            window_us: 500_000,
        },
    ];
    assert_equal!(rt; plans.triggers(), want.as_slice(), "triggers");
}

// A plan has the parents of all groups, including removed ones.
#[test]
fn parents_of_all_slots(rt: HostRuntime) {
    let plans = plans_of(&rt, rt.alloc(), 1, 13, &LINES);
    let plan = plans.plan(Cpu(0));
    assert_equal!(rt; plans.lives().len(), 4, "groups");
    for &(slot, parent) in &[
        (0, None),
        (1, Some(Slot(0))),
        (2, Some(Slot(1))),
        (3, Some(Slot(1))),
    ] {
        assert!(rt; slot < 4);
        assert_equal!(rt; plan.parent(Slot(slot)), parent, slot);
    }
}

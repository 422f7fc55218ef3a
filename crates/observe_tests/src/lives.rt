//! Tests of runs without samples: the observed group isn't live at any tick, or the trace has no
//! tick. Only board states are printed.

use crate::runs::assert_prints;

const NO_TICK: &str = "psitrace 1 cpus=1\n0 end\n";

/// A trace with a group that is created and removed between two ticks.
const BETWEEN_TICKS: &str = "psitrace 1 cpus=2\n\
    2500000000 group /a\n\
    2500000000 fork 1 /a 1\n\
    3000000000 move 1 /\n\
    3500000000 rmgroup /a\n\
    4100000000 end\n";

/// A trace in which a task of a group waits for IO for three seconds. The group's trigger fires at
/// both ticks.
const SIGNALS: &str = "psitrace 1 cpus=1\n\
    0 group /web\n\
    0 fork 1 /web 0\n\
    0 trigger /web io some 500000 2000000\n\
    0 switch 0 1 idle\n\
    1000000000 switch 0 0 iowait\n\
    4000000000 wake 1 0\n\
    4000000000 switch 0 1 idle\n\
    5000000000 end\n";

#[test]
fn no_tick(rt: HostRuntime) {
    let one = "board observer=0 tick=0 events=0 kills=0\nend 0 samples=0\n";
    assert_prints(&rt, "t 1 /", NO_TICK, one);
    let three = "board observer=0 tick=0 events=0 kills=0\n\
        board observer=1 tick=0 events=0 kills=0\n\
        board observer=2 tick=0 events=0 kills=0\n\
        end 0 samples=0\n";
    assert_prints(&rt, "t 3 /a/b", NO_TICK, three);
}

#[test]
fn live_at_no_tick(rt: HostRuntime) {
    let none = "board observer=0 tick=2 events=0 kills=0\n\
        board observer=1 tick=2 events=0 kills=0\n\
        end 4100000000 samples=0\n";
    assert_prints(&rt, "t 2 /a", BETWEEN_TICKS, none);
    assert_prints(&rt, "t 2 /nope", BETWEEN_TICKS, none);
}

// The board counts the trigger events of all groups, not only of the observed group.
#[test]
fn signals_up_to_the_last_tick(rt: HostRuntime) {
    let both = "board observer=0 tick=2 events=2 kills=0\nend 5000000000 samples=0\n";
    assert_prints(&rt, "t 1 /web/log", SIGNALS, both);
}

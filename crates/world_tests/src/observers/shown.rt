//! Tests the states that an observer reads from the tick board in one thread, while the driver
//! publishes 10,000 ticks in another.

use crate::observers::boards::beside;
use test_support::assert_equal;

/// The number of published ticks.
const TICKS: u32 = 10_000;

// Each state that the observer reads was published, and the ticks that it reads never decrease. In
// the end the observer reads the state of the last tick.
#[test]
fn reads_beside_the_driver(rt: HostRuntime) {
    let readings = beside(&rt, rt.alloc(), TICKS);
    assert_equal!(rt; readings.last.tick, 10_000, "the last tick");
    assert_equal!(rt; readings.last.events, 30_000, "the last events");
    let mut least = 0;
    for state in &readings.states {
        assert!(rt; least <= state.tick);
        let events = state.tick.checked_mul(3);
        assert_equal!(rt; Some(state.events), events, "events up to a tick");
        assert_equal!(rt; state.kills, 0, "kills");
        least = state.tick;
    }
}

//! Tests of the masks (sets of states) that task counts determine, and of single clocks that
//! advance with such masks. The tests use no groups and no plans.

use cpu_clock::Clock;
use psi_base::State;
use state_mask::{Counts, Mask, STATES, mask_of};
use test_support::assert_equal;

/// Makes counts from four numbers, in the order of the fields.
fn counts([io, stalled, running, stalled_running]: [u32; 4]) -> Counts {
    Counts {
        io,
        stalled,
        running,
        stalled_running,
    }
}

const N: bool = false;

const Y: bool = true;

/// Each row has counts, whether the running task is among the counted tasks, whether the running
/// task is in a memory stall, and which states hold: IO some and full, memory some and full, CPU
/// some and full, nonidle.
const STATES_HELD: [([u32; 4], bool, bool, [bool; 7]); 13] = [
    ([0, 0, 0, 0], N, N, [N, N, N, N, N, N, N]),
    ([1, 0, 0, 0], N, N, [Y, Y, N, N, N, N, Y]),
    ([1, 0, 1, 0], N, N, [Y, N, N, N, Y, Y, Y]),
    ([1, 0, 1, 0], Y, N, [Y, N, N, N, N, N, Y]),
    ([0, 1, 0, 0], N, N, [N, N, Y, Y, N, N, Y]),
    ([0, 1, 1, 0], N, N, [N, N, Y, N, Y, Y, Y]),
    ([0, 2, 1, 1], N, N, [N, N, Y, Y, Y, Y, Y]),
    ([0, 0, 1, 0], Y, N, [N, N, N, N, N, N, Y]),
    ([0, 0, 1, 0], N, N, [N, N, N, N, Y, Y, Y]),
    ([0, 0, 2, 0], Y, N, [N, N, N, N, Y, N, Y]),
    // The state memory full holds because the running task is in a stall. The counts alone don't
    // imply that state.
    ([0, 1, 2, 1], Y, Y, [N, N, Y, Y, Y, N, Y]),
    ([0, 1, 2, 1], Y, N, [N, N, Y, N, Y, N, Y]),
    // The running task is in a stall, but isn't among the counted tasks.
    ([0, 1, 2, 1], N, Y, [N, N, Y, N, Y, Y, Y]),
];

#[test]
fn states_by_counts(rt: HostRuntime) {
    for row in &STATES_HELD {
        let (numbers, on_cpu, current_stalled, _) = *row;
        let mask = mask_of(&counts(numbers), on_cpu, current_stalled);
        let held = STATES.map(|state| mask.holds(state));
        let found = (numbers, on_cpu, current_stalled, held);
        assert_equal!(rt; found, *row, "states by counts");
        assert_equal!(rt; Mask::from_bits(mask.bits()).bits(), mask.bits(), "by bits");
    }
    let waiting = mask_of(&counts([1, 0, 0, 0]), false, false);
    assert_equal!(rt; waiting.bits(), 0b100_0011, "one task waits for IO");
    let stalled = mask_of(&counts([0, 1, 2, 1]), true, true);
    assert_equal!(rt; stalled.bits(), 0b101_1100, "the running task stalls");
    assert!(rt; !Mask::empty().holds(State::Nonidle));
}

// A task is created and starts to run at 0 ns. At 500,000,000 ns it starts to wait for IO.
#[test]
fn clock_of_three_changes(rt: HostRuntime) {
    let mut clock = Clock::zero();
    clock.advance(0, mask_of(&counts([0, 0, 1, 0]), false, false));
    clock.advance(0, mask_of(&counts([0, 0, 1, 0]), true, false));
    let waits = mask_of(&counts([1, 0, 0, 0]), false, false);
    clock.advance(500_000_000, waits);
    assert_equal!(rt; clock.times, [0, 0, 0, 0, 0, 0, 500_000_000], "times");
    assert_equal!(rt; clock.mask.bits(), waits.bits(), "mask");
    assert_equal!(rt; clock.start, 500_000_000, "start");
    let opened = [1_500_000_000, 1_500_000_000, 0, 0, 0, 0, 2_000_000_000];
    assert_equal!(rt; clock.opened(2_000_000_000), opened, "times at 2 s");

    let words = clock.to_words();
    let want = [0, 0, 0, 0, 0, 0, 500_000_000, 0b100_0011, 500_000_000];
    assert_equal!(rt; words, want, "words");
    let again = Clock::from_words(words).to_words();
    assert_equal!(rt; again, words, "words of the clock of the words");
}

/// Each row turns a clock at 35 ns. Until then, one task has been running since 10 ns. A row has
/// the counts after the change, whether the running task is among the counted tasks, and the words
/// of the clock after the change. The clock restarts at 35 ns if the states change.
const TURNS: [([u32; 4], bool, [u64; 9]); 4] = [
    ([0, 0, 1, 0], true, [0, 0, 0, 0, 0, 0, 0, 0b100_0000, 10]),
    ([0, 0, 2, 0], true, [0, 0, 0, 0, 0, 0, 25, 0b101_0000, 35]),
    ([1, 0, 0, 0], false, [0, 0, 0, 0, 0, 0, 25, 0b100_0011, 35]),
    ([0, 0, 0, 0], false, [0, 0, 0, 0, 0, 0, 25, 0, 35]),
];

#[test]
fn turns_of_a_clock(rt: HostRuntime) {
    let mut clock = Clock::zero();
    clock.advance(10, mask_of(&counts([0, 0, 1, 0]), true, false));
    for row in &TURNS {
        let (numbers, on_cpu, _) = *row;
        let mut turned = clock;
        turned.turn(35, mask_of(&counts(numbers), on_cpu, false));
        let found = (numbers, on_cpu, turned.to_words());
        assert_equal!(rt; found, *row, "words at 35 ns");
    }
}

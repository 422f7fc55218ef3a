//! Helpers for tests of the tick board: a driver publishes ticks in one thread while an observer
//! reads the board in another.

ghost use Rattle.std.specs.Prelude.{◌≡◌, ◌+◌, length};
ghost use Rattle.std.specs.Thread.{IsSync};

use observer_log::{Board, BoardPass, BoardState, DriverPass};
use std::alloc::Global;
use std::process::Abort;
use std::sync::Wait;
use std::thread::{Threads, join, yield_now};

/// The maximum number of times that the observer reads the board. It ensures that the test ends.
const READS: u64 = 20_000_000;

/// The number of events that each tick adds.
const EVENTS_OF_A_TICK: u64 = 3;

/// The states that an observer read. `states` were read while the driver was running, and have no
/// repetitions. `last` was read after the driver had published all ticks.
#[derive(Drop)]
pub struct Readings {
    pub states: Vec<BoardState>,
    pub last: BoardState,
}

// Publishes the states of ticks 1 to `ticks`.
fn published<R: Wait>(rt: &R, board: &Board, mut driver: DriverPass, ticks: u32) -> DriverPass
    requires board { driver.board ≡ board.now }
    requires first { length driver.states ≡ 1 }
    ensures board { result.board ≡ board.now }
    ensures all { length result.states ≡ ticks + 1 }
{
    'ticks: for before in 0..ticks {
        let tick = u64::from(before) + 1;
        let state = BoardState {
            tick,
            events: EVENTS_OF_A_TICK * tick,
            kills: 0,
        };
        board.publish(rt, &mut driver, state);
        yield_now();
    }
    driver
}

// Reads the board until it shows tick `ticks`, at most `READS` times. Returns the states with
// different ticks, in order.
fn watched<R: Wait>(
    rt: &R,
    alloc: Global,
    board: &Board,
    mut pass: BoardPass,
    ticks: u32,
) -> (BoardPass, Vec<BoardState>)
    requires { pass.board ≡ board.now }
    ensures { result.0.board ≡ board.now }
{
    let mut states: Vec<BoardState> = Vec::new(alloc);
    let mut shown = None;
    'reads: for _ in 0..READS {
        let state = board.read(rt, &mut pass);
        if shown != Some(state.tick) {
            let _ = states.push(state);
            shown = Some(state.tick);
        }
        if state.tick >= u64::from(ticks) {
            break;
        }
    }
    (pass, states)
}

/// Publishes `ticks` ticks as the driver in one thread, while an observer reads the board in
/// another. Then notifies the observer of all published states, and reads the last state.
pub fn beside<R: Abort + Threads + Wait + Sync>(rt: &R, alloc: Global, ticks: u32) -> Readings {
    let (board, mut driver) = Board::make(alloc).expect(rt, "memory");
    let pass = board.pass(rt, &mut driver).expect(rt, "memory");
    let (mut driver, (mut pass, states)) = join(
        rt,
        || -> DriverPass
            requires sync { IsSync R.row }
            requires board { driver.board ≡ board }
            requires first { length driver.states ≡ 1 }
            ensures board { result.board ≡ board }
            ensures all { length result.states ≡ ticks + 1 }
        { published(rt, &board, driver, ticks) },
        || -> (BoardPass, Vec<BoardState>)
            requires sync { IsSync R.row }
            requires board { pass.board ≡ board }
            ensures { result.0.board ≡ board }
        { watched(rt, alloc, &board, pass, ticks) },
    );
    board.tell(rt, &mut driver, &mut pass).expect(rt, "memory");
    let last = board.read(rt, &mut pass);
    board.tell(rt, &mut driver, &mut pass).expect(rt, "memory");
    Readings { states, last }
}

//! Replays all ticks with observers, and publishes the state after each tick on the board. The
//! module `interval` replays a single tick.
ghost use Rattle.std.specs.Prelude.{◌≡◌, None, IfOk, ◌∷◌, [], length};
ghost use Rattle.run_spec.specs.Replay.{tick_count};
ghost use Rattle.observer_log.specs.Board.{first_state};
ghost use Rattle.observe_core.specs.Driving.{AreShown, AreWhole, HaveObserved, IsObserved, IsToBegin, Setting};

use crate::interval::tick;
use crate::observer::Observer;
use observer_log::{Board, BoardState, DriverPass};
use outside::Gate;
use psi_base::NoMemory;
use replay_ticks::Replay;
use std::sync::Wait;
use std::sync::ledger::Ledger;
use std::thread::Threads;

// Returns the out-of-memory failure of the first observer that ran out of memory, or `None` if no
// observer did.
fn failure<L: Ledger>(observers: &[Observer<'_, '_, L>]) -> Option<NoMemory>
    ensures { result ≡ None → AreWhole observers.now }
{
    'observers: for observer in observers {
        if let Some(none) = observer.failed() {
            return Some(none);
        }
    }
    None
}

/// Replays all ticks, and returns the observers. After each tick the state of the replay is
/// published on the board. Fails with `NoMemory` if an observer runs out of memory.
pub(crate) fn all_ticks<'j, 'a, L: Ledger + Send + Sync, R: Threads + Wait + Sync, G: Gate>(
    rt: &R,
    mut replay: Replay<'a>,
    mut observers: Vec<Observer<'j, 'a, L>>,
    board: &Board,
    driver: &mut DriverPass,
    gate: &G,
) -> Result<Vec<Observer<'j, 'a, L>>, NoMemory>
    requires begin { IsToBegin board.now replay observers.items }
    requires driver { driver.old.board ≡ board.now }
    requires first { driver.old.states ≡ first_state ∷ [] }
    ensures driver { driver.new.board ≡ driver.old.board }
    ensures many { IfOk result (λ after. length after.items ≡ length observers.entry.items) }
    ensures observed { IfOk result (λ after. (set : Setting) → set.board ≡ board.now →
        IsObserved set replay.entry observers.entry.items 0 →
        HaveObserved set (tick_count set.trace set.timing) after.items) }
    ensures shown { IfOk result (λ _. (set : Setting) → set.board ≡ board.now →
        IsObserved set replay.entry observers.entry.items 0 →
        AreShown set.trace set.timing (tick_count set.trace set.timing) driver.new.states) }
{
    let last = replay.ticks();
    'passes: for made in 0..last {
        let (next, watched) = tick(rt, replay, observers, board, gate);
        replay = next;
        observers = watched;
        if let Some(none) = failure(&observers) {
            return Err(none);
        }
        let state = BoardState {
            tick: made + 1,
            events: replay.signals(),
            kills: 0,
        };
        board.publish(rt, driver, state);
    }
    Ok(observers)
}

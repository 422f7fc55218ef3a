//! One tick of a replay with observers. The observers take samples while the replay makes the
//! changes up to the tick.
ghost use Rattle.std.specs.Prelude.{◌≡◌, ◌+◌, ◌<◌, ℕ, length};
ghost use Rattle.std.specs.List.{All};
ghost use Rattle.std.specs.Thread.{IsSync};
ghost use Rattle.run_spec.specs.Replay.{tick_count};
ghost use Rattle.replay_ticks.specs.Replays.{IsTickLeft};
ghost use Rattle.observe_core.specs.Driving.{AreWhole, HasPassed, IsObserved, IsToGo, Setting};
ghost use Rattle.observe_core.specs.Observing.{CanWatch, HaveAllWatched};

use crate::all::watch_all;
use crate::observer::Observer;
use crate::ready::ready_all;
use crate::settle::settle_all;
use observer_log::Board;
use outside::Gate;
use psi_base::Slot;
use replay_ticks::Replay;
use std::sync::Wait;
use std::sync::ledger::Ledger;
use std::thread::{Threads, join_mut};

// Replays the next tick, while each observer samples `slot` once on each processor.
fn interval<'j, 'a, L: Ledger + Send + Sync, R: Threads + Wait + Sync, G: Gate>(
    rt: &R,
    mut replay: Replay<'a>,
    mut observers: Vec<Observer<'j, 'a, L>>,
    board: &Board,
    slot: Slot,
    gate: &G,
) -> (Replay<'a>, Vec<Observer<'j, 'a, L>>)
    requires left { IsTickLeft replay }
    requires watch { All (CanWatch board.now slot.0) observers.items }
    ensures passed { HasPassed replay.entry result.0 }
    ensures watched { HaveAllWatched slot.0 observers.entry.items result.1.items }
{
    join_mut(
        rt,
        &mut || -> ()
            requires sync { IsSync R.row }
            requires left { IsTickLeft replay }
            ensures passed { HasPassed replay.entry replay.exit }
        { replay.pass_unwatched(rt, gate) },
        &mut || -> ()
            requires sync { IsSync R.row }
            requires watch { All (CanWatch board.now slot.0) observers.items }
            ensures watched { HaveAllWatched slot.0 observers.entry.items observers.exit.items }
        { watch_all(rt, &mut observers, board, slot, gate) },
    );
    (replay, observers)
}

/// Replays the next tick. If a group has the observed path at the tick, each observer samples the
/// group's slot while the replay makes the changes up to the tick. No sample includes a later
/// change.
pub(crate) fn tick<'j, 'a, L: Ledger + Send + Sync, R: Threads + Wait + Sync, G: Gate>(
    rt: &R,
    mut replay: Replay<'a>,
    mut observers: Vec<Observer<'j, 'a, L>>,
    board: &Board,
    gate: &G,
) -> (Replay<'a>, Vec<Observer<'j, 'a, L>>)
    requires { IsToGo board.now replay observers.items }
    ensures many { length result.1.items ≡ length observers.entry.items }
    ensures observed { (set : Setting) (i : ℕ) → set.board ≡ board.now →
        IsObserved set replay.entry observers.entry.items i →
        i < tick_count set.trace set.timing → AreWhole result.1.items →
        IsObserved set result.0 result.1.items (i + 1) }
{
    match replay.next_slot() {
        Some(slot) => {
            ready_all(&mut replay, &mut observers, slot);
            let (mut replay, mut observers) = interval(rt, replay, observers, board, slot, gate);
            settle_all(&mut replay, &mut observers);
            (replay, observers)
        }
        None => {
            replay.pass_unwatched(rt, gate);
            (replay, observers)
        }
    }
}

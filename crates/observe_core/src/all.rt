//! Runs all observers, each in its own thread. Each thread ends after its observer has sampled all
//! processors once.
ghost use Rattle.std.specs.List.{All};
ghost use Rattle.observe_core.specs.Observing.{CanWatch, HasWatched, HaveAllWatched};

use crate::observer::Observer;
use observer_log::Board;
use outside::Gate;
use psi_base::Slot;
use std::sync::Wait;
use std::sync::ledger::Ledger;
use std::thread;
use std::thread::Threads;

/// Lets each observer read the board once and sample `slot` once on each processor. An observer
/// runs in its own thread, or in the caller's thread if no thread can be started.
pub(crate) fn watch_all<L: Ledger + Send + Sync, R: Threads + Wait + Sync, G: Gate>(
    rt: &R,
    observers: &mut Vec<Observer<'_, '_, L>>,
    board: &Board,
    slot: Slot,
    gate: &G,
)
    requires { All (CanWatch board.now slot.0) observers.old.items }
    ensures { HaveAllWatched slot.0 observers.old.items observers.new.items }
{
    let threads = observers.len();
    if threads > 0 {
        thread::for_each_mut(
            rt,
            observers,
            threads,
            &|_: usize, observer: &mut Observer<'_, '_, L>|
                requires { CanWatch board.now slot.0 observer.now }
                ensures { HasWatched slot.0 observer.old observer.new }
            { observer.watch(rt, board, slot, gate) },
        );
    }
}

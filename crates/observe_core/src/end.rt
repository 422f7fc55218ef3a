//! Ends the observers after the last tick of a replay, and merges their lists of entries in the
//! order of the journal.
ghost use Rattle.std.specs.Prelude.{◌≡◌, ◌+◌, ℕ, IfOk, length, map};
ghost use Rattle.std.specs.List.{All};
ghost use Rattle.observer_log.specs.Board.{IsLast};
ghost use Rattle.observer_log.specs.Entries.{AreOwn, by, list_of};
ghost use Rattle.observer_log.specs.Journal.{joined};
ghost use Rattle.observe_core.specs.Driving.{AreCounted, AreIn};
ghost use Rattle.observe_core.specs.Observing.{ObserverView};

use crate::observer::Observer;
use observer_log::{Board, BoardState, DriverPass, Entry, Journal, Own};
use psi_base::NoMemory;
use std::alloc::Global;
use std::sync::Wait;
use std::sync::ledger::{Ledger, Share};

/// The result of ending all observers. Each list has one element per observer, in the order of
/// observers.
#[derive(Drop)]
pub(crate) struct Ended<'a> {
    /// The entries of each observer.
    pub(crate) own: Vec<Own<'a>>,
    /// The board state that each observer read last.
    pub(crate) states: Vec<BoardState>,
}

/// Ends all observers, in order, and merges their shares of the journal's ledger into `all`.
/// Afterwards `all` counts the entries of all observers, unless the journal rejected an entry.
/// Fails with `NoMemory` if an observer ran out of memory.
pub(crate) fn end_all<'a, L: Ledger, R: Wait>(
    rt: &R,
    alloc: Global,
    observers: Vec<Observer<'_, 'a, L>>,
    board: &Board,
    driver: &mut DriverPass,
    all: &mut Share<L>,
) -> Result<Ended<'a>, NoMemory>
    requires driver { driver.old.board ≡ board.now }
    requires board { All (λ (observer : ObserverView). observer.pass.board ≡ board.now)
        observers.items }
    requires parts { All (λ (observer : ObserverView). observer.parts ≡ 1) observers.items }
    requires counted { AreCounted observers.items }
    ensures own { IfOk result (λ ended. ended.own.items
        ≡ map (λ (observer : ObserverView). observer.watcher.own) observers.entry.items) }
    ensures many { IfOk result (λ ended.
        length ended.states.items ≡ length observers.entry.items) }
    ensures last { IfOk result (λ ended. All (IsLast driver.old.states) ended.states.items) }
    ensures parts { IfOk result (λ _.
        all.new.parts ≡ all.old.parts + length observers.entry.items) }
    ensures counted { IfOk result (λ ended. AreIn observers.entry.items →
        all.new.amount ≡ all.old.amount + length (joined ended.own.items)) }
{
    let mut own = Vec::new(alloc);
    let mut states = Vec::new(alloc);
    'observers: for observer in observers {
        let (list, state) = observer.end(rt, board, driver, all)?;
        own.push(list)?;
        states.push(state)?;
    }
    Ok(Ended { own, states })
}

/// Returns the entries of all lists, in the order of the journal. Requires that all shares of the
/// journal's ledger were merged into `all`.
pub(crate) fn ordered<'a, L: Ledger>(
    mut journal: Journal<'a, L>,
    all: &mut Share<L>,
    own: &[Own<'a>],
) -> Result<Vec<Entry<'a>>, NoMemory>
    requires whole { all.old.parts ≡ L.parts }
    requires own { AreOwn own.now }
    ensures many { length journal.entry ≡ all.old.amount }
    ensures own { IfOk result (λ entries. (observer : ℕ) →
        by observer entries.items ≡ list_of own.now observer) }
{
    // `audit` proves that the journal has as many entries as all shares of its ledger count
    // together.
    journal.audit(all);
    journal.order(own)
}

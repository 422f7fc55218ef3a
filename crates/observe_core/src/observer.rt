//! One observer: it samples the clocks of a group on all processors, and reads the board of ticks.
//! It adds its samples to the journal that all observers share.
ghost use Rattle.std.specs.Prelude.{◌≡◌, ◌+◌, false, is_some, IfOk};
ghost use Rattle.observer_log.specs.Board.{IsLast};
ghost use Rattle.observe_core.specs.Observing.{CanWatch, HasWatched};

use crate::looks::look_at_all;
use clock_row::Sample;
use observer_log::{Board, BoardPass, BoardState, DriverPass, Fall, Journal, Own, Watcher};
use outside::Gate;
use psi_base::{NoMemory, Slot};
use std::marker::Model;
use std::sync::ledger::{Ledger, Share};
use std::sync::{Mutex, Wait};

/// An observer, which may be sent to another thread. In contracts an observer is its watcher, its
/// access to the board, its share of the journal's ledger, its last samples, and its failures. The
/// ledger counts the journal's entries.
#[derive(Drop)]
pub struct Observer<'j, 'a, L: Ledger> {
    pub(crate) journal: &'j Mutex<Journal<'a, L>>,
    pub(crate) watcher: Watcher<'a>,
    pub(crate) pass: BoardPass,
    pub(crate) share: Share<L>,
    /// The last sample on each processor. Before an interval it is a copy of the current clock.
    pub(crate) lasts: Vec<Sample>,
    /// The last rejection of an entry by the journal, or `None` if the journal has accepted all
    /// entries.
    pub(crate) fell: Option<Fall>,
    /// The out-of-memory failure, or `None` if the observer hasn't run out of memory.
    pub(crate) failed: Option<NoMemory>,
}

impl<'j, 'a, L: Ledger> Model for Observer<'j, 'a, L> {
    ghost use Rattle.std.specs.Prelude.{is_some};
    ghost use Rattle.observe_core.specs.Observing.{ObserverView};

    ghost Value = { ObserverView };

    ghost view = { λ o. record {
      watcher = o.watcher;
      pass = o.pass;
      parts = o.share.parts;
      amount = o.share.amount;
      lasts = o.lasts.items;
      fell = is_some o.fell;
      failed = is_some o.failed;
    } };
}

impl<'j, 'a, L: Ledger> Observer<'j, 'a, L> {
    /// Creates an observer from its parts. It has taken no sample.
    pub fn new(
        journal: &'j Mutex<Journal<'a, L>>,
        watcher: Watcher<'a>,
        pass: BoardPass,
        share: Share<L>,
        lasts: Vec<Sample>,
    ) -> Observer<'j, 'a, L>
        ensures watcher { result.watcher ≡ watcher.entry }
        ensures pass { result.pass ≡ pass }
        ensures parts { result.parts ≡ share.parts }
        ensures amount { result.amount ≡ share.amount }
        ensures lasts { result.lasts ≡ lasts.items }
        ensures fell { result.fell ≡ false }
        ensures failed { result.failed ≡ false }
    {
        Observer {
            journal,
            watcher,
            pass,
            share,
            lasts,
            fell: None,
            failed: None,
        }
    }

    /// Reads the board once, and samples `slot` on each processor.
    pub(crate) fn watch<R: Wait, G: Gate>(&mut self, rt: &R, board: &Board, slot: Slot, gate: &G)
        requires { CanWatch board.now slot.0 self.old }
        ensures { HasWatched slot.0 self.old self.new }
    {
        board.read(rt, &mut self.pass);
        match look_at_all(
            rt,
            self.journal,
            &mut self.watcher,
            &mut self.share,
            &self.lasts,
            slot,
            gate,
        ) {
            Ok(None) => {}
            Ok(Some(fall)) => self.fell = Some(fall),
            Err(none) => self.failed = Some(none),
        }
    }

    /// Returns the out-of-memory failure, or `None` if the observer hasn't run out of memory.
    pub fn failed(&self) -> Option<NoMemory>
        ensures { is_some result ≡ self.now.failed }
    {
        self.failed
    }

    /// Ends the observer. First the observer reads the latest published state from the board. Each
    /// state that it has read is then known to be a published state. Returns the observer's entries
    /// and the state that it read last, and merges its share of the journal's ledger into `all`.
    /// Fails with `NoMemory` if the observer ran out of memory before.
    pub fn end<R: Wait>(
        self,
        rt: &R,
        board: &Board,
        driver: &mut DriverPass,
        all: &mut Share<L>,
    ) -> Result<(Own<'a>, BoardState), NoMemory>
        requires driver { driver.old.board ≡ board.now }
        requires board { self.pass.board ≡ board.now }
        ensures driver { driver.new ≡ driver.old }
        ensures own { IfOk result (λ ended. ended.0 ≡ self.entry.watcher.own) }
        ensures last { IfOk result (λ ended. IsLast driver.old.states ended.1) }
        ensures whole { IfOk result (λ _. self.entry.failed ≡ false) }
        ensures parts { all.new.parts ≡ all.old.parts + self.entry.parts }
        ensures amount { all.new.amount ≡ all.old.amount + self.entry.amount }
    {
        let Observer {
            journal: _,
            watcher,
            mut pass,
            share,
            lasts: _,
            fell: _,
            failed,
        } = self;
        all.merge(share);
        board.tell(rt, driver, &mut pass)?;
        let state = board.read(rt, &mut pass);
        board.tell(rt, driver, &mut pass)?;
        match failed {
            None => Ok((watcher.into_own(), state)),
            Some(none) => Err(none),
        }
    }
}

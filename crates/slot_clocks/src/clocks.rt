//! The clocks of all groups on one processor, and the function that applies a change to them. The
//! module `chains` finds the groups that a change affects.

ghost use Rattle.std.specs.Prelude.{◌≡◌, ℕ, ◌<◌, ◌≤◌, length, None, IfOk, IfSome};
ghost use Rattle.psi_counts.specs.Clock.{IsInTime};
ghost use Rattle.psi_spec.specs.LegalGroups.{AreOlder};
ghost use Rattle.psi_spec.specs.Within.{last_moment};
ghost use Rattle.psi_counts.specs.Touch.{HasSlotsBelow};
ghost use Rattle.slot_clocks.specs.Clocks.{AllCanFollow, AllClocksFollow, AllFollow, AllOnWith, AllStayByMask, AreReported, AreWhole, cell_at, first_clocks, parent_numbers};

use crate::cell::Cell;
use crate::chains::{switch, walk};
use crate::packed::PackedChange;
use crate::running::Running;
use cpu_clock::Clock;
use psi_base::{NoMemory, Ns, Slot};
use std::alloc::Global;
use std::marker::Model;

/// The clocks of all groups on one processor, after the changes applied so far. In contracts these
/// are the counts and the clock of each slot, the running task, and the time of the last change.
#[derive(Drop)]
pub struct SlotClocks {
    /// The counts, the accounting and the clock of each slot.
    cells: Vec<Cell>,
    /// The processor's running task after the last change.
    current: Running,
    /// The time (ns) of the last change, or 0 before the first change.
    last: Ns,
}

impl Model for SlotClocks {
    ghost use Rattle.slot_clocks.specs.Clocks.{AreUpTo, ClocksView};

    ghost Value = { ClocksView };

    ghost view = { λ clocks.
        record { cells = clocks.cells.items; current = clocks.current; last = clocks.last } };

    ghost invariant = { λ clocks. AreUpTo clocks.cells.items clocks.last };
}

impl SlotClocks {
    /// Creates the clocks of `slots` slots, before the first change. Later calls don't allocate.
    pub fn make(alloc: Global, slots: u32) -> Result<SlotClocks, NoMemory>
        ensures { IfOk result (λ clocks. clocks ≡ first_clocks slots) }
    {
        Ok(SlotClocks {
            cells: vec![in alloc; Cell::zero(); slots as usize]?,
            current: Running::none(),
            last: 0,
        })
    }

    /// Applies a change of the processor to the counts and clocks of the groups that it affects.
    /// `parents` has the parent of each slot, and `None` for the root. Preconditions: there is a
    /// clock for each slot in `parents`, and a change that turns accounting on or off subtracts no
    /// counts. Does not allocate.
    ///
    /// The change affects up to four slots and their ancestors: the slots of the subtracted and of
    /// the added counts, and the slots of the tasks that run before and after the change. The
    /// running time is proportional to the number of these groups.
    #[tactic(auto, using(crate::proofs::AccountLaws::turned_since))]
    pub fn apply(&mut self, parents: &[Option<Slot>], change: &PackedChange)
        requires older { AreOlder (parent_numbers parents.now) }
        requires room { length parents.now ≤ length self.old.cells }
        requires slots { HasSlotsBelow (length parents.now) change.now }
        requires current { IfSome self.old.current (λ running. running.0.0 < length parents.now) }
        requires known { AreReported (parent_numbers parents.now) self.old }
        requires alone { IfSome change.now.account (λ _. change.now.minus ≡ None) }
        requires fits { AllCanFollow (parent_numbers parents.now) change.now self.old }
        requires later { self.old.last ≤ change.now.at }
        requires early { change.now.at ≤ last_moment }

        // The counts of each group follow from the change, even if no chain contains the group.
        ensures counts { AllFollow (parent_numbers parents.now) change.now self.old self.new }
        ensures accounts { AllOnWith change.now self.old self.new }
        ensures clocks { AllClocksFollow change.now.at self.old self.new }
        ensures unchanged { AllStayByMask self.old self.new }
        ensures whole { AreWhole self.new }
        ensures known { AreReported (parent_numbers parents.now) self.new }

        ensures current { self.new.current ≡ change.now.current }
        ensures last { self.new.last ≡ change.now.at }
        ensures room { length self.new.cells ≡ length self.old.cells }
    {
        switch(&mut self.cells, change.account());
        walk(&mut self.cells, parents, &self.current, change);
        self.current = change.running().again();
        self.last = change.at();
    }

    /// Returns whether a group's accounting is on after the last change. Returns true for a slot
    /// without a clock.
    pub fn is_on(&self, slot: Slot) -> bool
        ensures { result ≡ (cell_at self.now slot.0).on }
    {
        match self.cells.get(slot.0 as usize) {
            Some(cell) => cell.on,
            None => true,
        }
    }

    /// Returns the clock of a group, or the clock at time 0 for a slot without a clock. The result
    /// can be advanced to any time at or after the last change.
    pub fn clock(&self, slot: Slot) -> Clock
        ensures value { result ≡ (cell_at self.now slot.0).clock }
        ensures in_time { (at : ℕ) → self.now.last ≤ at → at ≤ last_moment →
            IsInTime result at }
    {
        match self.cells.get(slot.0 as usize) {
            Some(cell) => cell.clock,
            None => Clock::zero(),
        }
    }
}

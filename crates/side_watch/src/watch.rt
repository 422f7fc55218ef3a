//! A watch has the state of all groups and of the host after the side events of a trace up to a
//! time.
//!
//! A side event is a memory sample, a preference, or a task that joins or leaves a group.

ghost use Rattle.std.specs.Prelude.{◌≡◌, IfOk};
ghost use Rattle.psi_spec.specs.LegalGroups.{AreGroups};
ghost use Rattle.psi_spec.specs.Stall.{parents_of};
ghost use Rattle.slot_clocks.specs.Clocks.{parent_numbers};
ghost use Rattle.kill_spec.specs.LegalReadings.{IsHostReading};
ghost use Rattle.proc_plan.specs.Plans.{AreSmall};
ghost use Rattle.side_watch.specs.Watch.{Advances, Begins, IsSmallMemory};
ghost use Rattle.side_watch.specs.Watch.{first_watch, has_tasks, side_cell_at};

use crate::cell::{GroupMemory, SideCell};
use crate::steps::take_due;
use kill_spec::HostReading;
use proc_plan::Side;
use psi_base::{NoMemory, Ns, Preference, Slot};
use psi_spec::GroupLife;
use std::alloc::Global;
use std::marker::Model;

/// The state of all groups and of the host after the side events of a trace (such as memory
/// samples) up to a time. Contracts refer to all fields.
#[derive(Drop)]
pub struct SideWatch {
    /// The state of each group, indexed by slot.
    cells: Vec<SideCell>,
    /// The parent of each group, indexed by slot. `None` for the root.
    parents: Vec<Option<Slot>>,
    host: HostReading,
    /// The number of side events applied so far.
    taken: usize,
}

impl Model for SideWatch {
    ghost use Rattle.side_watch.specs.Watch.{IsWatch, SideView, watch_view};

    ghost Value = { SideView };

    ghost view = { λ w. watch_view w.cells.items w.parents.items w.host w.taken };

    ghost invariant = { λ w. IsWatch (watch_view w.cells.items w.parents.items w.host w.taken) };
}

// Returns the parent of each group, indexed by slot.
fn parents_of(alloc: Global, lives: &[GroupLife]) -> Result<Vec<Option<Slot>>, NoMemory>
    ensures { IfOk result (λ parents. parent_numbers parents.items ≡ parents_of lives.now) }
{
    let mut parents = Vec::new(alloc);
    'lives: for life in lives {
        parents.push(life.parent)?;
    }
    Ok(parents)
}

impl SideWatch {
    /// Creates the watch of the groups `lives` before the first side event: memory samples of
    /// zeros, plain preferences, and no tasks. Allocates all memory that the watch ever needs.
    ///
    /// `lives` has all groups that the trace ever creates, indexed by slot.
    pub fn make(alloc: Global, lives: &[GroupLife]) -> Result<SideWatch, NoMemory>
        requires groups { AreGroups lives.now }
        ensures first { IfOk result (λ watch. watch ≡ first_watch lives.now) }
        ensures begins { IfOk result (Begins lives.now) }
    {
        Ok(SideWatch {
            cells: vec![in alloc; SideCell::zero(); lives.len()]?,
            parents: parents_of(alloc, lives)?,
            host: HostReading {
                mem_total: 0,
                swap_total: 0,
                swap_free: 0,
            },
            taken: 0,
        })
    }

    /// Applies the side events at or before time `at` (ns) that haven't been applied yet. `sides`
    /// has all side events of the trace in order, and must be the same list at each call. Doesn't
    /// allocate.
    ///
    /// The running time is proportional to the number of events applied. If a task joins or leaves
    /// a group, it is also proportional to the number of the group's ancestors.
    pub fn advance(&mut self, sides: &[Side], at: Ns)
        requires small { AreSmall sides.now }
        ensures advances { Advances self.old self.new sides.now at }
    {
        let taken = take_due(
            &mut self.cells,
            &self.parents,
            &mut self.host,
            sides,
            self.taken,
            at,
        );
        self.taken = taken;
    }

    /// Returns the latest memory sample of the group. All values are 0 if the group has no sample,
    /// or if the slot doesn't exist.
    pub fn memory(&self, slot: Slot) -> GroupMemory
        ensures memory { result ≡ (side_cell_at self.now slot.0).memory }
        ensures small { IsSmallMemory result }
    {
        self.cell(slot).memory
    }

    /// Returns the latest preference of the group. Returns the plain preference if the group has
    /// none, or if the slot doesn't exist.
    pub fn preference(&self, slot: Slot) -> Preference
        ensures { result ≡ (side_cell_at self.now slot.0).preference }
    {
        self.cell(slot).preference
    }

    /// Returns whether there is a live task in the group or in one of its descendants. Returns
    /// false if the slot doesn't exist.
    pub fn is_populated(&self, slot: Slot) -> bool
        ensures { result ≡ has_tasks self.now slot.0 }
    {
        self.cell(slot).tasks > 0
    }

    /// Returns the latest sample of the host's memory (bytes). All values are 0 if there is no
    /// sample.
    pub fn host(&self) -> HostReading
        ensures host { result ≡ self.now.host }
        ensures small { IsHostReading result }
    {
        self.host
    }

    fn cell(&self, slot: Slot) -> SideCell
        ensures cell { result ≡ side_cell_at self.now slot.0 }
        ensures small { IsSmallMemory result.memory }
    {
        match self.cells.get(slot.0 as usize) {
            Some(cell) => *cell,
            None => SideCell::zero(),
        }
    }
}

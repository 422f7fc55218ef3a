//! The number of live tasks in each group. A group can be removed only if it has no tasks.
ghost use Rattle.std.specs.Prelude.{◌≡◌, ℕ, ◌+◌, ◌-◌, ◌<◌, ◌≤◌, ◌^◌, List, [], ◌∷◌, length, slice_index_or, slice_set, nat_lt, IfOk, OnOk};

use psi_base::{NoMemory, Slot};
use std::alloc::Global;
use std::marker::Model;

/// The number of live tasks in each group, indexed by slot. In contracts this is a list of numbers,
/// and the number for a slot past the end of the list is 0.
#[derive(Drop)]
pub(crate) struct Members {
    counts: Vec<u32>,
}

impl Model for Members {
    ghost use Rattle.std.specs.Prelude.{List, ℕ};
    ghost use Rattle.std.specs.Coded.{coded_list, coded_ℕ};

    ghost Value = { List ℕ };

    ghost coded = { coded_list coded_ℕ };

    ghost view = { λ m. m.counts.items };
}

impl Members {
    /// Creates the list for the root group alone, which has no tasks.
    pub(crate) fn new(alloc: Global) -> Result<Members, NoMemory>
        ensures { IfOk result (λ members. members ≡ 0 ∷ []) }
    {
        let counts = Vec::from_array(alloc, [0])?;
        Ok(Members { counts })
    }

    /// Adds an entry, if necessary, so that the list has at least `groups` entries. The added group
    /// has no tasks. Precondition: `groups` is at most one more than the number of entries. Fails
    /// with `NoMemory` if memory runs out.
    pub(crate) fn cover(&mut self, groups: usize) -> Result<(), NoMemory>
        requires { groups ≤ length self.old + 1 }
        ensures same { (slot : ℕ) →
            slice_index_or self.new slot 0 ≡ slice_index_or self.old slot 0 }
        ensures room { OnOk result (groups ≤ length self.new) }
        ensures longer { length self.old ≤ length self.new }
    {
        if self.counts.len() < groups {
            self.counts.push(0)?;
        }
        Ok(())
    }

    /// Returns whether a live task is in the group itself, not only in a group below it.
    pub(crate) fn has(&self, slot: Slot) -> bool
        ensures { result ≡ nat_lt 0 (slice_index_or self.now slot.0 0) }
    {
        self.counts.get(slot.0 as usize).copied().unwrap_or(0) > 0
    }

    /// Adds one to the number of tasks in the group.
    pub(crate) fn join(&mut self, slot: Slot)
        requires room { slot.0 < length self.old }
        requires fits { slice_index_or self.old slot.0 0 + 1 < 2 ^ 32 }
        ensures { self.new ≡ slice_set self.old slot.0 (slice_index_or self.old slot.0 0 + 1) }
    {
        self.counts[slot.0 as usize] += 1;
    }

    /// Subtracts one from the number of tasks in the group.
    pub(crate) fn leave(&mut self, slot: Slot)
        requires room { slot.0 < length self.old }
        requires some { 0 < slice_index_or self.old slot.0 0 }
        ensures { self.new ≡ slice_set self.old slot.0 (slice_index_or self.old slot.0 0 - 1) }
    {
        self.counts[slot.0 as usize] -= 1;
    }
}

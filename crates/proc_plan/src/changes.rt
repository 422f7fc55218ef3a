//! The list of the changes of one processor. It grows while a planner reads a trace. Each change
//! occupies 16 bytes.

ghost use Rattle.std.specs.Prelude.{◌≡◌, ◌++◌, ◌<◌, ◌≤◌, [], ◌∷◌, OnOk};
ghost use Rattle.psi_counts.specs.Touch.{HasSlotsBelow, IsOfOne};
ghost use Rattle.psi_spec.specs.World.{most_groups};

use psi_base::NoMemory;
use psi_counts::Change;
use slot_clocks::PackedChange;
use std::alloc::Global;
use std::marker::Model;

/// The changes of a processor, in order. In contracts this is a list, together with the number of
/// further changes for which memory is reserved.
#[derive(Drop)]
pub(crate) struct Changes {
    list: Vec<PackedChange>,
}

impl Model for Changes {
    ghost use Rattle.std.specs.Prelude.{◌-◌, vec_capacity, vec_len};
    ghost use Rattle.proc_plan.specs.Room.{ChangesView};

    ghost Value = { ChangesView };

    ghost view = { λ c.
        record { list = c.list.items; room = vec_capacity c.list - vec_len c.list } };
}

impl Changes {
    /// Returns an empty list of changes.
    pub(crate) fn new(alloc: Global) -> Changes
        ensures { result.list ≡ [] }
    {
        Changes {
            list: Vec::new(alloc),
        }
    }

    /// Reserves memory for one more change. Fails with `NoMemory` if memory runs out.
    #[inline(always)]
    pub(crate) fn reserve(&mut self) -> Result<(), NoMemory>
        ensures same { self.new.list ≡ self.old.list }
        ensures unchanged { self.old.room ≤ self.new.room }
        ensures room { OnOk result (0 < self.new.room) }
    {
        self.list.reserve(1)?;
        Ok(())
    }

    /// Appends a change. Preconditions: memory for the change is reserved, and its slots are less
    /// than 1,024. The change concerns one task, only interrupt time, or only an on/off switch of
    /// accounting.
    #[inline(always)]
    pub(crate) fn push(&mut self, change: Change)
        requires room { 0 < self.old.room }
        requires one { IsOfOne change }
        requires slots { HasSlotsBelow most_groups change }
        ensures { self.new.list ≡ self.old.list ++ change ∷ [] }
    {
        self.list.push_reserved(PackedChange::new(change));
    }

    /// Returns all changes of the processor, in order.
    pub(crate) fn all(&self) -> &[PackedChange]
        ensures { result.now ≡ self.now.list }
    {
        &self.list
    }
}

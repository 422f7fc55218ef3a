//! An iterator over a group and its ancestors, up to the root. It doesn't allocate.
ghost use Rattle.std.specs.Prelude.{◌≡◌, ◌<◌, length, slice_index_or, None, IfSome};
ghost use Rattle.psi_spec.specs.Stall.{number_of_slot, parents_of};
ghost use Rattle.psi_spec.specs.LegalGroups.{AreGroups};
ghost use Rattle.group_tree.specs.Tree.{chain_from};

use psi_base::Slot;
use psi_spec::GroupLife;
use std::marker::Model;

/// Returns the slot of the parent of the group in `slot`. Returns `None` for the root and for a
/// slot without a group.
#[tactic(auto, using(crate::proofs::Chains::parents))]
pub(crate) fn parent_of(lives: &[GroupLife], slot: Slot) -> Option<Slot>
    ensures { number_of_slot result ≡ slice_index_or (parents_of lives.now) slot.0 None }
{
    match lives.get(slot.0 as usize) {
        Some(life) => life.parent,
        None => None,
    }
}

/// An iterator over the slots of a group and its ancestors, from the group to the root. In
/// contracts this is the list of the slots that remain.
#[derive(Drop)]
pub struct Chain<'a> {
    lives: &'a [GroupLife],
    next: Option<Slot>,
}

impl<'a> Model for Chain<'a> {
    ghost use Rattle.std.specs.Prelude.{List, ◌<◌, length, IfSome};
    ghost use Rattle.psi_base.specs.declared.event.Slot.{Slot};
    ghost use Rattle.psi_spec.specs.LegalGroups.{AreOlder};
    ghost use Rattle.psi_spec.specs.Stall.{parents_of};
    ghost use Rattle.group_tree.specs.Tree.{chain_from};

    ghost Value = { List Slot };

    ghost view = { λ c. chain_from c.lives.now c.next };

    ghost invariant = { λ c.
        AreOlder (parents_of c.lives.now) × IfSome c.next (λ slot. slot.0 < length c.lives.now) };
}

impl<'a> Chain<'a> {
    /// Creates the iterator that starts at the slot `next`. The iterator is empty for `None`.
    pub(crate) fn new(lives: &'a [GroupLife], next: Option<Slot>) -> Chain<'a>
        requires groups { AreGroups lives.now }
        requires made { IfSome next (λ slot. slot.0 < length lives.now) }
        ensures { result ≡ chain_from lives.now next }
    {
        Chain { lives, next }
    }
}

impl<'a> Iterator for Chain<'a> {
    ghost use Rattle.std.specs.Iterator.{YieldsFirst, item_count};

    type Item = Slot;

    ghost next_gives = { YieldsFirst (λ c. c) };

    ghost remaining = { item_count (λ c. c) };

    fn next(&mut self) -> Option<Slot> {
        let Some(slot) = self.next else {
            return None;
        };
        self.next = parent_of(self.lives, slot);
        Some(slot)
    }
}

//! The tree of groups, and the checks of each change to the tree. The module `grow` adds and
//! removes groups.
ghost use Rattle.std.specs.Prelude.{◌≡◌, ◌<◌, ◌≤◌, ◌++◌, [], ◌∷◌, length, map, slice_index_or, None, Some, IfOk, IfErr, IfSome, OnOk, OnErr, MatchResult, ◌↔◌};
ghost use Rattle.psi_spec.specs.World.{root, slot_of, as_slot, parent_path, new_group, marked_removed, marked_switched, most_groups};
ghost use Rattle.psi_spec.specs.Stall.{number_of_slot, parents_of, is_under};
ghost use Rattle.psi_spec.specs.Refusal.{has_child};
ghost use Rattle.psi_spec.specs.LegalGroups.{AreGroups, IsPathOrder};
ghost use Rattle.group_tree.specs.Tree.{add_cause, pressure_cause, remove_cause, IsGroupFault, chain_of, live_slots, numbers_of};

use crate::above::path_above;
use crate::chain::{Chain, parent_of};
use crate::grow::{end_group, push_group};
use crate::order::{live_order, path_order};
use psi_base::{Cause, Fault, NoMemory, Ns, Path, Slot};
use psi_spec::GroupLife;
use std::alloc::Global;
use std::collections::HashMap;
use std::marker::Model;

/// The maximum number of groups ever created in a trace, including the root.
const MOST_GROUPS: usize = 1024;

/// A tree of control groups: all groups ever created, indexed by slot. In contracts a tree is the
/// list of these groups. A map finds the slot of a live group by its path, and the tree stores the
/// number of live children of each group. So only [`Tree::live_order`] and [`Tree::path_order`]
/// visit all groups.
#[derive(Drop)]
pub struct Tree {
    alloc: Global,
    lives: Vec<GroupLife>,
    slots: HashMap<String, Slot>,
    children: Vec<u32>,
}

impl Model for Tree {
    ghost use Rattle.std.specs.Prelude.{List};
    ghost use Rattle.std.specs.Coded.{coded_list};
    ghost use Rattle.std.specs.HashMap.{get_by_text};
    ghost use Rattle.psi_spec.specs.declared.machine.GroupLife.{GroupLife};
    ghost use Rattle.psi_spec.specs.contracts.machine.GroupLife as group_row;
    ghost use Rattle.group_tree.specs.Tree.{IsTree};

    ghost Value = { List GroupLife };

    ghost coded = { coded_list group_row.the_row.coded };

    ghost view = { λ t. t.lives.items };

    ghost invariant = { λ t. IsTree t.lives.items (get_by_text t.slots) t.children.items };
}

impl Tree {
    /// Creates a tree that has only the root, created at time 0.
    pub fn new(alloc: Global) -> Result<Tree, NoMemory>
        ensures { IfOk result (λ tree. tree ≡ root ∷ []) }
    {
        let mut slots = HashMap::new(alloc);
        slots.insert(String::from_str(alloc, "/")?, Slot(0))?;
        let root = GroupLife {
            path: Path::root(alloc)?,
            parent: None,
            made: 0,
            gone: None,
            on: true,
        };
        let lives = Vec::from_array(alloc, [root])?;
        Ok(Tree {
            alloc,
            lives,
            slots,
            children: Vec::from_slice(alloc, &[0])?,
        })
    }

    /// Returns all groups ever created, indexed by slot. The field `gone` is the time (ns) at which
    /// the group was removed, or `None` if the group is live.
    pub fn lives(&self) -> &[GroupLife]
        ensures lives { result.now ≡ self.now }
        ensures groups { AreGroups result.now }
    {
        &self.lives
    }

    /// Returns the number of groups ever created, at most 1,024.
    pub fn len(&self) -> usize
        ensures len { result ≡ length self.now }
        ensures few { result ≤ most_groups }
    {
        self.lives.len()
    }

    /// Returns the slot of the live group with this path, or `None` if no live group has this path.
    pub fn find(&self, path: &Path) -> Option<Slot>
        ensures { result ≡ as_slot (slot_of self.now path.now) }
    {
        self.slots.get(path.text()).copied()
    }

    /// Returns the slot of the live group whose path is the parent path of `path`, or `None` if
    /// there is no such group.
    fn find_above(&self, path: &Path) -> Option<Slot>
        ensures { result ≡ as_slot (slot_of self.now (parent_path path.now)) }
    {
        self.slots.get(path_above(path)).copied()
    }

    /// Returns whether the group in `slot` has a live child.
    fn has_child(&self, slot: Slot) -> bool
        ensures { result ≡ has_child self.now (Some slot.0) }
    {
        self.children.get(slot.0 as usize).copied().unwrap_or(0) > 0
    }

    /// Returns the first cause for rejecting the creation of a group with this path, or `None` if
    /// the group can be created. The causes are TooManyGroups (1,024 groups were created),
    /// GroupExists (a live group has the path) and NoParent (no live group has the parent path).
    pub fn add_cause(&self, path: &Path) -> Option<Cause>
        ensures { result ≡ add_cause self.now path.now }
    {
        if self.lives.len() >= MOST_GROUPS {
            Some(Cause::TooManyGroups)
        } else if self.find(path).is_some() {
            Some(Cause::GroupExists)
        } else if self.find_above(path).is_none() {
            Some(Cause::NoParent)
        } else {
            None
        }
    }

    /// Returns the first cause for rejecting the removal of the group with this path, or `None` if
    /// the group can be removed. The causes are UnknownGroup (no live group has the path) and
    /// GroupBusy (the group is the root or has a live child). Tasks in the group aren't checked.
    pub fn remove_cause(&self, path: &Path) -> Option<Cause>
        ensures { result ≡ remove_cause self.now path.now }
    {
        let Some(slot) = self.find(path) else {
            return Some(Cause::UnknownGroup);
        };
        if path.bytes() == b"/".as_slice() || self.has_child(slot) {
            Some(Cause::GroupBusy)
        } else {
            None
        }
    }

    /// Returns the first cause for refusing to turn the pressure accounting of the group with this
    /// path on or off, or `None` if that is possible. The causes are UnknownGroup (no live group
    /// has the path) and RootPressure (the group is the root).
    pub fn pressure_cause(&self, path: &Path) -> Option<Cause>
        ensures { result ≡ pressure_cause self.now path.now }
    {
        if self.find(path).is_none() {
            Some(Cause::UnknownGroup)
        } else if path.bytes() == b"/".as_slice() {
            Some(Cause::RootPressure)
        } else {
            None
        }
    }

    /// Returns the slot of the group's parent, or `None` for the root.
    pub fn parent(&self, slot: Slot) -> Option<Slot>
        requires made { slot.0 < length self.now }
        ensures parent { number_of_slot result ≡
            slice_index_or (parents_of self.now) slot.0 None }
        ensures older { IfSome result (λ parent. parent.0 < slot.0) }
        ensures root { (result ≡ None) ↔ (slot.0 ≡ 0) }
    {
        parent_of(&self.lives, slot)
    }

    /// Returns an iterator over a group's slot and the slots of its ancestors, up to the root. No
    /// program of this repository calls this function.
    pub fn chain(&self, slot: Slot) -> Chain<'_>
        requires made { slot.0 < length self.now }
        ensures { result ≡ chain_of self.now slot.0 }
    {
        Chain::new(&self.lives, Some(slot))
    }

    /// Returns whether the group `low` is the group `high` or a descendant of it. If the slot `low`
    /// has no group, returns true only if the slots are equal.
    pub fn is_under(&self, low: Slot, high: Slot) -> bool
        ensures { result ≡ is_under (parents_of self.now) low.0 high.0 }
    {
        let mut at = low;
        'climb: while at.0 > high.0 {
            let Some(parent) = parent_of(&self.lives, at) else {
                return false;
            };
            at = parent;
        }
        at.0 == high.0
    }

    /// Returns a new group with this path, created at the time `at` (ns) as a child of the live
    /// group with the parent path. Doesn't add the group to the tree.
    fn new_life(&self, path: &Path, at: Ns) -> Result<GroupLife, NoMemory>
        ensures { IfOk result (λ life. life ≡ new_group self.now path.now at) }
    {
        Ok(GroupLife {
            path: path.copy(self.alloc)?,
            parent: self.find_above(path),
            made: at,
            gone: None,
            on: true,
        })
    }

    /// Creates a group at the time `at` (ns) in the next slot, and returns the slot. Fails with
    /// `Refused` and the cause that [`Tree::add_cause`] returns, or with `NoMemory` if there is no
    /// cause but memory runs out. The tree is unchanged on failure.
    pub fn add(&mut self, path: &Path, at: Ns) -> Result<Slot, Fault<Cause>>
        ensures legal { OnOk result (add_cause self.old path.now ≡ None) }
        ensures groups { OnOk result
            (self.new ≡ self.old ++ new_group self.old path.now at ∷ []) }
        ensures slot { IfOk result (λ slot. slot.0 ≡ length self.old) }
        ensures fault { MatchResult result (λ _. Unit {0})
            (IsGroupFault (add_cause self.old path.now)) }
        ensures err { OnErr result (self.new ≡ self.old) }
    {
        if let Some(cause) = self.add_cause(path) {
            return Err(Fault::Refused(cause));
        }
        let life = self.new_life(path, at)?;
        let text = String::from_str(self.alloc, path.text())?;
        let slot = push_group(
            &mut self.lives,
            &mut self.slots,
            &mut self.children,
            life,
            text,
        )?;
        Ok(slot)
    }

    /// Removes the live group with this path at the time `at` (ns), and returns its slot. Fails
    /// with the cause that [`Tree::remove_cause`] returns, and leaves the tree unchanged. Does not
    /// allocate.
    pub fn remove(&mut self, path: &Path, at: Ns) -> Result<Slot, Cause>
        ensures legal { OnOk result (remove_cause self.old path.now ≡ None) }
        ensures groups { OnOk result (self.new ≡ map (marked_removed path.now at) self.old) }
        ensures slot { IfOk result (λ slot. slot_of self.old path.now ≡ Some slot.0) }
        ensures cause { IfErr result (λ cause. remove_cause self.old path.now ≡ Some cause) }
        ensures err { OnErr result (self.new ≡ self.old) }
    {
        if let Some(cause) = self.remove_cause(path) {
            return Err(cause);
        }
        let Some(slot) = self.find(path) else {
            return Err(Cause::UnknownGroup);
        };
        end_group(
            &mut self.lives,
            &mut self.slots,
            &mut self.children,
            path,
            slot,
            at,
        );
        Ok(slot)
    }

    /// Turns the pressure accounting of the live group with this path on or off, and returns the
    /// group's slot. Fails with the cause that [`Tree::pressure_cause`] returns, and leaves the
    /// tree unchanged. Does not allocate.
    pub fn switch(&mut self, path: &Path, on: bool) -> Result<Slot, Cause>
        ensures legal { OnOk result (pressure_cause self.old path.now ≡ None) }
        ensures groups { OnOk result (self.new ≡ map (marked_switched path.now on) self.old) }
        ensures slot { IfOk result (λ slot. slot_of self.old path.now ≡ Some slot.0) }
        ensures cause { IfErr result (λ cause. pressure_cause self.old path.now ≡ Some cause) }
        ensures err { OnErr result (self.new ≡ self.old) }
    {
        if let Some(cause) = self.pressure_cause(path) {
            return Err(cause);
        }
        let Some(slot) = self.find(path) else {
            return Err(Cause::UnknownGroup);
        };
        let life = &mut self.lives[slot.0 as usize];
        life.on = on;
        Ok(slot)
    }

    /// Returns the slots of the live groups in the byte order of their paths.
    pub fn live_order(&self, alloc: Global) -> Result<Vec<Slot>, NoMemory>
        ensures { IfOk result (λ slots. slots.items ≡ live_slots self.now) }
    {
        live_order(alloc, &self.lives)
    }

    /// Returns all slots in the byte order of their groups' paths, including the slots of removed
    /// groups. The order of slots with equal paths isn't specified.
    pub fn path_order(&self, alloc: Global) -> Result<Vec<Slot>, NoMemory>
        ensures { IfOk result (λ order. IsPathOrder self.now (numbers_of order.items)) }
    {
        path_order(alloc, &self.lives)
    }
}

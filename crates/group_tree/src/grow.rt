//! Creates and removes groups. The functions update the list of groups, the map of paths and the
//! counts of children together. They don't check whether a change is legal.
ghost use Rattle.std.specs.Prelude.{◌≡◌, ◌+◌, ◌<◌, ◌≤◌, ◌++◌, [], ◌∷◌, ℕ, length, map, Some, IfOk, OnOk, OnErr, IfSome, slice_index_or, string_bytes, true, false, if◌then◌else◌};
ghost use Rattle.std.specs.HashMap.{get_by_text};
ghost use Rattle.psi_spec.specs.World.{slot_of, marked_removed, is_root, is_live, most_groups};
ghost use Rattle.psi_spec.specs.Refusal.{is_slot};
ghost use Rattle.psi_spec.specs.LegalGroups.{AreGroups};
ghost use Rattle.group_tree.specs.Tree.{IsTree};

use psi_base::{NoMemory, Ns, Path, Slot};
use psi_spec::GroupLife;
use std::collections::HashMap;

/// Adds 1 to the number of live children of `parent`. Does nothing for `None`.
fn count_child(children: &mut [u32], parent: Option<Slot>)
    requires made { IfSome parent (λ slot. slot.0 < length children.old) }
    requires few { IfSome parent (λ slot. slice_index_or children.old slot.0 0 ≤ most_groups) }
    ensures len { length children.new ≡ length children.old }
    ensures each { (slot : ℕ) →
        slice_index_or children.new slot 0
        ≡ slice_index_or children.old slot 0 + (if is_slot (Some slot) parent then 1 else 0) }
{
    if let Some(slot) = parent {
        children[slot.0 as usize] += 1;
    }
}

/// Subtracts 1 from the number of live children of `parent`. Does nothing for `None`.
fn uncount_child(children: &mut [u32], parent: Option<Slot>)
    requires made { IfSome parent (λ slot. slot.0 < length children.old) }
    requires some { IfSome parent (λ slot. 0 < slice_index_or children.old slot.0 0) }
    ensures len { length children.new ≡ length children.old }
    ensures each { (slot : ℕ) →
        slice_index_or children.new slot 0 + (if is_slot (Some slot) parent then 1 else 0)
        ≡ slice_index_or children.old slot 0 }
{
    if let Some(slot) = parent {
        children[slot.0 as usize] -= 1;
    }
}

/// Appends the live group `life`, whose path is `text`, and returns its slot. If memory runs out,
/// the tree is unchanged.
pub(crate) fn push_group(
    lives: &mut Vec<GroupLife>,
    slots: &mut HashMap<String, Slot>,
    children: &mut Vec<u32>,
    life: GroupLife,
    text: String,
) -> Result<Slot, NoMemory>
    requires tree { IsTree lives.old.items (get_by_text slots.old) children.old.items }
    requires legal { AreGroups (lives.old.items ++ life ∷ []) }
    requires live { is_live life ≡ true }
    requires text { string_bytes text ≡ life.path }
    ensures tree { IsTree lives.new.items (get_by_text slots.new) children.new.items }
    ensures ok { OnOk result (lives.new.items ≡ lives.old.items ++ life ∷ []) }
    ensures slot { IfOk result (λ slot. slot.0 ≡ length lives.old.items) }
    ensures err { OnErr result (lives.new.items ≡ lives.old.items) }
{
    lives.reserve(1)?;
    children.reserve(1)?;
    let slot = Slot(lives.len() as u32);
    slots.insert(text, slot)?;
    count_child(children, life.parent);
    let Ok(()) = children.push(0) else {
        unreachable!();
    };
    let Ok(()) = lives.push(life) else {
        unreachable!();
    };
    Ok(slot)
}

/// Removes the live group with the path `path`, which is in `slot`, at the time `at` (ns). Does not
/// allocate.
pub(crate) fn end_group(
    lives: &mut Vec<GroupLife>,
    slots: &mut HashMap<String, Slot>,
    children: &mut Vec<u32>,
    path: &Path,
    slot: Slot,
    at: Ns,
)
    requires tree { IsTree lives.old.items (get_by_text slots.old) children.old.items }
    requires found { slot_of lives.old.items path.now ≡ Some slot.0 }
    requires other { is_root path.now ≡ false }
    ensures tree { IsTree lives.new.items (get_by_text slots.new) children.new.items }
    ensures lives { lives.new.items ≡ map (marked_removed path.now at) lives.old.items }
{
    let life = &mut lives[slot.0 as usize];
    life.gone = Some(at);
    uncount_child(children, life.parent);
    slots.remove(path.text());
}

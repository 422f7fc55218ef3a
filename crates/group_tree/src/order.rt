//! Sorts the slots of groups by the bytes of their paths. One function sorts the live groups, and
//! another sorts all groups ever created.
ghost use Rattle.std.specs.Prelude.{◌≡◌, ◌≤◌, length, map, IfOk, IsPermutation, IsSortedByKey};
ghost use Rattle.std.specs.List.{range_with_len};
ghost use Rattle.std.specs.Ordering.{nat_cmp};
ghost use Rattle.std.specs.Cmp.Lexicographic.{slice_cmp};
ghost use Rattle.psi_spec.specs.Groups.{live_groups, path_at};
ghost use Rattle.psi_spec.specs.LegalGroups.{IsPathOrder};
ghost use Rattle.psi_spec.specs.World.{most_groups};
ghost use Rattle.group_tree.specs.Tree.{live_slots, numbers_of, paths_and_slots, slot_at};

use psi_base::{NoMemory, Path, Slot};
use psi_spec::GroupLife;
use std::alloc::Global;
use std::collections::BTreeMap;

/// Returns a map from the paths of the live groups to their slots.
fn live_by_path(alloc: Global, lives: &[GroupLife]) -> Result<BTreeMap<&Path, Slot>, NoMemory>
    requires few { length lives.now ≤ most_groups }
    ensures { IfOk result (λ groups. paths_and_slots groups.entries ≡ live_groups lives.now) }
{
    let mut groups = BTreeMap::new(alloc);
    let mut left = lives.len();
    'groups: while left > 0 {
        left -= 1;
        let life = &lives[left];
        if life.gone.is_some() {
            continue;
        }
        groups.insert(&life.path, Slot(left as u32))?;
    }
    Ok(groups)
}

/// Returns the slots of the live groups in the byte order of their paths.
pub(crate) fn live_order(alloc: Global, lives: &[GroupLife]) -> Result<Vec<Slot>, NoMemory>
    requires few { length lives.now ≤ most_groups }
    ensures { IfOk result (λ slots. slots.items ≡ live_slots lives.now) }
{
    let groups = live_by_path(alloc, lives)?;
    Ok(groups.into_values().collect(alloc)?)
}

/// Returns the path of the group in `slot`, or an empty path for a slot without a group.
fn path_of(lives: &[GroupLife], slot: Slot) -> &[u8]
    ensures { result.now ≡ path_at lives.now slot.0 }
{
    match lives.get(slot.0 as usize) {
        Some(life) => life.path.bytes(),
        None => &[],
    }
}

/// Returns the slots with the numbers from 0 to `count - 1`.
fn first_slots(alloc: Global, count: u32) -> Result<Vec<Slot>, NoMemory>
    ensures { IfOk result (λ slots. slots.items ≡ map slot_at (range_with_len 0 count)) }
{
    Ok((0..count).map(Slot).collect(alloc)?)
}

/// Sorts `slots` by the bytes of their groups' paths, and returns them.
fn sorted_by_path(mut slots: Vec<Slot>, lives: &[GroupLife]) -> Vec<Slot>
    ensures same { IsPermutation slots.items result.items }
    ensures sorted { IsSortedByKey (λ slot. path_at lives.now slot.0)
        (slice_cmp nat_cmp) result.items }
{
    slots.sort_unstable_by(|one, other| path_of(lives, *one).cmp(path_of(lives, *other)));
    slots
}

/// Returns all slots, including those of removed groups, in the byte order of their groups' paths.
/// The order of slots with equal paths isn't specified.
pub(crate) fn path_order(alloc: Global, lives: &[GroupLife]) -> Result<Vec<Slot>, NoMemory>
    requires few { length lives.now ≤ most_groups }
    ensures { IfOk result (λ slots. IsPathOrder lives.now (numbers_of slots.items)) }
{
    let slots = first_slots(alloc, lives.len() as u32)?;
    Ok(sorted_by_path(slots, lives))
}

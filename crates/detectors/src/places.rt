//! Lists of places. A *place* is the index of a group in a reading. There is a list of all groups,
//! and a list of the children of each group.
//!
//! With these lists a loop over the children of a group skips all other groups.
ghost use Rattle.std.specs.Prelude.{◌≡◌, ◌<◌, ◌≤◌, ℕ, [], IfOk, length, slice_index_or, true};
ghost use Rattle.psi_spec.specs.Stall.{number_of_slot};
ghost use Rattle.kill_spec.specs.Victims.{names_slot};
ghost use Rattle.detectors.specs.Inner.{AreBelow, HasPlaced, PlacesView, child_count, places_with};

use psi_base::{NoMemory, Slot};
use psi_spec::GroupLife;
use std::alloc::Global;
use std::marker::Model;

/// A list of places (indexes of groups in a reading) in ascending order.
#[derive(Drop)]
pub(crate) struct Places {
    places: Vec<u32>,
}

impl Model for Places {
    ghost use Rattle.std.specs.Prelude.{vec_capacity};
    ghost use Rattle.detectors.specs.Inner.{PlacesView, places_with};

    ghost Value = { PlacesView };

    ghost view = { λ p. places_with p.places.items (vec_capacity p.places) };
}

impl Places {
    /// Returns an empty list with a capacity of at least `room` places.
    pub(crate) fn with_room(alloc: Global, room: usize) -> Result<Places, NoMemory>
        ensures none { IfOk result (λ made. made.places ≡ []) }
        ensures room { IfOk result (λ made. room ≤ made.room) }
    {
        Ok(Places {
            places: Vec::with_capacity(alloc, room)?,
        })
    }

    /// Removes all places. The capacity doesn't change.
    pub(crate) fn clear(&mut self)
        ensures { self.new ≡ places_with [] self.old.room }
    {
        self.places.clear();
    }

    /// Appends a place. Doesn't allocate. Precondition: the list isn't full.
    pub(crate) fn push(&mut self, place: u32)
        requires { length self.old.places < self.old.room }
        ensures { HasPlaced true place self.old self.new }
    {
        if self.places.push(place).is_err() {
            unreachable!();
        }
    }

    /// Returns the places in ascending order.
    pub(crate) fn items(&self) -> &[u32]
        ensures { result.now ≡ self.now.places }
    {
        &self.places
    }
}

fn child_count(lives: &[GroupLife], slot: Slot) -> usize
    ensures { result ≡ child_count lives.now slot.0 }
{
    let mut count = 0;
    'lives: for life in lives {
        if life.parent == Some(slot) {
            count += 1;
        }
    }
    count
}

/// Returns one empty list for each slot. Each list has capacity for the places of all children that
/// the trace ever creates in that slot's group.
pub(crate) fn room_below(alloc: Global, lives: &[GroupLife]) -> Result<Vec<Places>, NoMemory>
    requires { length lives.now ≤ 1024 }
    ensures slots { IfOk result (λ below. length below.items ≡ length lives.now) }
    ensures below { IfOk result (λ below. AreBelow lives.now [] below.items) }
{
    let mut below = Vec::with_capacity(alloc, lives.len())?;
    'slots: for slot in 0..lives.len() as u32 {
        let count = child_count(lives, Slot(slot));
        below.push(Places::with_room(alloc, count)?)?;
    }
    Ok(below)
}

/// Empties the list of every slot.
pub(crate) fn clear_below(below: &mut Vec<Places>)
    ensures slots { length below.new.items ≡ length below.old.items }
    ensures each { (slot : ℕ) (d : PlacesView) → slot < length below.old.items →
        slice_index_or below.new.items slot d
        ≡ places_with [] (slice_index_or below.old.items slot d).room }
{
    'slots: for slot in 0..below.len() {
        below[slot].clear();
    }
}

/// Appends a place to the list of slot `parent`, or does nothing if `parent` is `None`. Doesn't
/// allocate. Precondition: that list isn't full.
pub(crate) fn place_below(below: &mut Vec<Places>, parent: Option<Slot>, place: u32)
    requires { (slot : ℕ) (d : PlacesView) → slot < length below.old.items →
        names_slot slot (number_of_slot parent) ≡ true →
        length (slice_index_or below.old.items slot d).places
        < (slice_index_or below.old.items slot d).room }
    ensures slots { length below.new.items ≡ length below.old.items }
    ensures each { (slot : ℕ) (d : PlacesView) → slot < length below.old.items →
        HasPlaced (names_slot slot (number_of_slot parent)) place
        (slice_index_or below.old.items slot d) (slice_index_or below.new.items slot d) }
{
    let Some(parent) = parent else {
        return;
    };
    let slot = parent.0 as usize;
    if slot < below.len() {
        below[slot].push(place);
    }
}

//! A reading: the input of one evaluation of the rules.
//!
//! The caller fills in the values. This module measures nothing.
ghost use Rattle.std.specs.Prelude.{◌≡◌, ◌<◌, ◌≤◌, [], IfOk, filter, length};
ghost use Rattle.psi_spec.specs.Groups.{path_at};
ghost use Rattle.psi_spec.specs.World.{most_groups};
ghost use Rattle.kill_spec.specs.Readings.{no_host};
ghost use Rattle.kill_spec.specs.LegalReadings.{IsGroupReading, IsHostReading, IsReading};
ghost use Rattle.detectors.specs.Inner.{AreAmong, group_at, groups_at, is_child};
ghost use Rattle.detectors.specs.Views.{ComesLast, reading_of, seen_at, with_group};

use crate::copies::copy_lives;
use crate::places::{Places, clear_below, place_below, room_below};
use kill_spec::{GroupReading, HostReading};
use psi_base::{NoMemory, Ns, Path, Slot};
use psi_spec::GroupLife;
use std::alloc::Global;
use std::marker::Model;

/// The input of one evaluation: the time, the host's memory, and the live groups in the byte order
/// of their paths. A reading also has the list of all groups that the trace ever creates.
/// [`Reading::make`] allocates all memory, and the same reading is reused for each evaluation.
#[derive(Drop)]
pub struct Reading {
    lives: Vec<GroupLife>,
    at: Ns,
    host: HostReading,
    /// The live groups, with capacity for all groups of the trace.
    groups: Vec<GroupReading>,
    /// The places (indexes in `groups`) of all live groups, in ascending order.
    all: Places,
    /// For each slot, the places of the live children of its group, with capacity for all children
    /// that the trace ever creates.
    below: Vec<Places>,
}

impl Model for Reading {
    ghost use Rattle.std.specs.Prelude.{length, vec_capacity};
    ghost use Rattle.detectors.specs.Inner.{ArePlaces};
    ghost use Rattle.detectors.specs.Views.{IsReadingView, IsRoom, ReadingView};
    ghost use Rattle.detectors.specs.Views.{reading_of, seen_at};

    ghost Value = { ReadingView };

    ghost view = { λ r. reading_of r.lives.items (seen_at r.at r.host r.groups.items) };

    ghost invariant = { λ r. IsRoom (length r.lives.items) (vec_capacity r.groups)
        × IsReadingView (reading_of r.lives.items (seen_at r.at r.host r.groups.items))
        × ArePlaces r.lives.items r.groups.items r.all r.below.items };
}

impl Reading {
    /// Returns an empty reading at time 0, with capacity for all groups of `lives`, the list of the
    /// trace's groups.
    pub fn make(alloc: Global, lives: &[GroupLife]) -> Result<Reading, NoMemory>
        requires { length lives.now ≤ most_groups }
        ensures { IfOk result (λ reading.
            reading ≡ reading_of lives.now (seen_at 0 no_host [])) }
    {
        Ok(Reading {
            lives: copy_lives(alloc, lives)?,
            at: 0,
            host: HostReading {
                mem_total: 0,
                swap_total: 0,
                swap_free: 0,
            },
            groups: Vec::with_capacity(alloc, lives.len())?,
            all: Places::with_room(alloc, lives.len())?,
            below: room_below(alloc, lives)?,
        })
    }

    /// Starts a new reading at time `at` (ns), with the host's memory `host` and no groups.
    pub fn start(&mut self, at: Ns, host: HostReading)
        requires { IsHostReading host }
        ensures { self.new ≡ reading_of self.old.lives (seen_at at host []) }
    {
        self.at = at;
        self.host = host;
        self.groups.clear();
        self.all.clear();
        clear_below(&mut self.below);
    }

    /// Appends a live group. Doesn't allocate. Precondition: the group's path is greater, in byte
    /// order, than the paths of all groups already in the reading. Therefore no group occurs twice,
    /// and the capacity suffices.
    pub fn push(&mut self, group: GroupReading)
        requires group { IsGroupReading (length self.old.lives) group }
        requires order { ComesLast self.old group }
        ensures { self.new ≡ reading_of self.old.lives (with_group self.old.seen group) }
    {
        let place = self.groups.len() as u32;
        let parent = self.lives[group.slot.0 as usize].parent;
        self.all.push(place);
        place_below(&mut self.below, parent, place);
        if self.groups.push(group).is_err() {
            unreachable!();
        }
    }

    /// Returns the time of the reading (ns).
    pub fn at(&self) -> Ns
        ensures { result ≡ self.now.seen.at }
    {
        self.at
    }

    /// Returns the last sample of the host's memory.
    pub fn host(&self) -> HostReading
        ensures host { result ≡ self.now.seen.host }
        ensures within { IsHostReading result }
    {
        self.host
    }

    /// Returns the live groups, in the byte order of their paths.
    pub fn groups(&self) -> &[GroupReading]
        ensures groups { result.now ≡ self.now.seen.groups }
        ensures within { IsReading self.now.lives self.now.seen }
    {
        &self.groups
    }

    /// Returns the live group at index `place`.
    pub fn group(&self, place: u32) -> &GroupReading
        requires { place < length self.now.seen.groups }
        ensures group { result.now ≡ group_at self.now.seen.groups place }
        ensures within { IsGroupReading (length self.now.lives) result.now }
    {
        &self.groups[place as usize]
    }

    /// Returns the places of all live groups, in the byte order of their paths.
    pub fn places(&self) -> &[u32]
        ensures groups { groups_at self.now.seen.groups result.now ≡ self.now.seen.groups }
        ensures within { AreAmong self.now.seen.groups result.now }
        ensures few { length result.now ≤ most_groups }
        ensures all { length self.now.seen.groups ≤ most_groups }
        ensures read { IsReading self.now.lives self.now.seen }
    {
        self.all.items()
    }

    /// Returns the places of the live children of the group in slot `slot`, in the byte order of
    /// their paths.
    pub fn below(&self, slot: Slot) -> &[u32]
        requires { slot.0 < length self.now.lives }
        ensures groups { groups_at self.now.seen.groups result.now
            ≡ filter (is_child self.now.lives slot.0) self.now.seen.groups }
        ensures within { AreAmong self.now.seen.groups result.now }
        ensures few { length result.now ≤ most_groups }
        ensures all { length self.now.seen.groups ≤ most_groups }
        ensures read { IsReading self.now.lives self.now.seen }
    {
        self.below[slot.0 as usize].items()
    }

    /// Returns all groups that the trace ever creates, indexed by slot.
    pub fn lives(&self) -> &[GroupLife]
        ensures lives { result.now ≡ self.now.lives }
        ensures few { length result.now ≤ most_groups }
    {
        &self.lives
    }

    /// Returns the path of the group in slot `slot`. The group needn't be live.
    pub fn path(&self, slot: Slot) -> &Path
        requires { slot.0 < length self.now.lives }
        ensures { result.now ≡ path_at self.now.lives slot.0 }
    {
        &self.lives[slot.0 as usize].path
    }
}

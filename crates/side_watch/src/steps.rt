//! Applies side events to the state of all groups and of the host, in order.
//!
//! A side event is a memory sample, a preference, or a task that joins or leaves a group.

ghost use Rattle.std.specs.Prelude.{◌≡◌, ◌+◌, length};
ghost use Rattle.psi_spec.specs.LegalGroups.{AreOlder};
ghost use Rattle.slot_clocks.specs.Clocks.{parent_numbers};
ghost use Rattle.kill_spec.specs.LegalReadings.{IsHostReading};
ghost use Rattle.proc_plan.specs.Plans.{AreSmall};
ghost use Rattle.proc_plan.specs.Sides.{IsSmall};
ghost use Rattle.side_watch.specs.Sides.{Took, EachCounts, EachIs, EachTook, due_from};
ghost use Rattle.side_watch.specs.Sides.{host_after, host_by, with_memory, with_preference};
ghost use Rattle.side_watch.specs.Watch.{AreSmallCells, IsSmallMemory};

use crate::cell::{GroupMemory, SideCell};
use kill_spec::HostReading;
use proc_plan::{Side, SideAct};
use psi_base::{Ns, Preference, Slot};

// Updates the number of tasks in the group in slot `slot` and in all its ancestors. If `came` is
// true, a task joined the group; if it is false, a task left the group.
fn count_task(cells: &mut [SideCell], parents: &[Option<Slot>], slot: Slot, came: bool)
    requires older { AreOlder (parent_numbers parents.now) }
    requires each { length cells.old ≡ length parents.now }
    requires small { AreSmallCells cells.old }
    ensures each { length cells.new ≡ length cells.old }
    ensures small { AreSmallCells cells.new }
    ensures counted { EachCounts (parent_numbers parents.now) slot.0 came cells.old cells.new }
{
    let mut next = Some(slot);
    'up: while let Some(slot) = next {
        let place = slot.0 as usize;
        if place >= cells.len() {
            return;
        }
        cells[place].count(came);
        next = parents[place];
    }
}

fn set_memory(cells: &mut [SideCell], slot: Slot, memory: GroupMemory)
    requires fits { IsSmallMemory memory }
    requires small { AreSmallCells cells.old }
    ensures each { length cells.new ≡ length cells.old }
    ensures small { AreSmallCells cells.new }
    ensures set { EachIs cells.old cells.new (with_memory slot.0 memory) }
{
    let place = slot.0 as usize;
    if place < cells.len() {
        cells[place].memory = memory;
    }
}

fn set_preference(cells: &mut [SideCell], slot: Slot, preference: Preference)
    requires small { AreSmallCells cells.old }
    ensures each { length cells.new ≡ length cells.old }
    ensures small { AreSmallCells cells.new }
    ensures set { EachIs cells.old cells.new (with_preference slot.0 preference) }
{
    let place = slot.0 as usize;
    if place < cells.len() {
        cells[place].preference = preference;
    }
}

// Applies a side event to the state of all groups.
fn take_cells(cells: &mut [SideCell], parents: &[Option<Slot>], what: SideAct)
    requires older { AreOlder (parent_numbers parents.now) }
    requires each { length cells.old ≡ length parents.now }
    requires fits { IsSmall what }
    requires small { AreSmallCells cells.old }
    ensures each { length cells.new ≡ length cells.old }
    ensures small { AreSmallCells cells.new }
    ensures taken { EachTook (parent_numbers parents.now) what cells.old cells.new }
{
    match what {
        SideAct::Mem {
            slot,
            current,
            swap,
            scan,
        } => set_memory(
            cells,
            slot,
            GroupMemory {
                current,
                swap,
                scan,
            },
        ),
        SideAct::Prefer { slot, preference } => set_preference(cells, slot, preference),
        SideAct::Host { .. } => {}
        SideAct::Tasks { slot, added } => count_task(cells, parents, slot, added >= 0),
    }
}

// Returns the memory of the host after a side event. `host` is the memory before it.
fn host_after(host: HostReading, what: SideAct) -> HostReading
    requires fits { IsSmall what }
    requires small { IsHostReading host }
    ensures after { result ≡ host_after host what }
    ensures small { IsHostReading result }
{
    match what {
        SideAct::Host {
            mem_total,
            swap_total,
            swap_free,
        } => HostReading {
            mem_total,
            swap_total,
            swap_free,
        },
        _ => host,
    }
}

/// Applies side events to the state of all groups and of the host: all side events at or before
/// time `at` (ns) except the first `from`, which have been applied already. Returns the number of
/// side events applied so far, including the first `from`.
pub(crate) fn take_due(
    cells: &mut [SideCell],
    parents: &[Option<Slot>],
    host: &mut HostReading,
    sides: &[Side],
    from: usize,
    at: Ns,
) -> usize
    requires older { AreOlder (parent_numbers parents.now) }
    requires each { length cells.old ≡ length parents.now }
    requires fit { AreSmall sides.now }
    requires small { AreSmallCells cells.old }
    requires host { IsHostReading host.old }
    ensures each { length cells.new ≡ length cells.old }
    ensures small { AreSmallCells cells.new }
    ensures host { IsHostReading host.new }
    ensures cells { Took (parent_numbers parents.now) (due_from from at sides.now)
        cells.old cells.new }
    ensures hosts { host.new ≡ host_by host.old (due_from from at sides.now) }
    ensures taken { result ≡ from + length (due_from from at sides.now) }
{
    let mut taken = from;
    'sides: while taken < sides.len() && sides[taken].at <= at {
        let what = sides[taken].what;
        take_cells(cells, parents, what);
        *host = host_after(*host, what);
        taken += 1;
    }
    taken
}

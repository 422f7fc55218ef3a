//! A table with the times of all groups on all processors at a tick.
//!
//! The whole table is a single allocation.
ghost use Rattle.std.specs.Prelude.{◌≡◌, ◌<◌, ◌*◌, [], IfOk, length, slice_index_or, slice_set, replicate};
ghost use Rattle.aggregate.specs.Table as table;
ghost use Rattle.aggregate.specs.Table.{new_table, put_times, IsPlace, KeepsSizes, SetsOnePlace};

use pressure_spec::{TIMES, Times};
use psi_base::{Cpu, NoMemory, Slot};
use std::alloc::Global;
use std::marker::Model;

/// A table with one row for each group, indexed by slot. For each processor, a row has the group's
/// times (ns) in the seven states, ordered by state, followed by the interrupt time (ns).
#[derive(Drop)]
pub struct Rows {
    cpus: u32,
    slots: u32,
    /// The rows of all groups, one after another. Each row has one entry for each of the `cpus`
    /// processors.
    times: Vec<Times>,
}

impl Model for Rows {
    ghost use Rattle.std.specs.Prelude.{◌≡◌, List, ℕ, ◌*◌, length};
    ghost use Rattle.aggregate.specs.Table.{rows_of};

    ghost Value = { List (List (List ℕ)) };

    ghost view = { λ r. rows_of r.cpus r.slots r.times.items };

    ghost invariant = { λ r. length r.times.items ≡ r.slots * r.cpus };
}

impl Rows {
    /// Creates a table for `cpus` processors and `slots` groups, with all times 0. Makes a single
    /// allocation.
    pub fn make(alloc: Global, cpus: u32, slots: u32) -> Result<Rows, NoMemory>
        ensures { IfOk result (λ rows. rows ≡ new_table cpus slots) }
    {
        let times = no_times(alloc, slots as usize * cpus as usize)?;
        Ok(rows_with(cpus, slots, times))
    }

    /// Sets the times (ns) of a group on a processor.
    pub fn set(&mut self, cpu: Cpu, slot: Slot, times: Times)
        requires { IsPlace self.old slot.0 cpu.0 }
        ensures { self.new ≡ put_times self.old slot.0 cpu.0 times }
    {
        let place = slot.0 as usize * self.cpus as usize + cpu.0 as usize;
        self.times[place] = times;
    }

    /// Sets the times (ns) of a group on all processors. Precondition: `row` has one entry for each
    /// processor. Doesn't allocate.
    pub fn set_row(&mut self, slot: Slot, row: &[Times])
        requires slot { slot.0 < length self.old }
        requires row { length row.now ≡ length (slice_index_or self.old slot.0 []) }
        ensures { self.new ≡ slice_set self.old slot.0 row.now }
    {
        let cpus = self.cpus as usize;
        let (_, rest) = self.times.split_at_mut(slot.0 as usize * cpus);
        let (into, _) = rest.split_at_mut(cpus);
        into.copy_from_slice(row);
    }

    /// Returns the times (ns) of a group on each processor.
    pub fn row(&self, slot: Slot) -> &[Times]
        requires { slot.0 < length self.now }
        ensures { result.now ≡ slice_index_or self.now slot.0 [] }
    {
        let (_, rest) = self.times.split_at(slot.0 as usize * self.cpus as usize);
        let (row, _) = rest.split_at(self.cpus as usize);
        row
    }
}

/// Returns the table with the rows in `times`, which is the concatenation of all rows.
fn rows_with(cpus: u32, slots: u32, times: Vec<Times>) -> Rows
    requires { length times.items ≡ slots * cpus }
    ensures { result ≡ table.rows_of cpus slots times.items }
{
    Rows { cpus, slots, times }
}

/// Returns `count` entries of the table, with all times 0.
fn no_times(alloc: Global, count: usize) -> Result<Vec<Times>, NoMemory>
    ensures { IfOk result (λ times. times.items ≡ replicate count table.no_times) }
{
    Ok(vec![in alloc; [0u64; TIMES]; count]?)
}

/// Laws of the table of times. A new table has the requested size, and setting the times of a group
/// on a processor doesn't change the size. Afterwards the table has these times for this group and
/// processor, and unchanged times for all others.
pub fn law_rows()
    ensures sizes { KeepsSizes }
    ensures places { SetsOnePlace }
{}

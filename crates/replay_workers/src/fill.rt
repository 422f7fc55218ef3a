//! Copies the stored times of all groups at a tick to a table. The stored times are ordered by
//! processor, and the table by group.
ghost use Rattle.std.specs.Prelude.{◌<◌, ℕ, length};
ghost use Rattle.aggregate.specs.Table.{HasSizes};
ghost use Rattle.replay_workers.specs.Crew.{IsTableAt};
ghost use Rattle.replay_workers.specs.Lanes.{AreKept, FillsRow};

use crate::batch::Batch;
use crate::place::LanePlace;
use aggregate::Rows;
use proc_plan::Plans;
use psi_base::{Cpu, Slot};

// Copies the times (ns) of the group in `slot` on all processors to the group's row of the table.
// The times are those stored for tick `tick`, numbered from 0.
fn fill_row(plans: &Plans, batches: &[Batch<'_>], tick: u32, slot: Slot, rows: &mut Rows)
    requires sizes { HasSizes (length plans.now.plans) (length plans.now.lives) rows.old }
    requires slot { slot.0 < length plans.now.lives }
    requires unchanged { (at : ℕ) × AreKept plans.now batches.now tick at }
    ensures sizes { HasSizes (length plans.now.plans) (length plans.now.lives) rows.new }
    ensures filled { (at : ℕ) → AreKept plans.now batches.now tick at →
        FillsRow rows.old rows.new plans.now slot.0 (length plans.now.plans) at }
{
    let slots = plans.groups().len() as u32;
    let place = tick as usize * slots as usize + slot.0 as usize;
    let cpus = plans.cpus();
    let mut at = LanePlace::first();
    'cpus: for cpu in 0..cpus {
        rows.set(Cpu(cpu), slot, at.lane(batches).kept()[place]);
        at = at.next(batches.len());
    }
}

/// Copies the times (ns) of all groups on all processors to `rows`. The times are those stored for
/// tick `tick`, numbered from 0.
pub(crate) fn fill(plans: &Plans, batches: &[Batch<'_>], tick: u32, rows: &mut Rows)
    requires sizes { HasSizes (length plans.now.plans) (length plans.now.lives) rows.old }
    requires unchanged { (at : ℕ) × AreKept plans.now batches.now tick at }
    ensures { (at : ℕ) → AreKept plans.now batches.now tick at →
        IsTableAt rows.new plans.now at }
{
    let slots = plans.groups().len() as u32;
    'slots: for slot in 0..slots {
        fill_row(plans, batches, tick, Slot(slot), rows);
    }
}

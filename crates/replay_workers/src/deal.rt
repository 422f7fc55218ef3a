//! Distributes the processors of a trace over the workers in round-robin order, and computes the
//! number of ticks whose times a worker pool can store.
ghost use Rattle.std.specs.Prelude.{◌≡◌, ◌<◌, ◌≤◌, IfOk};
ghost use Rattle.replay_workers.specs.Crew.{room_of};
ghost use Rattle.replay_workers.specs.Lanes.{AreNewBatches, IsNewBatch};

use crate::batch::Batch;
use crate::lane::Lane;
use proc_plan::Plans;
use psi_base::{Cpu, NoMemory};
use std::alloc::Global;

/// The maximum size (bytes) of the stored times of all ticks. A single tick may need more.
const MOST_KEPT: u64 = 64_000_000;

/// The maximum number of ticks by which a worker pool advances at once.
const MOST_AHEAD: u64 = 256;

/// The size (bytes) of a group's eight times on one processor.
const TIMES_BYTES: u64 = 64;

/// Returns the maximum number of ticks by which a worker pool advances at once, for a trace with
/// `moments` ticks. This is the number of ticks whose times fit into `MOST_KEPT` bytes, limited to
/// `MOST_AHEAD` and to `moments`. The result is at least 1.
pub(crate) fn room_for(cpus: u32, slots: u32, moments: u64) -> u32
    requires { cpus ≤ 64 }
    ensures room { result ≡ room_of cpus slots moments }
    ensures some { 1 ≤ result }
{
    let bytes = TIMES_BYTES * (u64::from(slots) * u64::from(cpus));
    let fits = MOST_KEPT / bytes.max(1);
    fits.min(moments).min(MOST_AHEAD).max(1) as u32
}

// Creates the processors of the worker `worker` before the first change. The processor with index
// `k` in the result is processor `k * workers + worker`. The clocks are in seqlocks if `in_rows` is
// true, and are plain clocks if it is false.
fn deal_batch<'a>(
    alloc: Global,
    plans: &'a Plans,
    worker: u32,
    workers: u32,
    room: u32,
    in_rows: bool,
) -> Result<Batch<'a>, NoMemory>
    requires below { worker < workers }
    requires few { workers ≤ 64 }
    requires roomy { 1 ≤ room }
    ensures { IfOk result (IsNewBatch plans.now room in_rows workers worker) }
{
    let cpus = plans.cpus();
    let mut lanes = Vec::new(alloc);
    let mut cpu = worker;
    'cpus: while cpu < cpus {
        lanes.push(Lane::make(alloc, plans, Cpu(cpu), room, in_rows)?)?;
        cpu += workers;
    }
    Ok(Batch { lanes })
}

/// Creates one batch of processors for each of `workers` workers, before the first change. The
/// clocks are in seqlocks if `in_rows` is true, as live sampling requires.
pub(crate) fn deal<'a>(
    alloc: Global,
    plans: &'a Plans,
    workers: u32,
    room: u32,
    in_rows: bool,
) -> Result<Vec<Batch<'a>>, NoMemory>
    requires few { workers ≤ 64 }
    requires roomy { 1 ≤ room }
    ensures { IfOk result (λ batches.
        AreNewBatches plans.now room in_rows workers batches.items) }
{
    let mut batches = Vec::new(alloc);
    'workers: for worker in 0..workers {
        batches.push(deal_batch(alloc, plans, worker, workers, room, in_rows)?)?;
    }
    Ok(batches)
}

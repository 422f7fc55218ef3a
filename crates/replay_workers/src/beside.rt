//! Takes live samples of all processors while their changes are applied. One extra thread samples
//! the seqlocks that the worker threads write.
ghost use Rattle.std.specs.Prelude.{◌≡◌, ◌<◌, ◌≤◌, ℕ, length, IfOk};
ghost use Rattle.std.specs.List.{All};
ghost use Rattle.std.specs.Thread.{IsSync};
ghost use Rattle.psi_spec.specs.Within.{last_moment};
ghost use Rattle.replay_workers.specs.Crew.{last_of};
ghost use Rattle.replay_workers.specs.Lanes.{HaveAllGone, MayAllGo, lane_of};
ghost use Rattle.replay_workers.specs.Watches.{AreNewWatchers, AreSettled, AreWatching, HasMet, HaveCleared, HaveMet, HaveSampled, HaveSlot, HaveWatched, IsInRow, IsLaneThere, IsNewWatcher, IsWatcherThere, MayAllSample};

use crate::batch::{Batch, go_all};
use crate::place::LanePlace;
use crate::ticks::Ticks;
use crate::watch::Watcher;
use outside::Gate;
use psi_base::{Cpu, NoMemory, Slot};
use std::alloc::Global;
use std::thread::{Threads, join};

fn watcher_of(
    alloc: Global,
    batches: &mut [Batch<'_>],
    cpu: Cpu,
    requested: u32,
) -> Result<Watcher, NoMemory>
    requires there { IsLaneThere batches.old cpu.0 }
    requires row { IsInRow (lane_of batches.old cpu.0) }
    ensures same { batches.new ≡ batches.old }
    ensures new { IfOk result (IsNewWatcher (lane_of batches.old cpu.0).cpu requested
        (lane_of batches.old cpu.0).row (lane_of batches.old cpu.0).on.plan) }
{
    let at = LanePlace::of(cpu, batches.len());
    let batch = &mut batches[at.worker];
    batch.lanes[at.place].watcher(alloc, requested)
}

/// The number of changes from which it pays to start another thread, if a worker pool advances by
/// one interval at a time. Applying this number of changes takes about as long as starting a
/// thread.
pub(crate) const WORTH_THREAD: u64 = 2_000;

/// Creates watchers for the first `cpus` processors, whose clocks must be in seqlocks. Each watcher
/// takes `requested` samples in an interval, without allocating further memory.
pub(crate) fn watch(
    alloc: Global,
    batches: &mut [Batch<'_>],
    cpus: u32,
    requested: u32,
) -> Result<Vec<Watcher>, NoMemory>
    requires there { (cpu : ℕ) → cpu < cpus → IsLaneThere batches.old cpu }
    requires rows { (cpu : ℕ) → cpu < cpus → IsInRow (lane_of batches.old cpu) }
    requires own { (cpu : ℕ) → cpu < cpus → (lane_of batches.old cpu).cpu ≡ cpu }
    ensures same { batches.new ≡ batches.old }
    ensures new { IfOk result (λ watchers.
        AreNewWatchers batches.old cpus requested watchers.items) }
{
    let mut watchers = Vec::new(alloc);
    'cpus: for cpu in 0..cpus {
        watchers.push(watcher_of(alloc, batches, Cpu(cpu), requested)?)?;
    }
    Ok(watchers)
}

/// Discards the samples of all watchers.
pub(crate) fn clear(watchers: &mut [Watcher])
    ensures { HaveCleared watchers.old watchers.new }
{
    'watchers: for watcher in watchers.iter_mut() {
        watcher.clear();
    }
}

fn meet(batches: &mut [Batch<'_>], watcher: &mut Watcher, slot: Slot)
    requires pair { IsWatcherThere batches.old watcher.old.cpu watcher.old }
    requires slot { slot.0 < length watcher.old.knows.plan.parents }
    ensures same { batches.new ≡ batches.old }
    ensures met { HasMet slot.0 (lane_of batches.old watcher.old.cpu).on
        watcher.old watcher.new }
{
    let at = LanePlace::of(watcher.cpu(), batches.len());
    let batch = &mut batches[at.worker];
    batch.lanes[at.place].meet_watcher(watcher, slot);
}

fn meet_all(batches: &mut [Batch<'_>], watchers: &mut [Watcher], slot: Slot)
    requires pairs { AreWatching batches.old watchers.old }
    requires slot { HaveSlot slot.0 watchers.old }
    ensures same { batches.new ≡ batches.old }
    ensures met { HaveMet slot.0 batches.old watchers.old watchers.new }
{
    'watchers: for watcher in watchers.iter_mut() {
        meet(batches, watcher, slot);
    }
}

fn settle(batches: &mut [Batch<'_>], watcher: &mut Watcher)
    requires { IsWatcherThere batches.old watcher.old.cpu watcher.old }
    ensures lanes { batches.new ≡ batches.old }
    ensures same { watcher.new ≡ watcher.old }
    ensures settled { watcher.old.knows.seen
        ≤ (lane_of batches.old watcher.old.cpu).on.made }
{
    let at = LanePlace::of(watcher.cpu(), batches.len());
    let batch = &mut batches[at.worker];
    batch.lanes[at.place].settle_watcher(watcher);
}

fn settle_all(batches: &mut [Batch<'_>], watchers: &mut [Watcher])
    requires { AreWatching batches.old watchers.old }
    ensures lanes { batches.new ≡ batches.old }
    ensures same { watchers.new ≡ watchers.old }
    ensures settled { AreSettled batches.old watchers.old }
{
    'watchers: for watcher in watchers.iter_mut() {
        settle(batches, watcher);
    }
}

fn gone<'a, R: Threads + Sync, G: Gate>(
    rt: &R,
    mut batches: Vec<Batch<'a>>,
    ticks: Ticks,
    gate: &G,
) -> Vec<Batch<'a>>
    requires any { 0 < length batches.items }
    requires some { 0 < ticks.count }
    requires early { last_of ticks ≤ last_moment }
    requires may { All (MayAllGo ticks) batches.items }
    ensures { HaveAllGone ticks batches.entry.items result.items }
{
    go_all(rt, &mut batches, ticks, WORTH_THREAD, gate);
    batches
}

// Takes all samples of `slot` with each watcher. Returns the watchers in the same order.
fn sampled<G: Gate>(mut watchers: Vec<Watcher>, slot: Slot, gate: &G) -> Vec<Watcher>
    requires { MayAllSample slot.0 watchers.items }
    ensures { HaveSampled slot.0 watchers.items result.items }
{
    'watchers: for watcher in watchers.iter_mut() {
        watcher.sample(slot, gate);
    }
    watchers
}

/// Applies the changes of all batches up to each tick, with at most one thread for every
/// `WORTH_THREAD` changes. At the same time an extra thread takes the samples of `slot` for all
/// watchers. Each watcher synchronises with its processor's clocks before the changes (`meet`) and
/// after them (`settle`). If there are no watchers, the extra thread isn't started.
pub(crate) fn go_beside<'a, R: Threads + Sync, G: Gate>(
    rt: &R,
    batches: Vec<Batch<'a>>,
    watchers: Vec<Watcher>,
    ticks: Ticks,
    slot: Slot,
    gate: &G,
) -> (Vec<Batch<'a>>, Vec<Watcher>)
    requires any { 0 < length batches.items }
    requires some { 0 < ticks.count }
    requires early { last_of ticks ≤ last_moment }
    requires may { All (MayAllGo ticks) batches.items }
    requires pairs { AreWatching batches.items watchers.items }
    requires slot { HaveSlot slot.0 watchers.items }
    ensures gone { HaveAllGone ticks batches.entry.items result.0.items }
    ensures watched { HaveWatched slot.0 batches.entry.items result.0.items
        watchers.items result.1.items }
{
    if watchers.is_empty() {
        return (gone(rt, batches, ticks, gate), watchers);
    }
    let mut batches = batches;
    let mut watchers = watchers;
    meet_all(&mut batches, &mut watchers, slot);
    let (mut batches, mut watchers) = join(
        rt,
        || -> Vec<Batch>
            requires sync { IsSync R.row }
            requires any { 0 < length batches.items }
            requires some { 0 < ticks.count }
            requires early { last_of ticks ≤ last_moment }
            requires may { All (MayAllGo ticks) batches.items }
            ensures { HaveAllGone ticks batches.entry.items result.items }
        { gone(rt, batches, ticks, gate) },
        || -> Vec<Watcher>
            requires { MayAllSample slot.0 watchers.items }
            ensures { HaveSampled slot.0 watchers.items result.items }
        { sampled(watchers, slot, gate) },
    );
    settle_all(&mut batches, &mut watchers);
    (batches, watchers)
}

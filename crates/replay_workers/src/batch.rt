//! A batch: the processors whose clocks one worker thread advances. This module runs the batches of
//! all workers in threads. The module `deal` creates the batches.
ghost use Rattle.std.specs.Prelude.{◌<◌, ◌≤◌};
ghost use Rattle.std.specs.List.{All};
ghost use Rattle.psi_spec.specs.Within.{last_moment};
ghost use Rattle.replay_workers.specs.Crew.{last_of};
ghost use Rattle.replay_workers.specs.Lanes.{HaveAllGone, HaveGone, MayAllGo};

use crate::lane::Lane;
use crate::ticks::Ticks;
use outside::Gate;
use psi_base::Ns;
use std::marker::Model;
use std::thread;
use std::thread::Threads;

/// The processors of one worker, each with its clocks and stored times (`Lane`). In contracts this
/// is a list.
#[derive(Drop)]
pub(crate) struct Batch<'a> {
    pub(crate) lanes: Vec<Lane<'a>>,
}

impl<'a> Model for Batch<'a> {
    ghost use Rattle.std.specs.Prelude.{List};
    ghost use Rattle.replay_workers.specs.Lanes.{LaneView};

    ghost Value = { List LaneView };

    ghost view = { λ b. b.lanes.items };
}

impl<'a> Batch<'a> {
    /// For each tick, applies the changes of the batch's processors up to the tick, and stores the
    /// times of all groups at the tick.
    pub(crate) fn go_over<G: Gate>(&mut self, ticks: Ticks, gate: &G)
        requires some { 0 < ticks.count }
        requires early { last_of ticks ≤ last_moment }
        requires may { MayAllGo ticks self.old }
        ensures { HaveGone ticks self.old self.new }
    {
        'lanes: for lane in self.lanes.iter_mut() {
            lane.go_over(ticks, gate);
        }
    }

    /// Returns the number of changes up to the time `until` (ns) that the batch's processors
    /// haven't applied yet.
    fn changes_left(&self, until: Ns) -> u64 {
        let mut left = 0u64;
        'lanes: for lane in &self.lanes {
            left = left.saturating_add(lane.changes_left(until));
        }
        left
    }
}

// Returns the number of threads to use: one for every `worth` changes up to the time `until` (ns),
// and at most one for each batch. Returns 1 (only the caller's thread) if at most one batch has
// changes to apply.
fn threads_for(batches: &[Batch<'_>], until: Ns, worth: u64) -> usize
    requires { 0 < worth }
    ensures { 0 < result }
{
    let mut busy = 0u64;
    let mut changes = 0u64;
    'batches: for batch in batches {
        let left = batch.changes_left(until);
        busy = busy.saturating_add(left.min(1));
        changes = changes.saturating_add(left);
    }
    if busy < 2 {
        return 1;
    }
    batches.len().min((changes / worth) as usize).max(1)
}

/// For each tick, applies the changes of all batches up to the tick, and stores the times of all
/// groups at the tick. Each batch runs in a thread of its own if the thread can be started, with at
/// most one thread for every `worth` changes. Batches don't depend on each other.
pub(crate) fn go_all<R: Threads + Sync, G: Gate>(
    rt: &R,
    batches: &mut [Batch<'_>],
    ticks: Ticks,
    worth: u64,
    gate: &G,
)
    requires worth { 0 < worth }
    requires some { 0 < ticks.count }
    requires early { last_of ticks ≤ last_moment }
    requires may { All (MayAllGo ticks) batches.old }
    ensures { HaveAllGone ticks batches.old batches.new }
{
    let last = ticks.last();
    let threads = threads_for(batches, last, worth);
    thread::for_each_mut(
        rt,
        batches,
        threads,
        &|_: usize, batch: &mut Batch<'_>|
            requires { (0 < ticks.count) × (last_of ticks ≤ last_moment)
                × MayAllGo ticks batch.now }
            ensures { HaveGone ticks batch.old batch.new }
        { batch.go_over(ticks, gate) },
    );
}

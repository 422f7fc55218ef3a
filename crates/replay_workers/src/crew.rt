//! The clocks of all processors of a trace, which a pool of worker threads advances tick by tick.
//! The pool doesn't compute pressure: it returns a table of times for each tick.
ghost use Rattle.std.specs.Prelude.{◌≡◌, ◌<◌, ◌≤◌, ℕ, ◌∷◌, [], drop, length, slice_get, IfOk, IfSome, None, Ok, Some, is_some, true};
ghost use Rattle.plan_laws.specs.Plan.{IsClock};
ghost use Rattle.psi_spec.specs.Within.{last_moment};
ghost use Rattle.clock_row.specs.Steps.{count_shown, new_reader};
ghost use Rattle.aggregate.specs.Table.{HasSizes};
ghost use Rattle.proc_plan.specs.Plans.{plan_at};
ghost use Rattle.replay_workers.specs.Crew.{AreAt, AreNotPast, AreInRows, AreOnPlans, AreSampled, IsTableAt, clocks_at, last_of, moments_of, room_of, row_at, watch_at};

use crate::batch::{Batch, go_all};
use crate::beside::{WORTH_THREAD, clear, go_beside, watch};
use crate::deal::{deal, room_for};
use crate::fill::fill;
use crate::place::{LanePlace, lane_in};
use crate::ticks::Ticks;
use crate::watch::Watcher;
use aggregate::Rows;
use clock_row::{ClockReader, Sample};
use cpu_clock::Clock;
use outside::Gate;
use proc_plan::Plans;
use psi_base::{Cpu, NoMemory, Ns, Slot};
use std::alloc::Global;
use std::marker::Model;
use std::mem;
use std::thread::Threads;

/// The pool of worker threads of a replay, with the clocks of all processors. The workers apply the
/// changes of a trace for several ticks at a time, each for its own processors. The times of all
/// groups at each tick are stored until [`Crew::fill`] returns them. During an interval (the time
/// from one tick to the next) the clocks of one group can be sampled live. Contracts see a `Crew`
/// as a record `CrewView`, which is defined in `specs/Crew`.
///
/// A pool that takes live samples has its clocks in seqlocks, even if no group is watched. A caller
/// that samples with its own readers gets them from [`Crew::reader`], and calls [`Crew::settle`]
/// and [`Crew::meet`] for each reader between two intervals.
#[derive(Drop)]
pub struct Crew<'a> {
    alloc: Global,
    plans: &'a Plans,
    /// The batch of processors of each worker. Processor `c` belongs to worker `c % workers`.
    batches: Vec<Batch<'a>>,
    /// The ticks over which the pool last advanced.
    ticks: Ticks,
    /// The number of ticks in `ticks` whose tables have been returned.
    out: u32,
    /// The maximum number of ticks for which each processor can store times.
    room: u32,
    /// The number of live samples of each processor in an interval.
    requested: u32,
    /// The watcher of each processor, which takes its live samples. Empty if no live samples are
    /// taken.
    watchers: Vec<Watcher>,
}

impl<'a> Model for Crew<'a> {
    ghost use Rattle.replay_workers.specs.Crew.{CrewView};
    ghost use Rattle.replay_workers.specs.Watches.{IsCrew, crew_of};

    ghost Value = { CrewView };

    ghost view = { λ c.
        crew_of c.plans.now c.batches.items c.ticks c.out c.room c.requested c.watchers.items };

    ghost invariant = { λ c.
        IsCrew c.plans.now c.batches.items c.ticks c.out c.room c.requested c.watchers.items };
}

impl<'a> Crew<'a> {
    /// Creates the clocks of all processors before the first change, for 1 to 64 workers. `moments`
    /// is the trace's number of ticks, which limits how many ticks are computed ahead. If a group
    /// is watched, `live` samples of each processor are taken in an interval. Allocates all memory
    /// that the pool ever needs.
    pub fn make(
        alloc: Global,
        plans: &'a Plans,
        workers: u32,
        moments: u64,
        live: u32,
    ) -> Result<Crew<'a>, NoMemory>
        requires some { 1 ≤ workers }
        requires few { workers ≤ 64 }
        ensures plans { IfOk result (λ crew. crew.plans ≡ plans.now) }
        ensures on { IfOk result (λ crew. AreOnPlans crew.plans crew.clocks) }
        ensures fresh { IfOk result (λ crew.
            (cpu : ℕ) → cpu < length crew.plans.plans →
            (clocks_at crew.clocks cpu).made ≡ 0) }
        ensures rows { 0 < live → IfOk result (λ crew. AreInRows crew.plans crew.rows) }
        ensures none { IfOk result (λ crew. crew.ready ≡ []) }
        ensures room { IfOk result (λ crew. crew.room
            ≡ room_of (length crew.plans.plans) (length crew.plans.lives) moments) }
        ensures requested { IfOk result (λ crew. crew.requested ≡ live) }
        ensures unwatched { IfOk result (λ crew.
            (cpu : ℕ) → (watch_at crew.watches cpu).samples ≡ []) }
    {
        let cpus = plans.cpus();
        let room = room_for(cpus, plans.groups().len() as u32, moments);
        let is_live = live > 0;
        let mut batches = deal(alloc, plans, workers.min(cpus), room, is_live)?;
        let watched = if is_live { cpus } else { 0 };
        let watchers = watch(alloc, &mut batches, watched, live)?;
        Ok(Crew {
            alloc,
            plans,
            batches,
            ticks: Ticks {
                first: 0,
                length: 0,
                count: 0,
            },
            out: 0,
            room,
            requested: live,
            watchers,
        })
    }

    /// Returns the maximum number of ticks by which the worker pool can advance at once.
    pub fn room(&self) -> u32
        ensures room { result ≡ self.now.room }
        ensures some { 1 ≤ result }
    {
        self.room
    }

    /// Returns the number of ready ticks: ticks whose tables `fill` hasn't returned yet.
    pub fn ready(&self) -> u32
        ensures { result ≡ length self.now.ready }
    {
        self.ticks.count - self.out
    }

    /// Advances over the ticks `ticks` without watching a group. Each worker applies the changes of
    /// its processors up to and including each tick, and stores the times of all groups at that
    /// tick. Discards earlier samples, and ticks that `fill` hasn't returned. Does not allocate.
    pub fn intervals<R: Threads + Sync, G: Gate>(&mut self, rt: &R, ticks: Ticks, gate: &G)
        requires some { 0 < ticks.count }
        requires within { ticks.count ≤ self.old.room }
        requires not_past { AreNotPast self.old.plans self.old.clocks ticks.first }
        requires early { last_of ticks ≤ last_moment }
        ensures plans { self.new.plans ≡ self.old.plans }
        ensures rows { self.new.rows ≡ self.old.rows }
        ensures room { self.new.room ≡ self.old.room }
        ensures requested { self.new.requested ≡ self.old.requested }
        ensures there { AreAt self.new.plans self.new.clocks (last_of ticks) }
        ensures ready { self.new.ready ≡ moments_of ticks }
        ensures live { AreSampled None self.old self.new }
    {
        // A pool that takes samples advances by one interval at a time, even if no group is
        // watched. Such a call has few changes, so another thread is started only for a minimum
        // number of changes.
        let worth = if self.requested > 0 { WORTH_THREAD } else { 1 };
        go_all(rt, &mut self.batches, ticks, worth, gate);
        clear(&mut self.watchers);
        self.ticks = ticks;
        self.out = 0;
    }

    // Advances over the ticks `ticks` as `intervals` does, and takes live samples of `slot` while
    // the changes are applied.
    fn intervals_beside<R: Threads + Sync, G: Gate>(
        &mut self,
        rt: &R,
        ticks: Ticks,
        slot: Slot,
        gate: &G,
    )
        requires some { 0 < ticks.count }
        requires within { ticks.count ≤ self.old.room }
        requires not_past { AreNotPast self.old.plans self.old.clocks ticks.first }
        requires early { last_of ticks ≤ last_moment }
        requires slot { slot.0 < length self.old.plans.lives }
        ensures plans { self.new.plans ≡ self.old.plans }
        ensures rows { self.new.rows ≡ self.old.rows }
        ensures room { self.new.room ≡ self.old.room }
        ensures requested { self.new.requested ≡ self.old.requested }
        ensures there { AreAt self.new.plans self.new.clocks (last_of ticks) }
        ensures ready { self.new.ready ≡ moments_of ticks }
        ensures live { AreSampled (Some slot) self.old self.new }
    {
        let batches = mem::replace(&mut self.batches, Vec::new(self.alloc));
        let watchers = mem::replace(&mut self.watchers, Vec::new(self.alloc));
        let (batches, watchers) = go_beside(rt, batches, watchers, ticks, slot, gate);
        self.batches = batches;
        self.watchers = watchers;
        self.ticks = ticks;
        self.out = 0;
    }

    /// Applies the changes of all processors up to and including the tick at `until` (ns), and
    /// stores the times of all groups at that tick. If a slot is watched and the pool takes
    /// samples, `requested` samples of the slot's clock are taken on each processor at the same
    /// time. Discards earlier samples. Does not allocate.
    pub fn interval<R: Threads + Sync, G: Gate>(
        &mut self,
        rt: &R,
        until: Ns,
        watched: Option<Slot>,
        gate: &G,
    )
        requires not_past { AreNotPast self.old.plans self.old.clocks until }
        requires early { until ≤ last_moment }
        requires watched { IfSome watched (λ slot. slot.0 < length self.old.plans.lives) }
        ensures plans { self.new.plans ≡ self.old.plans }
        ensures rows { self.new.rows ≡ self.old.rows }
        ensures room { self.new.room ≡ self.old.room }
        ensures requested { self.new.requested ≡ self.old.requested }
        ensures there { AreAt self.new.plans self.new.clocks until }
        ensures ready { self.new.ready ≡ until ∷ [] }
        ensures live { AreSampled watched self.old self.new }
    {
        let _room_for_one = self.room;
        let ticks = Ticks {
            first: until,
            length: 0,
            count: 1,
        };
        match watched {
            None => self.intervals(rt, ticks, gate),
            Some(slot) => self.intervals_beside(rt, ticks, slot, gate),
        }
    }

    /// Returns the live samples of processor `cpu` in the last interval, in the order in which they
    /// were taken.
    pub fn live(&self, cpu: Cpu) -> &[Sample]
        ensures { result.now ≡ (watch_at self.now.watches cpu.0).samples }
    {
        match self.watchers.get(cpu.0 as usize) {
            Some(watcher) => watcher.samples(),
            None => &[],
        }
    }

    /// Copies the times (ns) of all groups on all processors at the first ready tick to `rows`.
    /// `at` is the time (ns) of this tick, which is no longer ready afterwards. Does not allocate.
    pub fn fill(&mut self, at: Ns, rows: &mut Rows)
        requires first { slice_get self.old.ready 0 ≡ Some at }
        requires sizes { HasSizes (length self.old.plans.plans)
            (length self.old.plans.lives) rows.old }
        ensures unchanged { self.new ≡ record self.old { ready = drop 1 self.old.ready } }
        ensures table { IsTableAt rows.new self.old.plans at }
    {
        fill(self.plans, &self.batches, self.out, rows);
        self.out += 1;
    }

    /// Returns the number of changes that processor `cpu` has applied.
    pub fn count(&self, cpu: Cpu) -> u64
        requires { cpu.0 < length self.now.plans.plans }
        ensures { result ≡ (clocks_at self.now.clocks cpu.0).made }
    {
        lane_in(&self.batches, cpu).count()
    }

    /// Returns the clock of `slot` on processor `cpu`, after all changes that the processor has
    /// applied.
    pub fn own(&mut self, cpu: Cpu, slot: Slot) -> Clock
        requires cpu { cpu.0 < length self.old.plans.plans }
        requires slot { slot.0 < length self.old.plans.lives }
        ensures unchanged { self.new ≡ self.old }
        ensures clock { IsClock result (plan_at self.old.plans cpu.0) slot.0
            (clocks_at self.old.clocks cpu.0).made }
    {
        let at = LanePlace::of(cpu, self.batches.len());
        let batch = &mut self.batches[at.worker];
        batch.lanes[at.place].own(slot)
    }

    /// Creates a reader of the seqlock with the clocks of processor `cpu`. The reader has seen all
    /// changes that the processor has applied, and may be sent to another thread.
    pub fn reader(&mut self, cpu: Cpu) -> Result<ClockReader, NoMemory>
        requires cpu { cpu.0 < length self.old.plans.plans }
        requires in_row { is_some (row_at self.old.rows cpu.0) ≡ true }
        ensures same { self.new ≡ self.old }
        ensures row { IfOk result (λ reader. Some reader.row ≡ row_at self.old.rows cpu.0) }
        ensures seen { IfOk result (λ reader. reader.knows
            ≡ new_reader (plan_at self.old.plans cpu.0) (clocks_at self.old.clocks cpu.0).made) }
    {
        let at = LanePlace::of(cpu, self.batches.len());
        let batch = &mut self.batches[at.worker];
        batch.lanes[at.place].reader()
    }

    /// Passes the number of changes applied by processor `cpu` to `reader`, a reader of the
    /// processor's clocks. After the call the reader has seen at least that many changes. Doesn't
    /// allocate, and always returns `Ok`.
    pub fn meet(&mut self, cpu: Cpu, reader: &mut ClockReader) -> Result<(), NoMemory>
        requires cpu { cpu.0 < length self.old.plans.plans }
        requires own { Some reader.old.row ≡ row_at self.old.rows cpu.0 }
        ensures ok { result ≡ Ok tt }
        ensures same { self.new ≡ self.old }
        ensures row { reader.new.row ≡ reader.old.row }
        ensures met { reader.new.knows
            ≡ count_shown (clocks_at self.old.clocks cpu.0).made reader.old.knows }
    {
        let at = LanePlace::of(cpu, self.batches.len());
        let batch = &mut self.batches[at.worker];
        batch.lanes[at.place].meet(reader)
    }

    /// Synchronises with `reader`, a reader of the clocks of processor `cpu`. The contract then
    /// states that the reader has seen at most the changes that were applied. Does not allocate,
    /// and always returns `Ok`.
    pub fn settle(&mut self, cpu: Cpu, reader: &mut ClockReader) -> Result<(), NoMemory>
        requires cpu { cpu.0 < length self.old.plans.plans }
        requires own { Some reader.old.row ≡ row_at self.old.rows cpu.0 }
        ensures ok { result ≡ Ok tt }
        ensures crew { self.new ≡ self.old }
        ensures same { reader.new ≡ reader.old }
        ensures seen { reader.old.knows.seen ≤ (clocks_at self.old.clocks cpu.0).made }
    {
        let at = LanePlace::of(cpu, self.batches.len());
        let batch = &mut self.batches[at.worker];
        batch.lanes[at.place].settle(reader)
    }
}

//! A lane: one processor with its clocks, which advances tick by tick, and the times stored at each
//! tick. This module starts no threads. A worker advances all processors of its batch in one
//! thread.
ghost use Rattle.std.specs.Prelude.{◌≡◌, ◌*◌, ◌<◌, ◌≤◌, length, IfOk, Ok, Some, is_some};
ghost use Rattle.plan_laws.specs.Plan.{IsClock, IsPlan};
ghost use Rattle.psi_spec.specs.Within.{last_moment};
ghost use Rattle.proc_plan.specs.Plans.{plan_at};
ghost use Rattle.clock_row.specs.Steps.{count_shown, new_reader};
ghost use Rattle.replay_workers.specs.Crew.{last_of};
ghost use Rattle.replay_workers.specs.Lanes.{HasGone, MayGo};
ghost use Rattle.replay_workers.specs.Watches.{HasMet, IsInRow, IsNewWatcher};

use crate::lane_clocks::LaneClocks;
use crate::ticks::Ticks;
use crate::watch::Watcher;
use clock_row::ClockReader;
use cpu_clock::Clock;
use outside::Gate;
use pressure_spec::{TIMES, Times};
use proc_plan::{Plan, Plans};
use psi_base::{Cpu, NoMemory, Ns, Slot};
use std::alloc::Global;
use std::marker::Model;

/// The clocks of one processor, and the times of all groups at the ticks over which the clocks last
/// advanced. In contracts a lane consists of the processor, the seqlock that contains the clocks
/// (or `None`), the plan, the number of changes applied, and the stored times.
#[derive(Drop)]
pub(crate) struct Lane<'a> {
    cpu: Cpu,
    plan: &'a Plan,
    slots: u32,
    clocks: LaneClocks<'a>,
    /// The stored times (ns) of all groups: `slots` entries for each tick, in order of ticks.
    kept: Vec<Times>,
}

impl<'a> Model for Lane<'a> {
    ghost use Rattle.replay_workers.specs.Lanes.{IsLane, LaneView, clocks_in, row_of_clocks};

    ghost Value = { LaneView };

    ghost view = { λ l. record {
      cpu = l.cpu.0;
      row = row_of_clocks l.clocks;
      on = clocks_in l.clocks;
      kept = l.kept.items;
    } };

    ghost invariant = { λ l. IsLane l.plan.now l.slots (clocks_in l.clocks) };
}

// Creates a list of `count` entries, all zero.
fn places(alloc: Global, count: usize) -> Result<Vec<Times>, NoMemory>
    ensures { IfOk result (λ times. length times.items ≡ count) }
{
    Ok(vec![in alloc; [0u64; TIMES]; count]?)
}

impl<'a> Lane<'a> {
    /// Creates the lane of processor `cpu` before the first change. There is room to store the
    /// times of `room` ticks. The clocks are in a seqlock if `in_row` is true. Applying changes
    /// doesn't allocate.
    pub(crate) fn make(
        alloc: Global,
        plans: &'a Plans,
        cpu: Cpu,
        room: u32,
        in_row: bool,
    ) -> Result<Lane<'a>, NoMemory>
        requires { cpu.0 < length plans.now.plans }
        ensures cpu { IfOk result (λ lane. lane.cpu ≡ cpu.0) }
        ensures on { IfOk result (λ lane.
            lane.on ≡ record { plan = plan_at plans.now cpu.0; made = 0 }) }
        ensures size { IfOk result (λ lane. length lane.kept ≡ room * length plans.now.lives) }
        ensures whole { IfOk result (λ lane. IsPlan lane.on.plan) }
        ensures slots { IfOk result (λ lane.
            length lane.on.plan.parents ≡ length plans.now.lives) }
        ensures row { IfOk result (λ lane. is_some lane.row ≡ in_row) }
    {
        let plan = plans.plan(cpu);
        let slots = plans.groups().len() as u32;
        Ok(Lane {
            cpu,
            plan,
            slots,
            clocks: LaneClocks::make(alloc, plan, slots, in_row)?,
            kept: places(alloc, room as usize * slots as usize)?,
        })
    }

    /// Returns the number of changes that the processor has applied.
    pub(crate) fn count(&self) -> u64
        ensures { result ≡ self.now.on.made }
    {
        self.clocks.count()
    }

    /// Returns the number of changes up to the time `until` (ns) that the processor hasn't applied
    /// yet.
    pub(crate) fn changes_left(&self, until: Ns) -> u64 {
        self.plan.until(until).saturating_sub(self.clocks.count())
    }

    /// Returns the clock of `slot` after all changes that the processor has applied.
    pub(crate) fn own(&mut self, slot: Slot) -> Clock
        requires { slot.0 < length self.old.on.plan.parents }
        ensures unchanged { self.new ≡ self.old }
        ensures clock { IsClock result self.old.on.plan slot.0 self.old.on.made }
    {
        self.clocks.own(slot)
    }

    /// Returns the stored times (ns): `slots` entries for each tick, in order of ticks.
    pub(crate) fn kept(&self) -> &[Times]
        ensures { result.now ≡ self.now.kept }
    {
        &self.kept
    }

    /// Creates a reader of the processor's clocks. Precondition: the clocks are in a seqlock.
    pub(crate) fn reader(&mut self) -> Result<ClockReader, NoMemory>
        requires { IsInRow self.old }
        ensures same { self.new ≡ self.old }
        ensures row { IfOk result (λ reader. Some reader.row ≡ self.old.row) }
        ensures seen { IfOk result (λ reader.
            reader.knows ≡ new_reader self.old.on.plan self.old.on.made) }
    {
        let LaneClocks::Row(writer) = &mut self.clocks else {
            unreachable!()
        };
        writer.reader()
    }

    /// Passes the number of changes applied to `reader`, a reader of the processor's clocks. Does
    /// not allocate, and always returns `Ok`.
    pub(crate) fn meet(&mut self, reader: &mut ClockReader) -> Result<(), NoMemory>
        requires { Some reader.old.row ≡ self.old.row }
        ensures ok { result ≡ Ok tt }
        ensures same { self.new ≡ self.old }
        ensures row { reader.new.row ≡ reader.old.row }
        ensures met { reader.new.knows ≡ count_shown self.old.on.made reader.old.knows }
    {
        let LaneClocks::Row(writer) = &mut self.clocks else {
            unreachable!()
        };
        writer.meet(reader)
    }

    /// Synchronises with `reader`, a reader of the processor's clocks. The contract then states
    /// that the reader has seen at most the changes that were applied. Does not allocate, and
    /// always returns `Ok`.
    pub(crate) fn settle(&mut self, reader: &mut ClockReader) -> Result<(), NoMemory>
        requires { Some reader.old.row ≡ self.old.row }
        ensures ok { result ≡ Ok tt }
        ensures lane { self.new ≡ self.old }
        ensures same { reader.new ≡ reader.old }
        ensures seen { reader.old.knows.seen ≤ self.old.on.made }
    {
        let LaneClocks::Row(writer) = &mut self.clocks else {
            unreachable!()
        };
        writer.settle(reader)
    }

    /// Creates a watcher of the processor's clocks, which takes `requested` samples in an interval.
    /// Precondition: the clocks are in a seqlock. Sampling doesn't allocate.
    pub(crate) fn watcher(&mut self, alloc: Global, requested: u32) -> Result<Watcher, NoMemory>
        requires { IsInRow self.old }
        ensures same { self.new ≡ self.old }
        ensures new { IfOk result
            (IsNewWatcher self.old.cpu requested self.old.row self.old.on.plan) }
    {
        let LaneClocks::Row(writer) = &mut self.clocks else {
            unreachable!()
        };
        Watcher::make(alloc, self.cpu, writer, requested)
    }

    /// Passes the number of changes applied, and the clock of `slot` after these changes, to the
    /// processor's watcher.
    pub(crate) fn meet_watcher(&mut self, watcher: &mut Watcher, slot: Slot)
        requires row { Some watcher.old.row ≡ self.old.row }
        requires plan { watcher.old.knows.plan ≡ self.old.on.plan }
        requires slot { slot.0 < length self.old.on.plan.parents }
        ensures same { self.new ≡ self.old }
        ensures met { HasMet slot.0 self.old.on watcher.old watcher.new }
    {
        let LaneClocks::Row(writer) = &mut self.clocks else {
            unreachable!()
        };
        watcher.meet(writer, slot);
    }

    /// Synchronises with the processor's watcher. The contract then states that the watcher has
    /// seen at most the changes that were applied.
    pub(crate) fn settle_watcher(&mut self, watcher: &mut Watcher)
        requires { Some watcher.old.row ≡ self.old.row }
        ensures lane { self.new ≡ self.old }
        ensures same { watcher.new ≡ watcher.old }
        ensures seen { watcher.old.knows.seen ≤ self.old.on.made }
    {
        let LaneClocks::Row(writer) = &mut self.clocks else {
            unreachable!()
        };
        watcher.settle(writer);
    }

    /// For each tick, applies the changes up to the tick, and stores the times of all groups at the
    /// tick.
    pub(crate) fn go_over<G: Gate>(&mut self, ticks: Ticks, gate: &G)
        requires some { 0 < ticks.count }
        requires early { last_of ticks ≤ last_moment }
        requires may { MayGo ticks self.old }
        ensures { HasGone ticks self.old self.new }
    {
        self.clocks.go_over(self.plan, self.slots, self.cpu, ticks, &mut self.kept, gate);
    }
}

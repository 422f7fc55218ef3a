//! The clocks of one processor, either plain or in a seqlock. They are in a seqlock only if a
//! reader may sample them while changes are applied. The same generic code advances both kinds.
ghost use Rattle.std.specs.Prelude.{◌≡◌, ◌+◌, ◌*◌, ◌<◌, ◌≤◌, length, IfOk, is_some};
ghost use Rattle.plan_laws.specs.Plan.{IsClock, IsPlan, changes_up_to, last_change};
ghost use Rattle.psi_spec.specs.Within.{last_moment};
ghost use Rattle.replay_workers.specs.Crew.{last_of};
ghost use Rattle.replay_workers.specs.Lanes.{KeepsTick, KeepsTicks, clocks_in, row_of_clocks};

use crate::clocks::{make_until, own_times};
use crate::ticks::Ticks;
use clock_row::{ClockWriter, Row};
use cpu_clock::Clock;
use outside::Gate;
use pressure_spec::Times;
use proc_plan::{IrqClocks, PlainClocks, Plan, ProcClocks};
use psi_base::{Cpu, NoMemory, Ns, Slot};
use std::alloc::Global;

/// The clocks of a processor. A change costs about twice as much in a seqlock as in plain clocks.
#[derive(Drop)]
pub(crate) enum LaneClocks<'a> {
    /// Plain clocks, which no other thread reads.
    Plain(PlainClocks<'a>),
    /// Clocks in a seqlock: watchers in other threads may read them while changes are applied.
    Row(ClockWriter<'a>),
}

// Stores the times (ns) of all groups for tick `tick`, whose time is `at` (ns). Precondition: the
// clocks have applied all changes up to `at`.
fn keep_tick<C: IrqClocks>(clocks: &mut C, slots: u32, tick: u32, at: Ns, kept: &mut [Times])
    requires known { slots ≡ length (C.plan clocks.old).parents }
    requires whole { IsPlan (C.plan clocks.old) }
    requires all { C.made clocks.old ≡ changes_up_to (C.plan clocks.old) at }
    requires past { last_change (C.plan clocks.old) (C.made clocks.old) ≤ at }
    requires early { at ≤ last_moment }
    requires room { tick * slots + slots ≤ length kept.old }
    ensures plan { C.plan clocks.new ≡ C.plan clocks.old }
    ensures made { C.made clocks.new ≡ C.made clocks.old }
    ensures home { C.home clocks.new ≡ C.home clocks.old }
    ensures keeps { KeepsTick kept.old kept.new tick (C.plan clocks.old) at }
{
    let start = tick as usize * slots as usize;
    'slots: for slot in 0..slots {
        kept[start + slot as usize] = own_times(clocks, Slot(slot), at);
    }
}

// Applies the changes of a plan tick by tick, and stores the times of all groups at each tick.
fn go_over<C: IrqClocks, G: Gate>(
    plan: &Plan,
    clocks: &mut C,
    slots: u32,
    cpu: Cpu,
    ticks: Ticks,
    kept: &mut [Times],
    gate: &G,
)
    requires plan { C.plan clocks.old ≡ plan.now }
    requires whole { IsPlan plan.now }
    requires slots { slots ≡ length plan.now.parents }
    requires some { 0 < ticks.count }
    requires room { ticks.count * slots ≤ length kept.old }
    requires not_past { C.made clocks.old ≤ changes_up_to plan.now ticks.first }
    requires early { last_of ticks ≤ last_moment }
    ensures plan { C.plan clocks.new ≡ plan.now }
    ensures made { C.made clocks.new ≡ changes_up_to plan.now (last_of ticks) }
    ensures home { C.home clocks.new ≡ C.home clocks.old }
    ensures past { last_change plan.now (changes_up_to plan.now (last_of ticks)) ≤ last_of ticks }
    ensures size { length kept.new ≡ length kept.old }
    ensures keeps { KeepsTicks kept.new plan.now ticks ticks.count }
{
    'ticks: for tick in 0..ticks.count {
        let at = ticks.moment(tick);
        make_until(clocks, cpu, plan.until(at), gate);
        keep_tick(clocks, slots, tick, at, kept);
    }
}

impl<'a> LaneClocks<'a> {
    /// Creates the clocks of a plan with `slots` slots, before its first change. The clocks are in
    /// a seqlock if `in_row` is true. Applying changes doesn't allocate.
    pub(crate) fn make(
        alloc: Global,
        plan: &'a Plan,
        slots: u32,
        in_row: bool,
    ) -> Result<LaneClocks<'a>, NoMemory>
        requires { slots ≡ length plan.now.parents }
        ensures on { IfOk result (λ clocks.
            clocks_in clocks ≡ record { plan = plan.now; made = 0 }) }
        ensures row { IfOk result (λ clocks. is_some (row_of_clocks clocks) ≡ in_row) }
    {
        if in_row {
            return Ok(LaneClocks::Row(Row::make(alloc, plan, slots)?));
        }
        Ok(LaneClocks::Plain(PlainClocks::make(alloc, plan, slots)?))
    }

    /// Returns the number of changes that the clocks have applied.
    pub(crate) fn count(&self) -> u64
        ensures { result ≡ (clocks_in self.now).made }
    {
        match self {
            LaneClocks::Plain(clocks) => clocks.count(),
            LaneClocks::Row(writer) => writer.count(),
        }
    }

    /// Returns the clock of `slot` after all changes that the clocks have applied.
    pub(crate) fn own(&mut self, slot: Slot) -> Clock
        requires { slot.0 < length (clocks_in self.old).plan.parents }
        ensures unchanged { clocks_in self.new ≡ clocks_in self.old }
        ensures row { row_of_clocks self.new ≡ row_of_clocks self.old }
        ensures clock { IsClock result (clocks_in self.old).plan slot.0
            (clocks_in self.old).made }
    {
        match self {
            LaneClocks::Plain(clocks) => clocks.own(slot),
            LaneClocks::Row(writer) => writer.own(slot),
        }
    }

    /// Applies the changes of a plan tick by tick, and stores the times of all groups at each tick.
    pub(crate) fn go_over<G: Gate>(
        &mut self,
        plan: &Plan,
        slots: u32,
        cpu: Cpu,
        ticks: Ticks,
        kept: &mut [Times],
        gate: &G,
    )
        requires plan { (clocks_in self.old).plan ≡ plan.now }
        requires whole { IsPlan plan.now }
        requires slots { slots ≡ length plan.now.parents }
        requires some { 0 < ticks.count }
        requires room { ticks.count * slots ≤ length kept.old }
        requires not_past { (clocks_in self.old).made ≤ changes_up_to plan.now ticks.first }
        requires early { last_of ticks ≤ last_moment }
        ensures plan { (clocks_in self.new).plan ≡ plan.now }
        ensures made { (clocks_in self.new).made ≡ changes_up_to plan.now (last_of ticks) }
        ensures row { row_of_clocks self.new ≡ row_of_clocks self.old }
        ensures past { last_change plan.now (changes_up_to plan.now (last_of ticks))
            ≤ last_of ticks }
        ensures size { length kept.new ≡ length kept.old }
        ensures keeps { KeepsTicks kept.new plan.now ticks ticks.count }
    {
        match self {
            LaneClocks::Plain(clocks) => go_over(plan, clocks, slots, cpu, ticks, kept, gate),
            LaneClocks::Row(writer) => go_over(plan, writer, slots, cpu, ticks, kept, gate),
        }
    }
}

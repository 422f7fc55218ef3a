//! The engine stores the pressure totals and averages of all groups and the state of all triggers,
//! and updates them tick by tick.
//!
//! The module `group` updates one group, and the module `watch` updates one trigger.

ghost use Rattle.std.specs.Prelude.{◌≡◌, ◌≤◌, ◌<◌, [], All, IfOk, length, map};
ghost use Rattle.aggregate.specs.Table.{HasSizes};
ghost use Rattle.pressure_spec.specs.NextTick.{IsNextTick};
ghost use Rattle.psi_spec.specs.Within.{AreTriggersWithin};
ghost use Rattle.psi_spec.specs.Within.{last_moment};
ghost use Rattle.psi_spec.specs.World.{most_groups};
ghost use Rattle.tick_engine.specs.Engine.{averages_in, totals_in, IsLifeWithin, Represents, EngineTakes};
ghost use Rattle.tick_engine.specs.Engine.{ShowsAverages, ShowsFired, ShowsLast, ShowsTotals};
ghost use Rattle.tick_engine.specs.Step.{new_watch, unsampled_group};
ghost use Rattle.tick_engine.specs.Tables.{tick_at};

use crate::group::{Group, tick_all};
use crate::last::LastTick;
use crate::watch::{TriggerWatch, begin_all, step_all};
use aggregate::Rows;
use fixed_average::Averages;
use pressure_spec::Amounts;
use psi_base::{NoMemory, Ns, Slot, TriggerSpec};
use psi_spec::GroupLife;
use std::alloc::Global;
use std::marker::Model;

/// The totals and averages of all groups, and the triggers that fired, after the ticks so far. The
/// engine corresponds to the kernel's `psi_avgs_work` and `update_triggers`, except that all groups
/// are updated at the same ticks. Memory is allocated only when the engine is created.
#[derive(Drop)]
pub struct Engine {
    last: LastTick,
    groups: Vec<Group>,
    watches: Vec<TriggerWatch>,
    /// The number of processors in the tables of times.
    cpus: u32,
    /// The indexes of the triggers that fired at the last tick, with capacity for all triggers.
    fired: Vec<u32>,
}

impl Model for Engine {
    ghost use Rattle.std.specs.Prelude.{length, vec_capacity};
    ghost use Rattle.tick_engine.specs.Engine.{EngineView, IsEngine, IsRoom, seen_as};

    ghost Value = { EngineView };

    ghost view = { λ e.
        seen_as e.cpus e.last e.groups.items e.watches.items e.fired.items };

    ghost invariant = { λ e. IsRoom (length e.watches.items) (vec_capacity e.fired) × IsEngine
        (seen_as e.cpus e.last e.groups.items e.watches.items e.fired.items) };
}

/// Returns the states of the groups before the first tick.
fn groups_of(alloc: Global, lives: &[GroupLife]) -> Result<Vec<Group>, NoMemory>
    requires { All (λ life. IsLifeWithin last_moment life) lives.now }
    ensures { IfOk result (λ groups. groups.items ≡ map unsampled_group lives.now) }
{
    let mut groups = Vec::with_capacity(alloc, lives.len())?;
    'lives: for life in lives {
        groups.push(Group::of(life))?;
    }
    Ok(groups)
}

/// Returns the states of the triggers before the first tick.
fn watches_of(alloc: Global, triggers: &[TriggerSpec]) -> Result<Vec<TriggerWatch>, NoMemory>
    ensures { IfOk result (λ watches. watches.items ≡ map new_watch triggers.now) }
{
    let mut watches = Vec::with_capacity(alloc, triggers.len())?;
    'triggers: for trigger in triggers {
        watches.push(TriggerWatch::of(*trigger))?;
    }
    Ok(watches)
}

impl Engine {
    /// Creates an engine for the groups `lives` (indexed by slot) and these triggers, on `cpus`
    /// processors (1 to 64), before the first tick. Allocates all memory that the engine ever
    /// needs.
    pub fn make(
        alloc: Global,
        lives: &[GroupLife],
        triggers: &[TriggerSpec],
        cpus: u32,
    ) -> Result<Engine, NoMemory>
        requires some_cpus { 1 ≤ cpus }
        requires few_cpus { cpus ≤ 64 }
        requires few_groups { length lives.now ≤ most_groups }
        requires lives { All (λ life. IsLifeWithin last_moment life) lives.now }
        requires triggers { AreTriggersWithin last_moment (length lives.now) triggers.now }
        ensures { IfOk result (λ engine. Represents engine cpus lives.now triggers.now []) }
    {
        Ok(Engine {
            last: LastTick {
                at: 0,
                rows: Rows::make(alloc, cpus, lives.len() as u32)?,
            },
            groups: groups_of(alloc, lives)?,
            watches: watches_of(alloc, triggers)?,
            cpus,
            fired: Vec::with_capacity(alloc, triggers.len())?,
        })
    }

    /// Updates the engine at the next tick. `now` is the time of the tick (ns), and `rows` has the
    /// times (ns) of all groups on all processors up to `now`. First, each trigger whose line in
    /// the trace is at or before `now` becomes active. Then each live group is sampled. Then each
    /// active trigger of a live group is updated. Doesn't allocate.
    pub fn tick(&mut self, now: Ns, rows: &Rows)
        requires sizes { HasSizes self.old.cpus (length self.old.groups) rows.now }
        requires next { IsNextTick self.old.last (tick_at now rows.now) }
        ensures stands { EngineTakes self.old (tick_at now rows.now) self.new }

        // The next three clauses hold for every state of the engine, even for a state that no list
        // of ticks leads to.
        ensures last { self.new.last ≡ tick_at now rows.now }
        ensures cpus { self.new.cpus ≡ self.old.cpus }
        ensures slots { length self.new.groups ≡ length self.old.groups }
    {
        begin_all(&mut self.watches, &self.groups, now);
        tick_all(&mut self.groups, &mut self.last, now, rows);
        step_all(&mut self.watches, &self.groups, now, &mut self.fired);
    }

    /// Returns the totals of a group (ns): one for each state except nonidle, ordered by state, and
    /// then the total of interrupt time.
    pub fn totals(&self, slot: Slot) -> Amounts
        requires { slot.0 < length self.now.groups }
        ensures { result ≡ totals_in self.now slot.0 }
    {
        self.groups[slot.0 as usize].totals.get()
    }

    /// Returns the pressure averages of a group.
    pub fn averages(&self, slot: Slot) -> &Averages
        requires { slot.0 < length self.now.groups }
        ensures { result.now ≡ averages_in self.now slot.0 }
    {
        &self.groups[slot.0 as usize].averages
    }

    /// Returns the indexes of the triggers that fired at the last tick, in ascending order. Empty
    /// before the first tick.
    pub fn fired(&self) -> &[u32]
        ensures { result.now ≡ self.now.fired }
    {
        &self.fired
    }
}

/// Laws of the engine: its results are the specified results for the ticks with which it has been
/// updated.
pub fn law_engine()
    ensures totals { ShowsTotals }
    ensures averages { ShowsAverages }
    ensures fired { ShowsFired }
    ensures last { ShowsLast }
{}

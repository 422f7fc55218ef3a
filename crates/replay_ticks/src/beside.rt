//! Functions for callers that sample clocks with their own readers between the ticks of a replay.
//!
//! This module starts no threads and takes no samples.
ghost use Rattle.std.specs.Prelude.{◌≡◌, ◌+◌, ◌<◌, ◌≤◌, ℕ, List, length, IfOk, Some, is_some, true};
ghost use Rattle.psi_spec.specs.Trace.{Trace};
ghost use Rattle.plan_laws.specs.Plan.{IsClock};
ghost use Rattle.run_spec.specs.Replay.{Timing, tick_count};
ghost use Rattle.ruleset_json.specs.declared.types.Rule.{Rule};
ghost use Rattle.proc_plan.specs.Plans.{plan_at};
ghost use Rattle.clock_row.specs.Steps.{count_shown, new_reader};
ghost use Rattle.replay_workers.specs.Crew.{clocks_at, row_at};
ghost use Rattle.replay_ticks.specs.Replays.{IsReplay, IsSomeReplay, IsTickLeft};

use crate::replay::Replay;
use outside::Gate;
use psi_base::{Cpu, NoMemory, Slot};
use replay_workers::{ClockReader, Sample};
use std::thread::Threads;

impl<'a> Replay<'a> {
    /// Returns the number of ticks of the trace.
    pub fn ticks(&self) -> u64
        ensures { (trace : Trace) (timing : Timing) (rules : List Rule) (i : ℕ) →
            IsReplay self.now trace timing rules i → result ≡ tick_count trace timing }
    {
        self.run_timing.last
    }

    /// Returns the number of trigger signals in the ticks replayed so far.
    pub fn signals(&self) -> u64
        ensures { result ≡ self.now.signals }
    {
        self.signals
    }

    /// Replays the next tick without taking samples, even if a path is watched. Precondition: there
    /// is a next tick. Doesn't allocate.
    pub fn pass_unwatched<R: Threads + Sync, G: Gate>(&mut self, rt: &R, gate: &G)
        requires { IsTickLeft self.old }
        ensures passed { (trace : Trace) (timing : Timing) (rules : List Rule) (i : ℕ) →
            IsReplay self.old trace timing rules i → i < tick_count trace timing →
            IsReplay self.new trace timing rules (i + 1) }
        ensures plans { self.new.plans ≡ self.old.plans }
        ensures rows { self.new.crew.rows ≡ self.old.crew.rows }
    {
        self.advance(rt, None, gate);
    }

    /// Returns a new reader of the clocks of processor `cpu`. The reader has seen all changes
    /// applied so far. Precondition: the clocks of the processor are in a seqlock, which other
    /// threads can read.
    pub fn reader(&mut self, cpu: Cpu) -> Result<ClockReader, NoMemory>
        requires replay { IsSomeReplay self.old }
        requires cpu { cpu.0 < length self.old.plans.plans }
        requires in_row { is_some (row_at self.old.crew.rows cpu.0) ≡ true }
        ensures same { self.new ≡ self.old }
        ensures row { IfOk result (λ reader. Some reader.row ≡ row_at self.old.crew.rows cpu.0) }
        ensures seen { IfOk result (λ reader. reader.knows ≡ new_reader
            (plan_at self.old.plans cpu.0) (clocks_at self.old.crew.clocks cpu.0).made) }
    {
        self.crew.reader(cpu)
    }

    /// Passes the number of changes applied so far to `reader`, a reader of the clocks of processor
    /// `cpu`. Afterwards the reader has seen at least this number of changes. Doesn't allocate.
    pub fn meet(&mut self, cpu: Cpu, reader: &mut ClockReader)
        requires replay { IsSomeReplay self.old }
        requires cpu { cpu.0 < length self.old.plans.plans }
        requires own { Some reader.old.row ≡ row_at self.old.crew.rows cpu.0 }
        ensures same { self.new ≡ self.old }
        ensures row { reader.new.row ≡ reader.old.row }
        ensures met { reader.new.knows
            ≡ count_shown (clocks_at self.old.crew.clocks cpu.0).made reader.old.knows }
    {
        // `meet` always returns `Ok`.
        let _met = self.crew.meet(cpu, reader);
    }

    /// Synchronises with `reader`, a reader of the clocks of processor `cpu`. The contract then
    /// states that the reader has seen at most the changes that were applied. Doesn't allocate.
    pub fn settle(&mut self, cpu: Cpu, reader: &mut ClockReader)
        requires replay { IsSomeReplay self.old }
        requires cpu { cpu.0 < length self.old.plans.plans }
        requires own { Some reader.old.row ≡ row_at self.old.crew.rows cpu.0 }
        ensures replay { self.new ≡ self.old }
        ensures same { reader.new ≡ reader.old }
        ensures seen { reader.old.knows.seen ≤ (clocks_at self.old.crew.clocks cpu.0).made }
    {
        // `settle` always returns `Ok`.
        let _settled = self.crew.settle(cpu, reader);
    }

    /// Returns the writer's own clock of the group in slot `slot` on processor `cpu`, and the
    /// number of changes that the processor has applied.
    pub fn last(&mut self, cpu: Cpu, slot: Slot) -> Sample
        requires replay { IsSomeReplay self.old }
        requires cpu { cpu.0 < length self.old.plans.plans }
        requires slot { slot.0 < length self.old.plans.lives }
        ensures same { self.new ≡ self.old }
        ensures count { result.count ≡ (clocks_at self.old.crew.clocks cpu.0).made }
        ensures clock { IsClock result.clock (plan_at self.old.plans cpu.0) slot.0
            result.count }
    {
        Sample {
            count: self.crew.count(cpu),
            clock: self.crew.own(cpu, slot),
        }
    }
}

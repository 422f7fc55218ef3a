//! The replay of a trace, tick by tick: sampling, rules and output lines.
//!
//! This module combines the types of other crates, which perform the individual steps.
ghost use Rattle.std.specs.Prelude.{◌≡◌, ◌+◌, ◌<◌, ℕ, List, length, IfSome};
ghost use Rattle.psi_base.specs.declared.event.Slot.{Slot};
ghost use Rattle.outside.specs.Outside.{HasCause, SameInner};
ghost use Rattle.outside.specs.Calls.{PutsAll};
ghost use Rattle.psi_spec.specs.Trace.{Trace};
ghost use Rattle.pressure_spec.specs.Ticks.{tick_moment};
ghost use Rattle.run_spec.specs.Replay.{Timing, kills_in, last_line, tick_count, tick_text, with_rules};
ghost use Rattle.ruleset_json.specs.declared.types.Rule.{Rule};
ghost use Rattle.replay_ticks.specs.Replays.{IsLiveTick, IsReached, IsReady, IsReplay, IsSlotAt, IsSomeReplay, IsTickLeft, IsTickSampled, IsToGo, IsToPut, IsToPutRoot, IsToSample, IsWatching, Passes, TickGives, due_text, handed, root_report};

use crate::live::{put_live, watched_slot};
use crate::reports::{put_files, put_kills, put_reports, put_signals};
use crate::run_timing::RunTiming;
use aggregate::Rows;
use outside::{Gate, Sink, WriteFailed};
use pressure_text::write_end;
use proc_plan::Plans;
use psi_base::{Ns, Path, Slot};
use replay_rules::{Judge, Kill, tick_moment};
use replay_workers::{Crew, Ticks};
use std::marker::Model;
use std::thread::Threads;
use tick_engine::Engine;

/// The slot of the root group.
const ROOT: Slot = Slot(0);

/// The reason why the lines of a tick are incomplete.
#[derive(Clone, Copy, Debug, PartialEq, Eq)]
pub enum TickFault {
    /// A write failed. Only a prefix of the lines of the tick was written.
    WriteFault,
}

impl From<WriteFailed> for TickFault {
    ghost use Rattle.std.specs.Prelude.{◌≡◌};
    ghost use Rattle.replay_ticks.specs.declared.replay.TickFault.TheVariants as fault;

    ghost from_gives = { λ _ e. e ≡ fault.WriteFault };

    fn from(_: WriteFailed) -> Self {
        TickFault::WriteFault
    }
}

/// The state of a replay after some of its ticks. Contracts refer to all fields.
#[derive(Drop)]
pub struct Replay<'a> {
    pub(crate) plans: &'a Plans,
    pub(crate) crew: Crew<'a>,
    pub(crate) rows: Rows,
    pub(crate) engine: Engine,
    pub(crate) judge: Judge,
    /// All slots, sorted by the paths of their groups in byte order.
    pub(crate) order: Vec<Slot>,
    pub(crate) run_timing: RunTiming,
    /// The path of the group that is sampled live, or `None` if no path is watched.
    pub(crate) live: Option<Path>,
    /// The number of ticks replayed so far.
    pub(crate) made: u64,
    /// The number of trigger signals in the ticks replayed so far.
    pub(crate) signals: u64,
    /// The number of kills in the ticks replayed so far.
    pub(crate) kills: u64,
}

impl<'a> Model for Replay<'a> {
    ghost use Rattle.replay_ticks.specs.Replays.{ReplayView};

    ghost Value = { ReplayView };

    ghost view = { λ r. record {
      plans = r.plans.now;
      crew = r.crew;
      rows = r.rows;
      engine = r.engine;
      judge = r.judge;
      order = r.order.items;
      run_timing = r.run_timing;
      live = r.live;
      made = r.made;
      signals = r.signals;
      kills = r.kills;
    } };
}

// Advances the clocks after tick `made`, unless the table of the next tick is ready. Without a
// watched path, advances over all remaining ticks for which the worker pool has room. With a
// watched path, advances over a single tick, because the slot of the path may change at every tick.
// In this case the slot `watched` is sampled while the changes are applied.
fn look_ahead<R: Threads + Sync, G: Gate>(
    rt: &R,
    crew: &mut Crew<'_>,
    live: &Option<Path>,
    watched: Option<Slot>,
    run_timing: RunTiming,
    made: u64,
    gate: &G,
)
    requires slot { IfSome watched (λ (slot : Slot). slot.0 < length crew.old.plans.lives) }
    requires go { (trace : Trace) × (timing : Timing)
        × IsToGo crew.old.plans crew.old run_timing trace timing made
        × IsWatching crew.old live.now trace timing made }
    ensures rows { crew.new.rows ≡ crew.old.rows }
    ensures reached { (trace : Trace) (timing : Timing) →
        IsToGo crew.old.plans crew.old run_timing trace timing made →
        IsWatching crew.old live.now trace timing made →
        IsReady crew.old.plans crew.new trace timing made
        × IsReached watched crew.old crew.new trace timing made }
{
    if crew.ready() > 0 {
        return;
    }
    let next = tick_moment(run_timing.length, made + 1);
    match live {
        Some(_) => crew.interval(rt, next, watched, gate),
        None => {
            let left = run_timing.last - made;
            let ticks = Ticks {
                first: next,
                length: run_timing.length,
                count: left.min(u64::from(crew.room())) as u32,
            };
            crew.intervals(rt, ticks, gate);
        }
    }
}

// Copies the times of all groups at the next tick, whose time is `at` (ns), to `rows`. Then updates
// the averages and triggers of `engine` with these times. Precondition: the table of that tick is
// ready.
fn sample(crew: &mut Crew<'_>, rows: &mut Rows, engine: &mut Engine, at: Ns)
    requires { (trace : Trace) × (timing : Timing) × (i : ℕ)
        × IsToSample crew.old.plans crew.old rows.old engine.old trace timing i at }
    ensures handed { crew.new ≡ handed crew.old }
    ensures sampled { (trace : Trace) (timing : Timing) (i : ℕ) →
        IsToSample crew.old.plans crew.old rows.old engine.old trace timing i at →
        IsTickSampled crew.old.plans crew.new rows.new engine.new trace timing (i + 1) }
{
    crew.fill(at, rows);
    engine.tick(at, rows);
}

// Writes the pressure reports of tick `tick`, if reports are due at that tick. Ticks are counted
// from 1, and `at` is the time of the tick (ns). Precondition: `tick` is the last tick up to which
// `engine` has been updated.
fn put_due<K: Sink>(
    out: &mut K,
    plans: &Plans,
    engine: &Engine,
    order: &[Slot],
    run_timing: RunTiming,
    tick: u64,
    at: Ns,
) -> Result<(), WriteFailed>
    requires { (trace : Trace) × (timing : Timing)
        × IsToPut plans.now engine.now order.now run_timing trace timing tick at }
    ensures bytes { (trace : Trace) (timing : Timing) →
        IsToPut plans.now engine.now order.now run_timing trace timing tick at →
        PutsAll (K.has out.old) (K.has out.new) result (due_text trace timing tick) }
    ensures cause { HasCause (K.faults out.old) (K.faults out.new) result }
    ensures below { SameInner (K.below out.old) (K.below out.new) }
{
    if run_timing.is_report(tick, at) {
        return put_reports(out, run_timing.version, at, plans.lives(), order, engine);
    }
    Ok(())
}

// Writes the root group's pressure files at tick `tick`, counted from 1. Precondition: `tick` is
// the last tick up to which `engine` has been updated.
fn put_root<K: Sink>(
    out: &mut K,
    plans: &Plans,
    engine: &Engine,
    run_timing: RunTiming,
    tick: u64,
) -> Result<(), WriteFailed>
    requires { (trace : Trace) × (timing : Timing)
        × IsToPutRoot plans.now engine.now run_timing trace timing tick }
    ensures bytes { (trace : Trace) (timing : Timing) →
        IsToPutRoot plans.now engine.now run_timing trace timing tick →
        PutsAll (K.has out.old) (K.has out.new) result (root_report trace timing tick) }
    ensures cause { HasCause (K.faults out.old) (K.faults out.new) result }
    ensures below { SameInner (K.below out.old) (K.below out.new) }
{
    let at = tick_moment(run_timing.length, tick);
    let path = &plans.lives()[0].path;
    let totals = engine.totals(ROOT);
    let averages = engine.averages(ROOT);
    put_files(out, run_timing.version, at, path, ROOT, totals, averages)
}

impl<'a> Replay<'a> {
    /// Returns the slot of the group with the watched path at the next tick. Returns `None` if
    /// there is no next tick, if no path is watched, or if no group with the path is live at that
    /// tick.
    pub fn next_slot(&self) -> Option<Slot>
        requires { IsSomeReplay self.now }
        ensures slot { (trace : Trace) (timing : Timing) (rules : List Rule) (i : ℕ) →
            IsReplay self.now trace timing rules i → i < tick_count trace timing →
            IsSlotAt result trace timing (i + 1) }
        ensures made { IfSome result (λ (slot : Slot). slot.0 < length self.now.plans.lives) }
    {
        if self.made == self.run_timing.last {
            return None;
        }
        match &self.live {
            Some(path) => {
                let next = tick_moment(self.run_timing.length, self.made + 1);
                watched_slot(self.plans.lives(), path, next)
            }
            None => None,
        }
    }

    // Replays the next tick. If a slot is `watched`, takes live samples of it up to that tick.
    // Precondition: there is a next tick.
    pub(crate) fn advance<R: Threads + Sync, G: Gate>(
        &mut self,
        rt: &R,
        watched: Option<Slot>,
        gate: &G,
    )
        requires slot { IfSome watched (λ (slot : Slot). slot.0 < length self.old.plans.lives) }
        requires left { IsTickLeft self.old }
        ensures plans { self.new.plans ≡ self.old.plans }
        ensures rows { self.new.crew.rows ≡ self.old.crew.rows }
        ensures made { (trace : Trace) (timing : Timing) (rules : List Rule) (i : ℕ) →
            IsReplay self.old trace timing rules i → i < tick_count trace timing →
            IsReplay self.new trace timing rules (i + 1)
            × (IsSlotAt watched trace timing (i + 1) →
            IsLiveTick self.old.crew self.new.crew trace timing (i + 1)) }
    {
        look_ahead(
            rt,
            &mut self.crew,
            &self.live,
            watched,
            self.run_timing,
            self.made,
            gate,
        );
        self.made += 1;
        let at = tick_moment(self.run_timing.length, self.made);
        sample(&mut self.crew, &mut self.rows, &mut self.engine, at);
        self.signals += self.engine.fired().len() as u64;
        self.judge.tick(
            self.plans,
            &self.engine,
            &self.order,
            at,
            self.run_timing.length,
        );
        self.kills += self.judge.kills().len() as u64;
    }

    /// Replays the next tick without writing anything. Returns false, and changes nothing, if there
    /// is no next tick. Doesn't allocate.
    pub fn pass<R: Threads + Sync, G: Gate>(&mut self, rt: &R, gate: &G) -> bool
        requires { IsSomeReplay self.old }
        ensures { (trace : Trace) (timing : Timing) (rules : List Rule) (i : ℕ) →
            IsReplay self.old trace timing rules i →
            Passes trace timing rules i self.old self.new result }
    {
        if self.made == self.run_timing.last {
            return false;
        }
        let slot = self.next_slot();
        self.advance(rt, slot, gate);
        true
    }

    // Writes the lines of the last replayed tick, whose time is `at` (ns), except for its `live`
    // lines.
    #[tactic(auto, using(outside::proofs::Grows::growth))]
    fn put_tick<K: Sink>(&self, out: &mut K, at: Ns) -> Result<(), WriteFailed>
        requires { (trace : Trace) × (timing : Timing) × (rules : List Rule) × (i : ℕ)
            × IsReplay self.now trace timing rules (i + 1)
            × (at ≡ tick_moment timing.length (i + 1)) }
        ensures bytes { (trace : Trace) (timing : Timing) (rules : List Rule) (i : ℕ) →
            IsReplay self.now trace timing rules (i + 1) → at ≡ tick_moment timing.length (i + 1) →
            PutsAll (K.has out.old) (K.has out.new) result
            (tick_text trace timing (with_rules rules) (i + 1)) }
        ensures cause { HasCause (K.faults out.old) (K.faults out.new) result }
        ensures below { SameInner (K.below out.old) (K.below out.new) }
    {
        let lives = self.plans.lives();
        put_signals(out, at, lives, self.plans.triggers(), self.engine.fired())?;
        put_kills(out, lives, self.judge.kills())?;
        put_due(
            out,
            self.plans,
            &self.engine,
            &self.order,
            self.run_timing,
            self.made,
            at,
        )
    }

    /// Replays the next tick and writes its lines. Returns false, and writes nothing, if there is
    /// no next tick. After an error the replay must not be used again. Doesn't allocate.
    pub fn tick<R: Threads + Sync, K: Sink, G: Gate>(
        &mut self,
        rt: &R,
        out: &mut K,
        gate: &G,
    ) -> Result<bool, TickFault>
        requires { IsSomeReplay self.old }
        ensures tick { (trace : Trace) (timing : Timing) (rules : List Rule) (i : ℕ) →
            IsReplay self.old trace timing rules i →
            TickGives trace timing rules i self.old self.new (K.has out.old) (K.has out.new) result }
        ensures cause { HasCause (K.faults out.old) (K.faults out.new) result }
        ensures below { SameInner (K.below out.old) (K.below out.new) }
    {
        if !self.pass(rt, gate) {
            return Ok(false);
        }
        let at = tick_moment(self.run_timing.length, self.made);
        put_live(out, at, &self.crew, self.plans.cpus())?;
        self.put_tick(out, at)?;
        Ok(true)
    }

    /// Returns the kills at the last replayed tick, ordered by ruleset and then by action. Empty
    /// before the first tick.
    pub fn kills(&self) -> &[Kill]
        ensures { (trace : Trace) (timing : Timing) (rules : List Rule) (i : ℕ) →
            IsReplay self.now trace timing rules i → result.now ≡ kills_in trace timing rules i }
    {
        self.judge.kills()
    }

    /// Writes the root group's pressure files at the last replayed tick. Precondition: at least one
    /// tick has been replayed.
    pub fn put_root<K: Sink>(&self, out: &mut K) -> Result<(), WriteFailed>
        requires { (trace : Trace) × (timing : Timing) × (rules : List Rule) × (i : ℕ)
            × (0 < i) × IsReplay self.now trace timing rules i }
        ensures bytes { (trace : Trace) (timing : Timing) (rules : List Rule) (i : ℕ) → 0 < i →
            IsReplay self.now trace timing rules i →
            PutsAll (K.has out.old) (K.has out.new) result (root_report trace timing i) }
        ensures cause { HasCause (K.faults out.old) (K.faults out.new) result }
        ensures below { SameInner (K.below out.old) (K.below out.new) }
    {
        put_root(out, self.plans, &self.engine, self.run_timing, self.made)
    }

    /// Writes the last line of the output: the end time (ns), and the numbers of ticks, of trigger
    /// signals and of kills. Precondition: all ticks have been replayed.
    pub fn finish<K: Sink>(&mut self, out: &mut K) -> Result<(), WriteFailed>
        requires { (trace : Trace) × (timing : Timing) × (rules : List Rule)
            × IsReplay self.old trace timing rules (tick_count trace timing) }
        ensures bytes { (trace : Trace) (timing : Timing) (rules : List Rule) →
            IsReplay self.old trace timing rules (tick_count trace timing) →
            PutsAll (K.has out.old) (K.has out.new) result
            (last_line trace timing (with_rules rules)) }
        ensures cause { HasCause (K.faults out.old) (K.faults out.new) result }
        ensures below { SameInner (K.below out.old) (K.below out.new) }
    {
        write_end(
            out,
            self.plans.finish(),
            self.made,
            self.signals,
            self.kills,
        )
    }
}

//! The commands `gen` and `stress`, which generate a trace from a seed. They read no file.
ghost use Rattle.std.specs.Prelude.{◌≡◌, ◌++◌, ◌∷◌, List, [], IfOk, None, OnOk};
ghost use Rattle.outside.specs.Outside.{HasCause, SameInner};
ghost use Rattle.outside.specs.Calls.{PutsAll};
ghost use Rattle.psi_base.specs.declared.event.Event.{Event};
ghost use Rattle.psi_spec.specs.Grammar.{Fits};
ghost use Rattle.psi_spec.specs.Refusal.{cause_of};
ghost use Rattle.psi_spec.specs.World.{Limits, after};
ghost use Rattle.psi_spec.specs.Trace.{Trace, limits_of};
ghost use Rattle.proc_plan.specs.Plans.{HasTaken};
ghost use Rattle.run_spec.specs.Generated.{gen_text, generated};
ghost use Rattle.kill_spec.specs.Detectors.{of_seconds};
ghost use Rattle.run_spec.specs.Outputs.{timing_of, stress_options};
ghost use Rattle.run_spec.specs.Replay.{Timing, stress_text};
ghost use Rattle.run_spec.specs.LegalCommand.{IsShape, IsWithin};
ghost use Rattle.replay_ticks.specs.Replays.{IsReplay};
ghost use Rattle.run_outcomes.specs.Writes.{WritesText};

use outside::{Gate, Sink, WriteFailed};
use proc_plan::Planner;
use psi_base::{Event, Fault, LATEST, NoMemory, Ns};
use replay_ticks::{Replay, prepare};
use run_spec::{Options, Shape, Status};
use std::alloc::Global;
use std::thread::Threads;
use trace_gen::{Generator, generate};

/// Writes the text of the generated trace with this shape. If memory runs out, nothing is written.
pub fn write_generated<K: Sink>(alloc: Global, shape: Shape, out: &mut K) -> Status
    requires { IsShape shape }
    ensures writes { WritesText (gen_text shape) (K.faults out.old) (K.faults out.new)
        (K.has out.old) (K.has out.new) result }
    ensures below { SameInner (K.below out.old) (K.below out.new) }
{
    match generate(
        alloc,
        shape.seed,
        shape.cpus,
        shape.groups,
        shape.events,
        out,
    ) {
        Ok(()) => Status::Done,
        Err(Fault::Refused(WriteFailed)) => Status::WriteFault,
        Err(Fault::NoMemory(none)) => Status::NoMemory(none),
    }
}

// Passes an event to the planner, which splits a trace by processor. Requires that the event is
// legal after the previous events.
fn take_legal(planner: &mut Planner, event: Event) -> Result<(), NoMemory>
    requires fits { Fits event }
    requires legal { (limits : Limits) × (events : List Event)
        × HasTaken planner.old limits events
        × (cause_of limits (after events) event ≡ None) }
    ensures { OnOk result ((limits : Limits) (events : List Event) →
        HasTaken planner.old limits events →
        HasTaken planner.new limits (events ++ event ∷ [])) }
{
    match planner.take(&event) {
        Ok(()) => Ok(()),
        Err(Fault::NoMemory(none)) => Err(none),
        Err(Fault::Refused(_)) => unreachable!(),
    }
}

// Generates the trace with this shape, and splits it by processor.
fn plan_generated(alloc: Global, shape: Shape) -> Result<Planner, NoMemory>
    requires { IsShape shape }
    ensures { IfOk result (λ planner.
        HasTaken planner (limits_of (of_seconds 2) shape.cpus) (generated shape).events) }
{
    let mut planner = Planner::new(alloc, shape.cpus, LATEST)?;
    let mut generator = Generator::make(alloc, shape)?;
    'events: while let Some(event) = generator.next() {
        take_legal(&mut planner, event)?;
    }
    Ok(planner)
}

// Replays all remaining ticks, and writes the last line. If there is a tick, the report on the root
// group at the last tick is written first.
fn put_end<R: Threads + Sync, K: Sink, G: Gate>(
    rt: &R,
    replay: &mut Replay<'_>,
    out: &mut K,
    gate: &G,
) -> Result<(), WriteFailed>
    requires { (trace : Trace) × (timing : Timing) × IsReplay replay.old trace timing [] 0 }
    ensures bytes { (trace : Trace) (timing : Timing) → IsReplay replay.old trace timing [] 0 →
        PutsAll (K.has out.old) (K.has out.new) result (stress_text trace timing) }
    ensures cause { HasCause (K.faults out.old) (K.faults out.new) result }
    ensures below { SameInner (K.below out.old) (K.below out.new) }
{
    let mut ticked = false;
    'ticks: while replay.pass(rt, gate) {
        ticked = true;
    }
    if !ticked {
        return replay.finish(out);
    }
    replay.put_root(out)?;
    replay.finish(out)
}

// Returns the options of `stress`: the defaults of `replay`, but with a report only at the last
// tick, and with at most `workers` threads.
fn stress_options(workers: u32) -> Options
    ensures { result ≡ stress_options workers }
{
    Options {
        rules: None,
        drop_in: None,
        tick_ms: 2_000,
        interval_s: 5,
        report_s: 0,
        workers,
        live: None,
        live_count: 1,
    }
}

/// Replays the generated trace with this shape. Writes the report on the root group at the last
/// tick, and the last line. If memory runs out, nothing is written.
pub fn write_stress<R: Threads + Sync, K: Sink, G: Gate>(
    rt: &R,
    alloc: Global,
    shape: Shape,
    workers: u32,
    out: &mut K,
    gate: &G,
) -> Status
    requires shape { IsShape shape }
    requires workers { IsWithin 1 64 workers }
    ensures writes { WritesText (stress_text (generated shape) (timing_of (stress_options workers)))
        (K.faults out.old) (K.faults out.new) (K.has out.old) (K.has out.new) result }
    ensures below { SameInner (K.below out.old) (K.below out.new) }
{
    let planner = match plan_generated(alloc, shape) {
        Ok(planner) => planner,
        Err(none) => return Status::NoMemory(none),
    };
    let plans = match planner.finish(alloc) {
        Ok(plans) => plans,
        Err(none) => return Status::NoMemory(none),
    };
    let options = stress_options(workers);
    let mut replay = match prepare(alloc, 1, &plans, None, &options) {
        Ok(replay) => replay,
        Err(none) => return Status::NoMemory(none),
    };
    match put_end(rt, &mut replay, out, gate) {
        Ok(()) => {
            drop(replay);
            drop(plans);
            Status::Done
        }
        Err(WriteFailed) => {
            drop(replay);
            drop(plans);
            Status::WriteFault
        }
    }
}

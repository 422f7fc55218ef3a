//! The output of `replay`, which is also the output of `whatif`. The lines of a single tick are
//! written in replay_ticks.
ghost use Rattle.std.specs.Prelude.{◌≡◌, ◌≤◌, List};
ghost use Rattle.outside.specs.Outside.{HasCause, SameInner};
ghost use Rattle.psi_base.specs.declared.event.Event.{Event};
ghost use Rattle.psi_spec.specs.Trace.{Trace};
ghost use Rattle.psi_spec.specs.World.{Limits};
ghost use Rattle.run_spec.specs.Outputs.{timing_of};
ghost use Rattle.ruleset_json.specs.declared.types.Rule.{Rule};
ghost use Rattle.ruleset_json.specs.RuleRanges.{FitsRules};
ghost use Rattle.run_spec.specs.Replay.{IsReplayText, Timing};
ghost use Rattle.run_spec.specs.LegalCommand.{IsWithin};
ghost use Rattle.replay_ticks.specs.Replays.{IsReplay};
ghost use Rattle.psi_spec.specs.Header.{IsVersion, version_of};
ghost use Rattle.trace_file.specs.Reads.{trace_with};
ghost use Rattle.replay_rules.specs.Judged.{rules_of_options};
ghost use Rattle.replay_rules.specs.Planned.{IsPlanned};
ghost use Rattle.run_outcomes.specs.Writes.{IsToReplay, PutsSome, WritesSome};

use outside::{Gate, Sink, WriteFailed};
use proc_plan::{Planner, Plans};
use replay_ticks::{Replay, TickFault, prepare};
use ruleset_json::Rules;
use run_spec::{Options, Status};
use std::alloc::Global;
use std::thread::Threads;

// Replays all ticks, and writes their lines and the last line. Requires that the replay is before
// its first tick.
fn put_replay<R: Threads + Sync, K: Sink, G: Gate>(
    rt: &R,
    replay: &mut Replay<'_>,
    out: &mut K,
    gate: &G,
) -> Result<(), WriteFailed>
    requires { (trace : Trace) × (timing : Timing) × (rules : List Rule)
        × IsReplay replay.old trace timing rules 0 }
    ensures bytes { (trace : Trace) (timing : Timing) (rules : List Rule) →
        IsReplay replay.old trace timing rules 0 →
        PutsSome (IsReplayText trace timing rules) (K.has out.old) (K.has out.new) result }
    ensures cause { HasCause (K.faults out.old) (K.faults out.new) result }
    ensures below { SameInner (K.below out.old) (K.below out.new) }
{
    'ticks: loop {
        match replay.tick(rt, out, gate) {
            Ok(true) => {}
            Ok(false) => return replay.finish(out),
            Err(TickFault::WriteFault) => return Err(WriteFailed),
        }
    }
}

/// Writes the output of `replay` for the trace of `plans`. `version` is the trace's version.
/// `rules` are the rules of the rules file, or `None` without a rules file. If memory runs out,
/// nothing is written.
pub fn write_planned<R: Threads + Sync, K: Sink, G: Gate>(
    rt: &R,
    alloc: Global,
    version: u32,
    plans: &Plans,
    rules: Option<Rules>,
    options: &Options,
    out: &mut K,
    gate: &G,
) -> Status
    requires planned { (trace : Trace) × IsPlanned plans.now trace (timing_of options.now)
        × (version_of version ≡ trace.version) }
    requires fit { FitsRules (rules_of_options rules) }
    requires version { IsVersion version }
    requires often { options.now.interval_s ≤ 3600 }
    requires workers { IsWithin 1 64 options.now.workers }
    ensures writes { (trace : Trace) → IsPlanned plans.now trace (timing_of options.now) →
        version_of version ≡ trace.version →
        WritesSome (IsReplayText trace (timing_of options.now) (rules_of_options rules))
        (K.faults out.old) (K.faults out.new) (K.has out.old) (K.has out.new) result }
    ensures below { SameInner (K.below out.old) (K.below out.new) }
{
    let mut replay = match prepare(alloc, version, plans, rules, options) {
        Ok(replay) => replay,
        Err(none) => return Status::NoMemory(none),
    };
    match put_replay(rt, &mut replay, out, gate) {
        Ok(()) => {
            drop(replay);
            Status::Done
        }
        Err(WriteFailed) => {
            drop(replay);
            Status::WriteFault
        }
    }
}

/// Writes the output of `replay` for the trace that `planner` has split by processor. `version` is
/// the trace's version. `rules` are the rules of the rules file, or `None` without a rules file. If
/// memory runs out, nothing is written.
pub fn write_replay<R: Threads + Sync, K: Sink, G: Gate>(
    rt: &R,
    alloc: Global,
    version: u32,
    planner: Planner,
    rules: Option<Rules>,
    options: &Options,
    out: &mut K,
    gate: &G,
) -> Status
    requires taken { (limits : Limits) × (events : List Event)
        × IsToReplay planner options.now limits events }
    requires fit { FitsRules (rules_of_options rules) }
    requires version { IsVersion version }
    ensures writes { (limits : Limits) (events : List Event) →
        IsToReplay planner options.now limits events →
        WritesSome (IsReplayText (trace_with (version_of version) limits.cpus events)
        (timing_of options.now) (rules_of_options rules)) (K.faults out.old) (K.faults out.new)
        (K.has out.old) (K.has out.new) result }
    ensures below { SameInner (K.below out.old) (K.below out.new) }
{
    match planner.finish(alloc) {
        Ok(plans) => write_planned(rt, alloc, version, &plans, rules, options, out, gate),
        Err(none) => Status::NoMemory(none),
    }
}

//! Creates the replay of a trace, before its first tick.
//!
//! All memory of a replay is allocated here.
ghost use Rattle.std.specs.Prelude.{◌≡◌, ◌<◌, ◌≤◌, IfOk};
ghost use Rattle.psi_spec.specs.Header.{IsVersion, version_of};
ghost use Rattle.psi_spec.specs.Trace.{Trace};
ghost use Rattle.run_spec.specs.Outputs.{timing_of, watch_of};
ghost use Rattle.run_spec.specs.LegalCommand.{IsWithin};
ghost use Rattle.ruleset_json.specs.RuleRanges.{FitsRules};
ghost use Rattle.replay_rules.specs.Judged.{rules_of_options};
ghost use Rattle.replay_rules.specs.Planned.{IsPlanned};
ghost use Rattle.replay_workers.specs.Crew.{AreInRows};
ghost use Rattle.replay_ticks.specs.Replays.{IsReplay, requested_by, watched_path};

use crate::replay::Replay;
use crate::run_timing::RunTiming;
use aggregate::Rows;
use proc_plan::Plans;
use psi_base::{MILLISECOND, NoMemory, Ns, Path};
use replay_rules::Judge;
use replay_workers::Crew;
use ruleset_json::Rules;
use run_spec::Options;
use std::alloc::Global;
use tick_engine::Engine;

/// The number of ns in a second.
const SECOND: Ns = 1_000_000_000;

// Returns a copy of the watched path, and the number of live samples per processor and interval.
// Returns `None` and 0 if no path is watched.
fn watched(alloc: Global, options: &Options) -> Result<(Option<Path>, u32), NoMemory>
    ensures path { IfOk result (λ watched. watched.0 ≡ watched_path (watch_of options.now)) }
    ensures requested { IfOk result (λ watched. watched.1 ≡ requested_by (watch_of options.now)) }
{
    match &options.live {
        Some(path) => Ok((Some(path.copy(alloc)?), options.live_count)),
        None => Ok((None, 0)),
    }
}

/// Returns the replay of the trace that `plans` represents, before its first tick. Precondition:
/// the trace is accepted with the tick length of `options`, and `version` is its version. Allocates
/// all memory that the replay ever needs.
pub fn prepare<'a>(
    alloc: Global,
    version: u32,
    plans: &'a Plans,
    rules: Option<Rules>,
    options: &Options,
) -> Result<Replay<'a>, NoMemory>
    requires version { IsVersion version }
    requires planned { (trace : Trace) × IsPlanned plans.now trace (timing_of options.now) }
    requires fit { FitsRules (rules_of_options rules) }
    requires often { options.now.interval_s ≤ 3600 }
    requires workers { IsWithin 1 64 options.now.workers }
    ensures replay { IfOk result (λ replay.
        (trace : Trace) → IsPlanned plans.now trace (timing_of options.now) →
        version_of version ≡ trace.version →
        IsReplay replay trace (timing_of options.now) (rules_of_options rules) 0) }
    ensures plans { IfOk result (λ replay. replay.plans ≡ plans.now) }
    ensures rows { 0 < requested_by (watch_of options.now) →
        IfOk result (λ replay. AreInRows replay.plans replay.crew.rows) }
{
    let slots = plans.groups().len() as u32;
    let length = Ns::from(options.tick_ms) * MILLISECOND;
    let interval = Ns::from(options.interval_s) * SECOND;
    let last = plans.finish() / length;
    let (live, requested) = watched(alloc, options)?;
    // With a watched path, the worker pool advances by one tick at a time.
    let ahead = if live.is_some() { 1 } else { last };
    Ok(Replay {
        plans,
        // The largest allocation comes last. If it fails, only smaller allocations need to be
        // freed.
        order: plans.groups().path_order(alloc)?,
        rows: Rows::make(alloc, plans.cpus(), slots)?,
        engine: Engine::make(alloc, plans.lives(), plans.triggers(), plans.cpus())?,
        crew: Crew::make(alloc, plans, options.workers, ahead, requested)?,
        judge: Judge::make(alloc, plans, rules, interval)?,
        run_timing: RunTiming {
            version,
            length,
            report: Ns::from(options.report_s) * SECOND,
            last,
        },
        live,
        made: 0,
        signals: 0,
        kills: 0,
    })
}

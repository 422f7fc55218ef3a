//! Finds a kill by replaying a trace without output.
//!
//! The replay stops at the tick of the kill.
ghost use Rattle.std.specs.Prelude.{◌≡◌, List, IfOk, slice_get};
ghost use Rattle.kill_spec.specs.declared.kill.Kill.{Kill};
ghost use Rattle.psi_spec.specs.Header.{IsVersion, version_of};
ghost use Rattle.psi_spec.specs.Trace.{Trace};
ghost use Rattle.ruleset_json.specs.RuleRanges.{FitsRules};
ghost use Rattle.ruleset_json.specs.declared.types.Rule.{Rule};
ghost use Rattle.run_spec.specs.Outputs.{timing_of};
ghost use Rattle.run_spec.specs.Replay.{Timing};
ghost use Rattle.run_spec.specs.Whatif.{all_kills};
ghost use Rattle.replay_rules.specs.Judged.{rules_of_options};
ghost use Rattle.replay_rules.specs.Planned.{IsPlanned};
ghost use Rattle.replay_ticks.specs.Replays.{IsReplay};
ghost use Rattle.whatif_rounds.specs.Rounds.{MayReplay};

use kill_spec::Kill;
use outside::OpenGate;
use proc_plan::Plans;
use psi_base::NoMemory;
use replay_ticks::{Replay, prepare};
use ruleset_json::Rules;
use run_spec::Options;
use std::alloc::Global;
use std::thread::Threads;

// Returns the kill with the index `number`, counted from 0 and ordered by tick, ruleset and action.
// Returns `None` if there are fewer kills. Precondition: the replay is before its first tick.
fn kill_of<R: Threads + Sync>(rt: &R, replay: &mut Replay<'_>, number: usize) -> Option<Kill>
    requires { (trace : Trace) × (timing : Timing) × (rules : List Rule)
        × IsReplay replay.old trace timing rules 0 }
    ensures { (trace : Trace) (timing : Timing) (rules : List Rule) →
        IsReplay replay.old trace timing rules 0 →
        result ≡ slice_get (all_kills trace timing rules) number }
{
    let mut left = number;
    'ticks: while replay.pass(rt, &OpenGate) {
        let kills = replay.kills();
        if left < kills.len() {
            return Some(kills[left]);
        }
        left -= kills.len();
    }
    None
}

/// Replays the trace of `plans` with these rules and options, and returns the kill with the index
/// `number`, counted from 0 and ordered by tick, ruleset and action. Returns `None` if there are
/// fewer kills.
pub(crate) fn find_kill<R: Threads + Sync>(
    rt: &R,
    alloc: Global,
    version: u32,
    plans: &Plans,
    rules: Option<Rules>,
    options: &Options,
    number: usize,
) -> Result<Option<Kill>, NoMemory>
    requires version { IsVersion version }
    requires planned { (trace : Trace) × IsPlanned plans.now trace (timing_of options.now)
        × (version_of version ≡ trace.version) }
    requires fit { FitsRules (rules_of_options rules) }
    requires options { MayReplay options.now }
    ensures { IfOk result (λ found. (trace : Trace) →
        IsPlanned plans.now trace (timing_of options.now) → version_of version ≡ trace.version →
        found ≡ slice_get (all_kills trace (timing_of options.now) (rules_of_options rules)) number) }
{
    let mut replay = prepare(alloc, version, plans, rules, options)?;
    Ok(kill_of(rt, &mut replay, number))
}

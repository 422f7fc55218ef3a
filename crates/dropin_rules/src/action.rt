//! Converts an action to JSON: a plugin object with all arguments of the action.
//!
//! Each kind of action has one function, and each argument of the action has one line in that
//! function.
ghost use Rattle.std.specs.Prelude.{◌≡◌, IfOk};
ghost use Rattle.path_match.specs.Answers.{ArePatterns};
ghost use Rattle.serde_json.specs.View.{view};
ghost use Rattle.ruleset_json.specs.declared.types.Action.TheVariants as spec;
ghost use Rattle.dropin_rules.specs.HasPatterns.{ActionHasPatterns};
ghost use Rattle.dropin_rules.specs.RulesText.{action_data};

use crate::argument::Arguments;
use path_match::Patterns;
use psi_base::{NoMemory, Res};
use ruleset_json::{Action, ActionName, After, Key, Size};
use serde_json::Value;
use std::alloc::Global;

#[tactic(auto, using(crate::proofs::Sorted::size_or_growth))]
fn size_or_growth(
    alloc: Global,
    cgroup: &Patterns,
    size_threshold: u32,
    percentile: u32,
    ratio: u32,
    after: After,
) -> Result<Value, NoMemory>
    ensures value { IfOk result (λ v. view v
        ≡ action_data (spec.SizeOrGrowth cgroup.now size_threshold percentile ratio after)) }
    ensures formed { IfOk result (λ _. ArePatterns cgroup.now) }
{
    let mut args = Arguments::new(alloc);
    args.truth(Key::AlwaysContinue, after.always_continue)?;
    args.patterns(Key::Cgroup, cgroup)?;
    args.number(Key::GrowingSizePercentile, percentile)?;
    args.ratio(Key::MinGrowthRatio, ratio)?;
    args.number(Key::PostActionDelay, after.delay_s)?;
    args.truth(Key::Recursive, after.recursive)?;
    args.number(Key::SizeThreshold, size_threshold)?;
    args.plugin(ActionName::SizeOrGrowth.text())
}

#[tactic(auto, using(crate::proofs::Sorted::swap_usage))]
fn swap_usage(
    alloc: Global,
    cgroup: &Patterns,
    threshold: Size,
    after: After,
) -> Result<Value, NoMemory>
    ensures value { IfOk result (λ v. view v
        ≡ action_data (spec.SwapUsage cgroup.now threshold after)) }
    ensures formed { IfOk result (λ _. ArePatterns cgroup.now) }
{
    let mut args = Arguments::new(alloc);
    args.truth(Key::AlwaysContinue, after.always_continue)?;
    args.patterns(Key::Cgroup, cgroup)?;
    args.number(Key::PostActionDelay, after.delay_s)?;
    args.truth(Key::Recursive, after.recursive)?;
    args.size(Key::Threshold, threshold)?;
    args.plugin(ActionName::SwapUsage.text())
}

#[tactic(auto, using(crate::proofs::Sorted::pressure))]
fn pressure(
    alloc: Global,
    cgroup: &Patterns,
    resource: Res,
    after: After,
) -> Result<Value, NoMemory>
    ensures value { IfOk result (λ v. view v
        ≡ action_data (spec.Pressure cgroup.now resource after)) }
    ensures formed { IfOk result (λ _. ArePatterns cgroup.now) }
{
    let mut args = Arguments::new(alloc);
    args.truth(Key::AlwaysContinue, after.always_continue)?;
    args.patterns(Key::Cgroup, cgroup)?;
    args.number(Key::PostActionDelay, after.delay_s)?;
    args.truth(Key::Recursive, after.recursive)?;
    args.resource(Key::Resource, resource)?;
    args.plugin(ActionName::Pressure.text())
}

#[tactic(auto, using(crate::proofs::Sorted::pg_scan))]
fn pg_scan(alloc: Global, cgroup: &Patterns, after: After) -> Result<Value, NoMemory>
    ensures value { IfOk result (λ v. view v ≡ action_data (spec.PgScan cgroup.now after)) }
    ensures formed { IfOk result (λ _. ArePatterns cgroup.now) }
{
    let mut args = Arguments::new(alloc);
    args.truth(Key::AlwaysContinue, after.always_continue)?;
    args.patterns(Key::Cgroup, cgroup)?;
    args.number(Key::PostActionDelay, after.delay_s)?;
    args.truth(Key::Recursive, after.recursive)?;
    args.plugin(ActionName::PgScan.text())
}

/// Returns the plugin object of an action as a JSON value.
pub fn action(alloc: Global, action: &Action) -> Result<Value, NoMemory>
    ensures value { IfOk result (λ v. view v ≡ action_data action.now) }
    ensures formed { IfOk result (λ _. ActionHasPatterns action.now) }
{
    match action {
        Action::SizeOrGrowth {
            cgroup,
            size_threshold,
            percentile,
            ratio,
            after,
        } => size_or_growth(alloc, cgroup, *size_threshold, *percentile, *ratio, *after),
        Action::SwapUsage {
            cgroup,
            threshold,
            after,
        } => swap_usage(alloc, cgroup, *threshold, *after),
        Action::Pressure {
            cgroup,
            resource,
            after,
        } => pressure(alloc, cgroup, *resource, *after),
        Action::PgScan { cgroup, after } => pg_scan(alloc, cgroup, *after),
    }
}

//! Parses the actions of a rules file.
//!
//! Each kind of action has one function, and each argument of the action has one line in that
//! function.
ghost use Rattle.std.specs.Prelude.{◌≡◌, option_map, IfOk};
ghost use Rattle.serde_json.specs.View.{view};
ghost use Rattle.ruleset_json.specs.declared.fault.RulesCause.TheVariants as cause;
ghost use Rattle.ruleset_json.specs.declared.name.ActionName.TheVariants as name;
ghost use Rattle.ruleset_json.specs.Arguments.{or_fault};
ghost use Rattle.ruleset_json.specs.Names.{action_named};
ghost use Rattle.ruleset_json.specs.Plugins.{action_of, after_arguments};
ghost use Rattle.ruleset_json.specs.Ranges.{FitsAction, IsTime};
ghost use Rattle.ruleset_json.specs.Rules.{made_at, action_made_at, action_in};
ghost use Rattle.psi_base.specs.Gives.{Gives};

use crate::arguments::{Arguments, LONGEST_S, PERCENT};
use crate::fault::{Place, RulesCause, RulesFault};
use crate::json::{member, object, text};
use crate::name::{ActionName, Key};
use crate::types::{Action, After, Size};
use psi_base::Fault;
use serde_json::Value;
use std::alloc::Global;

// Parses the settings that every kind of action has, after the action's own arguments. `delay_s` is
// the ruleset's delay (s) after a kill, and the default for the action's delay.
#[tactic(auto, unfolding(crate::specs::Rules::made_at, crate::specs::Plugins::after_arguments))]
fn after(args: &Arguments, delay_s: u32) -> Result<After, Fault<RulesFault>>
    requires { IsTime delay_s }
    ensures value { Gives result
        (made_at args.now.place (after_arguments delay_s)
        (option_map (λ v. view v.now) args.now.found)) }
    ensures range { IfOk result (λ after. IsTime after.delay_s) }
{
    let recursive = args.truth_or(Key::Recursive, false)?;
    let always_continue = args.truth_or(Key::AlwaysContinue, false)?;
    let delay_s = args.number_or(Key::PostActionDelay, LONGEST_S, delay_s)?;
    Ok(After {
        recursive,
        always_continue,
        delay_s,
    })
}

#[tactic(auto, unfolding(crate::specs::Rules::action_made_at, crate::specs::Rules::made_at, crate::specs::Plugins::action_of))]
fn size_or_growth(args: &Arguments, delay_s: u32) -> Result<Action, Fault<RulesFault>>
    requires { IsTime delay_s }
    ensures value { Gives result
        (action_made_at args.now.place delay_s name.SizeOrGrowth
        (option_map (λ v. view v.now) args.now.found)) }
    ensures range { IfOk result FitsAction }
{
    let cgroup = args.patterns(Key::Cgroup)?;
    let size_threshold = args.number_or(Key::SizeThreshold, PERCENT, 50)?;
    let percentile = args.number_or(Key::GrowingSizePercentile, PERCENT, 80)?;
    let ratio = args.ratio_or(Key::MinGrowthRatio, 1250)?;
    let after = after(args, delay_s)?;
    Ok(Action::SizeOrGrowth {
        cgroup,
        size_threshold,
        percentile,
        ratio,
        after,
    })
}

#[tactic(auto, unfolding(crate::specs::Rules::action_made_at, crate::specs::Rules::made_at, crate::specs::Plugins::action_of))]
fn swap_usage(args: &Arguments, delay_s: u32) -> Result<Action, Fault<RulesFault>>
    requires { IsTime delay_s }
    ensures value { Gives result
        (action_made_at args.now.place delay_s name.SwapUsage
        (option_map (λ v. view v.now) args.now.found)) }
    ensures range { IfOk result FitsAction }
{
    let cgroup = args.patterns(Key::Cgroup)?;
    let threshold = args.size_or(Key::Threshold, Size::Bytes(1))?;
    let after = after(args, delay_s)?;
    Ok(Action::SwapUsage {
        cgroup,
        threshold,
        after,
    })
}

#[tactic(auto, unfolding(crate::specs::Rules::action_made_at, crate::specs::Rules::made_at, crate::specs::Plugins::action_of))]
fn pressure(args: &Arguments, delay_s: u32) -> Result<Action, Fault<RulesFault>>
    requires { IsTime delay_s }
    ensures value { Gives result
        (action_made_at args.now.place delay_s name.Pressure
        (option_map (λ v. view v.now) args.now.found)) }
    ensures range { IfOk result FitsAction }
{
    let cgroup = args.patterns(Key::Cgroup)?;
    let resource = args.resource(Key::Resource)?;
    let after = after(args, delay_s)?;
    Ok(Action::Pressure {
        cgroup,
        resource,
        after,
    })
}

#[tactic(auto, unfolding(crate::specs::Rules::action_made_at, crate::specs::Rules::made_at, crate::specs::Plugins::action_of))]
fn pg_scan(args: &Arguments, delay_s: u32) -> Result<Action, Fault<RulesFault>>
    requires { IsTime delay_s }
    ensures value { Gives result
        (action_made_at args.now.place delay_s name.PgScan
        (option_map (λ v. view v.now) args.now.found)) }
    ensures range { IfOk result FitsAction }
{
    let cgroup = args.patterns(Key::Cgroup)?;
    let after = after(args, delay_s)?;
    Ok(Action::PgScan { cgroup, after })
}

fn made(name: ActionName, args: &Arguments, delay_s: u32) -> Result<Action, Fault<RulesFault>>
    requires { IsTime delay_s }
    ensures value { Gives result
        (action_made_at args.now.place delay_s name (option_map (λ v. view v.now) args.now.found)) }
    ensures range { IfOk result FitsAction }
{
    match name {
        ActionName::SizeOrGrowth => size_or_growth(args, delay_s),
        ActionName::SwapUsage => swap_usage(args, delay_s),
        ActionName::Pressure => pressure(args, delay_s),
        ActionName::PgScan => pg_scan(args, delay_s),
    }
}

fn named(text: &str, place: Place) -> Result<ActionName, RulesFault>
    ensures { result ≡ or_fault place cause.UnknownPlugin (action_named text.now) }
{
    match ActionName::of(text) {
        Some(name) => Ok(name),
        None => Err(RulesFault {
            place,
            what: RulesCause::UnknownPlugin,
        }),
    }
}

/// Parses an action from its plugin object in the JSON. `delay_s` is the ruleset's delay (s) after
/// a kill, and the default for the action's delay.
#[tactic(auto, unfolding(crate::specs::Rules::plugin_at))]
pub fn action(
    alloc: Global,
    value: &Value,
    delay_s: u32,
    place: Place,
) -> Result<Action, Fault<RulesFault>>
    requires { IsTime delay_s }
    ensures value { Gives result (action_in delay_s place (view value.now)) }
    ensures range { IfOk result FitsAction }
{
    let whole = object(value, place)?;
    let text = text(member(whole, "name", place)?, place)?;
    let name = named(text, place)?;
    let args = Arguments::of_plugin(alloc, whole, place)?;
    made(name, &args, delay_s)
}

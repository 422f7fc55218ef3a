//! Parses the detectors of a rules file.
//!
//! Each kind of detector has one function, and each argument of the detector has one line in that
//! function.
ghost use Rattle.std.specs.Prelude.{◌≡◌, option_map, IfOk};
ghost use Rattle.serde_json.specs.View.{view};
ghost use Rattle.ruleset_json.specs.declared.fault.RulesCause.TheVariants as cause;
ghost use Rattle.ruleset_json.specs.declared.name.DetectorName.TheVariants as name;
ghost use Rattle.ruleset_json.specs.Arguments.{or_fault};
ghost use Rattle.ruleset_json.specs.Names.{detector_named};
ghost use Rattle.ruleset_json.specs.Plugins.{detector_of};
ghost use Rattle.ruleset_json.specs.Ranges.{FitsDetector};
ghost use Rattle.ruleset_json.specs.Rules.{made_at, detector_in};
ghost use Rattle.psi_base.specs.Gives.{Gives};

use crate::arguments::{Arguments, LONGEST_S, PERCENT};
use crate::fault::{Place, RulesCause, RulesFault};
use crate::json::{member, object, text};
use crate::name::{DetectorName, Key};
use crate::types::DetectorSpec;
use psi_base::Fault;
use serde_json::Value;
use std::alloc::Global;

#[tactic(auto, unfolding(crate::specs::Rules::made_at, crate::specs::Plugins::detector_of))]
fn pressure_above(args: &Arguments) -> Result<DetectorSpec, Fault<RulesFault>>
    ensures value { Gives result
        (made_at args.now.place (detector_of name.PressureAbove)
        (option_map (λ v. view v.now) args.now.found)) }
    ensures range { IfOk result FitsDetector }
{
    let cgroup = args.patterns(Key::Cgroup)?;
    let resource = args.resource(Key::Resource)?;
    let threshold = args.number(Key::Threshold, PERCENT)?;
    let duration_s = args.number(Key::Duration, LONGEST_S)?;
    Ok(DetectorSpec::PressureAbove {
        cgroup,
        resource,
        threshold,
        duration_s,
    })
}

#[tactic(auto, unfolding(crate::specs::Rules::made_at, crate::specs::Plugins::detector_of))]
fn pressure_rising_beyond(args: &Arguments) -> Result<DetectorSpec, Fault<RulesFault>>
    ensures value { Gives result
        (made_at args.now.place (detector_of name.PressureRisingBeyond)
        (option_map (λ v. view v.now) args.now.found)) }
    ensures range { IfOk result FitsDetector }
{
    let cgroup = args.patterns(Key::Cgroup)?;
    let resource = args.resource(Key::Resource)?;
    let threshold = args.number(Key::Threshold, PERCENT)?;
    let duration_s = args.number(Key::Duration, LONGEST_S)?;
    let ratio = args.ratio_or(Key::FastFallRatio, 850)?;
    Ok(DetectorSpec::PressureRisingBeyond {
        cgroup,
        resource,
        threshold,
        duration_s,
        ratio,
    })
}

#[tactic(auto, unfolding(crate::specs::Rules::made_at, crate::specs::Plugins::detector_of))]
fn memory_above(args: &Arguments) -> Result<DetectorSpec, Fault<RulesFault>>
    ensures value { Gives result
        (made_at args.now.place (detector_of name.MemoryAbove)
        (option_map (λ v. view v.now) args.now.found)) }
    ensures range { IfOk result FitsDetector }
{
    let cgroup = args.patterns(Key::Cgroup)?;
    let threshold = args.size(Key::Threshold)?;
    let duration_s = args.number(Key::Duration, LONGEST_S)?;
    Ok(DetectorSpec::MemoryAbove {
        cgroup,
        threshold,
        duration_s,
    })
}

#[tactic(auto, unfolding(crate::specs::Rules::made_at, crate::specs::Plugins::detector_of))]
fn memory_reclaim(args: &Arguments) -> Result<DetectorSpec, Fault<RulesFault>>
    ensures value { Gives result
        (made_at args.now.place (detector_of name.MemoryReclaim)
        (option_map (λ v. view v.now) args.now.found)) }
    ensures range { IfOk result FitsDetector }
{
    let cgroup = args.patterns(Key::Cgroup)?;
    let duration_s = args.number(Key::Duration, LONGEST_S)?;
    Ok(DetectorSpec::MemoryReclaim { cgroup, duration_s })
}

#[tactic(auto, unfolding(crate::specs::Rules::made_at, crate::specs::Plugins::detector_of))]
fn swap_free(args: &Arguments) -> Result<DetectorSpec, Fault<RulesFault>>
    ensures value { Gives result
        (made_at args.now.place (detector_of name.SwapFree)
        (option_map (λ v. view v.now) args.now.found)) }
    ensures range { IfOk result FitsDetector }
{
    let threshold_pct = args.number(Key::ThresholdPct, PERCENT)?;
    Ok(DetectorSpec::SwapFree { threshold_pct })
}

#[tactic(auto, unfolding(crate::specs::Rules::made_at, crate::specs::Plugins::detector_of))]
fn exists(args: &Arguments) -> Result<DetectorSpec, Fault<RulesFault>>
    ensures value { Gives result
        (made_at args.now.place (detector_of name.Exists)
        (option_map (λ v. view v.now) args.now.found)) }
    ensures range { IfOk result FitsDetector }
{
    let cgroup = args.patterns(Key::Cgroup)?;
    let negate = args.truth_or(Key::Negate, false)?;
    Ok(DetectorSpec::Exists { cgroup, negate })
}

fn made(name: DetectorName, args: &Arguments) -> Result<DetectorSpec, Fault<RulesFault>>
    ensures value { Gives result
        (made_at args.now.place (detector_of name) (option_map (λ v. view v.now) args.now.found)) }
    ensures range { IfOk result FitsDetector }
{
    match name {
        DetectorName::PressureAbove => pressure_above(args),
        DetectorName::PressureRisingBeyond => pressure_rising_beyond(args),
        DetectorName::MemoryAbove => memory_above(args),
        DetectorName::MemoryReclaim => memory_reclaim(args),
        DetectorName::SwapFree => swap_free(args),
        DetectorName::Exists => exists(args),
    }
}

fn named(text: &str, place: Place) -> Result<DetectorName, RulesFault>
    ensures { result ≡ or_fault place cause.UnknownPlugin (detector_named text.now) }
{
    match DetectorName::of(text) {
        Some(name) => Ok(name),
        None => Err(RulesFault {
            place,
            what: RulesCause::UnknownPlugin,
        }),
    }
}

/// Parses a detector from its plugin object in the JSON. Faults report `place`.
#[tactic(auto, unfolding(crate::specs::Rules::plugin_at))]
pub fn detector(
    alloc: Global,
    value: &Value,
    place: Place,
) -> Result<DetectorSpec, Fault<RulesFault>>
    ensures value { Gives result (detector_in place (view value.now)) }
    ensures range { IfOk result FitsDetector }
{
    let whole = object(value, place)?;
    let text = text(member(whole, "name", place)?, place)?;
    let name = named(text, place)?;
    let args = Arguments::of_plugin(alloc, whole, place)?;
    made(name, &args)
}

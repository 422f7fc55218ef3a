//! Converts a detector to JSON: a plugin object with all arguments of the detector.
//!
//! Each kind of detector has one function, and each argument of the detector has one line in that
//! function.
ghost use Rattle.std.specs.Prelude.{◌≡◌, IfOk};
ghost use Rattle.path_match.specs.Answers.{ArePatterns};
ghost use Rattle.serde_json.specs.View.{view};
ghost use Rattle.ruleset_json.specs.declared.types.DetectorSpec.TheVariants as spec;
ghost use Rattle.dropin_rules.specs.HasPatterns.{DetectorHasPatterns};
ghost use Rattle.dropin_rules.specs.RulesText.{detector_data};

use crate::argument::Arguments;
use path_match::Patterns;
use psi_base::{NoMemory, Res};
use ruleset_json::{DetectorName, DetectorSpec, Key, Size};
use serde_json::Value;
use std::alloc::Global;

#[tactic(auto, using(crate::proofs::Sorted::pressure_above))]
fn pressure_above(
    alloc: Global,
    cgroup: &Patterns,
    resource: Res,
    threshold: u32,
    duration_s: u32,
) -> Result<Value, NoMemory>
    ensures value { IfOk result (λ v. view v
        ≡ detector_data (spec.PressureAbove cgroup.now resource threshold duration_s)) }
    ensures formed { ArePatterns cgroup.now }
{
    let mut args = Arguments::new(alloc);
    args.patterns(Key::Cgroup, cgroup)?;
    args.number(Key::Duration, duration_s)?;
    args.resource(Key::Resource, resource)?;
    args.number(Key::Threshold, threshold)?;
    args.plugin(DetectorName::PressureAbove.text())
}

#[tactic(auto, using(crate::proofs::Sorted::pressure_rising_beyond))]
fn pressure_rising_beyond(
    alloc: Global,
    cgroup: &Patterns,
    resource: Res,
    threshold: u32,
    duration_s: u32,
    ratio: u32,
) -> Result<Value, NoMemory>
    ensures value { IfOk result (λ v. view v
        ≡ detector_data
        (spec.PressureRisingBeyond cgroup.now resource threshold duration_s ratio)) }
    ensures formed { ArePatterns cgroup.now }
{
    let mut args = Arguments::new(alloc);
    args.patterns(Key::Cgroup, cgroup)?;
    args.number(Key::Duration, duration_s)?;
    args.ratio(Key::FastFallRatio, ratio)?;
    args.resource(Key::Resource, resource)?;
    args.number(Key::Threshold, threshold)?;
    args.plugin(DetectorName::PressureRisingBeyond.text())
}

#[tactic(auto, using(crate::proofs::Sorted::memory_above))]
fn memory_above(
    alloc: Global,
    cgroup: &Patterns,
    threshold: Size,
    duration_s: u32,
) -> Result<Value, NoMemory>
    ensures value { IfOk result (λ v. view v
        ≡ detector_data (spec.MemoryAbove cgroup.now threshold duration_s)) }
    ensures formed { ArePatterns cgroup.now }
{
    let mut args = Arguments::new(alloc);
    args.patterns(Key::Cgroup, cgroup)?;
    args.number(Key::Duration, duration_s)?;
    args.size(Key::Threshold, threshold)?;
    args.plugin(DetectorName::MemoryAbove.text())
}

#[tactic(auto, using(crate::proofs::Sorted::memory_reclaim))]
fn memory_reclaim(alloc: Global, cgroup: &Patterns, duration_s: u32) -> Result<Value, NoMemory>
    ensures value { IfOk result (λ v. view v
        ≡ detector_data (spec.MemoryReclaim cgroup.now duration_s)) }
    ensures formed { ArePatterns cgroup.now }
{
    let mut args = Arguments::new(alloc);
    args.patterns(Key::Cgroup, cgroup)?;
    args.number(Key::Duration, duration_s)?;
    args.plugin(DetectorName::MemoryReclaim.text())
}

#[tactic(auto, using(crate::proofs::Sorted::swap_free))]
fn swap_free(alloc: Global, threshold_pct: u32) -> Result<Value, NoMemory>
    ensures { IfOk result (λ v. view v ≡ detector_data (spec.SwapFree threshold_pct)) }
{
    let mut args = Arguments::new(alloc);
    args.number(Key::ThresholdPct, threshold_pct)?;
    args.plugin(DetectorName::SwapFree.text())
}

#[tactic(auto, using(crate::proofs::Sorted::exists))]
fn exists(alloc: Global, cgroup: &Patterns, negate: bool) -> Result<Value, NoMemory>
    ensures value { IfOk result (λ v. view v ≡ detector_data (spec.Exists cgroup.now negate)) }
    ensures formed { ArePatterns cgroup.now }
{
    let mut args = Arguments::new(alloc);
    args.patterns(Key::Cgroup, cgroup)?;
    args.truth(Key::Negate, negate)?;
    args.plugin(DetectorName::Exists.text())
}

/// Returns the plugin object of a detector as a JSON value.
pub fn detector(alloc: Global, detector: &DetectorSpec) -> Result<Value, NoMemory>
    ensures value { IfOk result (λ v. view v ≡ detector_data detector.now) }
    ensures formed { DetectorHasPatterns detector.now }
{
    match detector {
        DetectorSpec::PressureAbove {
            cgroup,
            resource,
            threshold,
            duration_s,
        } => pressure_above(alloc, cgroup, *resource, *threshold, *duration_s),
        DetectorSpec::PressureRisingBeyond {
            cgroup,
            resource,
            threshold,
            duration_s,
            ratio,
        } => pressure_rising_beyond(alloc, cgroup, *resource, *threshold, *duration_s, *ratio),
        DetectorSpec::MemoryAbove {
            cgroup,
            threshold,
            duration_s,
        } => memory_above(alloc, cgroup, *threshold, *duration_s),
        DetectorSpec::MemoryReclaim { cgroup, duration_s } => {
            memory_reclaim(alloc, cgroup, *duration_s)
        }
        DetectorSpec::SwapFree { threshold_pct } => swap_free(alloc, *threshold_pct),
        DetectorSpec::Exists { cgroup, negate } => exists(alloc, cgroup, *negate),
    }
}

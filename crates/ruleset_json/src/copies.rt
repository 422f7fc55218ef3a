//! Copies rules.
//!
//! `Clone` can't report that memory ran out. Therefore each type has a method `copy`, which fails
//! with `NoMemory` in that case.
ghost use Rattle.std.specs.Prelude.{◌≡◌, IfOk};
ghost use Rattle.ruleset_json.specs.declared.types.DetectorSpec.TheVariants as detector;

use crate::types::{
    Action, ActionList, DetectorGroup, DetectorSpec, GroupList, Rule, RuleList, Rules, SpecList,
};
use path_match::Patterns;
use psi_base::{NoMemory, Res, Text};
use std::alloc::Global;

fn copy_text(alloc: Global, text: &Text) -> Result<Text, NoMemory>
    ensures { IfOk result (λ copied. copied ≡ text.now) }
{
    Text::make(alloc, text.bytes())
}

fn rising_beyond(
    cgroup: Patterns,
    resource: Res,
    threshold: u32,
    duration_s: u32,
    ratio: u32,
) -> DetectorSpec
    ensures { result
        ≡ detector.PressureRisingBeyond cgroup resource threshold duration_s ratio }
{
    DetectorSpec::PressureRisingBeyond {
        cgroup,
        resource,
        threshold,
        duration_s,
        ratio,
    }
}

impl DetectorSpec {
    /// Returns a copy of the detector.
    pub fn copy(&self, alloc: Global) -> Result<DetectorSpec, NoMemory>
        ensures { IfOk result (λ copied. copied ≡ self.now) }
    {
        Ok(match self {
            DetectorSpec::PressureAbove {
                cgroup,
                resource,
                threshold,
                duration_s,
            } => DetectorSpec::PressureAbove {
                cgroup: cgroup.copy(alloc)?,
                resource: *resource,
                threshold: *threshold,
                duration_s: *duration_s,
            },
            DetectorSpec::PressureRisingBeyond {
                cgroup,
                resource,
                threshold,
                duration_s,
                ratio,
            } => rising_beyond(
                cgroup.copy(alloc)?,
                *resource,
                *threshold,
                *duration_s,
                *ratio,
            ),
            DetectorSpec::MemoryAbove {
                cgroup,
                threshold,
                duration_s,
            } => DetectorSpec::MemoryAbove {
                cgroup: cgroup.copy(alloc)?,
                threshold: *threshold,
                duration_s: *duration_s,
            },
            DetectorSpec::MemoryReclaim { cgroup, duration_s } => DetectorSpec::MemoryReclaim {
                cgroup: cgroup.copy(alloc)?,
                duration_s: *duration_s,
            },
            DetectorSpec::SwapFree { threshold_pct } => DetectorSpec::SwapFree {
                threshold_pct: *threshold_pct,
            },
            DetectorSpec::Exists { cgroup, negate } => DetectorSpec::Exists {
                cgroup: cgroup.copy(alloc)?,
                negate: *negate,
            },
        })
    }
}

impl Action {
    /// Returns a copy of the action.
    pub fn copy(&self, alloc: Global) -> Result<Action, NoMemory>
        ensures { IfOk result (λ copied. copied ≡ self.now) }
    {
        Ok(match self {
            Action::SizeOrGrowth {
                cgroup,
                size_threshold,
                percentile,
                ratio,
                after,
            } => Action::SizeOrGrowth {
                cgroup: cgroup.copy(alloc)?,
                size_threshold: *size_threshold,
                percentile: *percentile,
                ratio: *ratio,
                after: *after,
            },
            Action::SwapUsage {
                cgroup,
                threshold,
                after,
            } => Action::SwapUsage {
                cgroup: cgroup.copy(alloc)?,
                threshold: *threshold,
                after: *after,
            },
            Action::Pressure {
                cgroup,
                resource,
                after,
            } => Action::Pressure {
                cgroup: cgroup.copy(alloc)?,
                resource: *resource,
                after: *after,
            },
            Action::PgScan { cgroup, after } => Action::PgScan {
                cgroup: cgroup.copy(alloc)?,
                after: *after,
            },
        })
    }
}

impl SpecList {
    /// Returns a copy of the list of detectors.
    pub fn copy(&self, alloc: Global) -> Result<SpecList, NoMemory>
        ensures { IfOk result (λ copied. copied ≡ self.now) }
    {
        let specs = self.items();
        let mut copies = Vec::with_capacity(alloc, specs.len())?;
        'specs: for spec in specs {
            copies.push(spec.copy(alloc)?)?;
        }
        Ok(SpecList::new(copies))
    }
}

impl DetectorGroup {
    /// Returns a copy of the group of detectors.
    pub fn copy(&self, alloc: Global) -> Result<DetectorGroup, NoMemory>
        ensures { IfOk result (λ copied. copied ≡ self.now) }
    {
        Ok(DetectorGroup {
            name: copy_text(alloc, &self.name)?,
            detectors: self.detectors.copy(alloc)?,
        })
    }
}

impl GroupList {
    /// Returns a copy of the list of groups.
    pub fn copy(&self, alloc: Global) -> Result<GroupList, NoMemory>
        ensures { IfOk result (λ copied. copied ≡ self.now) }
    {
        let groups = self.items();
        let mut copies = Vec::with_capacity(alloc, groups.len())?;
        'groups: for group in groups {
            copies.push(group.copy(alloc)?)?;
        }
        Ok(GroupList::new(copies))
    }
}

impl ActionList {
    /// Returns a copy of the list of actions.
    pub fn copy(&self, alloc: Global) -> Result<ActionList, NoMemory>
        ensures { IfOk result (λ copied. copied ≡ self.now) }
    {
        let actions = self.items();
        let mut copies = Vec::with_capacity(alloc, actions.len())?;
        'actions: for action in actions {
            copies.push(action.copy(alloc)?)?;
        }
        Ok(ActionList::new(copies))
    }
}

impl Rule {
    /// Returns a copy of the ruleset.
    pub fn copy(&self, alloc: Global) -> Result<Rule, NoMemory>
        ensures { IfOk result (λ copied. copied ≡ self.now) }
    {
        Ok(Rule {
            name: copy_text(alloc, &self.name)?,
            groups: self.groups.copy(alloc)?,
            actions: self.actions.copy(alloc)?,
        })
    }
}

impl RuleList {
    /// Returns a copy of the list of rulesets.
    pub fn copy(&self, alloc: Global) -> Result<RuleList, NoMemory>
        ensures { IfOk result (λ copied. copied ≡ self.now) }
    {
        let rules = self.items();
        let mut copies = Vec::with_capacity(alloc, rules.len())?;
        'rules: for rule in rules {
            copies.push(rule.copy(alloc)?)?;
        }
        Ok(RuleList::new(copies))
    }
}

impl Rules {
    /// Returns a copy of all rules of the file.
    pub fn copy(&self, alloc: Global) -> Result<Rules, NoMemory>
        ensures { IfOk result (λ copied. copied ≡ self.now) }
    {
        Ok(Rules {
            rules: self.rules.copy(alloc)?,
        })
    }
}

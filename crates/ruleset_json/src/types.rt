//! The types of parsed rules: rulesets with their detectors and actions.
//!
//! The crate kill_spec defines the meaning of the rules.
use path_match::Patterns;
use psi_base::{Res, Text};
use std::marker::Model;

/// A size: a number of bytes (at most 2^60), or a percentage (at most 100).
#[derive(Clone, Copy, Debug, PartialEq, Eq)]
pub enum Size {
    /// A number of bytes.
    Bytes(u64),
    /// A percentage of the host's memory or swap. The plugin determines which of the two.
    Percent(u32),
}

/// The settings that every kind of action has.
#[derive(Clone, Copy, Debug, PartialEq, Eq)]
pub struct After {
    /// Whether the choice of a victim is repeated among the children of the chosen group.
    pub recursive: bool,
    /// Whether the ruleset runs its next actions even if this action killed a group.
    pub always_continue: bool,
    /// The time (s) after a kill during which the ruleset runs no actions. It is at most 1,000,000.
    pub delay_s: u32,
}

/// A detector: a condition on control groups or on the host. A percentage is at most 100, a
/// duration at most 1,000,000 s, a ratio at most 1,000,999 thousandths, and a resource is IO or
/// memory.
#[derive(Drop)]
pub enum DetectorSpec {
    /// `pressure_above`: the greatest `full` pressure over 10 s among the matching groups has been
    /// above the threshold (percent) for at least the duration (s).
    PressureAbove {
        cgroup: Patterns,
        resource: Res,
        threshold: u32,
        duration_s: u32,
    },
    /// `pressure_rising_beyond`: three conditions hold. The greatest `full` pressure over 60 s
    /// among the matching groups has been above the threshold (percent) for at least the duration
    /// (s). The greatest `full` pressure over 10 s is above the threshold now. The greatest `full`
    /// pressure over 10 s is at least the ratio (thousandths) times its value at the previous
    /// evaluation.
    PressureRisingBeyond {
        cgroup: Patterns,
        resource: Res,
        threshold: u32,
        duration_s: u32,
        ratio: u32,
    },
    /// `memory_above`: at each evaluation for at least the duration (s), at least one matching
    /// group used more memory than the threshold.
    MemoryAbove {
        cgroup: Patterns,
        threshold: Size,
        duration_s: u32,
    },
    /// `memory_reclaim`: pages of a matching group were scanned for reclaim within the last
    /// duration (s).
    MemoryReclaim {
        cgroup: Patterns,
        duration_s: u32,
    },
    /// `swap_free`: less than the threshold (percent) of the host's swap is free.
    SwapFree {
        threshold_pct: u32,
    },
    /// `exists`: at least one live group matches the patterns. With `negate`: no live group
    /// matches.
    Exists {
        cgroup: Patterns,
        negate: bool,
    },
}

/// An action: a rule that chooses the group to kill. Among the groups that qualify, those with the
/// best kill preference are chosen first. A percentage is at most 100, a ratio at most 1,000,999
/// thousandths, and a resource is IO or memory.
#[derive(Drop)]
pub enum Action {
    /// `kill_by_memory_size_or_growth`: chooses the largest group if it uses at least
    /// `size_threshold` percent of the memory of all candidates. Otherwise chooses, among the
    /// largest groups (those above the percentile), the group that has grown most, if its size is
    /// at least the ratio (thousandths) times the mean of its past sizes. Otherwise chooses the
    /// largest group.
    SizeOrGrowth {
        cgroup: Patterns,
        size_threshold: u32,
        percentile: u32,
        ratio: u32,
        after: After,
    },
    /// `kill_by_swap_usage`: chooses the group that uses the most swap. Groups that use less swap
    /// than the threshold are never chosen.
    SwapUsage {
        cgroup: Patterns,
        threshold: Size,
        after: After,
    },
    /// `kill_by_pressure`: chooses the group with the greatest sum of its `full` averages over 10 s
    /// and 60 s. A group whose sum is 0 is never chosen.
    Pressure {
        cgroup: Patterns,
        resource: Res,
        after: After,
    },
    /// `kill_by_pg_scan`: chooses the group with the most pages scanned since the previous
    /// evaluation. A group without scanned pages is never chosen.
    PgScan {
        cgroup: Patterns,
        after: After,
    },
}

/// A list of at most 16 detectors, with arguments in range.
#[derive(Drop)]
pub struct SpecList {
    specs: Vec<DetectorSpec>,
}

impl Model for SpecList {
    ghost use Rattle.std.specs.Prelude.{List};
    ghost use Rattle.ruleset_json.specs.declared.types.DetectorSpec.{DetectorSpec};
    ghost use Rattle.ruleset_json.specs.Ranges.{FitsDetectors};

    ghost Value = { List DetectorSpec };

    ghost view = { λ l. l.specs.items };

    ghost invariant = { λ l. FitsDetectors l.specs.items };
}

impl SpecList {
    ghost use Rattle.std.specs.Prelude.{◌≡◌};
    ghost use Rattle.ruleset_json.specs.Ranges.{FitsDetectors};

    /// Returns a list of these detectors. Precondition: there are at most 16 detectors, and their
    /// arguments are in range.
    pub fn new(specs: Vec<DetectorSpec>) -> Self
        requires { FitsDetectors specs.items }
        ensures { result ≡ specs.items }
    {
        SpecList { specs }
    }

    /// Returns the detectors in the order of the file.
    pub fn items(&self) -> &[DetectorSpec]
        ensures items { result.now ≡ self.now }
        ensures fits { FitsDetectors result.now }
    {
        &self.specs
    }

    /// Returns the list as a vector. Doesn't allocate.
    pub fn into_items(self) -> Vec<DetectorSpec>
        ensures items { result.items ≡ self }
        ensures fits { FitsDetectors result.items }
    {
        self.specs
    }
}

/// A group of detectors with a name. The group holds if all its detectors are true. A group without
/// detectors always holds.
#[derive(Drop)]
pub struct DetectorGroup {
    /// The name of the group.
    pub name: Text,
    /// The detectors of the group, in the order of the file.
    pub detectors: SpecList,
}

/// A list of at most 16 groups of detectors.
#[derive(Drop)]
pub struct GroupList {
    groups: Vec<DetectorGroup>,
}

impl Model for GroupList {
    ghost use Rattle.std.specs.Prelude.{List};
    ghost use Rattle.ruleset_json.specs.declared.types.DetectorGroup.{DetectorGroup};
    ghost use Rattle.ruleset_json.specs.GroupRanges.{FitsGroups};

    ghost Value = { List DetectorGroup };

    ghost view = { λ l. l.groups.items };

    ghost invariant = { λ l. FitsGroups l.groups.items };
}

impl GroupList {
    ghost use Rattle.std.specs.Prelude.{◌≡◌};
    ghost use Rattle.ruleset_json.specs.GroupRanges.{FitsGroups};

    /// Returns a list of these groups. Precondition: there are at most 16 groups, and their values
    /// are in range.
    pub fn new(groups: Vec<DetectorGroup>) -> Self
        requires { FitsGroups groups.items }
        ensures { result ≡ groups.items }
    {
        GroupList { groups }
    }

    /// Returns the groups in the order of the file.
    pub fn items(&self) -> &[DetectorGroup]
        ensures items { result.now ≡ self.now }
        ensures fits { FitsGroups result.now }
    {
        &self.groups
    }

    /// Returns the list as a vector. Doesn't allocate.
    pub fn into_items(self) -> Vec<DetectorGroup>
        ensures items { result.items ≡ self }
        ensures fits { FitsGroups result.items }
    {
        self.groups
    }
}

/// A list of at most 16 actions, with arguments in range.
#[derive(Drop)]
pub struct ActionList {
    actions: Vec<Action>,
}

impl Model for ActionList {
    ghost use Rattle.std.specs.Prelude.{List};
    ghost use Rattle.ruleset_json.specs.declared.types.Action.{Action};
    ghost use Rattle.ruleset_json.specs.Ranges.{FitsActions};

    ghost Value = { List Action };

    ghost view = { λ l. l.actions.items };

    ghost invariant = { λ l. FitsActions l.actions.items };
}

impl ActionList {
    ghost use Rattle.std.specs.Prelude.{◌≡◌};
    ghost use Rattle.ruleset_json.specs.Ranges.{FitsActions};

    /// Returns a list of these actions. Precondition: there are at most 16 actions, and their
    /// arguments are in range.
    pub fn new(actions: Vec<Action>) -> Self
        requires { FitsActions actions.items }
        ensures { result ≡ actions.items }
    {
        ActionList { actions }
    }

    /// Returns the actions in the order of the file.
    pub fn items(&self) -> &[Action]
        ensures items { result.now ≡ self.now }
        ensures fits { FitsActions result.now }
    {
        &self.actions
    }

    /// Returns the list as a vector. Doesn't allocate.
    pub fn into_items(self) -> Vec<Action>
        ensures items { result.items ≡ self }
        ensures fits { FitsActions result.items }
    {
        self.actions
    }
}

/// A ruleset. If at least one of its groups of detectors holds, its actions run in order.
#[derive(Drop)]
pub struct Rule {
    /// The name of the ruleset. Several rulesets may have the same name.
    pub name: Text,
    /// The groups of detectors, in the order of the file.
    pub groups: GroupList,
    /// The actions, in the order in which they run.
    pub actions: ActionList,
}

impl Rule {
    ghost use Rattle.std.specs.Prelude.{◌≡◌, None};
    ghost use Rattle.ruleset_json.specs.Replaced.{replaced};
    ghost use Rattle.ruleset_json.specs.RuleRanges.{FitsRule};

    // Replaces the ruleset's groups by `groups`. Does nothing if `groups` is `None`.
    fn put_groups(&mut self, groups: Option<GroupList>)
        ensures value { self.new ≡ replaced groups None self.old }
        ensures fits { FitsRule self.old → FitsRule self.new }
    {
        if let Some(groups) = groups {
            self.groups = groups;
        }
    }

    // Replaces the ruleset's actions by `actions`. Does nothing if `actions` is `None`.
    fn put_actions(&mut self, actions: Option<ActionList>)
        ensures value { self.new ≡ replaced None actions self.old }
        ensures fits { FitsRule self.old → FitsRule self.new }
    {
        if let Some(actions) = actions {
            self.actions = actions;
        }
    }
}

/// A ruleset of a drop-in file. It replaces the groups, the actions, or both, of the ruleset with
/// this name.
#[derive(Drop)]
pub struct Part {
    /// The name of the ruleset that is changed.
    pub name: Text,
    /// The new groups of detectors, or `None` to keep the old groups.
    pub groups: Option<GroupList>,
    /// The new actions, or `None` to keep the old actions.
    pub actions: Option<ActionList>,
}

/// A list of at most 64 rulesets.
#[derive(Drop)]
pub struct RuleList {
    rules: Vec<Rule>,
}

impl Model for RuleList {
    ghost use Rattle.std.specs.Prelude.{List};
    ghost use Rattle.ruleset_json.specs.declared.types.Rule.{Rule};
    ghost use Rattle.ruleset_json.specs.RuleRanges.{FitsRules};

    ghost Value = { List Rule };

    ghost view = { λ l. l.rules.items };

    ghost invariant = { λ l. FitsRules l.rules.items };
}

impl RuleList {
    ghost use Rattle.std.specs.Prelude.{◌≡◌, ◌<◌, length};
    ghost use Rattle.ruleset_json.specs.Replaced.{replaced_at};
    ghost use Rattle.ruleset_json.specs.RuleRanges.{FitsRules};

    /// Returns a list of these rulesets. Precondition: there are at most 64 rulesets, and their
    /// values are in range.
    pub fn new(rules: Vec<Rule>) -> Self
        requires { FitsRules rules.items }
        ensures { result ≡ rules.items }
    {
        RuleList { rules }
    }

    /// Returns the rulesets in the order of the file.
    pub fn items(&self) -> &[Rule]
        ensures items { result.now ≡ self.now }
        ensures fits { FitsRules result.now }
    {
        &self.rules
    }

    /// Replaces the groups and the actions of the ruleset at index `rule`. `None` keeps the old
    /// groups or actions. Other rulesets don't change. Doesn't allocate.
    pub fn replace(&mut self, rule: u32, groups: Option<GroupList>, actions: Option<ActionList>)
        requires { rule < length self.old }
        ensures { self.new ≡ replaced_at rule groups actions self.old }
    {
        let rule = &mut self.rules[rule as usize];
        rule.put_groups(groups);
        rule.put_actions(actions);
    }

    /// Returns the list as a vector. Doesn't allocate.
    pub fn into_items(self) -> Vec<Rule>
        ensures items { result.items ≡ self }
        ensures fits { FitsRules result.items }
    {
        self.rules
    }
}

/// All rules of a rules file.
#[derive(Drop)]
pub struct Rules {
    /// The rulesets, in the order of the file.
    pub rules: RuleList,
}

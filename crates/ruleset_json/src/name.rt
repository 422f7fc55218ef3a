//! Defines the names of plugins (detectors and actions), and the keys of their arguments.
//!
//! The modules `action` and `detector` list the keys that each plugin has.
ghost use Rattle.std.specs.Prelude.{◌≡◌};
ghost use Rattle.ruleset_json.specs.Names as names;

/// The kind of a detector. The detector's name in a rules file determines its kind.
#[derive(Clone, Copy, Debug, PartialEq, Eq)]
pub enum DetectorName {
    PressureAbove,
    PressureRisingBeyond,
    MemoryAbove,
    MemoryReclaim,
    SwapFree,
    Exists,
}

impl DetectorName {
    /// Returns the detector's name in a rules file.
    #[tactic(auto, unfolding(crate::specs::Names::detector_word))]
    pub fn text(self) -> &'static str
        ensures { result.now ≡ names.detector_word self }
    {
        match self {
            DetectorName::PressureAbove => "pressure_above",
            DetectorName::PressureRisingBeyond => "pressure_rising_beyond",
            DetectorName::MemoryAbove => "memory_above",
            DetectorName::MemoryReclaim => "memory_reclaim",
            DetectorName::SwapFree => "swap_free",
            DetectorName::Exists => "exists",
        }
    }

    /// Returns the kind of detector with the name `text`, or `None` if there is no such detector.
    #[tactic(auto, unfolding(crate::specs::Names::detector_named))]
    pub fn of(text: &str) -> Option<DetectorName>
        ensures { result ≡ names.detector_named text.now }
    {
        if text == DetectorName::PressureAbove.text() {
            Some(DetectorName::PressureAbove)
        } else if text == DetectorName::PressureRisingBeyond.text() {
            Some(DetectorName::PressureRisingBeyond)
        } else if text == DetectorName::MemoryAbove.text() {
            Some(DetectorName::MemoryAbove)
        } else if text == DetectorName::MemoryReclaim.text() {
            Some(DetectorName::MemoryReclaim)
        } else if text == DetectorName::SwapFree.text() {
            Some(DetectorName::SwapFree)
        } else if text == DetectorName::Exists.text() {
            Some(DetectorName::Exists)
        } else {
            None
        }
    }
}

/// The kind of an action. The action's name in a rules file determines its kind.
#[derive(Clone, Copy, Debug, PartialEq, Eq)]
pub enum ActionName {
    SizeOrGrowth,
    SwapUsage,
    Pressure,
    PgScan,
}

impl ActionName {
    /// Returns the action's name in a rules file.
    #[tactic(auto, unfolding(crate::specs::Names::action_word))]
    pub fn text(self) -> &'static str
        ensures { result.now ≡ names.action_word self }
    {
        match self {
            ActionName::SizeOrGrowth => "kill_by_memory_size_or_growth",
            ActionName::SwapUsage => "kill_by_swap_usage",
            ActionName::Pressure => "kill_by_pressure",
            ActionName::PgScan => "kill_by_pg_scan",
        }
    }

    /// Returns the kind of action with the name `text`, or `None` if there is no such action.
    #[tactic(auto, unfolding(crate::specs::Names::action_named))]
    pub fn of(text: &str) -> Option<ActionName>
        ensures { result ≡ names.action_named text.now }
    {
        if text == ActionName::SizeOrGrowth.text() {
            Some(ActionName::SizeOrGrowth)
        } else if text == ActionName::SwapUsage.text() {
            Some(ActionName::SwapUsage)
        } else if text == ActionName::Pressure.text() {
            Some(ActionName::Pressure)
        } else if text == ActionName::PgScan.text() {
            Some(ActionName::PgScan)
        } else {
            None
        }
    }
}

/// The key of an argument of a plugin.
#[derive(Clone, Copy, Debug, PartialEq, Eq)]
pub enum Key {
    Cgroup,
    Resource,
    Threshold,
    ThresholdPct,
    Duration,
    FastFallRatio,
    Negate,
    SizeThreshold,
    GrowingSizePercentile,
    MinGrowthRatio,
    Recursive,
    AlwaysContinue,
    PostActionDelay,
}

impl Key {
    /// Returns the spelling of the key in a rules file.
    #[tactic(auto, unfolding(crate::specs::Names::key_word))]
    pub fn text(self) -> &'static str
        ensures { result.now ≡ names.key_word self }
    {
        match self {
            Key::Cgroup => "cgroup",
            Key::Resource => "resource",
            Key::Threshold => "threshold",
            Key::ThresholdPct => "threshold_pct",
            Key::Duration => "duration",
            Key::FastFallRatio => "fast_fall_ratio",
            Key::Negate => "negate",
            Key::SizeThreshold => "size_threshold",
            Key::GrowingSizePercentile => "growing_size_percentile",
            Key::MinGrowthRatio => "min_growth_ratio",
            Key::Recursive => "recursive",
            Key::AlwaysContinue => "always_continue",
            Key::PostActionDelay => "post_action_delay",
        }
    }
}

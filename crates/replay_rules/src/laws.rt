//! Laws about the evaluations of a replay.
//!
//! Each function has an empty body, because its contract is the law.
ghost use Rattle.replay_rules.specs.Laws.{KillsAtReading, NoKillsBetween, NoneWithoutRules};
ghost use Rattle.replay_rules.specs.Laws.{OneReadingMore, ReadingsAreReadings, ReadingsStay};

/// Laws that relate a tick to the previous tick. A tick without an evaluation adds no reading and
/// has no kills. A tick with an evaluation adds one reading, and its kills depend only on the
/// rules, this reading and the previous readings. Without rules there are no kills.
pub fn law_evaluations()
    ensures stay { ReadingsStay }
    ensures more { OneReadingMore }
    ensures between { NoKillsBetween }
    ensures kills { KillsAtReading }
    ensures without { NoneWithoutRules }
{}

/// The readings of an accepted trace are well formed, and each reading is later than the previous
/// readings.
pub fn law_readings()
    ensures { ReadingsAreReadings }
{}

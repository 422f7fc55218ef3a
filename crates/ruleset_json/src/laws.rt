//! Laws about parsing the lists in a rules file: lists of detectors, groups, actions and rulesets.
//!
//! Each function has an empty body: its contract is the law, and the proof shows that the law
//! holds.
ghost use Rattle.ruleset_json.specs.Laws.{ReadsEach, RefusesFirst};
ghost use Rattle.ruleset_json.specs.declared.types.Action.{Action};
ghost use Rattle.ruleset_json.specs.declared.types.DetectorGroup.{DetectorGroup};
ghost use Rattle.ruleset_json.specs.declared.types.DetectorSpec.{DetectorSpec};
ghost use Rattle.ruleset_json.specs.declared.types.Rule.{Rule};

/// A list is accepted if and only if each of its items is accepted.
pub fn law_lists_are_read()
    ensures detectors { ReadsEach DetectorSpec }
    ensures groups { ReadsEach DetectorGroup }
    ensures actions { ReadsEach Action }
    ensures rules { ReadsEach Rule }
{}

/// A list is rejected with a fault if and only if that fault is the fault of its first rejected
/// item.
pub fn law_first_faults()
    ensures detectors { RefusesFirst DetectorSpec }
    ensures groups { RefusesFirst DetectorGroup }
    ensures actions { RefusesFirst Action }
    ensures rules { RefusesFirst Rule }
{}

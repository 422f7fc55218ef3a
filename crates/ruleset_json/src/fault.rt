//! Defines the faults of a rules file: the cause of the rejection and the place in the file.
//!
//! The specification `FaultText` defines the printed text of a fault.
ghost use Rattle.std.specs.Prelude.{◌≡◌};
ghost use Rattle.psi_base.specs.declared.event.Fault.TheVariants as outcome;

use psi_base::Fault;

/// The place of a fault in a rules file. All numbers are indexes from 0, in the order of the file.
#[derive(Clone, Copy, Debug, PartialEq, Eq)]
pub enum Place {
    /// The whole file, or its list of rulesets.
    Whole,
    /// A ruleset, by its index in the file.
    Rule(u32),
    /// A group of detectors: the index of its ruleset, and its index in the ruleset.
    Group(u32, u32),
    /// A detector: the index of its ruleset, the index of its group in the ruleset, and its index
    /// in the group. The name at the start of the group has no index.
    Detector(u32, u32, u32),
    /// An action: the index of its ruleset, and its index in the ruleset.
    Action(u32, u32),
}

/// The reason why a rules file is rejected.
#[derive(Clone, Copy, Debug, PartialEq, Eq)]
pub enum RulesCause {
    /// The file is longer than 1,048,576 bytes.
    TooLong,
    /// The bytes aren't UTF-8, or aren't JSON that `serde_json` accepts.
    BadJson,
    /// A required key or argument is missing. This cause is also reported for a group that is an
    /// empty list, because the group's name is missing.
    MissingKey,
    /// A value has the wrong JSON kind. Numbers must be integers from 0 to 2^64 - 1.
    WrongKind,
    /// No plugin of the required kind (detector or action) has this name.
    UnknownPlugin,
    /// The text of an argument is malformed, or its value is out of range. The text may be a JSON
    /// string, number or Boolean.
    BadArg,
    /// A list is longer than its limit, or an argument has more than 16 patterns.
    TooMany,
}

/// The first fault of a rules file, in the order of parsing.
#[derive(Clone, Copy, Debug, PartialEq, Eq)]
pub struct RulesFault {
    /// The place of the fault in the file.
    pub place: Place,
    /// The reason for the rejection.
    pub what: RulesCause,
}

impl From<RulesFault> for Fault<RulesFault> {
    ghost use Rattle.std.specs.Prelude.{◌≡◌};
    ghost use Rattle.psi_base.specs.declared.event.Fault.TheVariants as outcome;

    ghost from_gives = { λ fault e. e ≡ outcome.Refused fault };

    fn from(fault: RulesFault) -> Self {
        Fault::Refused(fault)
    }
}

pub(crate) fn refused(place: Place, what: RulesCause) -> Fault<RulesFault>
    ensures { result ≡ outcome.Refused (record { place = place; what = what }) }
{
    Fault::Refused(RulesFault { place, what })
}

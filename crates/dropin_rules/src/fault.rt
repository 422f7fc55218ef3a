//! Faults of a drop-in file: the reason for the rejection and the position in the file.
//!
//! The specification `FaultText` defines the printed text of a fault.
use psi_base::Fault;
use ruleset_json::{Place, RulesCause, RulesFault};

/// The reason why a drop-in file is rejected.
#[derive(Clone, Copy, Debug, PartialEq, Eq)]
pub enum DropCause {
    /// The drop-in file can't be parsed. The cause is the same as for a rules file.
    Rules(RulesCause),
    /// A ruleset of the drop-in file has neither detectors nor actions.
    NoParts,
    /// No ruleset of the rules file has the name of this ruleset of the drop-in file.
    UnknownRule,
}

/// The first fault of a drop-in file.
#[derive(Clone, Copy, Debug, PartialEq, Eq)]
pub struct DropFault {
    /// The position of the fault in the drop-in file.
    pub place: Place,
    /// The reason for the rejection.
    pub what: DropCause,
}

impl From<RulesFault> for DropFault {
    ghost use Rattle.std.specs.Prelude.{◌≡◌};
    ghost use Rattle.dropin_rules.specs.Joined.{of_reading};

    ghost from_gives = { λ fault found. found ≡ of_reading fault };

    fn from(fault: RulesFault) -> Self {
        DropFault {
            place: fault.place,
            what: DropCause::Rules(fault.what),
        }
    }
}

impl From<DropFault> for Fault<DropFault> {
    ghost use Rattle.std.specs.Prelude.{◌≡◌};
    ghost use Rattle.psi_base.specs.declared.event.Fault.TheVariants as outcome;

    ghost from_gives = { λ fault e. e ≡ outcome.Refused fault };

    fn from(fault: DropFault) -> Self {
        Fault::Refused(fault)
    }
}

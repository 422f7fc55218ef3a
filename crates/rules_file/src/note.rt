//! Writes the messages for faults of a rules file or a drop-in file.
//!
//! The caller writes the line break after a message.
ghost use Rattle.std.specs.Prelude.{◌≡◌};
ghost use Rattle.outside.specs.Outside.{HasCause};
ghost use Rattle.outside.specs.Calls.{PutsAll};
ghost use Rattle.ruleset_json.specs.FaultText.{fault_text, placed_text, rules_cause_name};
ghost use Rattle.dropin_rules.specs.FaultText.{drop_cause_name, drop_fault_text};

use dropin_rules::{DropCause, DropFault};
use itoa::Buffer;
use outside::{Sink, WriteFailed, put_each};
use ruleset_json::{Place, RulesCause, RulesFault};

fn cause_name(cause: RulesCause) -> &'static [u8]
    ensures { result.now ≡ rules_cause_name cause }
{
    match cause {
        RulesCause::TooLong => b"TooLong",
        RulesCause::BadJson => b"BadJson",
        RulesCause::MissingKey => b"MissingKey",
        RulesCause::WrongKind => b"WrongKind",
        RulesCause::UnknownPlugin => b"UnknownPlugin",
        RulesCause::BadArg => b"BadArg",
        RulesCause::TooMany => b"TooMany",
    }
}

// Writes the message for a fault of a file: the word `file`, the position of the fault, a colon,
// and the name of the cause. The position consists of the indexes of the ruleset and of the group,
// item or action. If the fault concerns the whole file, the position is empty.
fn put_placed<K: Sink>(
    out: &mut K,
    file: &[u8],
    place: Place,
    cause: &[u8],
) -> Result<(), WriteFailed>
    ensures bytes { PutsAll (K.has out.old) (K.has out.new) result
        (placed_text file.now place cause.now) }
    ensures cause { HasCause (K.faults out.old) (K.faults out.new) result }
{
    let (mut first, mut second, mut third) = (Buffer::new(), Buffer::new(), Buffer::new());
    match place {
        Place::Whole => put_each(out, &[file, b": ".as_slice(), cause]),
        Place::Rule(rule) => put_each(
            out,
            &[
                file,
                b" ruleset ".as_slice(),
                first.format(rule).as_bytes(),
                b": ".as_slice(),
                cause,
            ],
        ),
        Place::Group(rule, group) => put_each(
            out,
            &[
                file,
                b" ruleset ".as_slice(),
                first.format(rule).as_bytes(),
                b" group ".as_slice(),
                second.format(group).as_bytes(),
                b": ".as_slice(),
                cause,
            ],
        ),
        Place::Detector(rule, group, item) => put_each(
            out,
            &[
                file,
                b" ruleset ".as_slice(),
                first.format(rule).as_bytes(),
                b" group ".as_slice(),
                second.format(group).as_bytes(),
                b" item ".as_slice(),
                third.format(item).as_bytes(),
                b": ".as_slice(),
                cause,
            ],
        ),
        Place::Action(rule, action) => put_each(
            out,
            &[
                file,
                b" ruleset ".as_slice(),
                first.format(rule).as_bytes(),
                b" action ".as_slice(),
                second.format(action).as_bytes(),
                b": ".as_slice(),
                cause,
            ],
        ),
    }
}

/// Writes the message for a fault of a rules file: the word `rules`, the position of the fault and
/// the cause. Doesn't allocate.
pub fn put_fault<K: Sink>(out: &mut K, fault: RulesFault) -> Result<(), WriteFailed>
    ensures bytes { PutsAll (K.has out.old) (K.has out.new) result (fault_text fault) }
    ensures cause { HasCause (K.faults out.old) (K.faults out.new) result }
{
    put_placed(out, b"rules", fault.place, cause_name(fault.what))
}

fn drop_cause_name(cause: DropCause) -> &'static [u8]
    ensures { result.now ≡ drop_cause_name cause }
{
    match cause {
        DropCause::Rules(cause) => cause_name(cause),
        DropCause::NoParts => b"NoParts",
        DropCause::UnknownRule => b"UnknownRule",
    }
}

/// Writes the message for a fault of a drop-in file: the word `drop-in`, the position of the fault
/// and the cause. Doesn't allocate.
pub fn put_drop_fault<K: Sink>(out: &mut K, fault: DropFault) -> Result<(), WriteFailed>
    ensures bytes { PutsAll (K.has out.old) (K.has out.new) result (drop_fault_text fault) }
    ensures cause { HasCause (K.faults out.old) (K.faults out.new) result }
{
    put_placed(out, b"drop-in", fault.place, drop_cause_name(fault.what))
}

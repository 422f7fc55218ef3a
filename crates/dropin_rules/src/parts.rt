//! Applies the rulesets of a drop-in file, which are called parts, to the rules of a rules file.
//!
//! The crate ruleset_json parses both files.
ghost use Rattle.std.specs.Prelude.{◌≡◌, ◌≢◌, ◌<◌, ◌^◌, length, position, Ok, Err, MatchResult};
ghost use Rattle.psi_base.specs.Gives.{Gives, out_of_memory};
ghost use Rattle.dropin_rules.specs.Joined.{is_named, parts_joined, part_joined};

use crate::fault::{DropCause, DropFault};
use psi_base::Fault;
use ruleset_json::{Part, Place, Rule, RuleList, Rules};

// Returns the index of the first ruleset with this name, or `None` if no ruleset has it.
fn first_named(rules: &[Rule], name: &[u8]) -> Option<usize>
    ensures { result ≡ position (is_named name.now) rules.now }
{
    rules.iter().position(|rule| rule.name.bytes() == name)
}

// Applies the part at index `number` of the drop-in file to the rulesets. If the part is rejected,
// the rulesets don't change.
#[tactic(auto, unfolding(crate::specs::Joined::part_joined))]
fn put_part(rules: &mut RuleList, number: u32, part: Part) -> Result<(), DropFault>
    ensures { MatchResult result
        (λ _. part_joined number part rules.old ≡ Ok rules.new)
        (λ fault. part_joined number part rules.old ≡ Err fault) }
{
    let place = Place::Rule(number);
    if part.groups.is_none() && part.actions.is_none() {
        return Err(DropFault {
            place,
            what: DropCause::NoParts,
        });
    }
    match first_named(rules.items(), part.name.bytes()) {
        Some(rule) => {
            rules.replace(rule as u32, part.groups, part.actions);
            Ok(())
        }
        None => Err(DropFault {
            place,
            what: DropCause::UnknownRule,
        }),
    }
}

/// Applies the parts (rulesets) of a drop-in file to the rules `base`, in order. A part replaces
/// the groups of detectors, the actions, or both, of the first ruleset with its name. Fails with
/// `NoParts` at the first part that has neither groups nor actions, and with `UnknownRule` at the
/// first part whose name no ruleset has. On failure, the rules and the parts are dropped. Doesn't
/// allocate, so `NoMemory` never occurs. Precondition: there are fewer than 2^32 parts.
#[tactic(auto, unfolding(crate::specs::Joined::parts_joined))]
pub fn join(base: Rules, parts: Vec<Part>) -> Result<Rules, Fault<DropFault>>
    requires { length parts.items < 2 ^ 32 }
    ensures exact { Gives result (parts_joined base parts.items) }
    ensures memory { result ≢ Err out_of_memory }
{
    let Rules { mut rules } = base;
    let mut number = 0;
    'parts: for part in parts {
        match put_part(&mut rules, number, part) {
            Ok(()) => {}
            Err(fault) => return Err(Fault::Refused(fault)),
        }
        number += 1;
    }
    Ok(Rules { rules })
}

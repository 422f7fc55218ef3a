//! Checks that JSON values have the expected kind and returns their contents, or a fault.
//!
//! This module is independent of the keys and the meaning of a rules file.
ghost use Rattle.std.specs.Prelude.{◌≤◌, map, length, IfOk};
ghost use Rattle.serde_json.specs.View.{view};
ghost use Rattle.ruleset_json.specs.Arguments.{or_fault};
ghost use Rattle.ruleset_json.specs.Rules.{data_of, object_at, member_at, text_at, list_at};
ghost use Rattle.ruleset_json.specs.Gives.{GivesBy, ReadsBy};
ghost use Rattle.ruleset_json.specs.declared.fault.Place.TheVariants as place;
ghost use Rattle.ruleset_json.specs.declared.fault.RulesCause.TheVariants as cause;

use crate::fault::{Place, RulesCause, RulesFault, refused};
use psi_base::Fault;
use serde_json::Value;
use std::alloc::{AllocError, Global};

/// Parses the bytes as JSON. Fails with `BadJson` if they aren't UTF-8 or aren't valid JSON.
pub fn value_of(alloc: Global, bytes: &[u8]) -> Result<Value, Fault<RulesFault>>
    ensures { GivesBy view result (or_fault place.Whole cause.BadJson (data_of bytes.now)) }
{
    match Value::from_slice(alloc, bytes) {
        Ok(value) => Ok(value),
        Err(error) => {
            if error.is_memory() {
                Err(AllocError.into())
            } else {
                Err(refused(Place::Whole, RulesCause::BadJson))
            }
        }
    }
}

/// Returns the value itself if it is a JSON object. Fails with `WrongKind` otherwise.
pub fn object<'v>(value: &'v Value, place: Place) -> Result<&'v Value, RulesFault>
    ensures { ReadsBy (λ v. view v.now) result (object_at place (view value.now)) }
{
    if value.is_object() {
        Ok(value)
    } else {
        Err(RulesFault {
            place,
            what: RulesCause::WrongKind,
        })
    }
}

/// Returns the member with this key of a JSON object. Fails with `MissingKey` if there is no such
/// member.
pub fn member<'v>(value: &'v Value, key: &str, place: Place) -> Result<&'v Value, RulesFault>
    ensures { ReadsBy (λ v. view v.now) result (member_at place key.now (view value.now)) }
{
    match value.get(key) {
        Some(found) => Ok(found),
        None => Err(RulesFault {
            place,
            what: RulesCause::MissingKey,
        }),
    }
}

/// Returns the contents of a JSON string. Fails with `WrongKind` for any other value.
pub fn text<'v>(value: &'v Value, place: Place) -> Result<&'v str, RulesFault>
    ensures { ReadsBy (λ s. s.now) result (text_at place (view value.now)) }
{
    match value.as_str() {
        Some(found) => Ok(found),
        None => Err(RulesFault {
            place,
            what: RulesCause::WrongKind,
        }),
    }
}

/// Returns the items of a JSON array. Fails with `WrongKind` for any other value, and with
/// `TooMany` for an array of more than `most` items.
#[tactic(auto, using(crate::proofs::Views::listed_view), unfolding(crate::specs::Rules::list_at))]
pub fn list<'v>(value: &'v Value, most: usize, place: Place) -> Result<&'v [Value], RulesFault>
    ensures read { ReadsBy (λ v. map view v.now) result (list_at place most (view value.now)) }
    ensures few { IfOk result (λ items. length items.now ≤ most) }
{
    match value.as_array() {
        Some(items) => {
            if items.len() > most {
                Err(RulesFault {
                    place,
                    what: RulesCause::TooMany,
                })
            } else {
                Ok(items.as_slice())
            }
        }
        None => Err(RulesFault {
            place,
            what: RulesCause::WrongKind,
        }),
    }
}

//! Parses rules files and drop-in files, in depth-first order.
//!
//! The modules `detector` and `action` parse the single plugins.
ghost use Rattle.std.specs.Prelude.{◌≡◌, ◌≤◌, ◌-◌, codes, drop, if◌then◌else◌, map, nat_lt, length, IfOk, Err};
ghost use Rattle.std.specs.List.{slice_get};
ghost use Rattle.serde_json.specs.Find.{get};
ghost use Rattle.serde_json.specs.View.{view};
ghost use Rattle.ruleset_json.specs.Arguments.{or_fault, refused_for};
ghost use Rattle.ruleset_json.specs.GroupRanges.{FitsGroup, FitsGroups};
ghost use Rattle.ruleset_json.specs.Ranges.{FitsDetectors, FitsActions, IsTime};
ghost use Rattle.ruleset_json.specs.RuleRanges.{FitsRule, FitsRules};
ghost use Rattle.ruleset_json.specs.Rules.{each, detector_in, action_in, group_at, delay_at, groups_at, actions_at, data_of, rule_at, rulesets_in, rules_of};
ghost use Rattle.ruleset_json.specs.Parts.{if_there, part_at, parts_of};
ghost use Rattle.psi_base.specs.Gives.{Gives, out_of_memory};
ghost use Rattle.ruleset_json.specs.Gives.{GivesBy, ReadsBy};
ghost use Rattle.ruleset_json.specs.declared.fault.Place.TheVariants as place;
ghost use Rattle.ruleset_json.specs.declared.fault.RulesCause.TheVariants as cause;

use crate::action::action;
use crate::arguments::{Arguments, LONGEST_S};
use crate::detector::detector;
use crate::fault::{Place, RulesCause, RulesFault, refused};
use crate::json::{list, member, object, text, value_of};
use crate::name::Key;
use crate::types::{ActionList, DetectorGroup, GroupList, Part, Rule, RuleList, Rules, SpecList};
use psi_base::{Fault, Text};
use serde_json::Value;
use std::alloc::Global;

/// The greatest length of a rules file (bytes).
const MOST_BYTES: usize = 1_048_576;

/// The greatest number of rulesets in a file.
const MOST_RULES: usize = 64;

/// The greatest number of groups in a ruleset, of actions in a ruleset, and of detectors in a
/// group.
const MOST_PARTS: usize = 16;

/// The default delay of a ruleset after a kill (s). oomd has the same default.
const DELAY_S: u32 = 15;

fn detectors(
    alloc: Global,
    rule: u32,
    group: u32,
    items: &[Value],
) -> Result<SpecList, Fault<RulesFault>>
    requires { length items.now ≤ 16 }
    ensures value { Gives result
        (each (λ k. detector_in (place.Detector rule group k)) 0 (map view items.now)) }
    ensures range { IfOk result (λ found. FitsDetectors found) }
{
    let mut found = Vec::new(alloc);
    'items: for index in 0..items.len() {
        let place = Place::Detector(rule, group, index as u32);
        let one = match detector(alloc, &items[index], place) {
            Ok(one) => one,
            Err(fault) => return Err(fault),
        };
        found.push(one)?;
    }
    Ok(SpecList::new(found))
}

// Parses the JSON values of the actions of the ruleset at index `rule`. `delay_s` is the ruleset's
// delay (s) after a kill.
fn actions(
    alloc: Global,
    rule: u32,
    delay_s: u32,
    items: &[Value],
) -> Result<ActionList, Fault<RulesFault>>
    requires few { length items.now ≤ 16 }
    requires delay { IsTime delay_s }
    ensures value { Gives result
        (each (λ k. action_in delay_s (place.Action rule k)) 0 (map view items.now)) }
    ensures range { IfOk result (λ found. FitsActions found) }
{
    let mut found = Vec::new(alloc);
    'items: for index in 0..items.len() {
        let place = Place::Action(rule, index as u32);
        let one = match action(alloc, &items[index], delay_s, place) {
            Ok(one) => one,
            Err(fault) => return Err(fault),
        };
        found.push(one)?;
    }
    Ok(ActionList::new(found))
}

// Returns the first item of a list. Fails with `MissingKey` if the list is empty.
fn first(items: &[Value], place: Place) -> Result<&Value, RulesFault>
    ensures { ReadsBy (λ v. view v.now) result
        (or_fault place cause.MissingKey (slice_get (map view items.now) 0)) }
{
    match items {
        [first, ..] => Ok(first),
        [] => Err(RulesFault {
            place,
            what: RulesCause::MissingKey,
        }),
    }
}

// Returns the items of a list after the first item.
fn rest(items: &[Value]) -> &[Value]
    ensures rest { map view result.now ≡ drop 1 (map view items.now) }
    ensures fewer { length result.now ≤ length items.now - 1 }
{
    match items {
        [_, rest @ ..] => rest,
        [] => items,
    }
}

// Parses a group of detectors: a JSON array with the group's name and then its detectors.
#[tactic(auto, unfolding(crate::specs::Rules::group_at))]
fn group(
    alloc: Global,
    rule: u32,
    index: u32,
    value: &Value,
) -> Result<DetectorGroup, Fault<RulesFault>>
    ensures value { Gives result (group_at rule index (view value.now)) }
    ensures range { IfOk result FitsGroup }
{
    let place = Place::Group(rule, index);
    let items = list(value, MOST_PARTS + 1, place)?;
    let name = text(first(items, place)?, place)?;
    let name = Text::make(alloc, name.as_bytes())?;
    let detectors = detectors(alloc, rule, index, rest(items))?;
    Ok(DetectorGroup { name, detectors })
}

fn groups(alloc: Global, rule: u32, items: &[Value]) -> Result<GroupList, Fault<RulesFault>>
    requires { length items.now ≤ 16 }
    ensures value { Gives result (each (group_at rule) 0 (map view items.now)) }
    ensures range { IfOk result (λ found. FitsGroups found) }
{
    let mut found = Vec::new(alloc);
    'items: for index in 0..items.len() {
        let one = match group(alloc, rule, index as u32, &items[index]) {
            Ok(one) => one,
            Err(fault) => return Err(fault),
        };
        found.push(one)?;
    }
    Ok(GroupList::new(found))
}

// Parses the groups of a ruleset, under its key `detectors`. Fails if the key is missing.
fn groups_in(alloc: Global, rule: u32, whole: &Value) -> Result<GroupList, Fault<RulesFault>>
    ensures value { Gives result (groups_at rule (view whole.now)) }
{
    let place = Place::Rule(rule);
    let items = list(member(whole, "detectors", place)?, MOST_PARTS, place)?;
    groups(alloc, rule, items)
}

// Parses the actions of a ruleset, under its key `actions`. `delay_s` is the ruleset's delay (s)
// after a kill. Fails if the key is missing.
fn actions_in(
    alloc: Global,
    rule: u32,
    delay_s: u32,
    whole: &Value,
) -> Result<ActionList, Fault<RulesFault>>
    requires { IsTime delay_s }
    ensures value { Gives result (actions_at rule delay_s (view whole.now)) }
{
    let place = Place::Rule(rule);
    let items = list(member(whole, "actions", place)?, MOST_PARTS, place)?;
    actions(alloc, rule, delay_s, items)
}

// Parses the delay (s) of a ruleset after a kill. Actions without their own delay use this delay.
fn delay(alloc: Global, whole: &Value, place: Place) -> Result<u32, Fault<RulesFault>>
    ensures value { Gives result (delay_at place (view whole.now)) }
    ensures range { IfOk result IsTime }
{
    Arguments::of(alloc, whole, place).number_or(Key::PostActionDelay, LONGEST_S, DELAY_S)
}

#[tactic(auto, unfolding(crate::specs::Rules::rule_at))]
fn rule(alloc: Global, index: u32, value: &Value) -> Result<Rule, Fault<RulesFault>>
    ensures value { Gives result (rule_at index (view value.now)) }
    ensures range { IfOk result FitsRule }
{
    let place = Place::Rule(index);
    let whole = object(value, place)?;
    let name = text(member(whole, "name", place)?, place)?;
    let name = Text::make(alloc, name.as_bytes())?;
    let delay_s = delay(alloc, whole, place)?;
    let groups = groups_in(alloc, index, whole)?;
    let actions = actions_in(alloc, index, delay_s, whole)?;
    Ok(Rule {
        name,
        groups,
        actions,
    })
}

// Parses the groups of a drop-in ruleset. Returns `None` if the key `detectors` is missing.
fn groups_if_there(
    alloc: Global,
    rule: u32,
    whole: &Value,
) -> Result<Option<GroupList>, Fault<RulesFault>>
    ensures value { Gives result
        (if_there (get (codes "detectors") (view whole.now)) (groups_at rule (view whole.now))) }
{
    match whole.get("detectors") {
        Some(_) => Ok(Some(groups_in(alloc, rule, whole)?)),
        None => Ok(None),
    }
}

// Parses the actions of a drop-in ruleset. Returns `None` if the key `actions` is missing.
// `delay_s` is the ruleset's delay (s) after a kill.
fn actions_if_there(
    alloc: Global,
    rule: u32,
    delay_s: u32,
    whole: &Value,
) -> Result<Option<ActionList>, Fault<RulesFault>>
    requires { IsTime delay_s }
    ensures value { Gives result
        (if_there (get (codes "actions") (view whole.now))
        (actions_at rule delay_s (view whole.now))) }
{
    match whole.get("actions") {
        Some(_) => Ok(Some(actions_in(alloc, rule, delay_s, whole)?)),
        None => Ok(None),
    }
}

// Parses a ruleset of a drop-in file, which may lack its detectors or its actions.
#[tactic(auto, unfolding(crate::specs::Parts::part_at))]
fn part(alloc: Global, index: u32, value: &Value) -> Result<Part, Fault<RulesFault>>
    ensures value { Gives result (part_at index (view value.now)) }
{
    let place = Place::Rule(index);
    let whole = object(value, place)?;
    let name = text(member(whole, "name", place)?, place)?;
    let name = Text::make(alloc, name.as_bytes())?;
    let delay_s = delay(alloc, whole, place)?;
    let groups = groups_if_there(alloc, index, whole)?;
    let actions = actions_if_there(alloc, index, delay_s, whole)?;
    Ok(Part {
        name,
        groups,
        actions,
    })
}

fn rules(alloc: Global, items: &[Value]) -> Result<RuleList, Fault<RulesFault>>
    requires { length items.now ≤ 64 }
    ensures value { Gives result (each rule_at 0 (map view items.now)) }
    ensures range { IfOk result (λ found. FitsRules found) }
{
    let mut found = Vec::new(alloc);
    'items: for index in 0..items.len() {
        let one = match rule(alloc, index as u32, &items[index]) {
            Ok(one) => one,
            Err(fault) => return Err(fault),
        };
        found.push(one)?;
    }
    Ok(RuleList::new(found))
}

fn parts(alloc: Global, items: &[Value]) -> Result<Vec<Part>, Fault<RulesFault>>
    requires { length items.now ≤ 64 }
    ensures value { GivesBy (λ found. found.items) result (each part_at 0 (map view items.now)) }
    ensures few { IfOk result (λ found. length found.items ≤ 64) }
{
    let mut found = Vec::new(alloc);
    'items: for index in 0..items.len() {
        let one = match part(alloc, index as u32, &items[index]) {
            Ok(one) => one,
            Err(fault) => return Err(fault),
        };
        found.push(one)?;
    }
    Ok(found)
}

// Returns the JSON values of the rulesets in a file. Fails if there are more than 64.
#[tactic(auto, unfolding(crate::specs::Rules::rulesets_in))]
fn rulesets(value: &Value) -> Result<&[Value], RulesFault>
    ensures read { ReadsBy (λ items. map view items.now) result (rulesets_in (view value.now)) }
    ensures few { IfOk result (λ items. length items.now ≤ 64) }
{
    let whole = object(value, Place::Whole)?;
    list(
        member(whole, "rulesets", Place::Whole)?,
        MOST_RULES,
        Place::Whole,
    )
}

// Parses the bytes of a file as JSON. Fails with `TooLong` if the file has more than 1,048,576
// bytes.
fn value_in(alloc: Global, bytes: &[u8]) -> Result<Value, Fault<RulesFault>>
    ensures value { GivesBy view result (if nat_lt 1048576 (length bytes.now)
        then refused_for place.Whole cause.TooLong
        else or_fault place.Whole cause.BadJson (data_of bytes.now)) }
    ensures memory { result ≡ Err out_of_memory → length bytes.now ≤ 1048576 }
{
    if bytes.len() > MOST_BYTES {
        return Err(refused(Place::Whole, RulesCause::TooLong));
    }
    value_of(alloc, bytes)
}

/// Parses a rules file. Returns its rules with every default filled in, or its first fault in
/// depth-first order.
///
/// The order is: the file, its list `rulesets`, and for each ruleset `name`, `post_action_delay`,
/// `detectors` and `actions`. A list is checked before its items. For a plugin, its name is checked
/// first, then its `args`, then each argument in the order of the plugin's definition. The accepted
/// JSON is what `serde_json` accepts: at most 127 nested lists and objects, and the last value of a
/// repeated key counts. Fails with `NoMemory` only if the file isn't too long.
#[tactic(auto, unfolding(crate::specs::Rules::rules_of))]
pub fn read(alloc: Global, bytes: &[u8]) -> Result<Rules, Fault<RulesFault>>
    ensures exact { Gives result (rules_of bytes.now) }
    ensures memory { result ≡ Err out_of_memory → length bytes.now ≤ 1048576 }
{
    let value = value_in(alloc, bytes)?;
    let rules = rules(alloc, rulesets(&value)?)?;
    Ok(Rules { rules })
}

/// Parses a drop-in file. Returns its rulesets (called parts), at most 64, or its first fault. A
/// drop-in file is parsed like a rules file ([`read`]), but a ruleset may lack `detectors` or
/// `actions`. An action without `post_action_delay` has the delay of its ruleset, which is 15 s by
/// default.
#[tactic(auto, unfolding(crate::specs::Parts::parts_of))]
pub fn read_parts(alloc: Global, bytes: &[u8]) -> Result<Vec<Part>, Fault<RulesFault>>
    ensures exact { GivesBy (λ parts. parts.items) result (parts_of bytes.now) }
    ensures few { IfOk result (λ parts. length parts.items ≤ 64) }
    ensures memory { result ≡ Err out_of_memory → length bytes.now ≤ 1048576 }
{
    let value = value_in(alloc, bytes)?;
    parts(alloc, rulesets(&value)?)
}

//! Writes rules in the format of a rules file.
//!
//! The rules are first converted to a JSON value, and then that value is written.
ghost use Rattle.std.specs.Prelude.{◌≡◌, ◌++◌, ◌≤◌, All, IfOk, OnOk, OnErr, length, map, Ok};
ghost use Rattle.serde_json.specs.View.{view};
ghost use Rattle.ruleset_json.specs.GroupRanges.{FitsGroup, FitsGroups};
ghost use Rattle.ruleset_json.specs.RuleRanges.{FitsRule, FitsRules};
ghost use Rattle.ruleset_json.specs.Rules.{rules_of};
ghost use Rattle.dropin_rules.specs.HasPatterns.{ActionHasPatterns, GroupHasPatterns, RuleHasPatterns, RulesHavePatterns};
ghost use Rattle.dropin_rules.specs.RulesText.{action_data, group_data, rule_data, rules_data, rules_text, list_data};

use crate::action::action;
use crate::argument::text_value;
use crate::detector::detector;
use psi_base::NoMemory;
use ruleset_json::{Action, DetectorGroup, Rule, Rules};
use serde_json::{Map, Value};
use std::alloc::Global;

// Returns the JSON array of a group of detectors: its name, followed by its detectors.
fn group_value(alloc: Global, group: &DetectorGroup) -> Result<Value, NoMemory>
    requires { FitsGroup group.now }
    ensures value { IfOk result (λ v. view v ≡ group_data group.now) }
    ensures formed { IfOk result (λ _. GroupHasPatterns group.now) }
{
    let detectors = group.detectors.items();
    let mut items = Vec::new(alloc);
    items.push(text_value(alloc, group.name.bytes())?)?;
    'detectors: for index in 0..detectors.len() {
        let one = detector(alloc, &detectors[index])?;
        items.push(one)?;
    }
    Ok(Value::Array(items))
}

// Returns the JSON array of a ruleset's groups of detectors.
fn groups_value(alloc: Global, groups: &[DetectorGroup]) -> Result<Value, NoMemory>
    requires { FitsGroups groups.now }
    ensures value { IfOk result (λ v. view v ≡ list_data (map group_data groups.now)) }
    ensures formed { IfOk result (λ _. All GroupHasPatterns groups.now) }
{
    let mut items = Vec::new(alloc);
    'groups: for index in 0..groups.len() {
        let one = group_value(alloc, &groups[index])?;
        items.push(one)?;
    }
    Ok(Value::Array(items))
}

// Returns the JSON array of a ruleset's actions.
fn actions_value(alloc: Global, actions: &[Action]) -> Result<Value, NoMemory>
    ensures value { IfOk result (λ v. view v ≡ list_data (map action_data actions.now)) }
    ensures formed { IfOk result (λ _. All ActionHasPatterns actions.now) }
{
    let mut items = Vec::new(alloc);
    'actions: for index in 0..actions.len() {
        let one = action(alloc, &actions[index])?;
        items.push(one)?;
    }
    Ok(Value::Array(items))
}

// Returns the JSON object of a ruleset.
#[tactic(auto, using(crate::proofs::Sorted::rule))]
fn rule_value(alloc: Global, rule: &Rule) -> Result<Value, NoMemory>
    requires { FitsRule rule.now }
    ensures value { IfOk result (λ v. view v ≡ rule_data rule.now) }
    ensures formed { IfOk result (λ _. RuleHasPatterns rule.now) }
{
    let actions = actions_value(alloc, rule.actions.items())?;
    let groups = groups_value(alloc, rule.groups.items())?;
    let name = text_value(alloc, rule.name.bytes())?;
    let mut members = Map::new(alloc);
    serde_json::put(&mut members, alloc, "actions", actions)?;
    serde_json::put(&mut members, alloc, "detectors", groups)?;
    serde_json::put(&mut members, alloc, "name", name)?;
    Ok(Value::Object(members))
}

// Returns the JSON array of all rulesets.
fn rulesets_value(alloc: Global, rules: &[Rule]) -> Result<Value, NoMemory>
    requires { FitsRules rules.now }
    ensures value { IfOk result (λ v. view v ≡ list_data (map rule_data rules.now)) }
    ensures formed { IfOk result (λ _. RulesHavePatterns rules.now) }
{
    let mut items = Vec::new(alloc);
    'rules: for index in 0..rules.len() {
        let one = rule_value(alloc, &rules[index])?;
        items.push(one)?;
    }
    Ok(Value::Array(items))
}

// Returns the JSON object of a whole rules file.
fn rules_value(alloc: Global, rules: &[Rule]) -> Result<Value, NoMemory>
    requires { FitsRules rules.now }
    ensures value { IfOk result (λ v. view v ≡ rules_data rules.now) }
    ensures formed { IfOk result (λ _. RulesHavePatterns rules.now) }
{
    let rulesets = rulesets_value(alloc, rules)?;
    let mut members = Map::new(alloc);
    serde_json::put(&mut members, alloc, "rulesets", rulesets)?;
    Ok(Value::Object(members))
}

/// Appends the text of the rules to `to`: one line of compact JSON with every default filled in,
/// without a newline. Parsing the line as a rules file returns the same rules. If memory runs out,
/// `to` doesn't change.
pub fn write_rules(rules: &Rules, to: &mut Vec<u8>) -> Result<(), NoMemory>
    ensures text { OnOk result (to.new.items ≡ to.old.items ++ rules_text rules.now.rules) }
    ensures unchanged { OnErr result (to.new.items ≡ to.old.items) }
    ensures again { OnOk result (length (rules_text rules.now.rules) ≤ 1048576
        → rules_of (rules_text rules.now.rules) ≡ Ok rules.now) }
{
    let alloc = *to.allocator();
    let text = rules_value(alloc, rules.rules.items())?.to_vec(alloc)?;
    to.extend_from_slice(&text)?;
    Ok(())
}

//! Parses the arguments of a plugin (a detector or an action). Each argument is looked up by its
//! key and parsed according to its kind.
//!
//! The modules `action` and `detector` list the arguments of each plugin; the module `form` defines
//! the syntax of the values.
ghost use Rattle.std.specs.Prelude.{◌≡◌, ◌<◌, ◌≤◌, Option, Some, None, option_map, option_and_then, string_bytes, IfOk, codes};
ghost use Rattle.serde_json.specs.View.{view};
ghost use Rattle.serde_json.specs.Find as json;
ghost use Rattle.ruleset_json.specs.Arguments as kind;
ghost use Rattle.ruleset_json.specs.Arguments.{argument_text, argument_at, value_at, or_fault, pattern_cause, required, optional};
ghost use Rattle.ruleset_json.specs.Names.{key_word};
ghost use Rattle.ruleset_json.specs.Rules.{arguments_in};
ghost use Rattle.ruleset_json.specs.Ranges.{IsRatio, IsSize, IsStallable};
ghost use Rattle.psi_base.specs.Gives.{Gives};
ghost use Rattle.ruleset_json.specs.Gives.{GivesBy, ReadsBy};
ghost use Rattle.ruleset_json.specs.declared.fault.RulesCause.TheVariants as cause;

use crate::fault::{Place, RulesCause, RulesFault, refused};
use crate::form;
use crate::json::object;
use crate::name::Key;
use crate::types::Size;
use path_match::{PatternFault, Patterns};
use psi_base::{Fault, NoMemory, Res};
use serde_json::Value;
use std::alloc::Global;

/// The greatest percentage that an argument may have.
pub const PERCENT: u32 = 100;

/// The longest time (s) that an argument may have.
pub const LONGEST_S: u32 = 1_000_000;

// Returns the text of an argument: the contents of a string, or a spelled-out natural number or
// Boolean. Returns `None` for any other JSON value.
fn text_in(alloc: Global, value: &Value) -> Result<Option<String>, NoMemory>
    ensures { IfOk result (λ text.
        option_map string_bytes text ≡ argument_text (view value.now)) }
{
    if let Some(text) = value.as_str() {
        return Ok(Some(String::from_str(alloc, text)?));
    }
    if let Some(number) = value.as_u64() {
        return Ok(Some(format!(in alloc; "{number}")?));
    }
    match value.as_bool() {
        Some(true) => Ok(Some(String::from_str(alloc, "true")?)),
        Some(false) => Ok(Some(String::from_str(alloc, "false")?)),
        None => Ok(None),
    }
}

// Returns the text of an argument, which is a JSON string, natural number or Boolean. Fails with
// `WrongKind` for any other JSON value.
fn text_of(alloc: Global, value: &Value, place: Place) -> Result<String, Fault<RulesFault>>
    ensures { GivesBy string_bytes result
        (or_fault place cause.WrongKind (argument_text (view value.now))) }
{
    match text_in(alloc, value)? {
        Some(text) => Ok(text),
        None => Err(refused(place, RulesCause::WrongKind)),
    }
}

fn cause_of(fault: PatternFault) -> RulesCause
    ensures { result ≡ pattern_cause fault }
{
    match fault {
        PatternFault::BadPattern => RulesCause::BadArg,
        PatternFault::TooMany => RulesCause::TooMany,
    }
}

#[tactic(auto, unfolding(crate::specs::Arguments::value_at, crate::specs::Arguments::argument_of))]
fn patterns(alloc: Global, value: &Value, place: Place) -> Result<Patterns, Fault<RulesFault>>
    ensures { Gives result (value_at place kind.patterns (view value.now)) }
{
    let text = text_of(alloc, value, place)?;
    match Patterns::read(alloc, text.as_str()) {
        Ok(patterns) => Ok(patterns),
        Err(Fault::Refused(fault)) => Err(refused(place, cause_of(fault))),
        Err(Fault::NoMemory(none)) => Err(Fault::NoMemory(none)),
    }
}

#[tactic(auto, unfolding(crate::specs::Arguments::value_at, crate::specs::Arguments::argument_of))]
fn resource(alloc: Global, value: &Value, place: Place) -> Result<Res, Fault<RulesFault>>
    ensures value { Gives result (value_at place kind.resource (view value.now)) }
    ensures range { IfOk result IsStallable }
{
    let text = text_of(alloc, value, place)?;
    match form::resource(text.as_bytes()) {
        Some(resource) => Ok(resource),
        None => Err(refused(place, RulesCause::BadArg)),
    }
}

#[tactic(auto, unfolding(crate::specs::Arguments::value_at, crate::specs::Arguments::argument_of))]
fn number(alloc: Global, value: &Value, most: u32, place: Place) -> Result<u32, Fault<RulesFault>>
    ensures value { Gives result (value_at place (kind.number most) (view value.now)) }
    ensures range { IfOk result (λ n. n ≤ most) }
{
    let text = text_of(alloc, value, place)?;
    match form::number(text.as_bytes(), most) {
        Some(number) => Ok(number),
        None => Err(refused(place, RulesCause::BadArg)),
    }
}

#[tactic(auto, unfolding(crate::specs::Arguments::value_at, crate::specs::Arguments::argument_of))]
fn ratio(alloc: Global, value: &Value, place: Place) -> Result<u32, Fault<RulesFault>>
    ensures value { Gives result (value_at place kind.ratio (view value.now)) }
    ensures range { IfOk result IsRatio }
{
    let text = text_of(alloc, value, place)?;
    match form::ratio(text.as_bytes()) {
        Some(ratio) => Ok(ratio),
        None => Err(refused(place, RulesCause::BadArg)),
    }
}

#[tactic(auto, unfolding(crate::specs::Arguments::value_at, crate::specs::Arguments::argument_of))]
fn size(alloc: Global, value: &Value, place: Place) -> Result<Size, Fault<RulesFault>>
    ensures value { Gives result (value_at place kind.size (view value.now)) }
    ensures range { IfOk result IsSize }
{
    let text = text_of(alloc, value, place)?;
    match form::size(text.as_bytes()) {
        Some(size) => Ok(size),
        None => Err(refused(place, RulesCause::BadArg)),
    }
}

#[tactic(auto, unfolding(crate::specs::Arguments::value_at, crate::specs::Arguments::argument_of))]
fn truth(alloc: Global, value: &Value, place: Place) -> Result<bool, Fault<RulesFault>>
    ensures { Gives result (value_at place kind.truth (view value.now)) }
{
    let text = text_of(alloc, value, place)?;
    match form::truth(text.as_bytes()) {
        Some(truth) => Ok(truth),
        None => Err(refused(place, RulesCause::BadArg)),
    }
}

/// The arguments of a plugin object in the JSON, and the place in the file that their faults
/// report.
#[derive(Drop)]
pub struct Arguments<'v> {
    alloc: Global,
    /// The JSON object with the arguments, or `None` if the plugin has no `args`.
    found: Option<&'v Value>,
    place: Place,
}

impl<'v> Arguments<'v> {
    /// Returns the members of a JSON object as arguments. Faults report `place`.
    pub fn of(alloc: Global, object: &'v Value, place: Place) -> Self
        ensures place { result.place ≡ place }
        ensures found { option_map (λ v. view v.now) result.found ≡ Some (view object.now) }
    {
        Arguments {
            alloc,
            found: Some(object),
            place,
        }
    }

    /// Returns the arguments of a plugin object: the object under its key `args`, or no arguments
    /// if that key is missing. Fails with `WrongKind` if `args` isn't an object.
    pub fn of_plugin(alloc: Global, plugin: &'v Value, place: Place) -> Result<Self, RulesFault>
        ensures found { ReadsBy (λ arguments. option_map (λ v. view v.now) arguments.found) result
            (arguments_in place (json.get (codes "args") (view plugin.now))) }
        ensures place { IfOk result (λ arguments. arguments.place ≡ place) }
    {
        let found = match plugin.get("args") {
            Some(value) => Some(object(value, place)?),
            None => None,
        };
        Ok(Arguments {
            alloc,
            found,
            place,
        })
    }

    fn get(&self, key: Key) -> Option<&'v Value>
        ensures { option_map (λ v. view v.now) result
            ≡ option_and_then (json.get (key_word key))
            (option_map (λ v. view v.now) self.now.found) }
    {
        match self.found {
            Some(object) => object.get(key.text()),
            None => None,
        }
    }

    fn needed(&self, key: Key) -> Result<&'v Value, RulesFault>
        ensures { ReadsBy (λ v. view v.now) result
            (or_fault self.now.place cause.MissingKey
            (option_and_then (json.get (key_word key))
            (option_map (λ v. view v.now) self.now.found))) }
    {
        match self.get(key) {
            Some(value) => Ok(value),
            None => Err(RulesFault {
                place: self.place,
                what: RulesCause::MissingKey,
            }),
        }
    }

    /// Parses the required argument `key` as a list of path patterns.
    #[tactic(auto, unfolding(crate::specs::Arguments::argument_at))]
    pub fn patterns(&self, key: Key) -> Result<Patterns, Fault<RulesFault>>
        ensures { Gives result
            (argument_at self.now.place (required key kind.patterns)
            (option_map (λ v. view v.now) self.now.found)) }
    {
        patterns(self.alloc, self.needed(key)?, self.place)
    }

    /// Parses the required argument `key` as a resource, IO or memory.
    #[tactic(auto, unfolding(crate::specs::Arguments::argument_at))]
    pub fn resource(&self, key: Key) -> Result<Res, Fault<RulesFault>>
        ensures value { Gives result
            (argument_at self.now.place (required key kind.resource)
            (option_map (λ v. view v.now) self.now.found)) }
        ensures range { IfOk result IsStallable }
    {
        resource(self.alloc, self.needed(key)?, self.place)
    }

    /// Parses the required argument `key` as a natural number of at most `most`.
    #[tactic(auto, unfolding(crate::specs::Arguments::argument_at))]
    pub fn number(&self, key: Key, most: u32) -> Result<u32, Fault<RulesFault>>
        ensures value { Gives result
            (argument_at self.now.place (required key (kind.number most))
            (option_map (λ v. view v.now) self.now.found)) }
        ensures range { IfOk result (λ n. n ≤ most) }
    {
        number(self.alloc, self.needed(key)?, most, self.place)
    }

    /// Parses the required argument `key` as a size in bytes or percent.
    #[tactic(auto, unfolding(crate::specs::Arguments::argument_at))]
    pub fn size(&self, key: Key) -> Result<Size, Fault<RulesFault>>
        ensures value { Gives result
            (argument_at self.now.place (required key kind.size)
            (option_map (λ v. view v.now) self.now.found)) }
        ensures range { IfOk result IsSize }
    {
        size(self.alloc, self.needed(key)?, self.place)
    }

    /// Parses the optional argument `key` as a natural number of at most `most`. Returns `default`
    /// if the argument is missing.
    #[tactic(auto, unfolding(crate::specs::Arguments::argument_at))]
    pub fn number_or(&self, key: Key, most: u32, default: u32) -> Result<u32, Fault<RulesFault>>
        requires { default ≤ most }
        ensures value { Gives result
            (argument_at self.now.place (optional key (kind.number most) default)
            (option_map (λ v. view v.now) self.now.found)) }
        ensures range { IfOk result (λ n. n ≤ most) }
    {
        match self.get(key) {
            Some(value) => number(self.alloc, value, most, self.place),
            None => Ok(default),
        }
    }

    /// Parses the optional argument `key` as a ratio in thousandths. Returns `default` if the
    /// argument is missing.
    #[tactic(auto, unfolding(crate::specs::Arguments::argument_at))]
    pub fn ratio_or(&self, key: Key, default: u32) -> Result<u32, Fault<RulesFault>>
        requires { IsRatio default }
        ensures value { Gives result
            (argument_at self.now.place (optional key kind.ratio default)
            (option_map (λ v. view v.now) self.now.found)) }
        ensures range { IfOk result IsRatio }
    {
        match self.get(key) {
            Some(value) => ratio(self.alloc, value, self.place),
            None => Ok(default),
        }
    }

    /// Parses the optional argument `key` as a size in bytes or percent. Returns `default` if the
    /// argument is missing.
    #[tactic(auto, unfolding(crate::specs::Arguments::argument_at))]
    pub fn size_or(&self, key: Key, default: Size) -> Result<Size, Fault<RulesFault>>
        requires { IsSize default }
        ensures value { Gives result
            (argument_at self.now.place (optional key kind.size default)
            (option_map (λ v. view v.now) self.now.found)) }
        ensures range { IfOk result IsSize }
    {
        match self.get(key) {
            Some(value) => size(self.alloc, value, self.place),
            None => Ok(default),
        }
    }

    /// Parses the optional argument `key` as a Boolean. Returns `default` if the argument is
    /// missing.
    #[tactic(auto, unfolding(crate::specs::Arguments::argument_at))]
    pub fn truth_or(&self, key: Key, default: bool) -> Result<bool, Fault<RulesFault>>
        ensures { Gives result
            (argument_at self.now.place (optional key kind.truth default)
            (option_map (λ v. view v.now) self.now.found)) }
    {
        match self.get(key) {
            Some(value) => truth(self.alloc, value, self.place),
            None => Ok(default),
        }
    }
}

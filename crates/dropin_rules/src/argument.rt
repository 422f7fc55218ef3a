//! Builds the JSON object with the arguments of a plugin. Each argument is a string under the
//! argument's key.
//!
//! The modules `action` and `detector` list the arguments of each plugin.
ghost use Rattle.std.specs.Prelude.{◌≡◌, codes, decimal, IfOk, OnOk, IsUtf8};
ghost use Rattle.psi_spec.specs.Fields as fields;
ghost use Rattle.path_match.specs.Match.{patterns_text};
ghost use Rattle.path_match.specs.Answers.{ArePatterns};
ghost use Rattle.serde_json.specs.Data.{object, put as with_member, member, no_members, string};
ghost use Rattle.serde_json.specs.View.{members_view, view};
ghost use Rattle.ruleset_json.specs.Arguments.{truth_text};
ghost use Rattle.ruleset_json.specs.Names.{key_word};
ghost use Rattle.dropin_rules.specs.RulesText.{ratio_text, size_text};

use path_match::Patterns;
use psi_base::{NoMemory, Res};
use ruleset_json::{Key, Size};
use serde_json::{Map, Value};
use std::alloc::Global;

/// Returns the bytes as a JSON string. Precondition: the bytes are UTF-8.
pub fn text_value(alloc: Global, bytes: &[u8]) -> Result<Value, NoMemory>
    requires { IsUtf8 bytes.now }
    ensures { IfOk result (λ v. view v ≡ string bytes.now) }
{
    match str::from_utf8(bytes) {
        Ok(text) => Ok(Value::try_from_str(alloc, text)?),
        Err(_) => unreachable!(),
    }
}

fn patterns_value(alloc: Global, patterns: &Patterns) -> Result<Value, NoMemory>
    ensures value { IfOk result (λ v. view v ≡ string (patterns_text patterns.now)) }
    ensures formed { ArePatterns patterns.now }
{
    let mut text = Vec::new(alloc);
    patterns.write(&mut text)?;
    text_value(alloc, &text)
}

fn truth_word(truth: bool) -> &'static str
    ensures { result.now ≡ truth_text truth }
{
    if truth { "true" } else { "false" }
}

// Converts a ratio in thousandths to a JSON string: a decimal number with three decimals.
fn ratio_value(alloc: Global, ratio: u32) -> Result<Value, NoMemory>
    ensures { IfOk result (λ v. view v ≡ string (ratio_text ratio)) }
{
    let text = format!(in alloc;
        "{}.{}{}{}",
        ratio / 1000,
        ratio / 100 % 10,
        ratio / 10 % 10,
        ratio % 10
    )?;
    Ok(Value::String(text))
}

fn size_value(alloc: Global, size: Size) -> Result<Value, NoMemory>
    ensures { IfOk result (λ v. view v ≡ string (size_text size)) }
{
    match size {
        Size::Bytes(bytes) => Ok(Value::String(format!(in alloc; "{bytes}")?)),
        Size::Percent(percent) => Ok(Value::String(format!(in alloc; "{percent}%")?)),
    }
}

/// The JSON object of a plugin's arguments, while it is being built.
#[derive(Drop)]
pub struct Arguments {
    alloc: Global,
    members: Map<String, Value>,
}

impl Arguments {
    /// Returns an object without arguments.
    pub fn new(alloc: Global) -> Arguments
        ensures { members_view result.members.entries ≡ no_members }
    {
        Arguments {
            alloc,
            members: Map::new(alloc),
        }
    }

    // Adds an argument with this key and JSON value.
    fn put(&mut self, key: Key, value: Value) -> Result<(), NoMemory>
        ensures { OnOk result (members_view self.new.members.entries
            ≡ with_member (key_word key) (view value) (members_view self.old.members.entries)) }
    {
        Ok(serde_json::put(&mut self.members, self.alloc, key.text(), value)?)
    }

    /// Adds an argument whose value is a list of path patterns.
    pub fn patterns(&mut self, key: Key, patterns: &Patterns) -> Result<(), NoMemory>
        ensures value { OnOk result (members_view self.new.members.entries
            ≡ with_member (key_word key) (string (patterns_text patterns.now))
            (members_view self.old.members.entries)) }
        ensures formed { ArePatterns patterns.now }
    {
        let value = patterns_value(self.alloc, patterns)?;
        self.put(key, value)
    }

    /// Adds an argument whose value is a resource.
    pub fn resource(&mut self, key: Key, resource: Res) -> Result<(), NoMemory>
        ensures { OnOk result (members_view self.new.members.entries
            ≡ with_member (key_word key) (string (fields.resource_word resource))
            (members_view self.old.members.entries)) }
    {
        let value = Value::try_from_str(self.alloc, resource.word())?;
        self.put(key, value)
    }

    /// Adds an argument whose value is a number.
    pub fn number(&mut self, key: Key, number: u32) -> Result<(), NoMemory>
        ensures { OnOk result (members_view self.new.members.entries
            ≡ with_member (key_word key) (string (decimal number))
            (members_view self.old.members.entries)) }
    {
        let text = format!(in self.alloc; "{number}")?;
        self.put(key, Value::String(text))
    }

    /// Adds an argument whose value is a ratio. `ratio` is in thousandths.
    pub fn ratio(&mut self, key: Key, ratio: u32) -> Result<(), NoMemory>
        ensures { OnOk result (members_view self.new.members.entries
            ≡ with_member (key_word key) (string (ratio_text ratio))
            (members_view self.old.members.entries)) }
    {
        let value = ratio_value(self.alloc, ratio)?;
        self.put(key, value)
    }

    /// Adds an argument whose value is a size in bytes or percent.
    pub fn size(&mut self, key: Key, size: Size) -> Result<(), NoMemory>
        ensures { OnOk result (members_view self.new.members.entries
            ≡ with_member (key_word key) (string (size_text size))
            (members_view self.old.members.entries)) }
    {
        let value = size_value(self.alloc, size)?;
        self.put(key, value)
    }

    /// Adds an argument whose value is a Boolean.
    pub fn truth(&mut self, key: Key, truth: bool) -> Result<(), NoMemory>
        ensures { OnOk result (members_view self.new.members.entries
            ≡ with_member (key_word key) (string (truth_text truth))
            (members_view self.old.members.entries)) }
    {
        let value = Value::try_from_str(self.alloc, truth_word(truth))?;
        self.put(key, value)
    }

    /// Returns the plugin object with this name and the arguments added so far.
    pub fn plugin(self, name: &str) -> Result<Value, NoMemory>
        ensures { IfOk result (λ v. view v ≡ object
            (member (codes "args") (object (members_view self.members.entries))
            (member (codes "name") (string name.now) no_members))) }
    {
        let name = Value::try_from_str(self.alloc, name)?;
        let mut plugin = Map::new(self.alloc);
        serde_json::put(&mut plugin, self.alloc, "args", Value::Object(self.members))?;
        serde_json::put(&mut plugin, self.alloc, "name", name)?;
        Ok(Value::Object(plugin))
    }
}

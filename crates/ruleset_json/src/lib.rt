//! Parses rules files in the format of oomd, a userspace killer of control groups. The rules say
//! which groups to watch and which groups to kill.
//!
//! [`read`] turns any bytes into rules with every default filled in, or into the first fault with
//! its place and cause. [`read_parts`] parses drop-in files, in which a ruleset may lack its
//! detectors or its actions.
//!
//! A plugin is a detector or an action. Each plugin has one definition in `specs/Plugins.antt` with
//! its arguments, one variant of [`DetectorSpec`] or [`Action`], and one parsing function. The
//! crate kill_spec defines the meaning of the rules.
#![tactic(auto)]

mod action;
mod arguments;
mod copies;
mod detector;
mod fault;
mod file;
mod form;
mod json;
mod laws;
mod name;
mod types;

pub use fault::{Place, RulesCause, RulesFault};
pub use file::{read, read_parts};
pub use laws::{law_first_faults, law_lists_are_read};
pub use name::{ActionName, DetectorName, Key};
pub use types::{
    Action, ActionList, After, DetectorGroup, DetectorSpec, GroupList, Part, Rule, RuleList, Rules,
    Size, SpecList,
};

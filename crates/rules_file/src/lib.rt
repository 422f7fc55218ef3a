//! Reads the rules that a command needs, and runs the command `rules`, which prints them. Input
//! files come from a shelf, the trait for access to files.
//!
//! [`read_rules`] reads the files that the options of a replay name. [`read_joined`] reads a rules
//! file and applies a drop-in file. [`put_fault`] and [`put_drop_fault`] write the message for a
//! rejected file.
//!
//! This crate doesn't parse: `ruleset_json` and `dropin_rules` do.
#![tactic(auto)]

mod name;
mod note;
mod printed;
mod rules;

pub use name::name_of;
pub use note::{put_drop_fault, put_fault};
pub use printed::run_rules;
pub use rules::{read_joined, read_rules};

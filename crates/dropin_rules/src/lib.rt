//! Applies drop-in files to the rules of a rules file, and writes rules as text.
//!
//! [`join`] applies the rulesets of a drop-in file to the rules of a rules file. [`write_rules`]
//! writes rules in the format of a rules file. This crate parses no files; ruleset_json does.
#![tactic(auto)]

mod action;
mod argument;
mod detector;
mod fault;
mod laws;
mod parts;
mod text;

pub use fault::{DropCause, DropFault};
pub use laws::law_text_is_read_again;
pub use parts::join;
pub use text::write_rules;

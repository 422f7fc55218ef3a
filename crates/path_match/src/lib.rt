//! Patterns of control group paths, which occur in rules files: this crate parses them, matches
//! them against paths, and writes them.
//!
//! It doesn't know which groups exist, or how a caller uses a match.
#![tactic(auto)]

mod component;
mod fault;
mod form;
mod laws;
mod patterns;
mod text;

pub use fault::PatternFault;
pub use laws::{law_matching, law_reading_patterns};
pub use patterns::Patterns;

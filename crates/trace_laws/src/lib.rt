//! Laws of the grammar of traces and of whole traces, which psi_spec defines. The crates that parse
//! lines, generate traces or run commands use these laws.
//!
//! Crates that only read parsed events don't depend on this crate.
#![tactic(auto)]

mod grammar;
mod traces;

pub use grammar::{law_event_lines, law_header_lines};
pub use traces::law_traces;

//! Implements the traits for reading files and writing output with the system's files and streams,
//! and returns the command-line arguments.
//!
//! Only the programs use this crate; every other crate uses the traits of `outside`. No contract
//! depends on the content of the system's files, because it isn't known here.
#![tactic(auto)]

mod host;
mod name;
mod words;

pub use host::{HostShelf, HostSink, law_cursors_leave_from_place};
pub use words::words_of;

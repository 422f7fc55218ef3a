//! The lines of a trace: parses and writes headers and events.
//!
//! Lines are passed without their newline. The words of a line are separated by single spaces, and
//! numbers are decimal without leading zeros. Each event has exactly one line: parsing a line and
//! writing its event gives the same bytes. [`take_prefix`] parses a line with one of the frequent
//! verbs at the start of buffered bytes, and passes its event to a player (a consumer of events).
//!
//! This crate doesn't decide whether an event is legal (task_table does), and doesn't read files.
#![tactic(auto)]

mod field;
mod header;
mod line;
mod prefix;
mod read;
mod word;
mod write;

pub use header::{Header, read_header};
pub use prefix::{PlayedLine, take_prefix};
pub use read::read_event;
pub use write::{write_event, write_header};

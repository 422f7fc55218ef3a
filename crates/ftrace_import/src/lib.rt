//! Imports ftrace text: parses the lines of switches, wakeups and migrations, and converts them to
//! the events of a trace.
//!
//! These lines are called *marked*, because each contains the name of a tracepoint, such as
//! `sched_switch`. Other lines are skipped. The crate doesn't write the trace. All tasks belong to
//! the root group.
#![tactic(auto)]

mod deeds;
mod fields;
mod imported;
mod laws;
mod marked;
mod places;
mod taking;
mod text;

pub use imported::{Imported, read_import};
pub use laws::{law_imported, law_lines, law_written};
pub use taking::Gathering;
pub use text::{ImportFault, gather, import};

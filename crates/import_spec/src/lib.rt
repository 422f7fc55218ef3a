//! Specifies how the text output of the kernel's ftrace is converted to a trace: the definitions
//! that the importer's contracts use, their types, and laws about them. The parser itself is in the
//! crate ftrace_import.
//!
//! Read the files of `specs/` in this order: `Places` (first and last occurrences), `Tails`
//! (numbers and fields), `Marked` (the lines that are imported, and what each reports), `Events`
//! (the trace events of a line), `Import` (the trace events of a text, or the first bad line) and
//! `Laws` (consequences of these definitions).
#![tactic(auto)]

mod cause;
mod laws;
mod seen;

pub use cause::ImportCause;
pub use laws::law_places;
pub use seen::{LineKind, Seen, Sighting};

//! The events in pages of a kernel's ring buffers: the definitions that the contracts of the
//! converter use, and their types. This crate decodes nothing.
//!
//! Read the files of `specs/` in this order: `Fields` (numbers, states and texts in a record),
//! `Records` (the records of a page), `Items` (the events and lost events of a page and of a file,
//! or the first fault), and `Lines` (an event as a line of text).
#![tactic(auto)]

mod cause;
mod layout;

pub use cause::{ByteFault, PageCause};
pub use layout::{Field, FieldList, Kind, KindList, Layout, LetterList, StateLetter, Width};

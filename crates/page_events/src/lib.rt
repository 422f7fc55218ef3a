//! Decodes the pages of the kernel's ring buffers: the header of a page, its records, and their
//! events.
//!
//! The crate only reads bytes in memory, and does not allocate. [`Records`] are the records of a
//! page in order, and [`next_event`] returns the next event among them. A [`FieldValue`] of an
//! event borrows its text from the page.
#![tactic(auto)]

mod bytes;
mod event;
mod header;
mod part;
mod records;
mod value;

pub use event::{Event, next_event};
pub use header::{Header, read_header};
pub use records::{EventRecord, Records};
pub use value::{FieldValue, value_of};

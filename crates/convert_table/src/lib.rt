//! Parses a table, which is a text that describes the layout of the kernel's trace pages and
//! events.
//!
//! The lines of a table are `psi_layout 1`; `page SIZE HEADER`; any number of `letter BITS LETTER`
//! and `kind NUMBER NAME FIELD..`, with fields `FORM:OFFSET:SIZE`; and `end`. `specs/Table.antt`
//! defines the result for every text: a [`page_spec::Layout`], or the first error.
#![tactic(auto)]

mod fault;
mod read;
mod row;

pub use fault::{TableCause, TableFault};
pub use read::read_table;

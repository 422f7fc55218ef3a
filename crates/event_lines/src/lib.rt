//! Decodes the events of a page, and writes one line per event to a sink.
//!
//! The crate doesn't allocate, and doesn't read files: the crate `page_files` reads the pages.
#![tactic(auto)]

mod line;
mod page;

pub use page::{PageStop, put_page};

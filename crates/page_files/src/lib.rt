//! Writes the events of a file of pages as lines: each page is read once, and only one page is in
//! memory.
//!
//! The pages are those of one processor's ring buffer in the kernel. The crate doesn't interpret
//! them: `event_lines` writes the events of each page.
#![tactic(auto)]

mod file;
mod fill;

pub use file::{FileStop, put_file};

//! Reads a file line by line. The trait `Shelf`, a store of files by name, returns the file's bytes
//! in pieces of any size. This crate doesn't parse the lines; its users do (`trace_file`,
//! `ftrace_import`).
//!
//! A line ends with a newline (byte 10) and has at most 512 bytes before it. [`Lines::next`]
//! returns the lines in order, [`Lines::next_bytes`] lends each line from the buffer, and
//! [`Lines::is_at_end`] tests whether the file has further bytes. A caller can also search the
//! buffered bytes ([`Lines::buffered`]) for a line itself, and skip it by its length
//! ([`Lines::pass`]) without a read.
#![tactic(auto)]

mod buffer;
mod lines;

pub use lines::{Line, LineFault, Lines};

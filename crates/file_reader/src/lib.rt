//! Reads a file, or its first bytes, into a single allocation.
//!
//! The crate is meant for small files such as rules. Traces are read line by line, with
//! `psi_lines`.
#![tactic(auto)]

mod prefix;

pub use prefix::{FileFault, read_prefix};

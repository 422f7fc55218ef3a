//! Shelves (input files) and sinks (output streams) in memory, for tests; the programs don't use
//! them. The contracts specify the exact result of each call.
//!
//! The tests choose which calls of a [`MemShelf`] and a [`MemSink`] fail. The [`HonestShelf`] never
//! fails, and the [`HonestSink`] fails only if it is full.
#![tactic(auto)]

mod honest;
mod memory;

pub use honest::{HonestShelf, HonestSink};
pub use memory::{MemShelf, MemSink};

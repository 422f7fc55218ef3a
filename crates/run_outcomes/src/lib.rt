//! Defines how the status of a run follows from the results of reading its files and writing its
//! output. The commands share these definitions and lemmas.
//!
//! This crate has no executable code; the commands are in `commands` and `replay_core`.
#![tactic(auto)]

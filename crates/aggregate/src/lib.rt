//! Combines a group's times on all processors into its share of each pressure quantity in an
//! interval, and sums the shares to totals.
//!
//! This crate corresponds to the kernel's `collect_percpu_times`. It doesn't know when ticks occur
//! and computes no averages. The crate tick_engine calls it at each tick.
#![tactic(auto)]

mod rows;
mod totals;
mod weighted;

pub use rows::{Rows, law_rows};
pub use totals::Totals;
pub use weighted::{share, share_since};

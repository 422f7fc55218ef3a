//! Determines the states of a group on a processor from the counts of the group's tasks there.
//!
//! [`mask_of`] corresponds to the kernel's `test_states`, together with the part of
//! `psi_group_change` for a running task in a memory stall. The result is a [`Mask`] with one bit
//! for each state. This crate doesn't measure how long a state lasts; cpu_clock does.
#![tactic(auto)]

mod mask;
mod states;

pub use mask::Mask;
pub use psi_counts::Counts;
pub use states::{STATES, mask_of};

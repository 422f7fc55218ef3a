//! The averages of a group's pressure over 10, 60 and 300 seconds, in the kernel's fixed-point
//! numbers.
//!
//! A fixed-point number has 11 fractional bits: 2048 represents 1, and an average of 204,800 is 100
//! percent. This crate doesn't decide when a group is sampled; tick_engine does.
#![tactic(auto)]

mod averages;
mod fixed_point;

pub use averages::Averages;
pub use fixed_point::{load, power};

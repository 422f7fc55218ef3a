//! The clock of one group on one processor: it measures how long the group was in each state there.
//!
//! The crate slot_clocks has the clocks of all groups on a processor, and decides when they change.
#![tactic(auto)]

mod clock;

pub use clock::Clock;

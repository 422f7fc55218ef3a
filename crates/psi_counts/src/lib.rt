//! Counts of tasks, and clocks that add up the time that a group spends in each state.
//!
//! psi_spec defines the states of a group by the group's tasks. This crate derives the same states
//! from counts of tasks, so a program needn't visit all tasks at every event.
//!
//! The folder `specs/` contains `Counts` (the states that follow from counts of tasks, and masks),
//! `Clock`, `Touch` (the changes that an event causes on processors), and `Legal` (the invariant of
//! the scheduler state after legal events).
//!
//! This crate has types, definitions and laws, but no code that runs. plan_laws has the laws about
//! a whole trace. cpu_clock and slot_clocks have the code.
#![tactic(auto)]

mod changes;
mod clocks;
mod legal;
mod touches;

pub use changes::{Change, Counts, Touch};
pub use clocks::{
    law_clock_times, law_clock_words, law_masks, law_same_clocks, law_states_by_counts,
};
pub use legal::{law_legal_counts, law_legal_worlds};
pub use touches::{
    law_accounts, law_change_shows, law_changes_are_within, law_counts_follow, law_current_shows,
    law_runs_once, law_touched, law_within,
};

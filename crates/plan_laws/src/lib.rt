//! Laws of plans: psi_spec defines a processor's stall time and interrupt time over all tasks of a
//! trace, but they follow from the changes of that processor alone.
//!
//! In `specs/`, `Plan` defines the plan of a processor (the list of its changes), and the clocks
//! that a plan determines. `Moments` contains properties of a trace at one time.
//!
//! This crate has definitions and laws, but no code that runs. The crate proc_plan computes the
//! plans of a trace. The crates clock_row and slot_clocks advance clocks with them.
#![tactic(auto)]

mod moments;
mod plans;

pub use moments::{law_growth, law_irq_growth, law_lives, law_path_order, law_triggers};
pub use plans::{
    law_irq_times, law_numbered_changes, law_own_changes, law_plan_clocks, law_plan_states,
    law_plan_steps, law_planned_after, law_planned_irq, law_planned_times, law_planned_until,
    law_whole_plans,
};

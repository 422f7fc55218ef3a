//! Splits a trace into one plan for each processor, and advances clocks by such a plan in one
//! thread.
//!
//! A `Planner` reads the events of a trace one by one. It appends each change that an event causes
//! on a processor to the *plan* of that processor, a list with 16 bytes for each change. A change
//! includes the task that runs after it. If an event turns a group's pressure accounting on or off,
//! the change is appended to every plan. Memory samples, preferences, and tasks that join or leave
//! groups are *side events*: the planner collects them in one list, which the oomd rules read. At
//! the end of the trace the lists become `Plans`.
//!
//! Plans make a parallel replay possible. The stall time on a processor depends only on that
//! processor's changes, so each worker thread can advance the clocks of its processors
//! independently. The output of a replay doesn't depend on the number of workers. `PlainClocks`
//! advances the clocks of one processor by its plan. The crate clock_row does the same in shared
//! words that other threads can read.
//!
//! A trace is rejected while the planner reads it, so nothing is printed for a rejected trace. This
//! crate doesn't know about ticks or pressure: see replay_workers and tick_engine.
#![tactic(auto)]

mod changes;
mod clocks;
mod irqs;
mod laws;
mod plan;
mod planner;
mod plans;
mod player;
mod room;
mod side;
mod side_laws;
mod sides;

pub use clocks::{IrqClocks, PlainClocks, ProcClocks};
pub use laws::{law_ended_traces, law_standing_plans};
pub use plan::Plan;
pub use planner::Planner;
pub use plans::Plans;
pub use side::{Side, SideAct};
pub use side_laws::law_sides;

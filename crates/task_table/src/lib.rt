//! The table of tasks: decides which events are legal, performs the legal events, and reports the
//! changes that each event causes on processors.
//!
//! The table implements the model `World` of psi_spec: the live tasks, each with its group,
//! processor, mode and memory stall, and the tree of groups (group_tree). An event is checked and
//! performed in two calls, so that out of memory is never reported in place of the cause why an
//! event is illegal:
//!
//!     judge      checks an event: returns a `Finding` (its tasks and group), or the first cause
//!     perform    performs a legal event: returns a `Touch` (its change on each processor)
//!
//! Between the two calls the caller reserves memory for the result of the event. The table looks up
//! tasks by pid and groups by path, and never scans a list. About nine of ten events of a trace
//! are *task events*, which concern only tasks (`switch`, `wake`, `stall` and so on). A task event
//! is represented by a `TaskAct`, a small value that owns no memory. Task events take a fast path,
//! and the contracts state that this path has the same results as the general path.
//!
//! The table computes no stall times: proc_plan and slot_clocks compute them from the changes.
#![tactic(auto)]

mod causes;
mod context_switch;
mod effects;
mod finding;
mod members;
mod player;
mod running;
mod table;
mod task_map;
mod task_update;
mod touch;

pub use finding::Finding;
pub use table::Table;

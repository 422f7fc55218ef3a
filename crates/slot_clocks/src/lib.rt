//! The clocks of all groups on one processor. They follow the changes of that processor.
//!
//! A *change* of a processor subtracts and adds counts of tasks, sets the running task, reports
//! interrupt time, or turns a group's accounting on or off. A *slot* is the number of a group, from
//! 0 for the root.
//!
//! [`SlotClocks`] corresponds to the kernel's `psi_group_cpu` of all groups on one processor. A
//! *chain* is a slot and its ancestors. A change affects up to four chains, and is applied to each
//! group on them, as the kernel calls `psi_group_change` for a task's group and for each ancestor.
//!
//! The crate doesn't derive changes from a trace: proc_plan does.
#![tactic(auto)]

mod cell;
mod chains;
mod clocks;
mod laws;
mod packed;
mod part;
mod running;

pub use clocks::SlotClocks;
pub use laws::law_first_clocks;
pub use packed::PackedChange;

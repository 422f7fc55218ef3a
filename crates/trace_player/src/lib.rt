//! The trait [`Player`]: a state machine that processes the events of a trace one by one, while the
//! lines of the trace are parsed.
//!
//! The implementations are in task_table, proc_plan and other crates.
#![tactic(auto)]

mod laws;
mod player;
mod task_act;

pub use laws::law_answers;
pub use player::Player;
pub use task_act::TaskAct;

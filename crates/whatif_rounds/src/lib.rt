//! Removes the victims of all kills from a trace, one kill per round, and states laws about the
//! text that is printed for the remaining trace.
//!
//! Each round replays the remaining trace without output to find the next kill. The crate
//! whatif_trace removes the tasks, and `commands` prints the result. The laws relate
//! specifications; no code calls them.
//!
//! In `specs/`, `Rounds` defines the result of a round and the trace after some rounds, and `Until`
//! states which printed text doesn't change.
#![tactic(auto)]

mod laws;
mod rounds;
mod search;

pub use laws::{law_until_kill, law_until_round};
pub use rounds::last_plans;
pub use whatif_trace::TooLarge;

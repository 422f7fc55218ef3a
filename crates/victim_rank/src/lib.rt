//! Chooses the victim of an action: the control group whose tasks the action kills.
//!
//! A reading is the input of one evaluation of the rules: the time, the host's memory and the live
//! groups. [`Past`] stores the values of earlier readings that later choices need, and [`victim`]
//! chooses. Only [`Past::make`] and [`MatchTable::of`] allocate. [`after_of`] returns the settings
//! of an action that apply after a kill.
//!
//! This crate doesn't decide when an action runs: kill_engine does.
#![tactic(auto)]

mod choice;
mod cutoff;
mod foremost;
mod growth;
mod measure;
mod past;
mod scope;
mod size;
mod table;

pub use choice::victim;
pub use past::Past;
pub use scope::after_of;
pub use table::MatchTable;

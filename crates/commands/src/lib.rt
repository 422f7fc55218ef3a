//! The output of the commands `replay`, `whatif`, `stall`, `check`, `gen`, `stress` and `import`.
//!
//! Other crates read traces and rules, remove victims and parse words; replay_core selects the
//! command. Each module implements one command, or two commands that share their output.
#![tactic(auto)]

mod check;
mod generated;
mod import;
mod lines;
mod replay;
mod stalls;

pub use check::write_checked;
pub use generated::{write_generated, write_stress};
pub use import::run_import;
pub use replay::{write_planned, write_replay};
pub use stalls::write_stalls;

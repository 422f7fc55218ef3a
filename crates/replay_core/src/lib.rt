//! The entry point [`run`] of `psi_oomd`: it parses the words of a command line, reads the files,
//! and writes the output and the message of the status.
//!
//! This crate selects the code of each command; `commands`, `rules_file` and `whatif_rounds` do the
//! work. `run_spec` specifies the result of every run.
#![tactic(auto)]

mod command;
mod entry;
mod note;
mod whatif;

pub use entry::run;
pub use run_spec::{Status, Which};

//! Parses the command line of `psi_oomd` (the words after the program's name) into a command. Each
//! command has its own simple `clap` command.
//!
//! The crate checks ranges and fills in defaults, but opens no files.
#![tactic(auto)]

mod parsed;
mod tables;
mod values;
mod words;

pub use words::{BadWords, read_words};

//! The program `psi_convert` without the real files and streams: [`run`] parses the words of a
//! command, reads a table and pages, and writes the events of the pages as lines.
//!
//! `specs/Convert.antt` defines the output of every run, given the bytes of the files.
#![tactic(auto)]

mod command;
mod events;
mod files;
mod note;
mod status;

pub use command::run;
pub use status::Status;

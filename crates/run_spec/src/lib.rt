//! The specification of a run of `psi_oomd`: which words form a command, what each command prints,
//! and what each status means. This crate contains only definitions and laws; other crates contain
//! the code that is proved to meet them.
//!
//! Read the files of `specs/` in this order: `Words` (which words form a command), `Lines`, `Text`,
//! `Generated`, `Live` and `Replay` (what is printed), `Whatif` (the trace that remains without the
//! victims of its kills), `Outputs` (which files a command reads, and its whole output), `MostRead`
//! (upper bounds on the bytes read), `Status` (exit status and message), `Run` (the contract of a
//! run), `Stops` (where reading stops), `ReadOrder` (the order of the files), `Promises` (the
//! result for accepted and rejected files) and `Laws` (consequences of these definitions).
#![tactic(auto)]

mod command;
mod rounds;
mod status;

pub use command::{Command, Options, Shape, law_option_order, law_option_value, law_ranges};
pub use rounds::law_last_trace;
pub use status::{Status, Which, law_missing_files, law_reads};

//! The specification of psi_observe, which replays a trace while several observer threads sample
//! one group: the samples that the observers take, the output, and the status of a run. This crate
//! contains only definitions and laws; the code is in `observe_core`.
//!
//! Read the files of `specs/` in this order: `Samples` (which samples are due for an observer, and
//! which may have been taken), `Observed` (the printed lines and the whole output), `Words` (which
//! words are a request), `Status` (exit status and message), `Run` (the contract of a run) and
//! `Laws` (consequences of these definitions).
#![tactic(auto)]

mod laws;
mod status;

pub use laws::{law_as_replay, law_missing_trace, law_observed};
pub use status::ObserveStatus;

//! Generates large, valid traces that are determined by a few numbers (the *shape*). So each trace
//! can be reproduced.
//!
//! [`Generator`] returns the events one by one, [`generate`] writes the text of the trace, and
//! [`law_generated`] states that the text is accepted. [`put_header`] and [`put_event`] write one
//! line of any trace without allocating.
//!
//! run_spec defines the generated trace of a shape. The events are random but legal; they don't
//! model a real machine.
#![tactic(auto)]

mod draws;
mod founding;
mod generator;
mod laws;
mod text;

pub use generator::Generator;
pub use laws::law_generated;
pub use text::{generate, put_event, put_header};

//! The trace that would have been recorded without the tasks of a killed group: the definitions
//! that the contracts of whatif_trace use. They don't predict how the other tasks would have
//! behaved.
//!
//! The only file of `specs/` is `Without` (the events of a trace without the tasks of a group after
//! a time).
#![tactic(auto)]

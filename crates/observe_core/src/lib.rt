//! Runs a command line of `psi_observe`: replays a trace while observers sample the clocks of a
//! group, and writes the samples. The only public call is [`observe`]. Each observer takes its
//! samples in its own thread.
//!
//! The crate `observe_spec` specifies the output. The crate `observer_log` has the types that
//! observers share or use: the board (the replay's state after each tick), the journal (the list of
//! all samples) and the watchers (which take samples).
#![tactic(auto)]

mod all;
mod end;
mod entry;
mod interval;
mod lines;
mod looks;
mod note;
mod observed;
mod observer;
mod ready;
mod request;
mod settle;
mod start;
mod ticks;
mod words;

pub use entry::observe;
pub use observe_spec::ObserveStatus;

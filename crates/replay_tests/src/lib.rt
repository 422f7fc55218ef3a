//! Tests of the entry point `run` with files and sinks in memory: traces and outputs in pieces,
//! command words, failures of each call, truncated traces, traces at their limits, gates that block
//! threads or count calls, drop-in files, and `whatif`.
//!
//! Real files and processes aren't used here: they are tested with the built program.
#![tactic(auto)]

#[cfg(test)]
mod cuts;
#[cfg(test)]
mod drop_ins;
#[cfg(test)]
mod each_call;
#[cfg(test)]
mod faults;
#[cfg(test)]
mod gates;
#[cfg(test)]
mod known;
#[cfg(test)]
mod limits;
#[cfg(test)]
mod pieces;
#[cfg(test)]
mod replays;
#[cfg(test)]
mod runs;
#[cfg(test)]
mod whatif;
#[cfg(test)]
mod words;

//! Tests of the entry point of psi_convert with files and sinks in memory: the events of small
//! pages, tables, command words, and reads and writes that fail.
//!
//! Recordings of kernels are tested elsewhere, with the built program.
#![tactic(auto)]

#[cfg(test)]
mod events;
#[cfg(test)]
mod failures;
#[cfg(test)]
mod pages;
#[cfg(test)]
mod runs;
#[cfg(test)]
mod tables;
#[cfg(test)]
mod words;

//! Tests of reading: texts and lines of files, the lines of a trace, and command words.
//!
//! Rules files are tested in rule_tests, and whole traces in replay_tests.
#![tactic(auto)]

#[cfg(test)]
mod base;
#[cfg(test)]
mod trace;
#[cfg(test)]
mod words;

//! Tests of pressure: its arithmetic, groups and triggers over ticks, and the lines and files with
//! its values.
//!
//! Expected numbers were computed independently or written by hand. Whole replays are tested in
//! replay_tests.
#![tactic(auto)]

#[cfg(test)]
mod arithmetic;
#[cfg(test)]
mod engine;
#[cfg(test)]
mod text;

//! Tests of the table of tasks, the groups, the clocks and plans of processors, clock rows, and the
//! journals and boards of observers.
//!
//! Expected values are written by hand or computed with clocks in a single thread. Ticks, text and
//! rules are tested in other crates (pressure_tests, rule_tests).
#![tactic(auto)]

#[cfg(test)]
mod clocks;
#[cfg(test)]
mod events;
#[cfg(test)]
mod groups;
#[cfg(test)]
mod observers;
#[cfg(test)]
mod plans;
#[cfg(test)]
mod processor;
#[cfg(test)]
mod rows;
#[cfg(test)]
mod slots;
#[cfg(test)]
mod table;
#[cfg(test)]
mod walk;
#[cfg(test)]
mod watch;
#[cfg(test)]
mod whatif;

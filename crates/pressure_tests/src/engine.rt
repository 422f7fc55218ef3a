//! Tests of the engine of ticks, which computes the averages, totals and triggers of groups. The
//! engine runs on a simulated machine: the tests set how long each group was in each state on each
//! processor.
mod checks;
mod known;
mod machine;
mod ticks;

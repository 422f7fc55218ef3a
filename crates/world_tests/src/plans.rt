//! Tests of plans, which split a trace by processor: the changes on each processor, and the clocks
//! that follow them.
mod accounts;
mod changes;
mod clocks;
mod irqs;
mod refusals;
mod sides;

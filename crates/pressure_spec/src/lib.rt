//! The definition of pressure: the shares of an interval, totals, averages and the signals of
//! triggers, and laws about them. No code runs here: the crates aggregate and tick_engine compute
//! what these definitions specify.
//!
//! Read the files of `specs/` in this order: `Share` (how long a group was stalled in an interval),
//! `Average` (the averages over 10, 60 and 300 s), `Within` (upper bounds), `Signal` (when a
//! trigger fires), `Ticks` (the ticks of a trace), `NextTick` (successive ticks), `Samples`
//! (totals, averages and signals over ticks), `File` and `Printed` (pressure files) and `Laws`.
#![tactic(auto)]

mod arithmetic;
mod quantities;

pub use arithmetic::{law_averages, law_fixed_point, law_shares, law_signals, law_ticks};
pub use quantities::{Amounts, AverageRows, QUANTITIES, TIMES, Times};

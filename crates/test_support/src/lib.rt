//! Helpers that several test crates share: an assertion that prints the expected and the actual
//! value, runs of a program in memory, and gates that force an order on threads.
//!
//! Code outside tests may not abort, so the functions here return a `Result` or an `Option`. Only
//! the macro `assert_equal!` aborts, in the test crate that uses it. The programs use nothing of
//! this crate.
#![tactic(auto)]

mod counts;
mod equal;
mod gates;
mod runs;
mod signal;
mod text;
mod traces;

pub use counts::ChangeCounts;
pub use equal::{Unequal, check_equal};
pub use gates::SampleBetween;
pub use runs::{Failing, NO_CALL, NO_FAILURE, Ran, Streams, file_of};
pub use signal::Signal;
pub use text::{as_text, first_bytes, last_bytes, line_of, no_memory, path_of, words_of};
pub use traces::{CHANGES, LAST_MOMENT, ONE_PROCESSOR, SECOND, THREE_TICKS};

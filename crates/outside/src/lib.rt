//! The traits for a replay's input and output, and functions that read and write through them. The
//! traits are implemented elsewhere: for real files in `host_files`, for tests in `outside_fakes`.
//!
//! [`Shelf`] is a store of files by name, [`Sink`] an output, and [`Gate`] a set of points at which
//! a test may pause a thread. [`BufferedSink`] buffers bytes for another sink. [`read_after`],
//! [`put_all`], [`put_each`] and [`put_number`] read and write. [`Tally`] and [`ReadLog`] are a
//! count and a log that only proofs read.
#![tactic(auto)]

mod buffer;
mod gate;
mod put;
mod read;
mod shelf;
mod sink;
mod tally;

pub use buffer::{BufferedSink, Pending};
pub use gate::{Gate, OpenGate};
pub use put::{put_all, put_each, put_number};
pub use read::read_after;
pub use shelf::{Shelf, ShelfFault};
pub use sink::{Sink, WriteFailed};
pub use tally::{Call, ReadLog, Tally};

//! The types of a trace of scheduler events, and of the texts in a trace.
//!
//! - The contents of a trace ([`Event`], [`Act`]), the words for them, and the causes for which a
//!   line is rejected ([`Cause`], [`Refusal`], [`Fault`]).
//! - Texts: [`Path`], [`Text`], [`Parts`] and [`read_number`]; [`NoMemory`] if memory runs out.
//!
//! This crate parses only words and numbers. psi_trace parses lines, and task_table decides which
//! events are legal.
#![tactic(auto)]

mod event;
mod limits;
mod number;
mod parts;
mod path;
mod states;
mod text;
mod words;

pub use event::{
    Act, Cause, Cpu, Event, Fault, How, Level, Ns, Pid, Preference, Refusal, Res, Slot, State,
    TriggerSpec,
};
pub use limits::{DEFAULT_TICK, LATEST, MILLISECOND, MOST_EVENTS, MOST_TICKS};
pub use number::{read_digits, read_number};
pub use parts::Parts;
pub use path::Path;
pub use text::{NoMemory, Text};

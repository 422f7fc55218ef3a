//! Laws of a replay's output: it grows tick by tick, and the reports of a tick can be computed in a
//! fixed order of all slots.
//!
//! The laws relate definitions only. The code that prints is in replay_ticks and in the crates that
//! use it.
#![tactic(auto)]

mod laws;

pub use laws::{
    law_live_slot, law_live_texts, law_next_tick, law_one_tick_more, law_reports, law_unwatched,
};

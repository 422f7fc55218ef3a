//! Observers of a replay: watchers that take samples, a journal of the samples (which callers
//! protect by a lock), and a board of ticks that observers read without a lock.
//!
//! An observer takes samples with a [`Watcher`], which stores an [`Entry`] of each sample in the
//! observer's own list ([`Own`]). The observer also adds each entry to the [`Journal`], which all
//! observers share. When all observers have ended, [`Journal::order`] puts the entries of their own
//! lists into the journal's order. The driver of the replay publishes each tick on the [`Board`].
//!
//! This crate starts no threads: observe_core does.
#![tactic(auto)]

mod board;
mod entry;
mod journal;
mod laws;
mod order;
mod own;
mod watcher;

pub use board::{Board, BoardPass, BoardState, DriverPass};
pub use entry::Entry;
pub use journal::{AddFault, Fall, Journal};
pub use laws::law_last_read;
pub use own::Own;
pub use watcher::Watcher;

//! The type of a kill that the rules decide. Nothing is really killed: a replay only reports the
//! kill.
use psi_base::{Ns, Slot};

/// A kill: its time, the ruleset and the action that decided it, and the killed group.
#[derive(Clone, Copy, Debug, PartialEq, Eq)]
pub struct Kill {
    /// The time (ns) of the evaluation.
    pub at: Ns,
    /// The number of the ruleset (from 0).
    pub rule: u32,
    /// The number of the action in its ruleset (from 0).
    pub action: u32,
    /// The slot of the group that is killed.
    pub victim: Slot,
}

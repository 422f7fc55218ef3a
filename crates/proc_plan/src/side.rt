//! Side events: the parts of a trace that are neither changes of a processor nor triggers. The
//! module `sides` computes the side events of an event.

use psi_base::{Ns, Preference, Slot};

/// A side event with its time: a memory sample, a preference, or a task that joins or leaves a
/// group. The oomd rules read side events; the clocks don't depend on them.
#[derive(Clone, Copy, Debug, PartialEq, Eq)]
pub struct Side {
    /// The time (ns) of the side event.
    pub at: Ns,
    /// What happened at the time of the side event.
    pub what: SideAct,
}

/// The kind and the values of a side event.
#[derive(Clone, Copy, Debug, PartialEq, Eq)]
pub enum SideAct {
    /// A memory sample of a group: the memory and the swap in use (bytes), and the total number of
    /// pages scanned for the group so far.
    Mem {
        slot: Slot,
        current: u64,
        swap: u64,
        scan: u64,
    },
    /// The preference of a group was set.
    Prefer {
        slot: Slot,
        preference: Preference,
    },
    /// A sample of the whole host: its total memory, total swap and free swap (bytes).
    Host {
        mem_total: u64,
        swap_total: u64,
        swap_free: u64,
    },
    /// A task joined the group itself (`added` is 1), or left it (`added` is -1). Moving a task
    /// into the group that it is already in counts as neither.
    Tasks {
        slot: Slot,
        added: i8,
    },
}

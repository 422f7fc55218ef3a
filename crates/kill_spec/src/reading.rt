//! The types for what rules see at an evaluation: the state of a group, and the host's memory.
use pressure_spec::QUANTITIES;
use psi_base::{Preference, Slot};

/// The state of a live group at an evaluation.
#[derive(Clone, Copy, Debug, PartialEq, Eq)]
pub struct GroupReading {
    /// The group's slot.
    pub slot: Slot,
    /// The group's averages after the tick, over 10, 60 and 300 s, for each state except nonidle.
    /// They are fixed-point numbers of at most 204,800, which is 100 percent. Interrupt time is
    /// left out, because no rule uses it.
    pub averages: [[u64; 3]; QUANTITIES - 1],
    /// Memory in use (bytes, at most 2^60), from the group's latest memory sample, or 0.
    pub current: u64,
    /// Swap in use (bytes, at most 2^60), from the group's latest memory sample, or 0.
    pub swap: u64,
    /// The group's cumulative count of scanned pages (at most 2^60), from its latest memory sample,
    /// or 0.
    pub scan: u64,
    /// The group's kill preference.
    pub preference: Preference,
    /// Whether some live task is in the group or in a descendant.
    pub populated: bool,
}

/// The latest sample of the host's memory (bytes, at most 2^60 each); zeros before the first
/// sample.
#[derive(Clone, Copy, Debug, PartialEq, Eq)]
pub struct HostReading {
    pub mem_total: u64,
    pub swap_total: u64,
    pub swap_free: u64,
}

//! Helpers that make the parts of readings: the host and the groups, and the groups' paths. A test
//! sets only the values that matter to it.
use detectors::{GroupReading, HostReading};
use pressure_spec::QUANTITIES;
use psi_base::{Preference, Slot};
use psi_spec::GroupLife;
use std::alloc::Global;
use std::process::Abort;
use test_support::path_of;

/// The values of a host for which the trace has no sample.
pub const NO_HOST: HostReading = HostReading {
    mem_total: 0,
    swap_total: 0,
    swap_free: 0,
};

/// Makes the record of a group that is created at 0 ns and never removed. `text` is its path.
pub fn life(rt: &impl Abort, alloc: Global, text: &str, parent: Option<Slot>) -> GroupLife {
    GroupLife {
        path: path_of(alloc, text).expect(rt, text),
        parent,
        made: 0,
        gone: None,
        on: true,
    }
}

/// Makes a group that has tasks and no kill preference, and whose other values are zero.
pub fn bare_group(slot: u32) -> GroupReading {
    GroupReading {
        slot: Slot(slot),
        averages: [[0; 3]; QUANTITIES - 1],
        current: 0,
        swap: 0,
        scan: 0,
        preference: Preference::Plain,
        populated: true,
    }
}

/// Makes a group that uses `current` bytes of memory.
pub fn using(slot: u32, current: u64) -> Option<GroupReading> {
    let mut group = bare_group(slot);
    group.current = current;
    Some(group)
}

/// Makes a group with `scan` scanned pages.
pub fn scanned(slot: u32, scan: u64) -> Option<GroupReading> {
    let mut group = bare_group(slot);
    group.scan = scan;
    Some(group)
}

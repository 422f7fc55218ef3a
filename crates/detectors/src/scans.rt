//! Stores and compares scan counts. The scan count of a group is the number of its pages that
//! memory reclaim has scanned.
//!
//! Only detectors of memory reclaim use scan counts.
ghost use Rattle.std.specs.Prelude.{◌≡◌, ◌<◌, ℕ, All, length, nat_lt};
ghost use Rattle.detectors.specs.Tables.{found, have_risen, last_rise, risen_from, scan_after};
ghost use Rattle.detectors.specs.Tables.{scan_among, scan_in, scan_slots};
ghost use Rattle.kill_spec.specs.declared.reading.GroupReading.{GroupReading};

use crate::conditions::has;
use crate::moments::rise_after;
use kill_spec::GroupReading;
use psi_base::{Ns, Slot};
use ruleset_json::DetectorSpec;

fn scan_in(scans: &[Option<u64>], slot: Slot) -> Option<u64>
    ensures { result ≡ scan_in scans.now slot.0 }
{
    match scans.get(slot.0 as usize) {
        Some(scan) => *scan,
        None => None,
    }
}

/// Returns whether the count `scan` is greater than the previous count `before`. Returns false if
/// there is no previous count.
fn has_risen(before: Option<u64>, scan: u64) -> bool
    ensures { result ≡ nat_lt 0 (risen_from before scan) }
{
    match before {
        Some(before) => scan > before,
        None => false,
    }
}

/// Returns whether the scan count of at least one group that the detector's patterns match is
/// greater than its stored count.
pub(crate) fn have_risen(scans: &[Option<u64>], matched: &[bool], groups: &[GroupReading]) -> bool
    ensures { result ≡ have_risen scans.now (found matched.now groups.now) }
{
    groups
        .iter()
        .filter(|group| has(matched, group))
        .any(|group| has_risen(scan_in(scans, group.slot), group.scan))
}

/// Replaces the stored scan counts by the counts of the groups in a reading. A slot whose group
/// isn't in the reading gets `None`. If two groups had the same slot, the first group's count would
/// be stored.
pub(crate) fn take_scans(scans: &mut [Option<u64>], groups: &[GroupReading])
    requires { All (λ (group : GroupReading). group.slot.0 < length scans.old) groups.now }
    ensures { (slot : ℕ) → scan_in scans.new slot ≡ scan_among groups.now slot }
{
    'clear: for scan in scans.iter_mut() {
        *scan = None;
    }
    'groups: for group in groups {
        let slot = group.slot.0 as usize;
        scans[slot] = scans[slot].or(Some(group.scan));
    }
}

/// Stores the scan counts of a reading at time `now` (ns). Returns the time (ns) of the last
/// increase of a matched group's count, or `None` if no count has increased. `increased` is this
/// time before the reading. If the detector isn't a detector of memory reclaim, changes nothing and
/// returns `increased`.
pub(crate) fn take_rise(
    spec: &DetectorSpec,
    scans: &mut [Option<u64>],
    increased: Option<Ns>,
    matched: &[bool],
    groups: &[GroupReading],
    now: Ns,
) -> Option<Ns>
    requires scans { length scans.old ≡ scan_slots spec.now (length matched.now) }
    requires slots { All (λ (group : GroupReading). group.slot.0 < length matched.now) groups.now }
    ensures increased { result ≡
        last_rise spec.now scans.old increased (found matched.now groups.now) now }
    ensures scans { (slot : ℕ) →
        scan_in scans.new slot ≡ scan_after spec.now scans.old groups.now slot }
{
    let DetectorSpec::MemoryReclaim { .. } = spec else {
        return increased;
    };
    let has_risen = have_risen(scans, matched, groups);
    take_scans(scans, groups);
    rise_after(increased, has_risen, now)
}

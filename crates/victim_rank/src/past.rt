//! The stored past: for each group, the values of earlier readings that a choice of a victim needs.
//!
//! Whole readings aren't stored.
ghost use Rattle.std.specs.Prelude.{◌≡◌, ◌≤◌, ◌^◌, ℕ, [], ◌∷◌, All, IfOk, Some, length, map, option_map, replicate, slice_index_or, take, None};
ghost use Rattle.kill_spec.specs.declared.reading.GroupReading.{GroupReading};
ghost use Rattle.kill_spec.specs.Readings.{group_in};
ghost use Rattle.victim_rank.specs.Pasts.{AreSizes, IsPastOf, PastTakes, sizes_of};
ghost use Rattle.victim_rank.specs.Growth.{sizes_from};
ghost use Rattle.victim_rank.specs.Scopes.{rise_from};
ghost use Rattle.victim_rank.specs.Tables.{newer_sizes};

use detectors::Reading;
use kill_spec::GroupReading;
use psi_base::NoMemory;
use std::alloc::Global;
use std::marker::Model;

/// The last sizes of a group: at most four, newest first.
#[derive(Clone, Copy)]
pub(crate) struct Sizes {
    /// The sizes (bytes); only the first `count` are valid.
    bytes: [u64; 4],
    /// The number of valid sizes.
    count: usize,
}

fn no_sizes(alloc: Global, slots: u32) -> Result<Vec<Sizes>, NoMemory>
    ensures sizes { IfOk result (λ sizes. map sizes_of sizes.items ≡ replicate slots []) }
    ensures within { IfOk result (λ sizes. All AreSizes sizes.items) }
{
    let none = Sizes {
        bytes: [0; 4],
        count: 0,
    };
    Ok(vec![in alloc; none; slots as usize]?)
}

fn no_scans(alloc: Global, slots: u32) -> Result<Vec<Option<u64>>, NoMemory>
    ensures { IfOk result (λ scans. scans.items ≡ replicate slots None) }
{
    Ok(vec![in alloc; None; slots as usize]?)
}

// Returns the sizes with `newest` added at the front. Drops the oldest size if there were already
// four.
fn suffix(newest: u64, sizes: Sizes) -> Sizes
    requires newest { newest ≤ 2 ^ 60 }
    requires within { AreSizes sizes }
    ensures sizes { sizes_of result ≡ take 4 (newest ∷ sizes_of sizes) }
    ensures within { AreSizes result }
{
    let [first, second, third, _] = sizes.bytes;
    Sizes {
        bytes: [newest, first, second, third],
        count: if sizes.count < 4 { sizes.count + 1 } else { 4 },
    }
}

// Adds the current size of each group in the reading to the stored sizes of that group.
fn take_sizes(sizes: &mut [Sizes], reading: &Reading)
    requires slots { length sizes.old ≡ length reading.now.lives }
    requires within { All AreSizes sizes.old }
    ensures within { All AreSizes sizes.new }
    ensures sizes { (slot : ℕ) → slice_index_or (map sizes_of sizes.new) slot []
        ≡ newer_sizes (group_in reading.now.seen slot)
        (slice_index_or (map sizes_of sizes.old) slot []) }
{
    'groups: for group in reading.groups() {
        let slot = group.slot.0 as usize;
        sizes[slot] = suffix(group.current, sizes[slot]);
    }
}

// Replaces the stored scan counts by the scan counts of the groups in the reading. A slot without a
// group in the reading gets `None`.
fn take_scans(scans: &mut [Option<u64>], reading: &Reading)
    requires { length scans.old ≡ length reading.now.lives }
    ensures { (slot : ℕ) → slice_index_or scans.new slot None
        ≡ option_map (λ (group : GroupReading). group.scan) (group_in reading.now.seen slot) }
{
    scans.fill(None);
    'groups: for group in reading.groups() {
        scans[group.slot.0 as usize] = Some(group.scan);
    }
}

/// The stored past of each group, indexed by slot. `sizes` has the group's sizes (bytes) at the
/// last four evaluations at which it was live. `scans` has its scan count at the last evaluation,
/// or `None` if the group wasn't live then. The scan count is the number of the group's pages that
/// memory reclaim has scanned.
#[derive(Drop)]
pub struct Past {
    sizes: Vec<Sizes>,
    scans: Vec<Option<u64>>,
}

impl Model for Past {
    ghost use Rattle.victim_rank.specs.Pasts.{IsPast, Kept, kept_of};

    ghost Value = { Kept };

    ghost view = { λ p. kept_of p.sizes.items p.scans.items };

    ghost invariant = { λ p. IsPast p.sizes.items p.scans.items };
}

impl Past {
    /// Returns the past of `slots` groups before the first evaluation. Allocates all memory that
    /// the past ever needs.
    pub fn make(alloc: Global, slots: u32) -> Result<Past, NoMemory>
        ensures slots { IfOk result (λ past. length past.sizes ≡ slots) }
        ensures first { IfOk result (λ past. IsPastOf past []) }
    {
        Ok(Past {
            sizes: no_sizes(alloc, slots)?,
            scans: no_scans(alloc, slots)?,
        })
    }

    /// Stores the sizes and scan counts of a reading. Call it once for each evaluation, in order.
    /// Doesn't allocate.
    pub fn push(&mut self, reading: &Reading)
        requires { length self.old.sizes ≡ length reading.now.lives }
        ensures slots { length self.new.sizes ≡ length self.old.sizes }
        ensures next { PastTakes self.old reading.now.seen self.new }
    {
        take_sizes(&mut self.sizes, reading);
        take_scans(&mut self.scans, reading);
    }

    // Returns the number of pages of the group that were scanned since the last evaluation. Returns
    // 0 if the group wasn't live at the last evaluation.
    pub(crate) fn rise(&self, group: &GroupReading) -> u64
        ensures { result ≡ rise_from self.now group.now }
    {
        match self.scans.get(group.slot.0 as usize) {
            Some(Some(before)) => group.scan.saturating_sub(*before),
            _ => 0,
        }
    }

    // Returns the stored sizes of the group (bytes): at most four, newest first.
    pub(crate) fn sizes(&self, group: &GroupReading) -> &[u64]
        ensures sizes { result.now ≡ sizes_from self.now group.now }
        ensures few { length result.now ≤ 4 }
        ensures each { All (λ size. size ≤ 2 ^ 60) result.now }
    {
        match self.sizes.get(group.slot.0 as usize) {
            Some(sizes) => &sizes.bytes[..sizes.count],
            None => &[],
        }
    }
}

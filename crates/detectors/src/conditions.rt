//! Evaluates the conditions of oomd's detectors at one reading, the input of one evaluation of the
//! rules.
//!
//! The module `moments` measures how long a condition has held.
ghost use Rattle.std.specs.Prelude.{◌≡◌, ◌<◌, false, length};
ghost use Rattle.std.specs.List.{list_any};
ghost use Rattle.kill_spec.specs.declared.reading.GroupReading.{GroupReading};
ghost use Rattle.kill_spec.specs.Detectors.{is_above};
ghost use Rattle.kill_spec.specs.Readings.{full_average};
ghost use Rattle.path_match.specs.Match.{is_match};
ghost use Rattle.detectors.specs.Tables.{condition_among, found, greatest_among, greatest_of, has};
ghost use Rattle.detectors.specs.Tables.{detector_patterns, is_host_swap_short, is_some_above, match_table};

use kill_spec::{GroupReading, HostReading};
use psi_base::{Level, Path, Res, State};
use psi_spec::GroupLife;
use ruleset_json::{DetectorSpec, Size};

/// Pressure averages are stored in the order 10 s, 60 s, 300 s. These are the indexes of the first
/// two.
const TEN_SECONDS: usize = 0;

const SIXTY_SECONDS: usize = 1;

/// Returns whether the detector's patterns match the group. `matched` says for each slot whether
/// the patterns match its group.
pub(crate) fn has(matched: &[bool], group: &GroupReading) -> bool
    ensures { result ≡ has matched.now group.now }
{
    match matched.get(group.slot.0 as usize) {
        Some(is_matched) => *is_matched,
        None => false,
    }
}

/// Returns whether at least one pattern of the detector matches `path`. Returns false for a
/// detector of free swap, which has no patterns.
#[tactic(auto, unfolding(path_match::specs::Match::is_match))]
fn is_match(spec: &DetectorSpec, path: &Path) -> bool
    ensures { result ≡ is_match (detector_patterns spec.now) path.now }
{
    match spec {
        DetectorSpec::PressureAbove { cgroup, .. } => cgroup.matches(path),
        DetectorSpec::PressureRisingBeyond { cgroup, .. } => cgroup.matches(path),
        DetectorSpec::MemoryAbove { cgroup, .. } => cgroup.matches(path),
        DetectorSpec::MemoryReclaim { cgroup, .. } => cgroup.matches(path),
        DetectorSpec::SwapFree { .. } => false,
        DetectorSpec::Exists { cgroup, .. } => cgroup.matches(path),
    }
}

/// Computes for each slot whether the detector's patterns match its group, and stores the results
/// in `matched`.
pub(crate) fn find_matches(matched: &mut [bool], spec: &DetectorSpec, lives: &[GroupLife])
    requires { length matched.old ≡ length lives.now }
    ensures { matched.new ≡ match_table lives.now (detector_patterns spec.now) }
{
    'lives: for (slot, life) in lives.iter().enumerate() {
        matched[slot] = is_match(spec, &life.path);
    }
}

fn full_average(group: &GroupReading, resource: Res, window: usize) -> u64
    requires { window < 3 }
    ensures { result ≡ full_average resource window group.now }
{
    group.averages[State::of(resource, Level::FullStalled) as usize][window]
}

/// Returns the greatest `full` pressure average of a resource over a window, among the groups that
/// the detector's patterns match. Returns 0 if no group matches.
fn greatest_full(matched: &[bool], groups: &[GroupReading], resource: Res, window: usize) -> u64
    requires { window < 3 }
    ensures { result ≡ greatest_among resource window (found matched.now groups.now) }
{
    groups
        .iter()
        .filter(|group| has(matched, group))
        .map(|group| full_average(group, resource, window))
        .fold(0, |greatest, average| greatest.max(average))
}

/// Returns, for a detector of rising pressure, the greatest `full` average over 10 s among the
/// groups that its patterns match. Returns 0 for any other detector.
pub(crate) fn greatest_of(spec: &DetectorSpec, matched: &[bool], groups: &[GroupReading]) -> u64
    ensures { result ≡ greatest_of spec.now (found matched.now groups.now) }
{
    match spec {
        DetectorSpec::PressureRisingBeyond { resource, .. } => {
            greatest_full(matched, groups, *resource, TEN_SECONDS)
        }
        _ => 0,
    }
}

/// Returns whether `current` (bytes) is above `threshold`, a number of bytes or a percentage of the
/// host's memory.
fn is_above(threshold: Size, host: &HostReading, current: u64) -> bool
    ensures { result ≡ is_above threshold host.now current }
{
    match threshold {
        Size::Bytes(bytes) => current > bytes,
        Size::Percent(percent) => {
            u128::from(current) * 100 > u128::from(percent) * u128::from(host.mem_total)
        }
    }
}

/// Returns whether at least one group that the detector's patterns match uses more memory than
/// `threshold`.
fn is_some_above(
    matched: &[bool],
    groups: &[GroupReading],
    threshold: Size,
    host: &HostReading,
) -> bool
    ensures { result ≡ is_some_above threshold host.now (found matched.now groups.now) }
{
    groups
        .iter()
        .filter(|group| has(matched, group))
        .any(|group| is_above(threshold, host, group.current))
}

/// Returns whether the detector's condition on pressure or memory use holds at a reading. The
/// detector is true only after its condition has held for the detector's duration. Returns false
/// for detectors of memory reclaim, of free swap and of existence, which have no such condition.
pub(crate) fn has_condition(
    spec: &DetectorSpec,
    matched: &[bool],
    host: &HostReading,
    groups: &[GroupReading],
) -> bool
    ensures { result ≡ condition_among spec.now host.now (found matched.now groups.now) }
{
    match spec {
        DetectorSpec::PressureAbove {
            resource,
            threshold,
            ..
        } => {
            greatest_full(matched, groups, *resource, TEN_SECONDS) > u64::from(*threshold) * 2048
        }
        DetectorSpec::PressureRisingBeyond {
            resource,
            threshold,
            ..
        } => {
            greatest_full(matched, groups, *resource, SIXTY_SECONDS) > u64::from(*threshold) * 2048
        }
        DetectorSpec::MemoryAbove { threshold, .. } => {
            is_some_above(matched, groups, *threshold, host)
        }
        _ => false,
    }
}

/// Returns whether the detector's patterns match at least one group of the reading.
pub(crate) fn has_match(matched: &[bool], groups: &[GroupReading]) -> bool
    ensures { result ≡ list_any (has matched.now) groups.now }
{
    groups.iter().any(|group| has(matched, group))
}

/// Returns whether less than `percent` percent of the host's swap is free.
pub(crate) fn is_swap_short(percent: u32, host: &HostReading) -> bool
    ensures { result ≡ is_host_swap_short percent host.now }
{
    u128::from(host.swap_free) * 100 < u128::from(percent) * u128::from(host.swap_total)
}

//! Computes with the sizes of groups: sums, shares and counts.
//!
//! The size of a group is the memory (bytes) that the group uses.
ghost use Rattle.std.specs.Prelude.{◌≡◌, ◌<◌, ◌^◌, ◌*◌, filter, length, nat_le, nat_lt};
ghost use Rattle.ruleset_json.specs.Ranges.{IsPercent};
ghost use Rattle.kill_spec.specs.Victims.{count_above, is_larger, memory_in_use, total_size};
ghost use Rattle.victim_rank.specs.Scopes.{is_in_rank, is_in_view};

use crate::measure::rank;
use crate::scope::Scope;
use detectors::Reading;
use kill_spec::GroupReading;
use psi_spec::GroupLife;

/// Returns the sum of the sizes (bytes) of the groups in the scope.
pub(crate) fn total_size(scope: &Scope<'_>, reading: &Reading) -> u128
    requires { reading.now.lives ≡ scope.now.lives }
    ensures sum { result ≡ total_size (filter (is_in_view scope.now) reading.now.seen.groups) }
    ensures fits { result < 2 ^ 120 }
{
    let mut total: u128 = 0;
    'groups: for place in scope.places(reading) {
        let group = reading.group(*place);
        if scope.has(group) {
            total += u128::from(group.current);
        }
    }
    total
}

/// Returns whether the group uses at least `size_threshold` percent of `total` (bytes).
pub(crate) fn is_large(size_threshold: u32, total: u128, group: &GroupReading) -> bool
    requires percent { IsPercent size_threshold }
    requires total { total < 2 ^ 120 }
    ensures { result ≡ nat_le (size_threshold * total) (memory_in_use group.now * 100) }
{
    u128::from(group.current) * 100 >= u128::from(size_threshold) * total
}

/// Returns whether the group is in the scope and its preference has the rank `best_rank`.
pub(crate) fn is_in_rank(scope: &Scope<'_>, best_rank: u8, group: &GroupReading) -> bool
    requires { group.now.slot.0 < length scope.now.lives }
    ensures { result ≡ is_in_rank scope.now best_rank group.now }
{
    rank(group) == best_rank && scope.has(group)
}

/// Returns the number of groups of the scope whose preference has the rank `best_rank`.
pub(crate) fn count_in_rank(scope: &Scope<'_>, best_rank: u8, reading: &Reading) -> usize
    requires { reading.now.lives ≡ scope.now.lives }
    ensures { result ≡ length (filter (is_in_rank scope.now best_rank) reading.now.seen.groups) }
{
    let mut count = 0;
    'groups: for place in scope.places(reading) {
        if is_in_rank(scope, best_rank, reading.group(*place)) {
            count += 1;
        }
    }
    count
}

/// Returns the number of groups above a percentile, out of `count` groups. The number is rounded
/// up, and is at least 1.
pub(crate) fn count_above(percentile: u32, count: usize) -> u128
    requires { IsPercent percentile }
    ensures { result ≡ count_above percentile count }
{
    ((count as u128 * u128::from(100 - percentile) + 99) / 100).max(1)
}

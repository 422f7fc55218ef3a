//! Finds the largest groups among the groups of a scope that have the same preference rank.
//!
//! The groups aren't sorted. Each group has a numeric key that grows with its size. Binary search
//! finds the *cutoff*: exactly the largest groups have a key of at least the cutoff.
ghost use Rattle.std.specs.Prelude.{◌≡◌, ◌<◌, ◌≤◌, ◌^◌, ◌*◌, ◌+◌, ◌-◌, Contains, IfSome, filter, length, nat_le, nat_lt, true};
ghost use Rattle.detectors.specs.Inner.{AreAmong, group_at, groups_at};
ghost use Rattle.kill_spec.specs.LegalReadings.{IsGroupReading};
ghost use Rattle.kill_spec.specs.Victims.{is_larger, memory_in_use};
ghost use Rattle.victim_rank.specs.Cutoffs.{IsCutoff, IsRanking, count_reaching, size_key};
ghost use Rattle.victim_rank.specs.Scopes.{is_in_rank};

use crate::scope::Scope;
use crate::size::is_in_rank;
use detectors::Reading;
use kill_spec::GroupReading;

/// Returns the key of the group at index `place` of a reading. A larger group has a greater key. Of
/// two groups with equal size, the group whose path comes first in byte order has the greater key.
fn size_key(place: u32, group: &GroupReading) -> u128
    requires place { place < 1024 }
    ensures { result ≡ memory_in_use group.now * 1024 + (1023 - place) }
{
    u128::from(group.current) * 1024 + u128::from(1023 - place)
}

/// Returns the number of groups of the scope with preference rank `best_rank` whose key is at least
/// `key`.
fn count_reaching(
    scope: &Scope<'_>,
    best_rank: u8,
    reading: &Reading,
    places: &[u32],
    key: u128,
) -> u128
    requires { IsRanking scope.now best_rank reading.now places.now }
    ensures { result ≡ count_reaching (is_in_rank scope.now best_rank)
        reading.now.seen.groups places.now key }
{
    let mut count: u128 = 0;
    'places: for place in places {
        let group = reading.group(*place);
        if size_key(*place, group) >= key && is_in_rank(scope, best_rank, group) {
            count += 1;
        }
    }
    count
}

/// Returns the greatest key of the groups of the scope with preference rank `best_rank`, or 0 if
/// there are no such groups.
fn greatest_key(scope: &Scope<'_>, best_rank: u8, reading: &Reading, places: &[u32]) -> u128
    requires { IsRanking scope.now best_rank reading.now places.now }
    ensures none { count_reaching (is_in_rank scope.now best_rank)
        reading.now.seen.groups places.now (result + 1) ≡ 0 }
    ensures fits { result < 2 ^ 71 }
{
    let mut greatest: u128 = 0;
    'places: for place in places {
        let group = reading.group(*place);
        if is_in_rank(scope, best_rank, group) {
            greatest = greatest.max(size_key(*place, group));
        }
    }
    greatest
}

/// Returns the cutoff of the groups of the scope with preference rank `best_rank`: exactly the
/// `few` largest of these groups have a key of at least the cutoff. If there are at most `few` such
/// groups, all of them have such a key. Each step of the binary search halves the range of keys and
/// visits each group once.
fn cutoff(scope: &Scope<'_>, best_rank: u8, reading: &Reading, places: &[u32], few: u128) -> u128
    requires ranking { IsRanking scope.now best_rank reading.now places.now }
    requires few { 0 < few }
    ensures { IsCutoff scope.now best_rank reading.now places.now few result }
{
    let mut low: u128 = 0;
    let mut high = greatest_key(scope, best_rank, reading, places) + 1;
    'halves: while high - low > 1 {
        let middle = low + (high - low) / 2;
        let count = count_reaching(scope, best_rank, reading, places, middle);
        if count == few {
            return middle;
        }
        if count > few {
            low = middle;
        } else {
            high = middle;
        }
    }
    low
}

/// Returns whether fewer than `few` groups of the scope with preference rank `best_rank` are larger
/// than the group at index `place`. Precondition: that group is in the scope and has this rank. The
/// first call computes the cutoff and stores it in `known`; later calls use it.
pub(crate) fn is_among_largest(
    scope: &Scope<'_>,
    best_rank: u8,
    reading: &Reading,
    places: &[u32],
    few: u128,
    known: &mut Option<u128>,
    place: u32,
) -> bool
    requires ranking { IsRanking scope.now best_rank reading.now places.now }
    requires few { 0 < few }
    requires known { IfSome known.old
        (IsCutoff scope.now best_rank reading.now places.now few) }
    requires place { Contains places.now place }
    requires rank { is_in_rank scope.now best_rank
        (group_at reading.now.seen.groups place) ≡ true }
    ensures known { IfSome known.new
        (IsCutoff scope.now best_rank reading.now places.now few) }
    ensures among { result ≡ nat_lt (length (filter (λ other.
        is_larger scope.now.lives other (group_at reading.now.seen.groups place))
        (filter (is_in_rank scope.now best_rank) reading.now.seen.groups))) few }
{
    let key = match *known {
        Some(key) => key,
        None => cutoff(scope, best_rank, reading, places, few),
    };
    *known = Some(key);
    size_key(place, reading.group(place)) >= key
}

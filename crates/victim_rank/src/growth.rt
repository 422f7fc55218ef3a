//! Finds the group that has grown most. The growth of a group is its size divided by the mean of
//! its past sizes.
//!
//! Two growths are compared by cross multiplication, so nothing is rounded.
ghost use Rattle.std.specs.Prelude.{◌≡◌, ◌≤◌, ◌<◌, ◌^◌, ◌*◌, All, MatchOption, filter, length, nat_le, nat_lt, sum, true, ◌&&◌};
ghost use Rattle.ruleset_json.specs.Ranges.{IsRatio};
ghost use Rattle.kill_spec.specs.Victims.{largest_few, unbeaten};
ghost use Rattle.victim_rank.specs.Growth.{has_grown_more_over, is_growing_over, sizes_from};
ghost use Rattle.victim_rank.specs.Scopes.{IsUse, is_in_rank};
ghost use Rattle.victim_rank.specs.Grown.{IsGrown, leads_grown};

use crate::cutoff::is_among_largest;
use crate::past::Past;
use crate::scope::Scope;
use crate::size::is_in_rank;
use detectors::Reading;
use kill_spec::GroupReading;

/// The growth of a group. `place` is the index of the group in a reading, and `current` is its size
/// (bytes). `sizes` is its size multiplied by the number of its past sizes, and `sum` is the sum of
/// its past sizes. The growth is `sizes / sum`: the size divided by the mean of the past sizes.
#[derive(Clone, Copy)]
pub(crate) struct Grown {
    place: u32,
    current: u64,
    sizes: u64,
    sum: u64,
}

fn sum(sizes: &[u64]) -> u64
    requires few { length sizes.now ≤ 4 }
    requires each { All (λ size. size ≤ 2 ^ 60) sizes.now }
    ensures sum { result ≡ sum sizes.now }
    ensures fits { result ≤ 2 ^ 62 }
{
    let mut total = 0;
    'sizes: for size in sizes {
        total += *size;
    }
    total
}

fn growth_of(past: &Past, place: u32, group: &GroupReading) -> Grown
    requires { group.now.current ≤ 2 ^ 60 }
    ensures place { result.place ≡ place }
    ensures grown { IsGrown (sizes_from past.now) result group.now }
{
    let sizes = past.sizes(group);
    Grown {
        place,
        current: group.current,
        sizes: group.current * sizes.len() as u64,
        sum: sum(sizes),
    }
}

// Returns whether the growth is at least `ratio` thousandths. False if the group has no past sizes,
// or if all of them are 0.
fn is_growing(ratio: u32, grown: &Grown) -> bool
    requires ratio { IsRatio ratio }
    requires sizes { grown.now.sizes ≤ 2 ^ 62 }
    requires sum { grown.now.sum ≤ 2 ^ 62 }
    ensures { result
        ≡ (nat_lt 0 grown.now.sum && nat_le (ratio * grown.now.sum) (grown.now.sizes * 1000)) }
{
    grown.sum > 0 && u128::from(grown.sizes) * 1000 >= u128::from(ratio) * u128::from(grown.sum)
}

// Returns whether `next` beats the earlier group `best`: it has grown more, or it has grown equally
// and uses more memory.
fn leads(next: &Grown, best: &Grown) -> bool
    ensures { result ≡ leads_grown next.now best.now }
{
    let next_growth = u128::from(next.sizes) * u128::from(best.sum);
    let best_growth = u128::from(best.sizes) * u128::from(next.sum);
    next_growth > best_growth || (next_growth == best_growth && next.current > best.current)
}

// Returns whether `next` beats the earlier group `best`. True if there is no earlier group.
fn leads_any(next: &Grown, best: Option<Grown>) -> bool
    ensures { MatchOption best (result ≡ true) (λ before.
        result ≡ leads_grown next.now before) }
{
    match best {
        Some(best) => leads(next, &best),
        None => true,
    }
}

/// Returns the group that has grown most, among the `few` largest groups of the scope with
/// preference rank `best_rank`. Only a group whose growth is at least `ratio` thousandths counts;
/// returns `None` if no group has grown that much. Visits each group once. If a group is growing,
/// finding the cutoff takes up to 72 more visits of each group.
pub(crate) fn grown_most(
    scope: &Scope<'_>,
    best_rank: u8,
    reading: &Reading,
    past: &Past,
    ratio: u32,
    few: u128,
) -> Option<GroupReading>
    requires used { IsUse scope.now reading.now past.now }
    requires ratio { IsRatio ratio }
    requires few { 0 < few }
    ensures { result ≡ unbeaten (has_grown_more_over (sizes_from past.now) scope.now.lives)
        (filter (is_growing_over (sizes_from past.now) ratio)
        (largest_few scope.now.lives few
        (filter (is_in_rank scope.now best_rank) reading.now.seen.groups))) }
{
    let places = scope.places(reading);
    let mut best: Option<Grown> = None;
    let mut cutoff: Option<u128> = None;
    'groups: for place in places {
        let group = reading.group(*place);
        if !is_in_rank(scope, best_rank, group) {
            continue;
        }
        let next = growth_of(past, *place, group);
        if is_growing(ratio, &next)
            && leads_any(&next, best)
            && is_among_largest(scope, best_rank, reading, places, few, &mut cutoff, *place)
        {
            best = Some(next);
        }
    }
    match best {
        Some(best) => Some(*reading.group(best.place)),
        None => None,
    }
}

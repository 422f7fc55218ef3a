//! Finds the group that an action chooses first. Groups are ordered by preference, then by the
//! action's measure, then by path.
//!
//! The module `growth` chooses the group that has grown most.
ghost use Rattle.std.specs.Prelude.{◌≡◌, ◌&&◌, ◌<◌, MatchOption, false, filter, length, map, true, if◌then◌else◌};
ghost use Rattle.ruleset_json.specs.Ranges.{FitsAction};
ghost use Rattle.kill_spec.specs.Readings.{path_of};
ghost use Rattle.kill_spec.specs.LegalReadings.{Ascend, IsGroupReading, IsHostReading};
ghost use Rattle.kill_spec.specs.Victims.{beats_by, unbeaten};
ghost use Rattle.victim_rank.specs.Scopes.{IsUse, among, is_eligible, is_in_view, measure_of};
ghost use Rattle.victim_rank.specs.Walks.{leads_measured};

use crate::measure::{measured, rank};
use crate::past::Past;
use crate::scope::Scope;
use detectors::Reading;
use kill_spec::{GroupReading, HostReading};

/// A candidate: the place (index) of its group in a reading, its preference rank, and its measure.
#[derive(Clone, Copy)]
pub(crate) struct Measured {
    place: u32,
    rank: u8,
    measure: u64,
}

// Returns whether `next` beats the earlier candidate `best`: its preference rank is greater, or the
// ranks are equal and its measure is greater.
fn leads(next: &Measured, best: &Measured) -> bool
    ensures { result ≡ leads_measured next.now best.now }
{
    next.rank > best.rank || (next.rank == best.rank && next.measure > best.measure)
}

// Returns the better of two candidates. Returns `next` if there is no earlier candidate.
fn better(best: Option<Measured>, next: Measured) -> Measured
    ensures { MatchOption best (result ≡ next)
        (λ before. result ≡ (if leads_measured next before then next else before)) }
{
    match best {
        Some(best) => { if leads(&next, &best) { next } else { best } }
        None => next,
    }
}

// Returns the measure by which the action orders groups. Returns `None` if the group isn't in the
// scope, or if the action may not choose it.
fn measured_in(
    scope: &Scope<'_>,
    host: HostReading,
    past: &Past,
    group: &GroupReading,
) -> Option<u64>
    requires fits { FitsAction scope.now.act }
    requires host { IsHostReading host }
    requires slots { length past.now.sizes ≡ length scope.now.lives }
    requires group { IsGroupReading (length scope.now.lives) group.now }
    ensures { MatchOption result
        ((is_in_view scope.now group.now
        && is_eligible scope.now.act host past.now group.now) ≡ false)
        (λ measure. ((is_in_view scope.now group.now
        && is_eligible scope.now.act host past.now group.now) ≡ true)
        × (measure ≡ measure_of scope.now.act past.now group.now)) }
{
    if !scope.has(group) {
        return None;
    }
    measured(scope.action(), host, past, group)
}

/// Returns the first group of the scope by preference, then by the action's measure, then by path,
/// among the groups that the action may choose. Returns `None` if there is no such group. Visits
/// each group of the scope once.
pub(crate) fn foremost(scope: &Scope<'_>, reading: &Reading, past: &Past) -> Option<GroupReading>
    requires { IsUse scope.now reading.now past.now }
    ensures choice { result
        ≡ unbeaten (beats_by scope.now.lives (measure_of scope.now.act past.now))
        (filter (is_eligible scope.now.act reading.now.seen.host past.now)
        (among scope.now.lives scope.now.act scope.now.above reading.now.seen)) }
    ensures order { Ascend (map (path_of scope.now.lives) reading.now.seen.groups) }
{
    let host = reading.host();
    let mut best: Option<Measured> = None;
    'groups: for place in scope.places(reading) {
        let group = reading.group(*place);
        if let Some(measure) = measured_in(scope, host, past, group) {
            best = Some(better(
                best,
                Measured {
                    place: *place,
                    rank: rank(group),
                    measure,
                },
            ));
        }
    }
    match best {
        Some(best) => Some(*reading.group(best.place)),
        None => None,
    }
}

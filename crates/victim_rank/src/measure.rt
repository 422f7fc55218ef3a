//! The two numbers by which an action orders groups: the rank of the group's preference, and the
//! action's own measure (size, swap, pressure or pages scanned).
//!
//! The module `foremost` uses both to find the first group.
ghost use Rattle.std.specs.Prelude.{◌≡◌, ◌<◌, ◌≤◌, ◌^◌, All, MatchOption, false, length, true};
ghost use Rattle.pressure_spec.specs.Within.{IsRow};
ghost use Rattle.pressure_spec.specs.Share.{irq_quantity};
ghost use Rattle.ruleset_json.specs.Ranges.{FitsAction, IsSize};
ghost use Rattle.kill_spec.specs.LegalReadings.{IsGroupReading, IsHostReading};
ghost use Rattle.kill_spec.specs.Victims.{is_at_least, pressure_measure, rank_of};
ghost use Rattle.victim_rank.specs.Scopes.{is_eligible, measure_of};

use crate::past::Past;
use kill_spec::{GroupReading, HostReading};
use psi_base::{Level, Preference, Res, State};
use ruleset_json::{Action, Size};

/// Returns the rank of a group's preference. A group with a greater rank is chosen before a group
/// with a lower rank.
pub(crate) fn rank(group: &GroupReading) -> u8
    ensures { result ≡ rank_of group.now }
{
    match group.preference {
        Preference::Prefer => 2,
        Preference::Plain => 1,
        Preference::Avoid => 0,
    }
}

// Returns the sum of the `full` pressure averages of a resource over 10 s and over 60 s.
fn pressure(group: &GroupReading, resource: Res) -> u64
    requires rows { length group.now.averages ≡ irq_quantity }
    requires each { All IsRow group.now.averages }
    ensures { result ≡ pressure_measure resource group.now }
{
    let averages = group.averages[State::of(resource, Level::FullStalled) as usize];
    averages[0] + averages[1]
}

// Returns whether `swap` (bytes in use) is at least `threshold`, a number of bytes or a percentage
// of the host's swap.
fn is_at_least(threshold: Size, host: HostReading, swap: u64) -> bool
    requires threshold { IsSize threshold }
    requires host { IsHostReading host }
    requires swap { swap ≤ 2 ^ 60 }
    ensures { result ≡ is_at_least threshold host swap }
{
    match threshold {
        Size::Bytes(bytes) => swap >= bytes,
        Size::Percent(percent) => {
            u128::from(swap) * 100 >= u128::from(percent) * u128::from(host.swap_total)
        }
    }
}

// Returns the measure, or `None` if it is 0.
fn above_zero(measure: u64) -> Option<u64>
    ensures { MatchOption result (measure ≡ 0) (λ same. (0 < measure) × (same ≡ measure)) }
{
    if measure > 0 { Some(measure) } else { None }
}

/// Returns the measure by which the action orders groups, or `None` if the action may not choose
/// the group.
pub(crate) fn measured(
    action: &Action,
    host: HostReading,
    past: &Past,
    group: &GroupReading,
) -> Option<u64>
    requires fits { FitsAction action.now }
    requires host { IsHostReading host }
    requires group { IsGroupReading (length past.now.sizes) group.now }
    ensures { MatchOption result (is_eligible action.now host past.now group.now ≡ false)
        (λ measure. (is_eligible action.now host past.now group.now ≡ true)
        × (measure ≡ measure_of action.now past.now group.now)) }
{
    match action {
        Action::SizeOrGrowth { .. } => Some(group.current),
        Action::SwapUsage { threshold, .. } => {
            if is_at_least(*threshold, host, group.swap) {
                Some(group.swap)
            } else {
                None
            }
        }
        Action::Pressure { resource, .. } => above_zero(pressure(group, *resource)),
        Action::PgScan { .. } => above_zero(past.rise(group)),
    }
}

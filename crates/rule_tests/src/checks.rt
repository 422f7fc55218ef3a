//! Predicates that check whether values are in range. Their contracts establish the preconditions
//! of the tested calls.

ghost use Rattle.std.specs.Prelude.{◌≡◌, ◌<◌, ◌≤◌, All, length, true};
ghost use Rattle.pressure_spec.specs.Within.{IsRow};
ghost use Rattle.kill_spec.specs.LegalReadings.{IsGroupReading, IsHostReading};
ghost use Rattle.ruleset_json.specs.Ranges.{FitsAction, IsSize, IsStallable};
ghost use Rattle.detectors.specs.Views.{ComesLast};

use detectors::{GroupReading, HostReading, Reading};
use psi_base::Res;
use ruleset_json::{Action, After, Size};

/// The maximum number of bytes or scans in a sample: 2^60.
pub const MOST: u64 = 1 << 60;

/// The greatest average, 100 percent, in fixed point (2,048 is one percent).
const WHOLE: u64 = 204_800;

/// Returns whether a sample of the host is in range.
pub fn is_host(host: &HostReading) -> bool
    ensures { result ≡ true → IsHostReading host.now }
{
    host.mem_total <= MOST && host.swap_total <= MOST && host.swap_free <= MOST
}

/// Returns whether each of a state's averages is at most 100 percent.
fn is_row(row: &[u64; 3]) -> bool
    ensures { result ≡ true → IsRow row.now }
{
    'averages: for average in row {
        if *average > WHOLE {
            return false;
        }
    }
    true
}

/// Returns whether the averages of all states are at most 100 percent.
fn are_rows(rows: &[[u64; 3]]) -> bool
    ensures { result ≡ true → All IsRow rows.now }
{
    'rows: for row in rows {
        if !is_row(row) {
            return false;
        }
    }
    true
}

/// Returns whether a group's values are in range and its slot is below `slots`.
pub fn is_group(group: &GroupReading, slots: usize) -> bool
    ensures { result ≡ true → IsGroupReading slots group.now }
{
    let is_small = group.current <= MOST && group.swap <= MOST && group.scan <= MOST;
    (group.slot.0 as usize) < slots && is_small && are_rows(&group.averages)
}

/// Returns whether a group's path comes after all paths of a reading.
pub fn comes_last(reading: &Reading, group: &GroupReading) -> bool
    requires { group.now.slot.0 < length reading.now.lives }
    ensures { result ≡ true → ComesLast reading.now group.now }
{
    match reading.groups().last() {
        Some(before) => reading.path(before.slot) < reading.path(group.slot),
        None => true,
    }
}

fn is_size(size: Size) -> bool
    ensures { result ≡ true → IsSize size }
{
    match size {
        Size::Bytes(bytes) => bytes <= MOST,
        Size::Percent(percent) => percent <= 100,
    }
}

fn is_stallable(resource: Res) -> bool
    ensures { result ≡ true → IsStallable resource }
{
    match resource {
        Res::Io => true,
        Res::Memory => true,
        Res::Cpu => false,
    }
}

fn is_time(after: &After) -> bool
    ensures { result ≡ true → after.now.delay_s ≤ 1000000 }
{
    after.delay_s <= 1_000_000
}

/// Returns whether an action's arguments are in range.
pub fn is_action(action: &Action) -> bool
    ensures { result ≡ true → FitsAction action.now }
{
    match action {
        Action::SizeOrGrowth {
            size_threshold,
            percentile,
            ratio,
            after,
            ..
        } => *size_threshold <= 100 && *percentile <= 100 && *ratio <= 1_000_999 && is_time(after),
        Action::SwapUsage {
            threshold,
            after,
            ..
        } => is_size(*threshold) && is_time(after),
        Action::Pressure {
            resource,
            after,
            ..
        } => is_stallable(*resource) && is_time(after),
        Action::PgScan { after, .. } => is_time(after),
    }
}

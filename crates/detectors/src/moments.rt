//! Updates and compares the times (ns) that a detector stores.
//!
//! The module `conditions` evaluates the conditions themselves.
ghost use Rattle.std.specs.Prelude.{◌≡◌, None, Some, if◌then◌else◌};
ghost use Rattle.detectors.specs.Tables.{is_long, is_recent, run_after};
ghost use Rattle.detectors.specs.Views.{IsBy};
ghost use Rattle.kill_spec.specs.Detectors.{of_seconds};

use psi_base::Ns;

/// Converts seconds to ns.
pub(crate) fn of_seconds(seconds: u32) -> Ns
    ensures { result ≡ of_seconds seconds }
{
    u64::from(seconds) * 1_000_000_000
}

/// Returns the time (ns) since which a condition has held without interruption, or `None` if the
/// condition doesn't hold. `holds` is the result of testing the condition at time `now` (ns), and
/// `run` is the return value for the previous test.
pub(crate) fn run_after(run: Option<Ns>, holds: bool, now: Ns) -> Option<Ns>
    ensures { result ≡ run_after run holds now }
{
    if !holds {
        return None;
    }
    match run {
        Some(start) => Some(start),
        None => Some(now),
    }
}

/// Returns the time (ns) of the last increase of a scan count at a reading at time `now` (ns).
/// `has_risen` says whether a count increased at this reading. `increased` is the time of the last
/// earlier increase.
pub(crate) fn rise_after(increased: Option<Ns>, has_risen: bool, now: Ns) -> Option<Ns>
    ensures { result ≡ (if has_risen then Some now else increased) }
{
    if has_risen { Some(now) } else { increased }
}

/// Returns whether a condition that has held since time `run` (ns) has held for at least `duration`
/// (ns) at time `now` (ns). Returns false if `run` is `None`.
pub(crate) fn is_long(run: Option<Ns>, duration: Ns, now: Ns) -> bool
    requires { IsBy run (Some now) }
    ensures { result ≡ is_long run duration now }
{
    match run {
        Some(start) => now - start >= duration,
        None => false,
    }
}

/// Returns whether `moment` (ns) is at most `duration` (ns) before time `now` (ns). Returns false
/// if `moment` is `None`.
pub(crate) fn is_recent(moment: Option<Ns>, duration: Ns, now: Ns) -> bool
    requires { IsBy moment (Some now) }
    ensures { result ≡ is_recent moment duration now }
{
    match moment {
        Some(moment) => now - moment <= duration,
        None => false,
    }
}

//! Reads a trace and splits it into plans. Each plan lists the changes of one processor. Other
//! crates advance clocks by the plans.
ghost use Rattle.std.specs.Prelude.{◌≡◌, ◌+◌, ◌≤◌, None, IsErrOf, MatchResult};
ghost use Rattle.outside.specs.Outside.{IsAbsent, counts_of, content_of};
ghost use Rattle.outside.specs.Reads.{ReadsFile};
ghost use Rattle.run_spec.specs.MostRead.{most_of_trace};
ghost use Rattle.trace_file.specs.Reads.{CausesTraceFault, PlansRead, StopsAtRefusal, ShowsNothing, TraceRefused, shelf_fault_in};

use crate::trace::{TraceFault, play_trace};
use outside::Shelf;
use proc_plan::{Planner, Plans};
use psi_base::Ns;
use std::alloc::Global;

/// Reads a trace of any version, and splits it by processor. Returns the version's number and the
/// plans. Rejects an event that is later than a million ticks of length `tick` (ns).
pub fn read_plans<S: Shelf>(
    alloc: Global,
    name: &str,
    shelf: &mut S,
    tick: Ns,
) -> Result<(u32, Plans), TraceFault>
    requires { tick ≤ 60000000000 }
    ensures unchanged { S.holds shelf.new ≡ S.holds shelf.old }
    ensures content { MatchResult result
        (λ read. PlansRead read.1 read.0 tick (content_of (S.holds shelf.old) name.now))
        (λ fault. TraceRefused fault tick (content_of (S.holds shelf.old) name.now)) }
    ensures missing { IsAbsent (S.holds shelf.old) name.now → ShowsNothing result }
    ensures missed { IsErrOf result TraceFault.NoFile →
        content_of (S.holds shelf.old) name.now ≡ None }
    ensures cause { CausesTraceFault (counts_of (S.faults shelf.old) (S.absent shelf.old))
        (counts_of (S.faults shelf.new) (S.absent shelf.new)) result }
    ensures bytes_read { S.bytes_read shelf.new ≤ S.bytes_read shelf.old + most_of_trace }
    ensures stops { StopsAtRefusal tick (content_of (S.holds shelf.old) name.now)
        (S.bytes_read shelf.old) (S.bytes_read shelf.new) result }
    ensures order { ReadsFile name.now 0
        (S.reads shelf.old) (S.reads shelf.new) (shelf_fault_in result) }
{
    let (version, planner) = match play_trace::<S, Planner>(alloc, name, shelf, tick) {
        Ok(played) => played,
        Err(fault) => return Err(fault),
    };
    Ok((version, planner.finish(alloc)?))
}

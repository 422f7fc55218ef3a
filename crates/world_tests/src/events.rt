//! Helpers that several modules share: traces, and functions that parse the lines of a trace or
//! build its plans.

ghost use Rattle.std.specs.Prelude.{◌≡◌, ◌≤◌, length, IfOk};
ghost use Rattle.psi_spec.specs.Trace.{AllFit, IsCpuCount};
ghost use Rattle.psi_spec.specs.Within.{last_moment};

use proc_plan::Plans;
use psi_base::{Cause, Event, Fault, Ns};
use psi_trace::read_event;
use std::alloc::Global;
use std::process::Abort;

/// A trace of one task, which waits for IO for one second and then for a processor.
pub const WAITS: [&[u8]; 5] = [
    b"0 fork 1 / 0",
    b"0 switch 0 1 idle",
    b"500000000 switch 0 0 iowait",
    b"1500000000 wake 1 0",
    b"2000000000 end",
];

/// A trace of one task in the root group, which runs for two seconds. Interrupts take a quarter of
/// a second of that time. The interrupts after the task stops running are charged to no group.
pub const INTERRUPTS: [&[u8]; 6] = [
    b"0 fork 1 / 0",
    b"0 switch 0 1 idle",
    b"1000000000 irq 0 250000000",
    b"2000000000 switch 0 0 iowait",
    b"2000000000 irq 0 500000000",
    b"2000000000 end",
];

/// Parses one event from each line. Returns the cause of the first line that isn't an event.
pub fn events_of(alloc: Global, lines: &[&[u8]]) -> Result<Vec<Event>, Fault<Cause>>
    ensures { IfOk result (λ events. AllFit events.items) }
{
    let mut events = Vec::new(alloc);
    'lines: for line in lines {
        let event = read_event(alloc, 2, line)?;
        events.push(event)?;
    }
    Ok(events)
}

/// Builds the plans of the trace with these lines, for `cpus` processors and times up to `latest`
/// (ns).
pub fn plans_of(rt: &impl Abort, alloc: Global, cpus: u32, latest: Ns, lines: &[&[u8]]) -> Plans
    requires counted { IsCpuCount cpus }
    requires short { latest ≤ last_moment }
    ensures { length result.plans ≡ cpus }
{
    let events = events_of(alloc, lines).expect(rt, "events");
    Plans::build(alloc, cpus, latest, &events).expect(rt, "plans")
}

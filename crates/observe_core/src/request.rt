//! Runs a parsed request: reads the trace, replays it while observers take samples, and writes the
//! samples. The words of the request are parsed in `words`.
ghost use Rattle.std.specs.Prelude.{◌≡◌, ◌+◌, ◌*◌, ◌/◌, ◌≤◌, ◌<◌, [], length};
ghost use Rattle.outside.specs.Outside.{HasCause};
ghost use Rattle.outside.specs.Calls.{PutsAll};
ghost use Rattle.psi_spec.specs.Trace.{Trace};
ghost use Rattle.psi_spec.specs.Within.{last_moment};
ghost use Rattle.run_spec.specs.MostRead.{most_of_trace};
ghost use Rattle.run_spec.specs.Run.{run_counts};
ghost use Rattle.run_spec.specs.LegalCommand.{IsWithin};
ghost use Rattle.observe_spec.specs.Run.{Observes, ReadsTraceInOrder, StopsObserving};
ghost use Rattle.observe_core.specs.Requested.{request_in};
ghost use Rattle.observe_core.specs.Printed.{printed};
ghost use Rattle.observe_core.specs.Results.{IsPlannedFor, IsStatusOf, WritesObserved, WritesText};

use crate::lines::put_observed;
use crate::observed::{Observed, observe_trace};
use crate::words::Request;
use observe_spec::ObserveStatus;
use observer_log::{BoardState, Entry};
use outside::{BufferedSink, Gate, Pending, Shelf, Sink, WriteFailed};
use proc_plan::Plans;
use psi_base::{DEFAULT_TICK, Ns};
use std::alloc::Global;
use std::marker::Brand;
use std::sync::Wait;
use std::sync::ledger::Blank;
use std::thread::Threads;
use trace_file::{TraceFault, read_plans};

/// The maximum number of samples that a run may take.
const MOST_SAMPLES: u64 = 1_000_000;

// Returns the status of a run that failed to read the trace.
fn fault_status(fault: TraceFault) -> ObserveStatus
    ensures status { IsStatusOf fault result }
{
    match fault {
        TraceFault::Refused(refusal) => ObserveStatus::Trace {
            line: refusal.line,
            cause: refusal.cause,
        },
        TraceFault::NoFile => ObserveStatus::NoFile,
        TraceFault::ReadFault => ObserveStatus::ReadFault,
        TraceFault::NoMemory(none) => ObserveStatus::NoMemory(none),
    }
}

// Returns the number of samples that the observers take if a group has the path at every tick: one
// per tick, observer and processor.
fn samples_requested(plans: &Plans, observers: u32) -> u64
    requires early { plans.now.finish ≤ last_moment }
    requires few { length plans.now.plans ≤ 64 }
    requires within { observers ≤ 8 }
    ensures { result ≡ plans.now.finish / 2000000000 * observers * length plans.now.plans }
{
    plans.finish() / DEFAULT_TICK * u64::from(observers) * u64::from(plans.cpus())
}

// Writes all output lines through the buffer `pending`, so that the sink gets large pieces.
fn send<K: Sink>(
    pending: &mut Pending,
    entries: &[Entry<'_>],
    states: &[BoardState],
    finish: Ns,
    out: &mut K,
) -> Result<(), WriteFailed>
    requires none { pending.old ≡ [] }
    requires few { length states.now ≤ 8 }
    ensures bytes { PutsAll (K.has out.old) (K.has out.new) result
        (printed entries.now states.now finish) }
    ensures cause { HasCause (K.faults out.old) (K.faults out.new) result }
{
    let mut buffered = BufferedSink::new(out, pending);
    match put_observed(&mut buffered, entries, states, finish) {
        Ok(()) => buffered.flush(),
        Err(failed) => Err(failed),
    }
}

// Writes the samples, and the board state that each observer read last. Returns `Done`, or
// `WriteFault` if a write failed.
fn write<K: Sink>(
    pending: &mut Pending,
    observed: &Observed<'_>,
    finish: Ns,
    out: &mut K,
) -> ObserveStatus
    requires none { pending.old ≡ [] }
    requires few { length observed.now.states.items ≤ 8 }
    ensures writes { WritesText
        (printed observed.now.entries.items observed.now.states.items finish)
        (K.faults out.old) (K.faults out.new) (K.has out.old) (K.has out.new) result }
{
    match send(pending, &observed.entries, &observed.states, finish, out) {
        Ok(()) => ObserveStatus::Done,
        Err(WriteFailed) => ObserveStatus::WriteFault,
    }
}

// Replays the trace of `plans` while observers take samples, and writes the samples. `version` is
// the trace's version. Writes nothing if there would be too many samples or if memory runs out.
fn write_observed<R: Threads + Wait + Sync, K: Sink, G: Gate>(
    rt: &R,
    alloc: Global,
    version: u32,
    plans: &Plans,
    request: &Request<'_>,
    out: &mut K,
    gate: &G,
) -> ObserveStatus
    requires within { IsWithin 1 8 request.now.observers }
    requires planned { (trace : Trace) × IsPlannedFor plans.now trace version request.now.path }
    ensures writes { (trace : Trace) → IsPlannedFor plans.now trace version request.now.path →
        WritesObserved (request_in request.now) trace (K.faults out.old) (K.faults out.new)
        (K.has out.old) (K.has out.new) result }
{
    let samples = samples_requested(plans, request.observers);
    if samples > MOST_SAMPLES {
        return ObserveStatus::TooManySamples { samples };
    }
    let mut pending = match Pending::new(alloc) {
        Ok(pending) => pending,
        Err(none) => return ObserveStatus::NoMemory(none),
    };
    let blank = Blank::new(u64::from(request.observers));
    match observe_trace::<Brand, R, G>(rt, alloc, blank, version, plans, request, gate) {
        Ok(observed) => write(&mut pending, &observed, plans.finish(), out),
        Err(none) => ObserveStatus::NoMemory(none),
    }
}

/// Runs a request: reads the trace, replays it while observers take samples, and writes the
/// samples. Returns the status of the run.
pub(crate) fn run_request<R: Threads + Wait + Sync, S: Shelf, K: Sink, G: Gate>(
    rt: &R,
    alloc: Global,
    request: &Request<'_>,
    shelf: &mut S,
    out: &mut K,
    gate: &G,
) -> ObserveStatus
    requires within { IsWithin 1 8 request.now.observers }
    ensures unchanged { S.holds shelf.new ≡ S.holds shelf.old }
    ensures runs { Observes (request_in request.now) (S.holds shelf.old)
        (run_counts (S.faults shelf.old) (S.absent shelf.old) (K.faults out.old))
        (run_counts (S.faults shelf.new) (S.absent shelf.new) (K.faults out.new))
        (K.has out.old) (K.has out.new) result }
    ensures reads { S.bytes_read shelf.new ≤ S.bytes_read shelf.old + most_of_trace }
    ensures stops { StopsObserving (request_in request.now) (S.holds shelf.old)
        (S.bytes_read shelf.old) (S.bytes_read shelf.new) result }
    ensures order { ReadsTraceInOrder (request_in request.now)
        (S.reads shelf.old) (S.reads shelf.new) result }
{
    match read_plans(alloc, request.trace, shelf, DEFAULT_TICK) {
        Ok((version, plans)) => write_observed(rt, alloc, version, &plans, request, out, gate),
        Err(fault) => fault_status(fault),
    }
}

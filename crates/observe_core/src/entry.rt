//! The public call of `psi_observe`. Its contract is the specification of the whole program; the
//! definitions that it uses are in the crate observe_spec.
ghost use Rattle.std.specs.Prelude.{◌≡◌, ◌≢◌, ◌↔◌, ◌+◌, ◌≤◌, ℕ, List, Some, None, Ok, map, string_bytes};
ghost use Rattle.std.specs.Io.KnownBytes.{Appends, Keeps};
ghost use Rattle.outside.specs.Outside.{AppendsPrefix, Increased, content_of};
ghost use Rattle.psi_spec.specs.Trace.{Trace, trace_of};
ghost use Rattle.run_spec.specs.MostRead.{most_of_trace};
ghost use Rattle.run_spec.specs.Run.{run_counts};
ghost use Rattle.observe_spec.specs.declared.status.ObserveStatus.{ObserveStatus};
ghost use Rattle.observe_spec.specs.Observed.{IsObservedText};
ghost use Rattle.observe_spec.specs.Run.{ObserverFailuresAreCounted, Observes, ObservesAll, ReadsTraceInOrder, RejectsManySamples, RejectsTrace, StopsObserving, accepts, timing_on};
ghost use Rattle.observe_spec.specs.Status.{observe_status_text};
ghost use Rattle.observe_spec.specs.Words.{Request, request_of};

use crate::note::put_status;
use crate::request::run_request;
use crate::words::read_request;
use observe_spec::ObserveStatus;
use outside::{Gate, Shelf, Sink};
use psi_base::Fault;
use std::alloc::Global;
use std::sync::Wait;
use std::thread::Threads;

/// Runs one command line of `psi_observe`. `words` is the command line without the program's name:
/// a trace, a number of observers and the path of a group. The trace is replayed while the
/// observers sample the clocks of the group and read the board of ticks. Each observer runs in its
/// own thread if a thread can be started. Writes the output to `out`, and the message of the status
/// to `note` (standard error): one line, or nothing for `Done`. A failed write to `note` doesn't
/// change the status. `gate` is a hook for tests: the threads of the replay call it after each
/// change that they make. An observer calls it before each sample, with the observer's number, and
/// after it added the sample's entry to the journal.
pub fn observe<R: Threads + Wait + Sync, S: Shelf, K: Sink, N: Sink, G: Gate>(
    rt: &R,
    alloc: Global,
    words: &[String],
    shelf: &mut S,
    out: &mut K,
    note: &mut N,
    gate: &G,
) -> ObserveStatus
    // The run doesn't change the files.
    ensures unchanged { S.holds shelf.new ≡ S.holds shelf.old }

    // The result is Usage if and only if the words aren't a name, a number from 1 to 8 and a path.
    ensures usage { (result ≡ ObserveStatus.Usage)
        ↔ (request_of (map string_bytes words.now) ≡ None) }

    // The general contract. For each status it states what is known about the trace, the output,
    // and the numbers of failed reads and writes.
    ensures runs { (request : Request) →
        request_of (map string_bytes words.now) ≡ Some request →
        Observes request (S.holds shelf.old)
        (run_counts (S.faults shelf.old) (S.absent shelf.old) (K.faults out.old))
        (run_counts (S.faults shelf.new) (S.absent shelf.new) (K.faults out.new))
        (K.has out.old) (K.has out.new) result }

    // If the result is Done, the appended text is a possible output for this trace, path and number
    // of observers. A sample is taken in the interval between two ticks. It includes at least its
    // processor's changes up to the first of the two ticks, and at most the changes up to the
    // second.
    ensures observed { (request : Request) (bytes : List ℕ) →
        request_of (map string_bytes words.now) ≡ Some request →
        content_of (S.holds shelf.old) request.trace ≡ Some bytes →
        result ≡ ObserveStatus.Done →
        (trace : Trace) × (trace_of accepts bytes ≡ Ok trace)
        × ((text : List ℕ)
        × IsObservedText trace (timing_on request.path) request.path request.observers text
        × Appends (K.has out.old) (K.has out.new) text) }

    // If the trace is accepted and at most a million samples are due, the whole output is written.
    // Exceptions: a read or write fails, or memory runs out.
    ensures complete { (request : Request) →
        request_of (map string_bytes words.now) ≡ Some request →
        ObservesAll request (S.holds shelf.old)
        (run_counts (S.faults shelf.old) (S.absent shelf.old) (K.faults out.old))
        (run_counts (S.faults shelf.new) (S.absent shelf.new) (K.faults out.new)) result }

    // If the trace is accepted and more than a million samples are due, the result is
    // TooManySamples, unless a read fails or memory runs out.
    ensures many { (request : Request) →
        request_of (map string_bytes words.now) ≡ Some request →
        RejectsManySamples request (S.holds shelf.old)
        (run_counts (S.faults shelf.old) (S.absent shelf.old) (K.faults out.old))
        (run_counts (S.faults shelf.new) (S.absent shelf.new) (K.faults out.new)) result }

    // If the trace is rejected, the result is its first rejected line with the cause, unless a read
    // fails or memory runs out.
    ensures refuses { (request : Request) →
        request_of (map string_bytes words.now) ≡ Some request →
        RejectsTrace request (S.holds shelf.old)
        (run_counts (S.faults shelf.old) (S.absent shelf.old) (K.faults out.old))
        (run_counts (S.faults shelf.new) (S.absent shelf.new) (K.faults out.new)) result }

    // Each of the numbers of failed reads, missing files and failed writes increased if and only if
    // the status reports that failure.
    ensures counts { ObserverFailuresAreCounted
        (run_counts (S.faults shelf.old) (S.absent shelf.old) (K.faults out.old))
        (run_counts (S.faults shelf.new) (S.absent shelf.new) (K.faults out.new)) result }

    // At most `most_of_trace` bytes are read, whatever the size of the trace's file. If the words
    // don't form a request, nothing is read.
    ensures reads { S.bytes_read shelf.new ≤ S.bytes_read shelf.old + most_of_trace }
    ensures unread { request_of (map string_bytes words.now) ≡ None →
        S.bytes_read shelf.new ≡ S.bytes_read shelf.old }
    ensures no_reads { request_of (map string_bytes words.now) ≡ None →
        S.reads shelf.new ≡ S.reads shelf.old }

    // The trace is read in order, from its first byte without gaps, and nothing is read after a
    // failed read.
    ensures order { (request : Request) →
        request_of (map string_bytes words.now) ≡ Some request →
        ReadsTraceInOrder request (S.reads shelf.old) (S.reads shelf.new) result }

    // Reading stops at the first rejected line of the trace. If the result reports that line, at
    // most the lines before it and one buffer of bytes were read. If a read fails although the file
    // has a rejected line, that line was incomplete in the bytes read before the failure.
    ensures stops { (request : Request) →
        request_of (map string_bytes words.now) ≡ Some request →
        StopsObserving request (S.holds shelf.old) (S.bytes_read shelf.old) (S.bytes_read shelf.new)
        result }

    // Unless the result is Done or WriteFault, the output is unchanged.
    ensures quiet { result ≢ ObserveStatus.Done → result ≢ ObserveStatus.WriteFault →
        Keeps (K.has out.old) (K.has out.new) }

    // The message of the status was appended to `note`: all of it if every write to `note`
    // succeeded, and a prefix of it if a write failed.
    ensures note { (Increased (N.faults note.old) (N.faults note.new) → ⊥) →
        Appends (N.has note.old) (N.has note.new)
        (observe_status_text (request_of (map string_bytes words.now)) result) }
    ensures note_prefix { AppendsPrefix (N.has note.old) (N.has note.new)
        (observe_status_text (request_of (map string_bytes words.now)) result) }
{
    match read_request(alloc, words) {
        Ok(request) => {
            let status = run_request(rt, alloc, &request, shelf, out, gate);
            let _ = put_status(note, Some(&request), status);
            status
        }
        Err(Fault::Refused(_)) => {
            let _ = put_status(note, None, ObserveStatus::Usage);
            ObserveStatus::Usage
        }
        Err(Fault::NoMemory(none)) => {
            let _ = put_status(note, None, ObserveStatus::NoMemory(none));
            ObserveStatus::NoMemory(none)
        }
    }
}

//! Writes the messages of statuses to standard error. A run that succeeds has no message.
ghost use Rattle.std.specs.Prelude.{◌≡◌};
ghost use Rattle.outside.specs.Outside.{HasCause};
ghost use Rattle.outside.specs.Calls.{PutsAll};
ghost use Rattle.observe_spec.specs.Status.{observe_status_text, trace_text};
ghost use Rattle.observe_core.specs.Requested.{requested_in};

use crate::words::Request;
use observe_spec::ObserveStatus;
use outside::{Sink, WriteFailed, put_all, put_each};
use trace_file::put_refusal;

// Returns the name of the trace file, or an empty name if there is no request.
fn trace_name<'a>(request: Option<&Request<'a>>) -> &'a [u8]
    ensures { result.now ≡ trace_text (requested_in request.entry) }
{
    match request {
        Some(request) => request.trace.as_bytes(),
        None => b"",
    }
}

/// Writes the message of a status as one line, or nothing for `Done`. Does not allocate.
pub(crate) fn put_status<N: Sink>(
    note: &mut N,
    request: Option<&Request<'_>>,
    status: ObserveStatus,
) -> Result<(), WriteFailed>
    ensures bytes { PutsAll (N.has note.old) (N.has note.new) result
        (observe_status_text (requested_in request.entry) status) }
    ensures cause { HasCause (N.faults note.old) (N.faults note.new) result }
{
    match status {
        ObserveStatus::Done => put_all(note, b""),
        ObserveStatus::Usage => put_all(note, b"usage: psi_observe TRACE OBSERVERS PATH\n"),
        ObserveStatus::Trace { line, cause } => put_refusal(note, line, cause),
        ObserveStatus::NoFile => put_each(
            note,
            &[
                b"no file: ".as_slice(),
                trace_name(request),
                b"\n".as_slice(),
            ],
        ),
        ObserveStatus::ReadFault => put_all(note, b"read fault\n"),
        ObserveStatus::WriteFault => put_all(note, b"write fault\n"),
        ObserveStatus::NoMemory(_) => put_all(note, b"out of memory\n"),
        ObserveStatus::TooManySamples { .. } => put_all(note, b"too many samples\n"),
    }
}

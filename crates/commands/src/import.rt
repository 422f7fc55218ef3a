//! The command `import`: converts a text of the kernel's ftrace to a trace. The crate ftrace_import
//! parses the text.
ghost use Rattle.std.specs.Prelude.{◌≡◌, ◌+◌, ◌≤◌, ◌++◌, ◌∷◌, IfOk, vec_capacity};
ghost use Rattle.outside.specs.Outside.{HasCause, SameInner};
ghost use Rattle.outside.specs.Calls.{PutsAll};
ghost use Rattle.psi_spec.specs.Grammar.{header};
ghost use Rattle.psi_spec.specs.Trace.{AllFit, lines_of, text_of};
ghost use Rattle.import_spec.specs.Import.{import_trace};
ghost use Rattle.run_spec.specs.MostRead.{most_read};
ghost use Rattle.run_spec.specs.Run.{Runs, run_counts};
ghost use Rattle.run_spec.specs.ReadOrder.{ReadsInOrder};
ghost use Rattle.run_spec.specs.Stops.{StopsAtRefusal};
ghost use Rattle.run_spec.specs.LegalCommand.{IsWithin};
ghost use Rattle.commands.specs.Import.{IsStatusOfImport};
ghost use Rattle.run_outcomes.specs.Writes.{WritesText};

use ftrace_import::{ImportFault, Imported, read_import};
use outside::{Shelf, Sink, WriteFailed};
use psi_base::NoMemory;
use run_spec::{Command, Status, Which};
use std::alloc::Global;
use trace_gen::{put_event, put_header};

/// The largest size (bytes) of the line of an event, including the newline.
const ROOM: usize = 513;

// Returns the status of a run whose ftrace text was rejected or couldn't be read.
fn import_status(fault: ImportFault) -> Status
    ensures { IsStatusOfImport fault result }
{
    match fault {
        ImportFault::Refused { line, cause } => Status::Import { line, cause },
        ImportFault::NoFile => Status::NoFile {
            which: Which::ImportFile,
        },
        ImportFault::ReadFault => Status::ReadFault,
        ImportFault::NoMemory(none) => Status::NoMemory(none),
    }
}

// Writes the lines of the remaining events. Requires that `line` has capacity for the line of any
// event.
fn put_events<K: Sink>(
    events: &mut Imported,
    line: &mut Vec<u8>,
    out: &mut K,
) -> Result<(), WriteFailed>
    requires fit { AllFit events.old.left }
    requires room { 513 ≤ vec_capacity line.old }
    ensures bytes { PutsAll (K.has out.old) (K.has out.new) result (lines_of events.old.left) }
    ensures cause { HasCause (K.faults out.old) (K.faults out.new) result }
    ensures below { SameInner (K.below out.old) (K.below out.new) }
{
    'events: while events.advance() {
        put_event(events.event(), line, out)?;
    }
    Ok(())
}

// Writes the header of a trace with `cpus` processors, and the lines of the remaining events.
// Requires that `line` has capacity for the line of any event.
#[tactic(auto, using(outside::proofs::Grows::chain))]
fn put_imported<K: Sink>(
    cpus: u32,
    events: &mut Imported,
    line: &mut Vec<u8>,
    out: &mut K,
) -> Result<(), WriteFailed>
    requires fit { AllFit events.old.left }
    requires room { 513 ≤ vec_capacity line.old }
    ensures bytes { PutsAll (K.has out.old) (K.has out.new) result
        (header 1 cpus ++ 10 ∷ lines_of events.old.left) }
    ensures cause { HasCause (K.faults out.old) (K.faults out.new) result }
    ensures below { SameInner (K.below out.old) (K.below out.new) }
{
    put_header(cpus, line, out)?;
    put_events(events, line, out)
}

// Creates an empty line with capacity for the line of any event.
fn new_line(alloc: Global) -> Result<Vec<u8>, NoMemory>
    ensures { IfOk result (λ line. 513 ≤ vec_capacity line) }
{
    Ok(Vec::with_capacity(alloc, ROOM)?)
}

// Writes the trace of the imported events. If memory runs out, nothing is written.
fn write_imported<K: Sink>(alloc: Global, cpus: u32, mut events: Imported, out: &mut K) -> Status
    requires { AllFit events.left }
    ensures writes { WritesText (text_of (import_trace cpus events.left))
        (K.faults out.old) (K.faults out.new) (K.has out.old) (K.has out.new) result }
    ensures below { SameInner (K.below out.old) (K.below out.new) }
{
    let mut line = match new_line(alloc) {
        Ok(line) => line,
        Err(none) => {
            drop(events);
            return Status::NoMemory(none);
        }
    };
    match put_imported(cpus, &mut events, &mut line, out) {
        Ok(()) => {
            drop(events);
            Status::Done
        }
        Err(WriteFailed) => {
            drop(events);
            Status::WriteFault
        }
    }
}

/// Runs `import` on the ftrace file `name`, which was recorded on a machine with `cpus` processors.
/// The whole file is read before anything is written.
pub fn run_import<S: Shelf, K: Sink>(
    alloc: Global,
    name: &str,
    cpus: u32,
    shelf: &mut S,
    out: &mut K,
) -> Status
    requires { IsWithin 1 64 cpus }
    ensures unchanged { S.holds shelf.new ≡ S.holds shelf.old }
    ensures runs { Runs (Command.Import name.now cpus) (S.holds shelf.old)
        (run_counts (S.faults shelf.old) (S.absent shelf.old) (K.faults out.old))
        (run_counts (S.faults shelf.new) (S.absent shelf.new) (K.faults out.new))
        (K.has out.old) (K.has out.new) result }
    ensures reads { S.bytes_read shelf.new
        ≤ S.bytes_read shelf.old + most_read (Command.Import name.now cpus) }
    ensures stops { StopsAtRefusal (Command.Import name.now cpus) (S.holds shelf.old)
        (S.bytes_read shelf.old) (S.bytes_read shelf.new) result }
    ensures order { ReadsInOrder (Command.Import name.now cpus) (S.holds shelf.old)
        (S.reads shelf.old) (S.reads shelf.new) result }
    ensures below { SameInner (K.below out.old) (K.below out.new) }
{
    match read_import(alloc, shelf, name, cpus) {
        Ok(events) => write_imported(alloc, cpus, events, out),
        Err(fault) => import_status(fault),
    }
}

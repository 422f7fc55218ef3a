//! Imports an ftrace text from a file in the file store (`Shelf`). The module `marked` parses the
//! lines, and `taking` collects their events.
ghost use Rattle.std.specs.Prelude.{◌≡◌, ◌+◌, ◌≤◌, ℕ, List, [], IfOk, IsErrOf, MatchResult, Some, None, Ok, true, false};
ghost use Rattle.outside.specs.Outside.{content_of, IsAbsent, counts_of};
ghost use Rattle.outside.specs.Reads.{ReadsFile};
ghost use Rattle.psi_lines.specs.Lines.{left};
ghost use Rattle.psi_spec.specs.Trace.{IsCpuCount};
ghost use Rattle.psi_spec.specs.World.{first_world};
ghost use Rattle.import_spec.specs.Events.{unreached};
ghost use Rattle.import_spec.specs.Import.{import_of};
ghost use Rattle.ftrace_import.specs.Gathers.{CausesImportFault, Gathers, IsGathered, IsLineFault, KeepsLines, LineInOrder, LinesGive, NextGives, ReadsLine, RefusalOf, StopsAtRefusal, ShowsNothing, import_fault, most_of_text, reached_in, rest_from, shelf_fault_in, whole_events};
ghost use Rattle.ftrace_import.specs.Stands.{Ends};

use crate::deeds::event_of;
use crate::taking::{Gathering, start, take_line};
use import_spec::ImportCause;
use outside::Shelf;
use psi_base::{Act, Event, Fault, NoMemory};
use psi_lines::{LineFault, Lines};
use std::alloc::Global;

/// The maximum number of lines. A longer text is rejected.
const MOST_LINES: u32 = 16_000_000;

/// The reason why an import fails.
#[derive(Clone, Copy, Debug, PartialEq, Eq)]
pub enum ImportFault {
    /// A line was rejected. `cause` is the first reason for rejecting it. Lines are numbered from
    /// 1.
    Refused { line: u32, cause: ImportCause },
    /// The file store (`Shelf`) has no file with this name.
    NoFile,
    /// A read failed.
    ReadFault,
    /// Memory ran out.
    NoMemory(NoMemory),
}

impl From<NoMemory> for ImportFault {
    ghost use Rattle.std.specs.Prelude.{◌≡◌};
    ghost use Rattle.ftrace_import.specs.declared.text.ImportFault.TheVariants as fault;

    ghost from_gives = { λ none e. e ≡ fault.NoMemory none };

    fn from(none: NoMemory) -> Self {
        ImportFault::NoMemory(none)
    }
}

fn fault_at(line: u32, fault: Fault<ImportCause>) -> ImportFault
    ensures { IsLineFault line fault result }
{
    match fault {
        Fault::Refused(cause) => ImportFault::Refused { line, cause },
        Fault::NoMemory(none) => ImportFault::NoMemory(none),
    }
}

/// Converts the error of reading a line to the error of the import.
fn import_fault(fault: LineFault) -> ImportFault
    ensures { result ≡ import_fault fault }
{
    match fault {
        LineFault::TooLong(line) => ImportFault::Refused {
            line,
            cause: ImportCause::LineTooLong,
        },
        LineFault::Cut(line) => ImportFault::Refused {
            line,
            cause: ImportCause::Cut,
        },
        LineFault::NoFile => ImportFault::NoFile,
        LineFault::ReadFault => ImportFault::ReadFault,
        LineFault::NoMemory(none) => ImportFault::NoMemory(none),
    }
}

/// Checks, after the maximum number of lines, that the file has no further bytes. Returns false if
/// there are none, and fails with `TooManyLines` if there are some.
fn look_after<S: Shelf>(
    g: &Gathering,
    lines: &mut Lines,
    shelf: &mut S,
) -> Result<bool, ImportFault>
    requires so { IsGathered g.now }
    requires number { lines.old.number ≡ 16000001 }
    ensures unchanged { S.holds shelf.new ≡ S.holds shelf.old }
    ensures content { NextGives lines.old.number g.now g.now (left lines.old) (left lines.new)
        (content_of (S.holds shelf.old) lines.old.name) result }
    ensures over { IfOk result (λ more. more ≡ false) }
    ensures reads { ReadsLine (content_of (S.holds shelf.old) lines.old.name) lines.old lines.new
        (counts_of (S.faults shelf.old) (S.absent shelf.old))
        (counts_of (S.faults shelf.new) (S.absent shelf.new))
        (S.bytes_read shelf.old) (S.bytes_read shelf.new) result }
    ensures stays { KeepsLines (content_of (S.holds shelf.old) lines.old.name)
        lines.old lines.new result }
    ensures missing { lines.old.buffered ≡ [] → IsAbsent (S.holds shelf.old) lines.old.name →
        ShowsNothing result }
    ensures order { LineInOrder lines.old.name lines.old.at lines.new.at
        (S.reads shelf.old) (S.reads shelf.new) result }
{
    match lines.is_at_end(shelf) {
        Ok(true) => Ok(false),
        Ok(false) => Err(ImportFault::Refused {
            line: lines.number(),
            cause: ImportCause::TooManyLines,
        }),
        Err(fault) => Err(import_fault(fault)),
    }
}

/// Reads the next line and stores its events. Returns false at the end of the file.
fn take_next<S: Shelf>(
    g: &mut Gathering,
    lines: &mut Lines,
    shelf: &mut S,
) -> Result<bool, ImportFault>
    requires so { IsGathered g.old }
    requires number { lines.old.number ≤ 16000000 }
    ensures unchanged { S.holds shelf.new ≡ S.holds shelf.old }
    ensures content { NextGives lines.old.number g.old g.new (left lines.old) (left lines.new)
        (content_of (S.holds shelf.old) lines.old.name) result }
    ensures number { result ≡ Ok true → lines.new.number ≡ lines.old.number + 1 }
    ensures reads { ReadsLine (content_of (S.holds shelf.old) lines.old.name) lines.old lines.new
        (counts_of (S.faults shelf.old) (S.absent shelf.old))
        (counts_of (S.faults shelf.new) (S.absent shelf.new))
        (S.bytes_read shelf.old) (S.bytes_read shelf.new) result }
    ensures stays { KeepsLines (content_of (S.holds shelf.old) lines.old.name)
        lines.old lines.new result }
    ensures missing { lines.old.buffered ≡ [] → IsAbsent (S.holds shelf.old) lines.old.name →
        ShowsNothing result }
    ensures order { LineInOrder lines.old.name lines.old.at lines.new.at
        (S.reads shelf.old) (S.reads shelf.new) result }
{
    let number = lines.number();
    match lines.next_bytes(shelf) {
        Ok(Some(line)) => match take_line(g, line) {
            Ok(()) => Ok(true),
            Err(fault) => Err(fault_at(number, fault)),
        },
        Ok(None) => Ok(false),
        Err(fault) => Err(import_fault(fault)),
    }
}

/// Reads the next line and stores its events. After the maximum number of lines, only checks that
/// the file has no further bytes. Returns false at the end of the file.
fn next_step<S: Shelf>(
    g: &mut Gathering,
    lines: &mut Lines,
    shelf: &mut S,
) -> Result<bool, ImportFault>
    requires so { IsGathered g.old }
    requires number { lines.old.number ≤ 16000001 }
    ensures unchanged { S.holds shelf.new ≡ S.holds shelf.old }
    ensures content { NextGives lines.old.number g.old g.new (left lines.old) (left lines.new)
        (content_of (S.holds shelf.old) lines.old.name) result }
    ensures number { result ≡ Ok true → (lines.new.number ≡ lines.old.number + 1)
        × (lines.new.number ≤ 16000001) }
    ensures reads { ReadsLine (content_of (S.holds shelf.old) lines.old.name) lines.old lines.new
        (counts_of (S.faults shelf.old) (S.absent shelf.old))
        (counts_of (S.faults shelf.new) (S.absent shelf.new))
        (S.bytes_read shelf.old) (S.bytes_read shelf.new) result }
    ensures stays { KeepsLines (content_of (S.holds shelf.old) lines.old.name)
        lines.old lines.new result }
    ensures missing { lines.old.buffered ≡ [] → IsAbsent (S.holds shelf.old) lines.old.name →
        ShowsNothing result }
    ensures order { LineInOrder lines.old.name lines.old.at lines.new.at
        (S.reads shelf.old) (S.reads shelf.new) result }
{
    if lines.number() > MOST_LINES {
        look_after(g, lines, shelf)
    } else {
        take_next(g, lines, shelf)
    }
}

/// Reads all lines of a file and stores their events. The loop ends after at most 16,000,001 steps.
fn take_lines<S: Shelf>(
    g: &mut Gathering,
    lines: &mut Lines,
    shelf: &mut S,
) -> Result<(), ImportFault>
    requires so { IsGathered g.old }
    requires fresh { reached_in g.old ≡ unreached }
    requires none { g.old.kept.items ≡ [] }
    requires number { lines.old.number ≡ 1 }
    requires buffered { lines.old.buffered ≡ [] }
    requires place { lines.old.at ≡ 0 }
    ensures unchanged { S.holds shelf.new ≡ S.holds shelf.old }
    ensures content { LinesGive g.old.cpus g.new (left lines.old)
        (content_of (S.holds shelf.old) lines.old.name) result }
    ensures missed { IsErrOf result ImportFault.NoFile →
        content_of (S.holds shelf.old) lines.old.name ≡ None }
    ensures missing { IsAbsent (S.holds shelf.old) lines.old.name → ShowsNothing result }
    ensures cause { CausesImportFault (counts_of (S.faults shelf.old) (S.absent shelf.old))
        (counts_of (S.faults shelf.new) (S.absent shelf.new)) result }
    ensures bytes_read { S.bytes_read shelf.new ≤ S.bytes_read shelf.old + most_of_text }
    ensures stops { StopsAtRefusal (rest_from g.old.cpus unreached 1)
        (content_of (S.holds shelf.old) lines.old.name) (S.bytes_read shelf.old) (S.bytes_read shelf.new) result }
    ensures order { ReadsFile lines.old.name lines.old.at
        (S.reads shelf.old) (S.reads shelf.new) (shelf_fault_in result) }
{
    'lines: loop {
        match next_step(g, lines, shelf) {
            Ok(true) => {}
            Ok(false) => return Ok(()),
            Err(fault) => return Err(fault),
        }
    }
}

/// Reads the ftrace text in the file `name`, recorded on `cpus` processors (1 to 64), and collects
/// its events. Reads at most 16,000,000 lines, and checks that the file has no further bytes.
///
/// Returns `NoFile` or `ReadFault` only if the file store (`Shelf`) counted a missing file or a
/// failed read during this call.
pub fn gather<S: Shelf>(
    alloc: Global,
    shelf: &mut S,
    name: &str,
    cpus: u32,
) -> Result<Gathering, ImportFault>
    requires { IsCpuCount cpus }
    ensures unchanged { S.holds shelf.new ≡ S.holds shelf.old }
    ensures content { Gathers cpus (content_of (S.holds shelf.old) name.now) result }
    ensures missed { IsErrOf result ImportFault.NoFile →
        content_of (S.holds shelf.old) name.now ≡ None }
    ensures missing { IsAbsent (S.holds shelf.old) name.now → ShowsNothing result }
    ensures cause { CausesImportFault (counts_of (S.faults shelf.old) (S.absent shelf.old))
        (counts_of (S.faults shelf.new) (S.absent shelf.new)) result }
    ensures bytes_read { S.bytes_read shelf.new ≤ S.bytes_read shelf.old + most_of_text }
    ensures stops { StopsAtRefusal (import_of cpus) (content_of (S.holds shelf.old) name.now)
        (S.bytes_read shelf.old) (S.bytes_read shelf.new) result }
    ensures order { ReadsFile name.now 0
        (S.reads shelf.old) (S.reads shelf.new) (shelf_fault_in result) }
{
    let mut lines = Lines::new(alloc, name)?;
    let mut g = start(alloc, cpus)?;
    match take_lines(&mut g, &mut lines, shelf) {
        Ok(()) => Ok(g),
        Err(fault) => Err(fault),
    }
}

/// Imports the ftrace text in a file, for a machine with 1 to 64 processors (`cpus`). Returns its
/// events, including the end of the trace. Fails with `Refused` at the first rejected line, with
/// the first reason for rejecting it.
///
/// No program of this repository calls this function. The programs call
/// [`read_import`](crate::read_import), which lends the same events one by one and needs a third of
/// the memory.
pub fn import<S: Shelf>(
    alloc: Global,
    shelf: &mut S,
    name: &str,
    cpus: u32,
) -> Result<Vec<Event>, ImportFault>
    requires { IsCpuCount cpus }
    ensures unchanged { S.holds shelf.new ≡ S.holds shelf.old }
    ensures accepted { IfOk result (λ events. Ends cpus first_world events.items) }
    ensures content { (bytes : List ℕ) → content_of (S.holds shelf.old) name.now ≡ Some bytes →
        MatchResult result (λ events. import_of cpus bytes ≡ Ok events.items)
        (λ fault. RefusalOf fault (import_of cpus bytes)) }
    ensures missed { IsErrOf result ImportFault.NoFile →
        content_of (S.holds shelf.old) name.now ≡ None }
    ensures missing { IsAbsent (S.holds shelf.old) name.now → ShowsNothing result }
    ensures cause { CausesImportFault (counts_of (S.faults shelf.old) (S.absent shelf.old))
        (counts_of (S.faults shelf.new) (S.absent shelf.new)) result }
    ensures bytes_read { S.bytes_read shelf.new ≤ S.bytes_read shelf.old + most_of_text }
    ensures stops { StopsAtRefusal (import_of cpus) (content_of (S.holds shelf.old) name.now)
        (S.bytes_read shelf.old) (S.bytes_read shelf.new) result }
    ensures order { ReadsFile name.now 0
        (S.reads shelf.old) (S.reads shelf.new) (shelf_fault_in result) }
{
    let g = gather(alloc, shelf, name, cpus)?;
    let events = all_events(alloc, &g)?;
    Ok(events)
}

/// Returns all events of an import, including the end of the trace.
fn all_events(alloc: Global, g: &Gathering) -> Result<Vec<Event>, NoMemory>
    ensures { IfOk result (λ events. events.items ≡ whole_events g.now) }
{
    let mut events: Vec<Event> = Vec::new(alloc);
    let mut at = 0;
    'kept: while at < g.kept.len() {
        events.push(event_of(alloc, g.kept[at])?)?;
        at += 1;
    }
    events.push(Event {
        at: g.moment,
        act: Act::End,
    })?;
    Ok(events)
}

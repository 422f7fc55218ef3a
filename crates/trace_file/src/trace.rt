//! Reads a trace from a file store, and plays its events on a player. Each line is read, parsed and
//! played before the next line is read.
ghost use Rattle.std.specs.Prelude.{◌≡◌, ◌+◌, ◌*◌, ◌<◌, ◌≤◌, ◌^◌, ℕ, List, [], IfOk, IsErrOf, Some, None, Ok, MatchResult, false, length};
ghost use Rattle.outside.specs.Outside.{content_of, IsAbsent, counts_of};
ghost use Rattle.outside.specs.Reads.{ReadsFile};
ghost use Rattle.psi_base.specs.declared.event.Cause.TheVariants as cause;
ghost use Rattle.psi_lines.specs.Lines.{left};
ghost use Rattle.psi_lines.specs.Next.{furthest};
ghost use Rattle.psi_spec.specs.Grammar.{Fits};
ghost use Rattle.psi_spec.specs.Header.{IsVersion};
ghost use Rattle.psi_spec.specs.Trace.{limits_of, refused};
ghost use Rattle.psi_spec.specs.World.{first_world};
ghost use Rattle.run_spec.specs.MostRead.{most_of_trace};
ghost use Rattle.trace_file.specs.Reads.{CausesTraceFault, HeadGives, IsHead, IsTraceFault, KeepsLines, Legally, LineInOrder, NextGives, ReadsLine, RestGives, StopsAtRefusal, StopsReading, TailGives, TakesLine, TakesRead, ShowsNothing, TracePlayed, TraceRefused, rest_from, shelf_fault_in, trace_fault, verbs_in};

use outside::Shelf;
use psi_base::{Cause, Event, Fault, MOST_TICKS, NoMemory, Ns, Refusal};
use psi_lines::{LineFault, Lines};
use psi_trace::{Header, read_event, read_header, take_prefix};
use std::alloc::Global;
use trace_player::Player;

/// Why a trace can't be read.
#[derive(Clone, Copy, Debug, PartialEq, Eq)]
pub enum TraceFault {
    /// A line of the trace was rejected.
    Refused(Refusal),
    /// No file has this name.
    NoFile,
    /// A read failed.
    ReadFault,
    /// Memory ran out.
    NoMemory(NoMemory),
}

impl From<NoMemory> for TraceFault {
    ghost use Rattle.std.specs.Prelude.{◌≡◌};
    ghost use Rattle.trace_file.specs.declared.trace.TraceFault.TheVariants as fault;

    ghost from_gives = { λ none e. e ≡ fault.NoMemory none };

    fn from(none: NoMemory) -> Self {
        TraceFault::NoMemory(none)
    }
}

fn refused(line: u32, cause: Cause) -> TraceFault
    ensures { result ≡ TraceFault.Refused (refused line cause) }
{
    TraceFault::Refused(Refusal { line, cause })
}

fn fault_at(line: u32, fault: Fault<Cause>) -> TraceFault
    ensures { IsTraceFault line fault result }
{
    match fault {
        Fault::Refused(cause) => refused(line, cause),
        Fault::NoMemory(none) => TraceFault::NoMemory(none),
    }
}

// Converts the fault of reading a line to a fault of the trace. If the input ends inside the line,
// the line is rejected with the cause `cut`.
fn trace_fault(fault: LineFault, cut: Cause) -> TraceFault
    ensures { result ≡ trace_fault cut fault }
{
    match fault {
        LineFault::TooLong(line) => refused(line, Cause::LineTooLong),
        LineFault::Cut(line) => refused(line, cut),
        LineFault::NoFile => TraceFault::NoFile,
        LineFault::ReadFault => TraceFault::ReadFault,
        LineFault::NoMemory(none) => TraceFault::NoMemory(none),
    }
}

// Plays the event of a parsed line, or returns the fault that the parser found.
fn take_read<P: Player>(
    player: &mut P,
    read: &Result<Event, Fault<Cause>>,
) -> Result<(), Fault<Cause>>
    requires { IfOk read.now Fits }
    ensures { TakesRead (P.Played player.old) (P.Played player.new) read.now result }
{
    match read {
        Ok(event) => player.take(event),
        Err(fault) => Err(*fault),
    }
}

// Parses and plays a line. The event isn't moved before it is played, which saves a copy.
// Precondition: the line has at most 512 bytes. If the trace has already ended, the contract states
// nothing.
fn take_line<P: Player>(
    alloc: Global,
    version: u32,
    player: &mut P,
    line: &[u8],
) -> Result<(), Fault<Cause>>
    requires version { IsVersion version }
    requires short { length line.now ≤ 512 }
    ensures { TakesLine (verbs_in version) (Legally (verbs_in version) (P.Played player.old))
        (Legally (verbs_in version) (P.Played player.new)) line.now result }
{
    take_read(player, &read_event(alloc, version, line))
}

// Reads and plays the next event line, whatever its verb. If the trace has already ended, the
// contract states nothing about the events.
fn next_event<S: Shelf, P: Player>(
    alloc: Global,
    version: u32,
    lines: &mut Lines,
    shelf: &mut S,
    player: &mut P,
) -> Result<(), TraceFault>
    requires version { IsVersion version }
    requires number { lines.old.number < 2 ^ 32 }
    ensures unchanged { S.holds shelf.new ≡ S.holds shelf.old }
    ensures content { NextGives (verbs_in version)
        (Legally (verbs_in version) (P.Played player.old))
        (Legally (verbs_in version) (P.Played player.new))
        lines.old.number (left lines.old) (left lines.new)
        (content_of (S.holds shelf.old) lines.old.name) result }
    ensures reads { ReadsLine (content_of (S.holds shelf.old) lines.old.name) lines.old lines.new
        (counts_of (S.faults shelf.old) (S.absent shelf.old))
        (counts_of (S.faults shelf.new) (S.absent shelf.new))
        (S.bytes_read shelf.old) (S.bytes_read shelf.new) result }
    ensures stays { KeepsLines (content_of (S.holds shelf.old) lines.old.name)
        lines.old lines.new result }
    ensures order { LineInOrder lines.old.name lines.old.at lines.new.at
        (S.reads shelf.old) (S.reads shelf.new) result }
{
    let line = lines.number();
    match lines.next_bytes(shelf) {
        Ok(Some(bytes)) => match take_line(alloc, version, player, bytes) {
            Ok(()) => Ok(()),
            Err(fault) => Err(fault_at(line, fault)),
        },
        Ok(None) => Err(refused(line, Cause::NoEnd)),
        Err(fault) => Err(trace_fault(fault, Cause::NoEnd)),
    }
}

// Reads and plays the next event line. A line is parsed in the buffer if the whole line is buffered
// and its verb is one of the most frequent. Any other line is read by `next_event`.
#[inline(always)]
fn play_next<S: Shelf, P: Player>(
    alloc: Global,
    version: u32,
    lines: &mut Lines,
    shelf: &mut S,
    player: &mut P,
) -> Result<(), TraceFault>
    requires version { IsVersion version }
    requires number { lines.old.number < 2 ^ 32 }
    ensures unchanged { S.holds shelf.new ≡ S.holds shelf.old }
    ensures content { NextGives (verbs_in version)
        (Legally (verbs_in version) (P.Played player.old))
        (Legally (verbs_in version) (P.Played player.new))
        lines.old.number (left lines.old) (left lines.new)
        (content_of (S.holds shelf.old) lines.old.name) result }
    ensures reads { ReadsLine (content_of (S.holds shelf.old) lines.old.name) lines.old lines.new
        (counts_of (S.faults shelf.old) (S.absent shelf.old))
        (counts_of (S.faults shelf.new) (S.absent shelf.new))
        (S.bytes_read shelf.old) (S.bytes_read shelf.new) result }
    ensures stays { KeepsLines (content_of (S.holds shelf.old) lines.old.name)
        lines.old lines.new result }
    ensures order { LineInOrder lines.old.name lines.old.at lines.new.at
        (S.reads shelf.old) (S.reads shelf.new) result }
{
    let Some(played) = take_prefix(lines.buffered(), player) else {
        return next_event(alloc, version, lines, shelf, player);
    };
    let line = lines.number();
    lines.pass(played.count);
    match played.answer {
        Ok(()) => Ok(()),
        Err(fault) => Err(fault_at(line, fault)),
    }
}

// Checks that the file has no bytes after the `end` line. Reads at most once.
fn close<S: Shelf>(lines: &mut Lines, shelf: &mut S) -> Result<(), TraceFault>
    requires number { lines.old.number < 2 ^ 32 }
    ensures unchanged { S.holds shelf.new ≡ S.holds shelf.old }
    ensures content { (bytes : List ℕ) →
        content_of (S.holds shelf.old) lines.old.name ≡ Some bytes →
        TailGives lines.old.number (left lines.old bytes) result }
    ensures missed { IsErrOf result TraceFault.NoFile →
        content_of (S.holds shelf.old) lines.old.name ≡ None }
    ensures cause { CausesTraceFault (counts_of (S.faults shelf.old) (S.absent shelf.old))
        (counts_of (S.faults shelf.new) (S.absent shelf.new)) result }
    ensures bytes_read { S.bytes_read shelf.new + lines.old.at
        ≡ S.bytes_read shelf.old + lines.new.at }
    ensures place { lines.new.at ≤ furthest lines.old.number }
    ensures stays { KeepsLines (content_of (S.holds shelf.old) lines.old.name)
        lines.old lines.new result }
    ensures order { ReadsFile lines.old.name lines.old.at
        (S.reads shelf.old) (S.reads shelf.new) (shelf_fault_in result) }
{
    match lines.is_at_end(shelf) {
        Ok(true) => Ok(()),
        Ok(false) => Err(refused(lines.number(), Cause::AfterEnd)),
        Err(fault) => Err(trace_fault(fault, Cause::AfterEnd)),
    }
}

// Reads and plays the event lines after the header `head`, up to the `end` line. The loop ends,
// because a player accepts at most 4,000,000 events.
fn play_events<S: Shelf, P: Player>(
    alloc: Global,
    lines: &mut Lines,
    shelf: &mut S,
    player: &mut P,
    tick: Ns,
    head: Header,
) -> Result<(), TraceFault>
    requires version { IsVersion head.version }
    requires number { lines.old.number ≡ 2 }
    requires fresh { P.Played player.old (limits_of tick head.cpus) [] }
    ensures unchanged { S.holds shelf.new ≡ S.holds shelf.old }
    ensures content { RestGives (verbs_in head.version)
        (Legally (verbs_in head.version) (P.Played player.new)) (limits_of tick head.cpus)
        (left lines.old) (content_of (S.holds shelf.old) lines.old.name) result }
    ensures missed { IsErrOf result TraceFault.NoFile →
        content_of (S.holds shelf.old) lines.old.name ≡ None }
    ensures cause { CausesTraceFault (counts_of (S.faults shelf.old) (S.absent shelf.old))
        (counts_of (S.faults shelf.new) (S.absent shelf.new)) result }
    ensures bytes_read { S.bytes_read shelf.new + lines.old.at
        ≤ S.bytes_read shelf.old + most_of_trace }
    ensures stops { StopsReading (content_of (S.holds shelf.old) lines.old.name) lines.old lines.new
        (S.bytes_read shelf.old) (S.bytes_read shelf.new) (λ bytes. rest_from (verbs_in head.version)
        (limits_of tick head.cpus) first_world 2 (left lines.old bytes)) result }
    ensures order { ReadsFile lines.old.name lines.old.at
        (S.reads shelf.old) (S.reads shelf.new) (shelf_fault_in result) }
{
    'lines: loop {
        match play_next(alloc, head.version, lines, shelf, player) {
            Ok(()) => {}
            Err(fault) => return Err(fault),
        }
        if player.is_ended() {
            return close(lines, shelf);
        }
    }
}

fn read_head<S: Shelf>(lines: &mut Lines, shelf: &mut S, tick: Ns) -> Result<Header, TraceFault>
    requires { lines.old.number ≡ 1 }
    ensures unchanged { S.holds shelf.new ≡ S.holds shelf.old }
    ensures head { IfOk result IsHead }
    ensures content { (bytes : List ℕ) →
        content_of (S.holds shelf.old) lines.old.name ≡ Some bytes →
        HeadGives tick (left lines.old bytes) (left lines.new bytes) result }
    ensures missing { lines.old.buffered ≡ [] → IsAbsent (S.holds shelf.old) lines.old.name →
        ShowsNothing result }
    ensures reads { ReadsLine (content_of (S.holds shelf.old) lines.old.name) lines.old lines.new
        (counts_of (S.faults shelf.old) (S.absent shelf.old))
        (counts_of (S.faults shelf.new) (S.absent shelf.new))
        (S.bytes_read shelf.old) (S.bytes_read shelf.new) result }
    ensures stays { KeepsLines (content_of (S.holds shelf.old) lines.old.name)
        lines.old lines.new result }
    ensures order { LineInOrder lines.old.name lines.old.at lines.new.at
        (S.reads shelf.old) (S.reads shelf.new) result }
{
    match lines.next_bytes(shelf) {
        Ok(Some(bytes)) => match read_header(bytes) {
            Ok(head) => Ok(head),
            Err(cause) => Err(refused(1, cause)),
        },
        Ok(None) => Err(refused(1, Cause::BadHeader)),
        Err(fault) => Err(trace_fault(fault, Cause::BadHeader)),
    }
}

/// Reads a trace, and plays its events on a new player. Returns the version's number and the
/// player. Rejects an event that is later than a million ticks of length `tick` (ns).
pub fn play_trace<S: Shelf, P: Player + Drop>(
    alloc: Global,
    name: &str,
    shelf: &mut S,
    tick: Ns,
) -> Result<(u32, P), TraceFault>
    requires { tick ≤ 60000000000 }
    ensures unchanged { S.holds shelf.new ≡ S.holds shelf.old }
    ensures content { MatchResult result
        (λ played. TracePlayed (P.Played played.1) played.0 tick
        (content_of (S.holds shelf.old) name.now))
        (λ fault. TraceRefused fault tick (content_of (S.holds shelf.old) name.now)) }
    ensures missing { IsAbsent (S.holds shelf.old) name.now → ShowsNothing result }
    ensures missed { IsErrOf result TraceFault.NoFile →
        content_of (S.holds shelf.old) name.now ≡ None }
    ensures cause { CausesTraceFault (counts_of (S.faults shelf.old) (S.absent shelf.old))
        (counts_of (S.faults shelf.new) (S.absent shelf.new)) result }
    ensures bytes_read { S.bytes_read shelf.new ≤ S.bytes_read shelf.old + most_of_trace }
    ensures stops { StopsAtRefusal tick (content_of (S.holds shelf.old) name.now)
        (S.bytes_read shelf.old) (S.bytes_read shelf.new) result }
    ensures order { ReadsFile name.now 0
        (S.reads shelf.old) (S.reads shelf.new) (shelf_fault_in result) }
{
    let mut lines = Lines::new(alloc, name)?;
    let head = match read_head(&mut lines, shelf, tick) {
        Ok(head) => head,
        Err(fault) => return Err(fault),
    };
    let mut player = P::start(alloc, head.cpus, MOST_TICKS * tick)?;
    match play_events(alloc, &mut lines, shelf, &mut player, tick, head) {
        Ok(()) => Ok((head.version, player)),
        Err(fault) => Err(fault),
    }
}

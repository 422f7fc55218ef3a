//! An iterator that lends the events of an import.
//!
//! `import` returns the same events as a vector. The iterator needs less memory: it stores the
//! events in compact form, and builds each event only when it lends it.
ghost use Rattle.std.specs.Prelude.{◌≡◌, ◌+◌, ◌≤◌, ℕ, List, false, IfOk, IsErrOf, MatchResult, Some, None, Ok};
ghost use Rattle.outside.specs.Outside.{content_of, IsAbsent, counts_of};
ghost use Rattle.outside.specs.Reads.{ReadsFile};
ghost use Rattle.psi_spec.specs.Trace.{IsCpuCount};
ghost use Rattle.psi_spec.specs.World.{first_world};
ghost use Rattle.import_spec.specs.Events.{made};
ghost use Rattle.import_spec.specs.Import.{import_of};
ghost use Rattle.ftrace_import.specs.Deeds.{event_by};
ghost use Rattle.ftrace_import.specs.Gathers.{CausesImportFault, RefusalOf, StopsAtRefusal, ShowsNothing, most_of_text, shelf_fault_in, whole_events};
ghost use Rattle.ftrace_import.specs.Lending.{GoesOn, IsMade, shown};
ghost use Rattle.ftrace_import.specs.Stands.{Ends};

use crate::deeds::{Deed, Kept};
use crate::taking::Gathering;
use crate::text::{ImportFault, gather};
use outside::Shelf;
use psi_base::{Act, Cpu, Event, NoMemory, Ns, Path, Pid};
use std::alloc::Global;
use std::marker::Model;

/// The events of an import, including the end of the trace, lent one by one. Contracts see the
/// current event and the list of the remaining events. An event is valid until the next call of
/// [`Imported::advance`]. Lending an event doesn't allocate.
#[derive(Drop)]
pub struct Imported {
    gathering: Gathering,
    /// The number of events lent so far.
    at: usize,
    /// Whether the current event is `making` (true) or `other` (false).
    makes: bool,
    /// The current event if it creates a task. Its path is always the root's path, so only the
    /// other fields are set for each event.
    making: Event,
    /// The current event if it doesn't create a task.
    other: Event,
}

impl Model for Imported {
    ghost use Rattle.ftrace_import.specs.Lending.{IsLending, Lending, lending};

    ghost Value = { Lending };

    ghost view = { λ i. lending i.gathering i.at i.makes i.making i.other };

    ghost invariant = { λ i. IsLending i.gathering i.at i.making };
}

/// Sets the time `at` (ns), the task and the processor of an event that creates a task in the root
/// group.
fn make_anew(making: &mut Event, at: Ns, pid: Pid, cpu: Cpu)
    requires { IsMade making.old.act }
    ensures moment { making.new.at ≡ at }
    ensures act { making.new.act ≡ made pid cpu }
{
    making.at = at;
    match &mut making.act {
        Act::Fork {
            pid: task,
            cpu: place,
            ..
        } => {
            *task = pid;
            *place = cpu;
        }
        _ => unreachable!(),
    }
}

/// Sets `other` to an event with the time `at` (ns) and the act `act`. Returns false, the value of
/// `makes` that selects `other` as the current event.
fn show_other(other: &mut Event, at: Ns, act: Act) -> bool
    ensures event { other.new ≡ record { at = at; act = act } }
    ensures result { result ≡ false }
{
    *other = Event { at, act };
    false
}

/// Copies the stored event `kept` to `making` if the event creates a task, and to `other` if it
/// doesn't. Returns true for `making`, which is then the current event, and false for `other`.
fn notify(kept: Kept, making: &mut Event, other: &mut Event) -> bool
    requires { IsMade making.old.act }
    ensures known { shown result making.new other.new ≡ event_by kept }
    ensures makes { IsMade making.new.act }
{
    match kept.deed {
        Deed::Fork { pid, cpu } => {
            make_anew(making, kept.at, pid, cpu);
            true
        }
        Deed::Wake { pid, cpu } => show_other(other, kept.at, Act::Wake { pid, cpu }),
        Deed::Switch { cpu, next, how } => {
            show_other(other, kept.at, Act::Switch { cpu, next, how })
        }
        Deed::Migrate { pid, cpu } => show_other(other, kept.at, Act::Migrate { pid, cpu }),
    }
}

impl Imported {
    /// Creates the iterator over all collected events, including the end of the trace.
    fn make(alloc: Global, gathering: Gathering) -> Result<Imported, NoMemory>
        ensures { IfOk result (λ events. events.left ≡ whole_events gathering) }
    {
        let making = Event {
            at: 0,
            act: Act::Fork {
                pid: Pid(1),
                path: Path::root(alloc)?,
                cpu: Cpu(0),
            },
        };
        let other = Event {
            at: 0,
            act: Act::End,
        };
        Ok(Imported {
            gathering,
            at: 0,
            makes: true,
            making,
            other,
        })
    }

    /// Advances to the next event. Returns false if there is no further event. Does not allocate.
    pub fn advance(&mut self) -> bool
        ensures { GoesOn self.old self.new result }
    {
        let at = self.at;
        let count = self.gathering.kept.len();
        if at > count {
            return false;
        }
        self.at += 1;
        if at == count {
            self.makes = show_other(&mut self.other, self.gathering.moment, Act::End);
            return true;
        }
        let kept = self.gathering.kept[at];
        self.makes = notify(kept, &mut self.making, &mut self.other);
        true
    }

    /// Returns the current event. The result is meaningless before the first call of
    /// [`Imported::advance`].
    pub fn event(&self) -> &Event
        ensures { result.now ≡ self.now.event }
    {
        if self.makes {
            &self.making
        } else {
            &self.other
        }
    }
}

/// Imports the ftrace text in a file, for a machine with 1 to 64 processors (`cpus`). Returns an
/// iterator that lends its events. Fails with `Refused` at the first rejected line, with the first
/// reason for rejecting it. Allocates about 24 bytes for each event.
pub fn read_import<S: Shelf>(
    alloc: Global,
    shelf: &mut S,
    name: &str,
    cpus: u32,
) -> Result<Imported, ImportFault>
    requires { IsCpuCount cpus }
    ensures unchanged { S.holds shelf.new ≡ S.holds shelf.old }
    ensures accepted { IfOk result (λ events. Ends cpus first_world events.left) }
    ensures content { (bytes : List ℕ) → content_of (S.holds shelf.old) name.now ≡ Some bytes →
        MatchResult result (λ events. import_of cpus bytes ≡ Ok events.left)
        (λ fault. RefusalOf fault (import_of cpus bytes)) }
    ensures missed { IsErrOf result ImportFault.NoFile →
        content_of (S.holds shelf.old) name.now ≡ None }
    ensures missing { IsAbsent (S.holds shelf.old) name.now → ShowsNothing result }
    ensures cause { CausesImportFault (counts_of (S.faults shelf.old) (S.absent shelf.old))
        (counts_of (S.faults shelf.new) (S.absent shelf.new)) result }
    ensures bytes_read { S.bytes_read shelf.new ≤ S.bytes_read shelf.old + most_of_text }
    ensures stops { StopsAtRefusal (import_of cpus) (content_of (S.holds shelf.old) name.now)
        (S.bytes_read shelf.old) (S.bytes_read shelf.new) result }
    ensures order { ReadsFile name.now 0
        (S.reads shelf.old) (S.reads shelf.new) (shelf_fault_in result) }
{
    let gathering = gather(alloc, shelf, name, cpus)?;
    let events = Imported::make(alloc, gathering)?;
    Ok(events)
}

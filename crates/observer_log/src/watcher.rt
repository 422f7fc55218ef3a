//! A watcher: it takes samples for one observer, and stores them as entries in the observer's own
//! list. It has a reader for each processor.
ghost use Rattle.std.specs.Prelude.{◌≡◌, ◌<◌, length, IfErr, IfOk};
ghost use Rattle.std.specs.Borrow.{sem};
ghost use Rattle.plan_laws.specs.Plan.{IsClock};
ghost use Rattle.observer_log.specs.Lending.{LendsReader};
ghost use Rattle.observer_log.specs.Watch.{AreReaders, HasLooked, HasSampled, IsTakenBy, named_by, new_watcher, reader_at};
ghost use Rattle.proc_plan.specs.Plans.{plan_at};

use crate::entry::Entry;
use crate::own::Own;
use clock_row::{ClockReader, Sample};
use outside::Gate;
use proc_plan::Plans;
use psi_base::{Cpu, NoMemory, Slot};
use std::alloc::Global;
use std::marker::Model;

/// Takes samples on all processors for one observer, and stores them as entries. There is one
/// reader for each processor. A watcher may be sent to another thread. Contracts see the observer,
/// the plans, the readers and the entries.
#[derive(Drop)]
pub struct Watcher<'a> {
    observer: u32,
    plans: &'a Plans,
    /// The reader of each processor.
    readers: Vec<ClockReader>,
    own: Own<'a>,
}

impl<'a> Model for Watcher<'a> {
    ghost use Rattle.std.specs.Prelude.{◌≡◌, length};
    ghost use Rattle.observer_log.specs.Watch.{WatcherView};

    ghost Value = { WatcherView };

    ghost view = { λ w. record {
      observer = w.observer;
      plans = w.plans.now;
      readers = w.readers.items;
      own = w.own;
    } };

    ghost invariant = { λ w. length w.readers.items ≡ length w.plans.now.plans };
}

// Calls the gate (a hook for tests), takes one sample, and returns it as an entry.
fn take_one<'a, G: Gate>(
    observer: u32,
    plans: &'a Plans,
    readers: &mut Vec<ClockReader>,
    cpu: Cpu,
    slot: Slot,
    last: &Sample,
    gate: &G,
) -> Entry<'a>
    requires each { length readers.old.items ≡ length plans.now.plans }
    requires cpu { cpu.0 < length plans.now.plans }
    requires plan { named_by readers.old.items cpu.0 ≡ plan_at plans.now cpu.0 }
    requires slot { slot.0 < length (named_by readers.old.items cpu.0).parents }
    requires last { IsClock last.now.clock (named_by readers.old.items cpu.0)
        slot.0 last.now.count }
    requires seen { last.now.count ≡ (reader_at readers.old.items cpu.0).knows.seen }
    ensures entry { IsTakenBy observer plans.now cpu.0 slot.0 last.now.count result }
    ensures sampled { HasSampled cpu.0 last.now.count result.count
        readers.old.items readers.new.items }
{
    gate.before_sample(cpu, observer);
    let sample = readers[cpu.0 as usize].sample_or(slot, last);
    Entry::take(observer, plans.plan(cpu), cpu, slot, &sample)
}

impl<'a> Watcher<'a> {
    /// Creates a watcher without entries. `readers` has one reader for each processor, in order.
    /// Does not allocate.
    pub fn make(
        alloc: Global,
        observer: u32,
        plans: &'a Plans,
        readers: Vec<ClockReader>,
    ) -> Watcher<'a>
        requires { AreReaders plans.now readers.items }
        ensures { result ≡ new_watcher observer plans.now readers.items }
    {
        Watcher {
            observer,
            plans,
            readers,
            own: Own::new(alloc),
        }
    }

    /// Takes one sample of `slot` on processor `cpu`, and appends its entry to the list. The sample
    /// includes at least the changes of `last`, the previous sample of the slot. Calls the gate (a
    /// hook for tests) with the number of the observer before it takes the sample. If memory runs
    /// out, the function fails before it calls the gate, and nothing has changed.
    pub fn look<G: Gate>(
        &mut self,
        cpu: Cpu,
        slot: Slot,
        last: &Sample,
        gate: &G,
    ) -> Result<(), NoMemory>
        requires cpu { cpu.0 < length self.old.plans.plans }
        requires plan { named_by self.old.readers cpu.0 ≡ plan_at self.old.plans cpu.0 }
        requires slot { slot.0 < length (named_by self.old.readers cpu.0).parents }
        requires last { IsClock last.now.clock (named_by self.old.readers cpu.0)
            slot.0 last.now.count }
        requires seen { last.now.count ≡ (reader_at self.old.readers cpu.0).knows.seen }
        ensures looked { IfOk result (λ _.
            HasLooked cpu.0 slot.0 last.now.count self.old self.new) }
        ensures unchanged { IfErr result (λ _. self.new ≡ self.old) }
    {
        self.own.entries.reserve(1)?;
        let entry = take_one(
            self.observer,
            self.plans,
            &mut self.readers,
            cpu,
            slot,
            last,
            gate,
        );
        let Ok(()) = self.own.entries.push(entry) else {
            unreachable!()
        };
        Ok(())
    }

    /// Lends the reader of processor `cpu`, so that the replay can notify the reader of changes and
    /// check what it has seen. The list of entries doesn't change.
    pub fn reader(&mut self, cpu: Cpu) -> &mut ClockReader
        requires { cpu.0 < length self.old.plans.plans }
        ensures* writes_back { sem 𝓛 (LendsReader self.entry cpu.0 result) }
        ensures value { result.now ≡ reader_at self.old.readers cpu.0 }
    {
        &mut self.readers[cpu.0 as usize]
    }

    /// Returns the watcher's list of entries.
    pub fn own(&self) -> &Own<'a>
        ensures { result.now ≡ self.now.own }
    {
        &self.own
    }

    /// Ends the watcher, and returns its list of entries.
    pub fn into_own(self) -> Own<'a>
        ensures { result ≡ self.entry.own }
    {
        self.own
    }
}

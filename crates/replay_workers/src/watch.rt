//! A watcher, which takes live samples of one processor's clocks. It runs in another thread than
//! the worker that applies the processor's changes.
ghost use Rattle.std.specs.Prelude.{◌≡◌, ◌+◌, ◌*◌, ◌<◌, ◌≤◌, [], length, vec_capacity, vec_len, IfOk, Some};
ghost use Rattle.std.specs.List.{All};
ghost use Rattle.plan_laws.specs.Plan.{IsClock};
ghost use Rattle.psi_spec.specs.Changes.{RiseWithin};
ghost use Rattle.clock_row.specs.declared.reader.Sample.{Sample};
ghost use Rattle.clock_row.specs.Tries.{IsTried, tries_of};
ghost use Rattle.replay_workers.specs.Crew.{counts_sampled};
ghost use Rattle.replay_workers.specs.Lanes.{on_of};
ghost use Rattle.replay_workers.specs.Watches.{HasCleared, HasMet, HasSampled, IsNewWatcher, MaySample};

use clock_row::{ClockReader, ClockWriter, Sample};
use cpu_clock::Clock;
use outside::Gate;
use proc_plan::ProcClocks;
use psi_base::{Cpu, NoMemory, Slot};
use std::alloc::Global;
use std::marker::Model;

/// A reader of one processor's clocks, and the samples that it took in the last interval. In
/// contracts a watcher consists of the processor, the seqlock of the clocks, the state of the
/// reader, and the samples.
#[derive(Drop)]
pub(crate) struct Watcher {
    cpu: Cpu,
    reader: ClockReader,
    /// The writer's clock at the last call of `meet`, with the number of changes applied until
    /// then. The first sample of an interval has at least this number of changes.
    last: Sample,
    samples: Vec<Sample>,
    /// The number of samples in an interval.
    requested: u32,
}

impl Model for Watcher {
    ghost use Rattle.std.specs.Prelude.{◌≤◌, vec_capacity};
    ghost use Rattle.replay_workers.specs.Watches.{WatcherView};

    ghost Value = { WatcherView };

    ghost view = { λ w. record {
      cpu = w.cpu.0;
      row = w.reader.row;
      knows = w.reader.knows;
      last = w.last;
      samples = w.samples.items;
      requested = w.requested;
    } };

    ghost invariant = { λ w. w.requested ≤ vec_capacity w.samples };
}

// Takes `requested` samples of `slot`, starting from the sample `last`. Reports each sample to the
// gate, a hook for tests. Precondition: `samples` has enough capacity.
fn sample_on<G: Gate>(
    reader: &mut ClockReader,
    samples: &mut Vec<Sample>,
    cpu: Cpu,
    slot: Slot,
    last: &Sample,
    requested: u32,
    gate: &G,
)
    requires slot { slot.0 < length reader.old.knows.plan.parents }
    requires last { IsClock last.now.clock reader.old.knows.plan slot.0 last.now.count }
    requires seen { last.now.count ≡ reader.old.knows.seen }
    requires none { samples.old.items ≡ [] }
    requires room { requested ≤ vec_capacity samples.old }
    ensures row { reader.new.row ≡ reader.old.row }
    ensures plan { reader.new.knows.plan ≡ reader.old.knows.plan }
    ensures room { requested ≤ vec_capacity samples.new }
    ensures many { vec_len samples.new ≡ requested }
    ensures clocks { All (λ (sample : Sample).
        IsClock sample.clock reader.old.knows.plan slot.0 sample.count) samples.new.items }
    ensures rise { RiseWithin last.now.count (counts_sampled samples.new.items)
        reader.new.knows.seen }
    ensures tried { IsTried (counts_sampled samples.new.items) last.now.count
        reader.old.knows reader.new.knows }
    ensures few { tries_of reader.new.knows ≤ tries_of reader.old.knows + 8 * requested }
{
    let mut newest = *last;
    'samples: for index in 0..requested {
        gate.before_sample(cpu, index);
        newest = reader.sample_or(slot, &newest);
        gate.sampled(cpu, newest.count);
        let Ok(()) = samples.push(newest) else {
            unreachable!()
        };
    }
}

impl Watcher {
    /// Creates a watcher of the seqlock of `writer`, which takes `requested` samples in an
    /// interval. Sampling doesn't allocate.
    pub(crate) fn make(
        alloc: Global,
        cpu: Cpu,
        writer: &mut ClockWriter<'_>,
        requested: u32,
    ) -> Result<Watcher, NoMemory>
        ensures same { writer.new ≡ writer.old }
        ensures new { IfOk result
            (IsNewWatcher cpu.0 requested (Some writer.old.row) writer.old.knows.plan) }
    {
        let reader = writer.reader()?;
        Ok(Watcher {
            cpu,
            reader,
            last: Sample {
                count: 0,
                clock: Clock::zero(),
            },
            samples: Vec::with_capacity(alloc, requested as usize)?,
            requested,
        })
    }

    /// Returns the number of the watched processor.
    pub(crate) fn cpu(&self) -> Cpu
        ensures { result.0 ≡ self.now.cpu }
    {
        self.cpu
    }

    /// Returns the live samples of the last interval.
    pub(crate) fn samples(&self) -> &[Sample]
        ensures { result.now ≡ self.now.samples }
    {
        &self.samples
    }

    /// Discards the samples of the last interval.
    pub(crate) fn clear(&mut self)
        ensures { HasCleared self.old self.new }
    {
        self.samples.clear();
    }

    /// Synchronises the watcher with the writer before an interval. The watcher has then seen all
    /// changes that `writer` has applied, and its last sample is the writer's own clock of `slot`.
    pub(crate) fn meet(&mut self, writer: &mut ClockWriter<'_>, slot: Slot)
        requires row { self.old.row ≡ writer.old.row }
        requires plan { self.old.knows.plan ≡ writer.old.knows.plan }
        requires slot { slot.0 < length writer.old.knows.plan.parents }
        ensures row { writer.new.row ≡ writer.old.row }
        ensures on { on_of writer.new ≡ on_of writer.old }
        ensures met { HasMet slot.0 (on_of writer.old) self.old self.new }
    {
        // `settle` and `meet` always return `Ok`.
        let _known = writer.settle(&mut self.reader);
        let _met = writer.meet(&mut self.reader);
        self.last = Sample {
            count: writer.count(),
            clock: writer.own(slot),
        };
    }

    /// Synchronises with the writer after an interval. The contract then states that this watcher
    /// has seen at most the changes that `writer` has applied.
    pub(crate) fn settle(&mut self, writer: &mut ClockWriter<'_>)
        requires { self.old.row ≡ writer.old.row }
        ensures same { self.new ≡ self.old }
        ensures row { writer.new.row ≡ writer.old.row }
        ensures on { on_of writer.new ≡ on_of writer.old }
        ensures seen { self.old.knows.seen ≤ writer.old.knows.count }
    {
        // `settle` always returns `Ok`.
        let _known = writer.settle(&mut self.reader);
    }

    /// Takes the watcher's samples of `slot`, with at most eight attempts for each sample. Reports
    /// each sample to the gate, a hook for tests. Does not allocate.
    pub(crate) fn sample<G: Gate>(&mut self, slot: Slot, gate: &G)
        requires { MaySample slot.0 self.old }
        ensures { HasSampled slot.0 self.old self.new }
    {
        self.samples.clear();
        sample_on(
            &mut self.reader,
            &mut self.samples,
            self.cpu,
            slot,
            &self.last,
            self.requested,
            gate,
        );
    }
}

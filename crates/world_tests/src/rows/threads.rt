//! Helpers for tests of clock rows: a writer makes changes in one thread while a reader samples a
//! slot in another.

ghost use Rattle.std.specs.Prelude.{◌≡◌, ◌≤◌, ◌<◌, length};

use clock_row::{ClockReader, ClockWriter, Row, Sample};
use proc_plan::{PlainClocks, Plan, ProcClocks};
use psi_base::{NoMemory, Slot};
use std::alloc::Global;
use std::process::Abort;
use std::thread::{Threads, join, yield_now};

/// The number of changes after which the writer yields the processor. Without yields, writer and
/// reader wouldn't alternate on a single processor.
const CHANGES_IN_A_TURN: u64 = 512;

/// The maximum number of times that the reader tries to sample. It ensures that the test ends.
const TRIES: u64 = 20_000_000;

/// Makes changes of a plan until the writer has made `changes` in total.
fn written<'a>(mut writer: ClockWriter<'a>, changes: u64) -> ClockWriter<'a>
    requires all { changes ≤ length writer.knows.plan.changes }
    requires within { writer.knows.count ≤ changes }
{
    'changes: while writer.count() < changes {
        writer.apply();
        if writer.count() % CHANGES_IN_A_TURN == 0 {
            yield_now();
        }
    }
    writer
}

/// Appends a sample if its number of changes differs from that of the last sample. Does nothing if
/// memory runs out.
fn keep(samples: &mut Vec<Sample>, sample: Sample) {
    if samples.last().is_none_or(|last| last.count != sample.count) {
        let _ = samples.push(sample);
    }
}

/// Samples a slot until the reader has seen `all` changes, at most `TRIES` times. Returns the
/// samples.
fn sampled(alloc: Global, mut reader: ClockReader, slot: Slot, all: u64) -> Vec<Sample>
    requires { slot.0 < length reader.knows.plan.parents }
{
    let mut samples = Vec::new(alloc);
    'tries: for _ in 0..TRIES {
        if reader.seen() >= all {
            return samples;
        }
        if let Ok(sample) = reader.try_sample(slot) {
            keep(&mut samples, sample);
        }
    }
    samples
}

/// Makes `changes` changes of a plan in one thread, while a reader in another thread samples a
/// slot. Returns the number of changes made, and the samples.
pub fn beside<R: Abort + Threads + Sync>(
    rt: &R,
    alloc: Global,
    plan: &Plan,
    slots: u32,
    changes: u64,
    slot: Slot,
) -> (u64, Vec<Sample>)
    requires slots { slots ≡ length plan.now.parents }
    requires changes { changes ≤ length plan.now.changes }
    requires slot { slot.0 < slots }
{
    let mut writer = Row::make(alloc, plan, slots).expect(rt, "memory");
    let reader = writer.reader().expect(rt, "memory");
    let (writer, samples) = join(
        rt,
        || -> ClockWriter<'_>
            requires all { changes ≤ length writer.knows.plan.changes }
            requires within { writer.knows.count ≤ changes }
        { written(writer, changes) },
        || -> Vec<Sample>
            requires { slot.0 < length reader.knows.plan.parents }
        { sampled(alloc, reader, slot, changes) },
    );
    (writer.count(), samples)
}

/// Returns whether the numbers of changes in the samples never decrease, and each clock equals the
/// clock of a single thread after the same number of changes.
pub fn are_plain(
    alloc: Global,
    plan: &Plan,
    slots: u32,
    slot: Slot,
    samples: &[Sample],
) -> Result<bool, NoMemory>
    requires slots { slots ≡ length plan.now.parents }
    requires slot { slot.0 < slots }
{
    let mut clocks = PlainClocks::make(alloc, plan, slots)?;
    'samples: for sample in samples {
        if sample.count < clocks.count() || sample.count > plan.len() {
            return Ok(false);
        }
        'changes: while clocks.count() < sample.count {
            clocks.apply();
        }
        if clocks.own(slot).to_words() != sample.clock.to_words() {
            return Ok(false);
        }
    }
    Ok(true)
}

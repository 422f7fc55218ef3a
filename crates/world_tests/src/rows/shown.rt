//! Helpers for tests of clock rows: they return the values of one slot at the writer and at a
//! reader of a row.

ghost use Rattle.std.specs.Prelude.{◌≡◌, ◌≤◌, ◌<◌, length};

use clock_row::{ClockReader, ClockWriter, Row};
use proc_plan::{Plan, ProcClocks};
use psi_base::Slot;
use std::alloc::Global;
use std::process::Abort;

/// The values of one slot at the writer and at a reader of a clock row.
#[derive(Clone, Copy, Debug, PartialEq, Eq)]
pub struct Shown {
    /// The number of changes that the writer has made.
    pub made: u64,
    /// The words of the writer's own clock.
    pub own: [u64; 9],
    /// The number of changes that the reader had seen before it tried to sample.
    pub seen: u64,
    /// The reader's sample: the number of changes, and the words of the clock. `None` if a
    /// concurrent change interfered with the read.
    pub sampled: Option<(u64, [u64; 9])>,
    /// The number of changes that the reader had seen after it tried to sample.
    pub seen_then: u64,
}

/// Makes changes until the writer has made `changes` in total.
fn make_changes(writer: &mut ClockWriter<'_>, changes: u64)
    requires all { changes ≤ length writer.old.knows.plan.changes }
    requires within { writer.old.knows.count ≤ changes }
    ensures row { writer.new.row ≡ writer.old.row }
    ensures plan { writer.new.knows.plan ≡ writer.old.knows.plan }
{
    'changes: while writer.count() < changes {
        writer.apply();
    }
}

/// Returns a writer that has made `changes` changes of a plan, and a reader that was created before
/// these changes.
pub fn writer_after<'a>(
    rt: &impl Abort,
    alloc: Global,
    plan: &'a Plan,
    slots: u32,
    changes: u64,
) -> (ClockWriter<'a>, ClockReader)
    requires slots { slots ≡ length plan.now.parents }
    requires changes { changes ≤ length plan.now.changes }
    ensures row { result.1.row ≡ result.0.row }
    ensures writer { result.0.knows.plan ≡ plan.now }
    ensures reader { result.1.knows.plan ≡ plan.now }
{
    let mut writer = Row::make(alloc, plan, slots).expect(rt, "memory");
    let reader = writer.reader().expect(rt, "memory");
    make_changes(&mut writer, changes);
    (writer, reader)
}

/// Returns the reader's sample of a slot: the number of changes, and the words of the clock.
/// Returns `None` if a concurrent change interfered with the read.
fn sample_of(reader: &mut ClockReader, slot: Slot) -> Option<(u64, [u64; 9])>
    requires { slot.0 < length reader.old.knows.plan.parents }
{
    match reader.try_sample(slot) {
        Ok(sample) => Some((sample.count, sample.clock.to_words())),
        Err(_) => None,
    }
}

/// Returns the values of `slot` at the writer and at `reader`.
pub fn show(writer: &mut ClockWriter<'_>, reader: &mut ClockReader, slot: Slot) -> Shown
    requires writer { slot.0 < length writer.old.knows.plan.parents }
    requires reader { slot.0 < length reader.old.knows.plan.parents }
    ensures { writer.new ≡ writer.old }
{
    let seen = reader.seen();
    let sampled = sample_of(reader, slot);
    Shown {
        made: writer.count(),
        own: writer.own(slot).to_words(),
        seen,
        sampled,
        seen_then: reader.seen(),
    }
}

/// Returns the values of `slot` at the writer and at a new reader. Before that, `meet` passes the
/// writer's number of changes to the reader, and `settle` passes the reader's number back.
pub fn show_late(rt: &impl Abort, writer: &mut ClockWriter<'_>, slot: Slot) -> Shown
    requires { slot.0 < length writer.old.knows.plan.parents }
{
    let mut late = writer.reader().expect(rt, "memory");
    writer.meet(&mut late).expect(rt, "memory");
    writer.settle(&mut late).expect(rt, "memory");
    show(writer, &mut late, slot)
}

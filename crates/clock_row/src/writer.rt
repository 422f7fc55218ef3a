//! The writer of a seqlock, and the functions that create seqlocks and readers. The module `change`
//! stores a single change in the seqlock.
ghost use Rattle.std.specs.Prelude.{◌≡◌, ◌+◌, ◌*◌, ◌<◌, ◌≤◌, length, replicate, IfOk, Ok};
ghost use Rattle.atomic_table.specs.Seated.{TableId};
ghost use Rattle.psi_counts.specs.Clock.{words_of};
ghost use Rattle.plan_laws.specs.Plan.{IsClock, IsPlan, planned_irq};
ghost use Rattle.clock_row.specs.Row.{writer_at_start};
ghost use Rattle.clock_row.specs.Steps.{count_shown, count_known, new_reader};
ghost use Rattle.clock_row.specs.Words.{AreClockWords, StayByMask, words_at};

use crate::change::make_change;
use crate::reader::ClockReader;
use crate::steps::{note_count, note_seen, own_number, publish_note, show_note, split_reader};
use crate::view::{Board, RowSeat};
use crate::words::{WORDS, own_words};
use atomic_table::Table;
use cpu_clock::Clock;
use proc_plan::{IrqClocks, PlainClocks, Plan, ProcClocks};
use psi_base::{NoMemory, Slot};
use std::alloc::Global;
use std::marker::Model;
use std::sync::Arc;

/// A seqlock over the clocks of one processor, stored in shared words, with one writer and any
/// number of readers. Readers don't change the words. This type has no values; it only provides the
/// constructor `make`.
pub struct Row;

/// The writer of a seqlock, which applies the changes of a plan while readers sample the clocks. In
/// contracts a writer is its seqlock together with what the writer knows about the seqlock.
///
/// The writer counts tasks, advances clocks and sums interrupt time in its own [`PlainClocks`].
/// After each change it copies the clocks whose mask changed into the seqlock. Interrupt time isn't
/// in the seqlock, so no reader sees it.
#[derive(Drop)]
pub struct ClockWriter<'a> {
    plan: &'a Plan,
    clocks: PlainClocks<'a>,
    board: Arc<Board, Global>,
    seat: RowSeat,
}

impl<'a> Model for ClockWriter<'a> {
    ghost use Rattle.std.specs.Arc.{arc_value};
    ghost use Rattle.clock_row.specs.Ends.{IsWriterEnd, WriterEnd};
    ghost use Rattle.clock_row.specs.Seats.{writer_on};

    ghost Value = { WriterEnd };

    ghost view = { λ w. record { row = w.seat.table_id; knows = writer_on w.seat } };

    ghost invariant = { λ w.
        IsWriterEnd (arc_value w.board).shared.table_id w.seat w.plan.now w.clocks };
}

// Makes the invariant of a plan available to proofs, through the contract of `Plan::len`. Has no
// effect at run time.
fn see_whole(plan: &Plan)
    ensures { IsPlan plan.now }
{
    plan.len();
}

impl Row {
    /// Creates a seqlock for `plan`, before the first change, and returns its writer. Precondition:
    /// the plan has `slots` slots. Later calls of the writer don't allocate. Fails with `NoMemory`
    /// if memory runs out.
    pub fn make(alloc: Global, plan: &Plan, slots: u32) -> Result<ClockWriter<'_>, NoMemory>
        requires { slots ≡ length plan.now.parents }
        ensures { IfOk result (λ writer.
            writer.knows ≡ writer_at_start plan.now (replicate (9 * length plan.now.parents) 0)) }
    {
        see_whole(plan);
        let words = vec![in alloc; 0; WORDS * slots as usize + 1]?;
        let (table, seat) = Table::of_words(alloc, &words, plan)?;
        Ok(ClockWriter {
            plan,
            clocks: PlainClocks::make(alloc, plan, slots)?,
            board: Arc::new(alloc, table)?,
            seat,
        })
    }
}

impl<'a> ProcClocks for ClockWriter<'a> {
    ghost plan = { λ writer. writer.knows.plan };

    ghost made = { λ writer. writer.knows.count };

    ghost Home = { TableId };

    ghost home = { λ writer. writer.row };

    fn count(&self) -> u64
        ensures { result ≡ self.now.knows.count }
    {
        self.clocks.count()
    }

    /// Applies the next change of the plan: updates the writer's own clocks, and stores the nine
    /// words of each slot whose mask changes. After the call the words of each slot represent the
    /// slot's clock after the change. The words of a slot whose mask doesn't change stay the same.
    /// Does not allocate, and doesn't wait for readers.
    fn apply(&mut self)
        requires { self.old.knows.count < length self.old.knows.plan.changes }
        ensures plan { self.new.knows.plan ≡ self.old.knows.plan }
        ensures made { self.new.knows.count ≡ self.old.knows.count + 1 }
        ensures row { self.new.row ≡ self.old.row }
        ensures known { self.new.knows.known ≡ self.old.knows.known }
        ensures words { AreClockWords self.new.knows.plan self.new.knows.count self.new.knows.body }
        ensures unchanged { StayByMask self.new.knows.plan self.old.knows.body self.new.knows.body }
    {
        make_change(&self.board, &mut self.seat, self.plan, &mut self.clocks);
    }

    /// Returns the clock of `slot`, loaded from its words in the seqlock. Does not allocate.
    fn own(&mut self, slot: Slot) -> Clock
        requires { slot.0 < length self.old.knows.plan.parents }
        ensures same { self.new ≡ self.old }
        ensures clock { IsClock result self.old.knows.plan slot.0 self.old.knows.count }
        ensures words { words_of result ≡ words_at self.old.knows.body slot.0 }
    {
        Clock::from_words(own_words(&self.board, &mut self.seat, WORDS * slot.0 as usize))
    }
}

impl<'a> IrqClocks for ClockWriter<'a> {
    /// Returns the interrupt time (ns) of `slot`. The seqlock doesn't contain it, so it comes from
    /// the writer's own clocks. Does not allocate.
    fn own_irq(&mut self, slot: Slot) -> u64
        requires { slot.0 < length self.old.knows.plan.parents }
        ensures same { self.new ≡ self.old }
        ensures irq { result
            ≡ planned_irq self.old.knows.plan slot.0 self.old.knows.count }
    {
        self.clocks.own_irq(slot)
    }
}

impl<'a> ClockWriter<'a> {
    /// Creates a reader of the seqlock. The reader starts with the number of changes applied so
    /// far, and its samples include at least that many. Does not allocate. Fails with `NoMemory`
    /// only if the seqlock's reference count would overflow.
    pub fn reader(&mut self) -> Result<ClockReader, NoMemory>
        ensures same { self.new ≡ self.old }
        ensures row { IfOk result (λ reader. reader.row ≡ self.old.row) }
        ensures seen { IfOk result (λ reader.
            reader.knows ≡ new_reader self.old.knows.plan self.old.knows.count) }
    {
        let board = Arc::try_clone(&self.board)?;
        let seat = split_reader(&self.board, &mut self.seat);
        Ok(ClockReader {
            board,
            seat,
            seen: self.clocks.count(),
        })
    }

    /// Sends a reader of the seqlock the number of changes applied so far. All later samples of the
    /// reader include at least that many changes. Does not allocate, and always returns `Ok`.
    pub fn meet(&mut self, reader: &mut ClockReader) -> Result<(), NoMemory>
        requires { reader.old.row ≡ self.old.row }
        ensures ok { result ≡ Ok tt }
        ensures same { self.new ≡ self.old }
        ensures row { reader.new.row ≡ reader.old.row }
        ensures met { reader.new.knows ≡ count_shown self.old.knows.count reader.old.knows }
    {
        let note = note_count(&self.board, &mut self.seat);
        show_note(&self.board, &mut reader.seat, note);
        reader.seen = reader.seen.max(self.clocks.count());
        Ok(())
    }

    /// Sends the writer the number of changes that a reader of the seqlock has seen. This number is
    /// at most the number of changes applied. Does not allocate, and always returns `Ok`.
    pub fn settle(&mut self, reader: &mut ClockReader) -> Result<(), NoMemory>
        requires { reader.old.row ≡ self.old.row }
        ensures ok { result ≡ Ok tt }
        ensures row { self.new.row ≡ self.old.row }
        ensures known { self.new.knows ≡ count_known reader.old.knows.seen self.old.knows }
        ensures same { reader.new ≡ reader.old }
        ensures seen { reader.old.knows.seen ≤ self.old.knows.count }
    {
        let note = note_seen(&self.board, &mut reader.seat);
        publish_note(&self.board, &mut self.seat, note);
        own_number(&self.board, &mut self.seat);
        Ok(())
    }
}

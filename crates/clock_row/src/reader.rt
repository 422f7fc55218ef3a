//! A reader of a seqlock, which samples clocks while the writer may be changing them. A reader
//! never changes the seqlock's words.
ghost use Rattle.std.specs.Prelude.{◌≡◌, ◌+◌, ◌<◌, ◌≤◌, ◌∷◌, [], length, IfErr, IfOk};
ghost use Rattle.std.specs.Arc.{arc_value};
ghost use Rattle.plan_laws.specs.Plan.{IsClock};
ghost use Rattle.clock_row.specs.Ends.{AllAreClocks, IsBusy, sample_taken};
ghost use Rattle.clock_row.specs.Tries.{IsTried, tries_of};

use crate::steps::{begin_try, end_try};
use crate::view::{Board, RowSeat};
use crate::words::{WORDS, load_clocks, load_words};
use cpu_clock::Clock;
use psi_base::Slot;
use std::alloc::Global;
use std::marker::Model;
use std::sync::Arc;

/// A reader of a seqlock. It samples the clocks while the writer may be changing them, without a
/// lock and without waiting. A reader may be sent to another thread. In contracts a reader is its
/// seqlock together with what the reader knows about the seqlock.
#[derive(Drop)]
pub struct ClockReader {
    pub(crate) board: Arc<Board, Global>,
    pub(crate) seat: RowSeat,
    pub(crate) seen: u64,
}

impl Model for ClockReader {
    ghost use Rattle.std.specs.Prelude.{◌≡◌};
    ghost use Rattle.std.specs.Arc.{arc_value};
    ghost use Rattle.clock_row.specs.Ends.{IsReaderEnd, ReaderEnd};
    ghost use Rattle.clock_row.specs.Seats.{reader_on};

    ghost Value = { ReaderEnd };

    ghost view = { λ r. record { row = r.seat.table_id; knows = reader_on r.seat } };

    ghost invariant = { λ r. IsReaderEnd (arc_value r.board).shared.table_id r.seat
        × (r.seen ≡ (reader_on r.seat).seen) };
}

/// A clock sampled from a seqlock.
#[derive(Clone, Copy, Debug)]
pub struct Sample {
    /// The number of changes that the clock includes.
    pub count: u64,
    pub clock: Clock,
}

/// The result of an attempt to take a sample while the seqlock changed: the two sequence numbers
/// that the attempt loaded. If the first number is odd, no second number is loaded, and both fields
/// have the first number.
#[derive(Clone, Copy, Debug, PartialEq, Eq)]
pub struct Busy {
    pub first: u64,
    pub second: u64,
}

/// The number of failed attempts after which `sample_or` returns the earlier sample.
const TRIES: u64 = 8;

impl ClockReader {
    /// Returns the number of changes that the reader has seen: the greatest number that came with a
    /// sample, with `ClockWriter::meet` or with the reader's creation.
    pub fn seen(&self) -> u64
        ensures { result ≡ self.now.knows.seen }
    {
        self.seen
    }

    /// Tries once to sample the clock of `slot`. The sample includes at least the changes that the
    /// reader has already seen. Returns `Busy` if a change was in progress when the attempt began,
    /// or if a change began during the attempt. Does not allocate.
    pub fn try_sample(&mut self, slot: Slot) -> Result<Sample, Busy>
        requires { slot.0 < length self.old.knows.plan.parents }
        ensures row { self.new.row ≡ self.old.row }
        ensures plan { self.new.knows.plan ≡ self.old.knows.plan }
        ensures clock { IfOk result (λ sample.
            IsClock sample.clock self.old.knows.plan slot.0 sample.count) }
        ensures later { IfOk result (λ sample. self.old.knows.seen ≤ sample.count) }
        ensures sampled { IfOk result (λ sample.
            self.new.knows ≡ sample_taken sample.count self.old.knows) }
        ensures busy { IfErr result (λ busy.
            IsBusy busy.first busy.second self.old.knows self.new.knows) }
    {
        let first = begin_try(&self.board, &mut self.seat);
        if first % 2 != 0 {
            return Err(Busy {
                first,
                second: first,
            });
        }
        let words = load_words(&self.board, &mut self.seat, WORDS * slot.0 as usize, first);
        let second = end_try(&self.board, &mut self.seat, first);
        if second != first {
            return Err(Busy { first, second });
        }
        self.seen = first / 2;
        Ok(Sample {
            count: self.seen,
            clock: Clock::from_words(words),
        })
    }

    /// Samples the clock of `slot`. Makes at most eight attempts, and returns the sample of the
    /// first successful attempt. Returns `last` if each attempt fails because of a change.
    /// Precondition: `last` is a sample of the slot, and `last.count` is the number of changes that
    /// the reader has seen. So the result includes at least as many changes as `last`. Does not
    /// allocate.
    pub fn sample_or(&mut self, slot: Slot, last: &Sample) -> Sample
        requires slot { slot.0 < length self.old.knows.plan.parents }
        requires last { IsClock last.now.clock self.old.knows.plan slot.0 last.now.count }
        requires seen { last.now.count ≡ self.old.knows.seen }
        ensures row { self.new.row ≡ self.old.row }
        ensures plan { self.new.knows.plan ≡ self.old.knows.plan }
        ensures clock { IsClock result.clock self.old.knows.plan slot.0 result.count }
        ensures later { last.now.count ≤ result.count }
        ensures seen { self.new.knows.seen ≡ result.count }
        ensures tried { IsTried (result.count ∷ []) last.now.count
            self.old.knows self.new.knows }
        ensures few { tries_of self.new.knows ≤ tries_of self.old.knows + 8 }
    {
        'tries: for tries in 0..TRIES {
            if let Ok(sample) = self.try_sample(slot) {
                return sample;
            }
        }
        *last
    }

    /// Tries once to sample the clocks of all slots after the same number of changes, and returns
    /// this number. `into` must have an entry for each slot; its contents are unspecified after
    /// `Busy`. Does not allocate. No program of this repository calls this function.
    pub fn try_sample_all(&mut self, into: &mut [Clock]) -> Result<u64, Busy>
        requires { length into.old ≡ length self.old.knows.plan.parents }
        ensures row { self.new.row ≡ self.old.row }
        ensures plan { self.new.knows.plan ≡ self.old.knows.plan }
        ensures wide { length into.new ≡ length into.old }
        ensures clocks { IfOk result (λ count. AllAreClocks self.old.knows.plan count into.new) }
        ensures later { IfOk result (λ count. self.old.knows.seen ≤ count) }
        ensures sampled { IfOk result (λ count.
            self.new.knows ≡ sample_taken count self.old.knows) }
        ensures busy { IfErr result (λ busy.
            IsBusy busy.first busy.second self.old.knows self.new.knows) }
    {
        let begun = begin_try(&self.board, &mut self.seat);
        if begun % 2 != 0 {
            return Err(Busy {
                first: begun,
                second: begun,
            });
        }
        load_clocks(&self.board, &mut self.seat, into, begun);
        let ended = end_try(&self.board, &mut self.seat, begun);
        if ended != begun {
            return Err(Busy {
                first: begun,
                second: ended,
            });
        }
        self.seen = begun / 2;
        Ok(self.seen)
    }
}

//! The views of the handles of a seqlock, and the invariant of the seqlock. The writer, each reader
//! and each message performs its steps through a handle. The view of a handle records what its
//! owner knows about the seqlock. These types are used only in contracts and have no values at run
//! time.

use atomic_table::{Seat, Table, TableRule};
use proc_plan::Plan;
use std::alloc::Global;

/// What the writer knows about the seqlock. The arrays of length 0 represent lists of any length in
/// contracts.
pub struct WriterView {
    /// The plan whose changes the writer applies.
    pub plan: Plan,
    /// The number of the plan's changes that are in the seqlock.
    pub count: u64,
    /// The words of the seqlock after the sequence number: nine for each slot.
    pub body: [u64; 0],
    /// Whether a change is in progress, which means that its words are being stored.
    pub changing: bool,
    /// The greatest number of changes that a reader reported to the writer.
    pub known: u64,
}

/// A reader's attempt to load words that are all in the seqlock at the same time.
pub enum Attempt {
    /// The reader isn't in an attempt.
    Closed,
    /// An attempt is in progress. The fields are the sequence number with which the attempt began,
    /// and the indexes and values of the words loaded since then, the last word first.
    Open(u64, [(u64, u64); 0]),
}

/// What a reader knows about the seqlock. The arrays of length 0 represent lists of any length in
/// contracts.
pub struct ReaderView {
    /// The plan of the clocks in the seqlock.
    pub plan: Plan,
    /// The number of changes that the reader has seen: the greatest number that came with a sample,
    /// with `ClockWriter::meet` or with the reader's creation.
    pub seen: u64,
    /// The number of times that the reader loaded the sequence number.
    pub loads: u64,
    /// The number of the reader's attempts that failed because of a change.
    pub met: u64,
    /// For each successful attempt, in order, the number of changes in its sample.
    pub got: [u64; 0],
    /// The result of the reader's second-last load of the sequence number.
    pub first: u64,
    /// The result of the reader's last load of the sequence number.
    pub second: u64,
    /// The reader's current attempt.
    pub attempt: Attempt,
}

/// A message that contains a number of changes. The owner of one handle passes it to the owner of
/// another.
pub struct Note {
    /// The plan of the clocks in the seqlock.
    pub plan: Plan,
    /// The number of changes in the message. The seqlock has at least as many changes.
    pub number: u64,
}

/// What the owner of a handle knows about the seqlock.
pub enum View {
    /// The owner knows nothing, because the handle belonged to a message that was received.
    Spent,
    /// The handle belongs to a message.
    Noted(Note),
    /// The handle belongs to the writer.
    Writer(WriterView),
    /// The handle belongs to a reader.
    Reader(ReaderView),
}

/// The invariant of a seqlock, which relates the seqlock's words to the views of its handles. The
/// invariant holds between any two steps. This type attaches the relation `HoldsRule` to the table
/// of words.
pub struct RowRule;

impl TableRule<(), View, Plan> for RowRule {
    ghost use Rattle.clock_row.specs.Row.{HoldsRule, first_view};

    ghost holds = { λ _. HoldsRule };

    ghost first = { first_view };
}

/// The shared words of a seqlock. The table has no slots in the sense of `atomic_table`; in this
/// crate a slot is the number of a group.
pub(crate) type Board = Table<(), View, Plan, RowRule, Global>;

/// The handle with which the writer, a reader or a message performs steps on a seqlock.
pub(crate) type RowSeat = Seat<(), View>;

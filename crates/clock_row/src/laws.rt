//! Laws of the steps on a seqlock. Each function has an empty body: its contract is the law.
//!
//! Together the laws state that the invariant of a seqlock holds between any two steps, regardless
//! of which threads perform them. The invariant holds before the first step, and each of the nine
//! kinds of step preserves it. The header of the crate numbers the kinds.

ghost use Rattle.clock_row.specs.Steps.{BeginKeeps, CloseKeeps, EndKeeps, LoadKeeps, OpenKeeps, OwnKeeps, PutKeeps, ReaderTakesNote, SplitKeeps, StartHolds, WriterTakesNote};

/// The invariant holds for a seqlock before its first change, when all words are zero.
pub fn law_start()
    ensures { StartHolds }
{}

/// Step 1 preserves the invariant: the writer stores an odd sequence number, which begins a change.
pub fn law_open()
    ensures { OpenKeeps }
{}

/// Step 2 preserves the invariant: while a change is in progress, the writer stores a word after
/// the sequence number.
pub fn law_put()
    ensures { PutKeeps }
{}

/// Step 3 preserves the invariant: the writer stores the next even sequence number, which completes
/// the change. This is the only step that requires the words of each slot to represent the slot's
/// clock.
pub fn law_close()
    ensures { CloseKeeps }
{}

/// Step 4 preserves the invariant: the writer loads a word.
pub fn law_own()
    ensures { OwnKeeps }
{}

/// Step 5 preserves the invariant: a reader loads the sequence number, which begins an attempt to
/// take a sample.
pub fn law_begin()
    ensures { BeginKeeps }
{}

/// Step 6 preserves the invariant: a reader loads a word during an attempt to take a sample.
pub fn law_load()
    ensures { LoadKeeps }
{}

/// Step 7 preserves the invariant: a reader loads the sequence number again, which ends the
/// attempt. If the number is the same as at the start of the attempt, all words that the attempt
/// loaded were in the seqlock at the same time.
pub fn law_end()
    ensures { EndKeeps }
{}

/// Step 8 preserves the invariant: the writer creates a reader, or the writer or a reader creates a
/// message with a number of changes.
pub fn law_split()
    ensures { SplitKeeps }
{}

/// Step 9 preserves the invariant: a reader or the writer receives a message.
pub fn law_take_note()
    ensures reader { ReaderTakesNote }
    ensures writer { WriterTakesNote }
{}

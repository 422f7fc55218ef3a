//! Functions that perform the steps on a seqlock, one for each kind of step. The writer, a reader
//! or a message performs a step through its handle. The functions don't check the order of the
//! steps at run time; their contracts require it.
ghost use Rattle.std.specs.Prelude.{◌≡◌, ◌+◌, ◌*◌, ◌/◌, ◌^◌, ◌<◌, ◌≤◌, true, false, [], slice_index};
ghost use Rattle.clock_row.specs.declared.view.View.TheVariants.{Reader, Writer};
ghost use Rattle.clock_row.specs.Words.{AreClockWords, StoodTogether};
ghost use Rattle.clock_row.specs.Row.{sequence};
ghost use Rattle.clock_row.specs.Steps.{change_opened, closed, count_shown, count_known, ended, loaded_at, new_reader, number_noted, put_at, try_begun};
ghost use Rattle.clock_row.specs.Seats.{IsNote, IsReader, IsSameSeat, IsTrying, IsWriter, loaded_in, reader_on, writer_on};

use crate::plays::{
    Beginning, Closing, Ending, Loading, NewNote, NewReader, Opening, Owning, Putting, TakenNote,
};
use crate::view::{Board, RowSeat};

/// Begins the writer's next change. `count` is the number of changes applied before it.
pub(crate) fn open_change(board: &Board, seat: &mut RowSeat, count: u64)
    requires board { seat.old.table_id ≡ board.now.shared.table_id }
    requires words { 0 < board.now.shared.table_id.words }
    requires writer { IsWriter seat.old }
    requires count { (writer_on seat.old).count ≡ count }
    requires few { count < 2 ^ 32 }
    requires still { (writer_on seat.old).changing ≡ false }
    ensures seat { IsSameSeat seat.old seat.new }
    ensures view { seat.new.me.0 ≡ Writer (change_opened (writer_on seat.old)) }
{
    board.shared.store::<Opening>(seat, 0, 2 * count + 1);
}

/// Stores `word` at index `place` after the sequence number, as part of the writer's change in
/// progress.
pub(crate) fn put_word(board: &Board, seat: &mut RowSeat, place: usize, word: u64)
    requires board { seat.old.table_id ≡ board.now.shared.table_id }
    requires words { place + 1 < board.now.shared.table_id.words }
    requires few { place < 2 ^ 62 }
    requires writer { IsWriter seat.old }
    requires changing { (writer_on seat.old).changing ≡ true }
    ensures seat { IsSameSeat seat.old seat.new }
    ensures view { seat.new.me.0 ≡ Writer (put_at place word (writer_on seat.old)) }
{
    board.shared.store::<Putting>(seat, place + 1, word);
}

/// Completes the writer's change in progress. `count` is the number of changes applied before it.
/// Precondition: the words of each slot represent the slot's clock after this change.
pub(crate) fn close_change(board: &Board, seat: &mut RowSeat, count: u64)
    requires board { seat.old.table_id ≡ board.now.shared.table_id }
    requires words { 0 < board.now.shared.table_id.words }
    requires writer { IsWriter seat.old }
    requires count { (writer_on seat.old).count ≡ count }
    requires few { count < 2 ^ 32 }
    requires changing { (writer_on seat.old).changing ≡ true }
    requires clocks { AreClockWords (writer_on seat.old).plan (count + 1)
        (writer_on seat.old).body }
    ensures seat { IsSameSeat seat.old seat.new }
    ensures view { seat.new.me.0 ≡ Writer (closed (writer_on seat.old)) }
{
    board.shared.store::<Closing>(seat, 0, 2 * count + 2);
}

/// Loads the word at index `place` after the sequence number for the writer, and returns it.
pub(crate) fn own_word(board: &Board, seat: &mut RowSeat, place: usize) -> u64
    requires board { seat.old.table_id ≡ board.now.shared.table_id }
    requires words { place + 1 < board.now.shared.table_id.words }
    requires few { place < 2 ^ 62 }
    requires writer { IsWriter seat.old }
    ensures seat { IsSameSeat seat.old seat.new }
    ensures view { seat.new.me.0 ≡ seat.old.me.0 }
    ensures word { result ≡ slice_index (writer_on seat.old).body place }
{
    board.shared.load::<Owning>(seat, place + 1)
}

/// Loads the sequence number for the writer. The result isn't needed: the load proves that no
/// reader has reported more changes than the writer has applied.
pub(crate) fn own_number(board: &Board, seat: &mut RowSeat)
    requires board { seat.old.table_id ≡ board.now.shared.table_id }
    requires words { 0 < board.now.shared.table_id.words }
    requires writer { IsWriter seat.old }
    ensures seat { IsSameSeat seat.old seat.new }
    ensures view { seat.new.me.0 ≡ seat.old.me.0 }
    ensures known { 2 * (writer_on seat.old).known ≤ sequence (writer_on seat.old) }
{
    board.shared.load::<Owning>(seat, 0);
}

/// Begins a reader's attempt to take a sample: loads the sequence number and returns it.
pub(crate) fn begin_try(board: &Board, seat: &mut RowSeat) -> u64
    requires board { seat.old.table_id ≡ board.now.shared.table_id }
    requires words { 0 < board.now.shared.table_id.words }
    requires reader { IsReader seat.old }
    ensures seat { IsSameSeat seat.old seat.new }
    ensures view { seat.new.me.0 ≡ Reader (try_begun result (reader_on seat.old)) }
    ensures seen { 2 * (reader_on seat.old).seen ≤ result }
{
    board.shared.load::<Beginning>(seat, 0)
}

/// Loads the word at index `place` after the sequence number during a reader's attempt, and returns
/// it.
pub(crate) fn load_word(board: &Board, seat: &mut RowSeat, place: usize) -> u64
    requires board { seat.old.table_id ≡ board.now.shared.table_id }
    requires words { place + 1 < board.now.shared.table_id.words }
    requires few { place < 2 ^ 62 }
    requires reader { IsReader seat.old }
    ensures seat { IsSameSeat seat.old seat.new }
    ensures view { seat.new.me.0 ≡ Reader (loaded_at place result (reader_on seat.old)) }
{
    board.shared.load::<Loading>(seat, place + 1)
}

/// Ends a reader's attempt that began with the sequence number `first`: loads the sequence number
/// again and returns it. If the result equals `first`, all words that the attempt loaded were in
/// the seqlock at the same time.
pub(crate) fn end_try(board: &Board, seat: &mut RowSeat, first: u64) -> u64
    requires board { seat.old.table_id ≡ board.now.shared.table_id }
    requires words { 0 < board.now.shared.table_id.words }
    requires reader { IsReader seat.old }
    requires trying { IsTrying first seat.old }
    ensures seat { IsSameSeat seat.old seat.new }
    ensures view { seat.new.me.0 ≡ Reader (ended first result (reader_on seat.old)) }
    ensures later { first ≤ result }
    ensures together { result ≡ first →
        StoodTogether (reader_on seat.old).plan (first / 2)
        (loaded_in (reader_on seat.old).attempt) }
{
    board.shared.load::<Ending>(seat, 0)
}

/// Creates the handle of a new reader. The reader has seen all changes that the writer has applied.
pub(crate) fn split_reader(board: &Board, seat: &mut RowSeat) -> RowSeat
    requires board { seat.old.table_id ≡ board.now.shared.table_id }
    requires words { 0 < board.now.shared.table_id.words }
    requires writer { IsWriter seat.old }
    ensures seat { IsSameSeat seat.old seat.new }
    ensures view { seat.new.me.0 ≡ seat.old.me.0 }
    ensures row { result.table_id ≡ seat.old.table_id }
    ensures reader { result.me.0
        ≡ Reader (new_reader (writer_on seat.old).plan (writer_on seat.old).count) }
{
    board.shared.split_seat::<NewReader>(seat)
}

/// Creates a message that contains the number of changes that the writer has applied.
pub(crate) fn note_count(board: &Board, seat: &mut RowSeat) -> RowSeat
    requires board { seat.old.table_id ≡ board.now.shared.table_id }
    requires words { 0 < board.now.shared.table_id.words }
    requires writer { IsWriter seat.old }
    ensures seat { IsSameSeat seat.old seat.new }
    ensures view { seat.new.me.0 ≡ seat.old.me.0 }
    ensures row { result.table_id ≡ seat.old.table_id }
    ensures empty { result.me.1 ≡ [] }
    ensures note { IsNote result }
    ensures number { number_noted result.me.0 ≡ (writer_on seat.old).count }
{
    board.shared.split_seat::<NewNote>(seat)
}

/// Creates a message that contains the number of changes that a reader has seen.
pub(crate) fn note_seen(board: &Board, seat: &mut RowSeat) -> RowSeat
    requires board { seat.old.table_id ≡ board.now.shared.table_id }
    requires words { 0 < board.now.shared.table_id.words }
    requires reader { IsReader seat.old }
    ensures seat { IsSameSeat seat.old seat.new }
    ensures view { seat.new.me.0 ≡ seat.old.me.0 }
    ensures row { result.table_id ≡ seat.old.table_id }
    ensures empty { result.me.1 ≡ [] }
    ensures note { IsNote result }
    ensures number { number_noted result.me.0 ≡ (reader_on seat.old).seen }
{
    board.shared.split_seat::<NewNote>(seat)
}

/// Passes a message to a reader. After the call the reader has seen at least the number of changes
/// in the message.
pub(crate) fn show_note(board: &Board, seat: &mut RowSeat, note: RowSeat)
    requires board { seat.old.table_id ≡ board.now.shared.table_id }
    requires words { 0 < board.now.shared.table_id.words }
    requires row { note.table_id ≡ board.now.shared.table_id }
    requires empty { note.me.1 ≡ [] }
    requires note { IsNote note }
    requires reader { IsReader seat.old }
    ensures seat { IsSameSeat seat.old seat.new }
    ensures view { seat.new.me.0
        ≡ Reader (count_shown (number_noted note.me.0) (reader_on seat.old)) }
{
    board.shared.join_seat::<TakenNote>(seat, note);
}

/// Passes a message to the writer. After the call the number of changes reported to the writer is
/// at least the number in the message.
pub(crate) fn publish_note(board: &Board, seat: &mut RowSeat, note: RowSeat)
    requires board { seat.old.table_id ≡ board.now.shared.table_id }
    requires words { 0 < board.now.shared.table_id.words }
    requires row { note.table_id ≡ board.now.shared.table_id }
    requires empty { note.me.1 ≡ [] }
    requires note { IsNote note }
    requires writer { IsWriter seat.old }
    ensures seat { IsSameSeat seat.old seat.new }
    ensures view { seat.new.me.0 ≡
        Writer (count_known (number_noted note.me.0) (writer_on seat.old)) }
{
    board.shared.join_seat::<TakenNote>(seat, note);
}

//! Loads and stores the nine words of a slot, for the writer and for readers. Each word is loaded
//! or stored in a separate step.
ghost use Rattle.std.specs.Prelude.{◌≡◌, ◌+◌, ◌*◌, ◌^◌, ◌<◌, ◌≤◌, true, length, take, drop};
ghost use Rattle.psi_counts.specs.Clock.{AreWordsOfClock, words_of};
ghost use Rattle.clock_row.specs.Words.{ArePut, ClocksWereLoaded, StaysLoaded, WereLoaded};
ghost use Rattle.clock_row.specs.Seats.{HasLoaded, HasStored, IsReader, IsSameSeat, IsTrying, IsWriter, loaded_in, reader_on, writer_on};

use crate::steps::{load_word, own_word, put_word};
use crate::view::{Board, RowSeat};
use cpu_clock::Clock;

/// The number of words of a slot: seven times, the mask and the start.
pub(crate) const WORDS: usize = 9;

/// The index of the mask within the nine words of a slot.
pub(crate) const MASK_WORD: usize = 7;

/// The bits that a mask may contain, one for each of the seven states.
const MASK_BITS: u64 = 0b111_1111;

/// Loads nine words for the writer, and returns them. `from` is the index of the first word,
/// counted from the word after the sequence number.
pub(crate) fn own_words(board: &Board, seat: &mut RowSeat, from: usize) -> [u64; 9]
    requires board { seat.old.table_id ≡ board.now.shared.table_id }
    requires words { from + 9 < board.now.shared.table_id.words }
    requires few { from < 2 ^ 61 }
    requires writer { IsWriter seat.old }
    requires room { from + 9 ≤ length (writer_on seat.old).body }
    ensures seat { IsSameSeat seat.old seat.new }
    ensures view { seat.new.me.0 ≡ seat.old.me.0 }
    ensures words { result ≡ take 9 (drop from (writer_on seat.old).body) }
{
    let mut words = [0; WORDS];
    'words: for i in 0..WORDS {
        words[i] = own_word(board, seat, from + i);
    }
    words
}

/// Stores the nine words `words`. `from` is the index of the first word, counted from the word
/// after the sequence number. Skips words that the seqlock already contains, because a store costs
/// more than a load.
pub(crate) fn put_words(board: &Board, seat: &mut RowSeat, from: usize, words: &[u64; 9])
    requires board { seat.old.table_id ≡ board.now.shared.table_id }
    requires words { from + 9 < board.now.shared.table_id.words }
    requires few { from < 2 ^ 61 }
    requires writer { IsWriter seat.old }
    requires changing { (writer_on seat.old).changing ≡ true }
    requires room { from + 9 ≤ length (writer_on seat.old).body }
    ensures seat { IsSameSeat seat.old seat.new }
    ensures view { HasStored seat.old seat.new }
    ensures words { ArePut from 9 words.now (writer_on seat.old).body (writer_on seat.new).body }
{
    'words: for i in 0..WORDS {
        if own_word(board, seat, from + i) != words[i] {
            put_word(board, seat, from + i, words[i]);
        }
    }
}

/// Loads nine words during a reader's attempt, and returns them. `from` is the index of the first
/// word, counted from the word after the sequence number. `first` is the sequence number with which
/// the attempt began.
pub(crate) fn load_words(board: &Board, seat: &mut RowSeat, from: usize, first: u64) -> [u64; 9]
    requires board { seat.old.table_id ≡ board.now.shared.table_id }
    requires words { from + 9 < board.now.shared.table_id.words }
    requires few { from < 2 ^ 61 }
    requires reader { IsReader seat.old }
    requires trying { IsTrying first seat.old }
    ensures seat { IsSameSeat seat.old seat.new }
    ensures view { HasLoaded seat.old seat.new }
    ensures trying { IsTrying first seat.new }
    ensures words { WereLoaded (loaded_in (reader_on seat.new).attempt) from 9 result }
    ensures unchanged { StaysLoaded (loaded_in (reader_on seat.old).attempt)
        (loaded_in (reader_on seat.new).attempt) }
{
    let mut words = [0; WORDS];
    'words: for i in 0..WORDS {
        words[i] = load_word(board, seat, from + i);
    }
    words
}

/// Returns the clock that these nine words represent. If they don't represent a clock, the result
/// is an arbitrary clock.
fn clock_like(mut words: [u64; 9]) -> Clock
    ensures { AreWordsOfClock words → words_of result ≡ words }
{
    words[MASK_WORD] &= MASK_BITS;
    Clock::from_words(words)
}

/// Loads the clocks of all slots into `into`, in order of slots, during a reader's attempt. `first`
/// is the sequence number with which the attempt began. If the attempt succeeds, all these clocks
/// were in the seqlock at the same time.
pub(crate) fn load_clocks(board: &Board, seat: &mut RowSeat, into: &mut [Clock], first: u64)
    requires board { seat.old.table_id ≡ board.now.shared.table_id }
    requires words { 9 * length into.old + 1 ≡ board.now.shared.table_id.words }
    requires few { length into.old < 2 ^ 32 }
    requires reader { IsReader seat.old }
    requires trying { IsTrying first seat.old }
    ensures seat { IsSameSeat seat.old seat.new }
    ensures view { HasLoaded seat.old seat.new }
    ensures trying { IsTrying first seat.new }
    ensures wide { length into.new ≡ length into.old }
    ensures clocks { ClocksWereLoaded (loaded_in (reader_on seat.new).attempt)
        (length into.new) into.new }
{
    'slots: for slot in 0..into.len() {
        into[slot] = clock_like(load_words(board, seat, WORDS * slot, first));
    }
}

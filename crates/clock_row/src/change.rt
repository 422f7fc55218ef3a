//! Stores one change in a seqlock. The writer begins the change (odd sequence number), stores the
//! clocks of the slots whose mask changes, and completes the change (even sequence number).
ghost use Rattle.std.specs.Prelude.{◌≡◌, ◌+◌, ◌<◌, length, IfSome};
ghost use Rattle.plan_laws.specs.Plan.{IsClock};
ghost use Rattle.clock_row.specs.declared.view.View.TheVariants.{Writer};
ghost use Rattle.clock_row.specs.Words.{AreClockWords, StayByMask};
ghost use Rattle.clock_row.specs.Ends.{IsWriterEnd};
ghost use Rattle.clock_row.specs.Seats.{IsSameSeat, changed_to, writer_on};
ghost use Rattle.clock_row.specs.Turning.{AreBelow, ChainIsDone, ChainsAreDone, HasTurned, IsDone, IsTurning};

use crate::steps::{close_change, open_change, own_word};
use crate::view::{Board, RowSeat};
use crate::words::{MASK_WORD, WORDS, put_words};
use cpu_clock::Clock;
use proc_plan::{PlainClocks, Plan, ProcClocks};
use psi_base::Slot;

// Stores `clock`, which is the clock of `slot` after the change in progress. Stores nothing if the
// change doesn't affect the slot's mask, because the stored words then also represent the clock
// after the change.
fn turn_slot(board: &Board, seat: &mut RowSeat, slot: Slot, clock: &Clock)
    requires turning { IsTurning board.now.shared.table_id seat.old }
    requires slot { slot.0 < length (writer_on seat.old).plan.parents }
    requires clock { IsClock clock.now (writer_on seat.old).plan slot.0
        ((writer_on seat.old).count + 1) }
    ensures turning { IsTurning board.now.shared.table_id seat.new }
    ensures turned { HasTurned seat.old seat.new }
    ensures done { IsDone seat.new slot.0 }
{
    let from = WORDS * slot.0 as usize;
    if own_word(board, seat, from + MASK_WORD) != u64::from(clock.mask.bits()) {
        put_words(board, seat, from, &clock.to_words());
    }
}

// Stores the clocks of the slot `start` and of its ancestors. Does nothing for `None`.
// Precondition: `clocks` has already applied the change in progress.
fn turn_chain(
    board: &Board,
    seat: &mut RowSeat,
    plan: &Plan,
    clocks: &mut PlainClocks<'_>,
    start: Option<Slot>,
)
    requires turning { IsTurning board.now.shared.table_id seat.old }
    requires plan { plan.now ≡ (writer_on seat.old).plan }
    requires clocks { clocks.old
        ≡ record { plan = (writer_on seat.old).plan; made = (writer_on seat.old).count + 1 } }
    requires start { IfSome start (λ slot. slot.0 < length (writer_on seat.old).plan.parents) }
    ensures turning { IsTurning board.now.shared.table_id seat.new }
    ensures turned { HasTurned seat.old seat.new }
    ensures done { ChainIsDone seat.new start }
    ensures clocks { clocks.new ≡ clocks.old }
{
    let mut next = start;
    'up: while let Some(slot) = next {
        turn_slot(board, seat, slot, &clocks.own(slot));
        next = plan.parent(slot);
    }
}

fn turn_chains(
    board: &Board,
    seat: &mut RowSeat,
    plan: &Plan,
    clocks: &mut PlainClocks<'_>,
    starts: [Option<Slot>; 4],
)
    requires turning { IsTurning board.now.shared.table_id seat.old }
    requires plan { plan.now ≡ (writer_on seat.old).plan }
    requires clocks { clocks.old
        ≡ record { plan = (writer_on seat.old).plan; made = (writer_on seat.old).count + 1 } }
    requires starts { AreBelow (length plan.now.parents) starts }
    ensures turning { IsTurning board.now.shared.table_id seat.new }
    ensures turned { HasTurned seat.old seat.new }
    ensures done { ChainsAreDone seat.new starts }
    ensures clocks { clocks.new ≡ clocks.old }
{
    'chains: for start in starts {
        turn_chain(board, seat, plan, clocks, start);
    }
}

/// Applies the next change of `plan`: updates `clocks`, and stores the nine words of each slot
/// whose mask changes in the seqlock.
pub(crate) fn make_change(
    board: &Board,
    seat: &mut RowSeat,
    plan: &Plan,
    clocks: &mut PlainClocks<'_>,
)
    requires writer { IsWriterEnd board.now.shared.table_id seat.old plan.now clocks.old }
    requires next { clocks.old.made < length plan.now.changes }
    ensures seat { IsSameSeat seat.old seat.new }
    ensures view { seat.new.me.0
        ≡ Writer (changed_to (writer_on seat.new).body (writer_on seat.old)) }
    ensures words { AreClockWords plan.now ((writer_on seat.old).count + 1)
        (writer_on seat.new).body }
    ensures stay { StayByMask plan.now (writer_on seat.old).body (writer_on seat.new).body }
    ensures clocks { clocks.new
        ≡ record { plan = plan.now; made = (writer_on seat.old).count + 1 } }
{
    let count = clocks.count();
    let starts = plan.concerned(count + 1);
    clocks.apply();
    open_change(board, seat, count);
    turn_chains(board, seat, plan, clocks, starts);
    close_change(board, seat, count);
}

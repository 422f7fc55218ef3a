//! The tick board: the driver of a replay publishes the replay's state at each tick, and observers
//! read the latest state without a lock.
ghost use Rattle.std.specs.Prelude.{◌≡◌, ◌≤◌, [], ◌∷◌, ◌++◌, length, IfOk, IsOk, Ok};
ghost use Rattle.observer_log.specs.Board.{ArePublished, after_read, after_known, first_state, newcomer};

use atomic_table::{Join, Split};
use crossbeam_utils::atomic::seq_cell::{Pass, RuledSeqCell, Words};
use crossbeam_utils::rule::{Outcome, Protocol};
use psi_base::NoMemory;
use std::alloc::Global;
use std::marker::Model;
use std::sync::Wait;

/// The state of the replay at a tick.
#[derive(Clone, Copy, Debug, PartialEq, Eq)]
pub struct BoardState {
    /// The number of the tick, from 1, or 0 before the first tick.
    pub tick: u64,
    /// The number of events up to the tick.
    pub events: u64,
    /// The number of kills up to the tick.
    pub kills: u64,
}

impl Words<3> for BoardState {
    ghost use Rattle.observer_log.specs.Board.{words_of};

    ghost words = { words_of };

    fn to_words(self) -> [u64; 3] {
        [self.tick, self.events, self.kills]
    }

    fn from_words(bits: &[u64; 3]) -> BoardState {
        BoardState {
            tick: bits[0],
            events: bits[1],
            kills: bits[2],
        }
    }
}

/// What the driver has published, and which states an observer reported to it. In contracts, an
/// array of length 0 is a list of any length.
pub struct Publishing {
    /// All published states, ordered by tick, including the state before the first tick.
    pub states: [BoardState; 0],
    /// The states that one observer has read: the observer that the driver notified last.
    pub heard: [BoardState; 0],
}

/// What an observer has read, and what it was notified of. In contracts, an array of length 0 is a
/// list of any length.
pub struct Watching {
    /// The latest tick that the observer has read or was notified of. The next read returns this
    /// tick or a later tick.
    pub least: u64,
    /// The states that the observer has read, the latest read first.
    pub read: [BoardState; 0],
}

/// What the holder of a pass knows about the board. A *note* carries the knowledge of one pass to
/// another.
pub enum View {
    /// A note whose knowledge was passed on. It has no content.
    Spent,
    /// A note from the driver: the states that were published before the note was created.
    Shown([BoardState; 0]),
    /// A note from an observer: the states that the observer has read.
    Seen([BoardState; 0]),
    /// The knowledge of the driver.
    Driver(Publishing),
    /// The knowledge of an observer.
    Observer(Watching),
}

/// The invariant of the board. It relates the state on the board to the knowledge of the driver and
/// of all observers, and holds between two successive steps.
pub struct BoardRule;

impl Protocol<BoardState, View> for BoardRule {
    ghost use Rattle.observer_log.specs.Board.{HoldsBoard, first_view};

    ghost holds = { HoldsBoard };

    ghost first = { first_view };
}

// Step 1, a swap: the driver puts a new state on the board.
struct Publishes;

impl Outcome<BoardState, View> for Publishes {
    ghost use Rattle.observer_log.specs.Board.{HasPublished};

    ghost then = { HasPublished };
}

// Step 2, a load: an observer reads the board.
struct Reads;

impl Outcome<BoardState, View> for Reads {
    ghost use Rattle.observer_log.specs.Board.{HasRead};

    ghost then = { HasRead };
}

// Step 2, a load: the driver checks that the states that an observer reported were published.
struct Compares;

impl Outcome<BoardState, View> for Compares {
    ghost use Rattle.observer_log.specs.Board.{HasCompared};

    ghost then = { HasCompared };
}

// Step 3, a split: the driver creates a pass (the right to read the board) for a new observer.
struct Admits;

impl Split<View> for Admits {
    ghost use Rattle.observer_log.specs.Board.{admitted};

    ghost left = { λ view. view };

    ghost right = { admitted };
}

// Steps 3 and 4, a split and a join: the driver or an observer creates a note of its knowledge, and
// another thread receives the note.
struct Shows;

impl Split<View> for Shows {
    ghost use Rattle.observer_log.specs.Board.{note_of};

    ghost left = { λ view. view };

    ghost right = { note_of };
}

impl Join<View> for Shows {
    ghost use Rattle.observer_log.specs.declared.board.View.TheVariants.{Spent};
    ghost use Rattle.observer_log.specs.Board.{with_note};

    ghost both = { with_note };

    ghost spent = { Spent };
}

type Cell = RuledSeqCell<BoardState, View, BoardRule, 3>;

type Seat = Pass<BoardState, View>;

/// The tick board, which all threads share. In contracts, a board is represented by its identity.
#[derive(Drop)]
pub struct Board {
    cell: Cell,
}

impl Model for Board {
    ghost use Rattle.atomic_table.specs.Seated.{TableId};

    ghost Value = { TableId };

    ghost view = { λ board. board.cell.table.shared.table_id };
}

/// The driver's pass: the right to publish on a board. Contracts see the board, and the states
/// published on it.
#[derive(Drop)]
pub struct DriverPass {
    seat: Seat,
}

impl Model for DriverPass {
    ghost use Rattle.observer_log.specs.Board.{DriverEnd, IsDriver, driver_end};

    ghost Value = { DriverEnd };

    ghost view = { λ pass. driver_end pass.seat };

    ghost invariant = { λ pass. IsDriver pass.seat };
}

/// An observer's pass: the right to read a board. It may be sent to another thread. Contracts see
/// the board, and what the observer knows.
#[derive(Drop)]
pub struct BoardPass {
    seat: Seat,
}

impl Model for BoardPass {
    ghost use Rattle.observer_log.specs.Board.{BoardEnd, IsObserver, board_end};

    ghost Value = { BoardEnd };

    ghost view = { λ pass. board_end pass.seat };

    ghost invariant = { λ pass. IsObserver pass.seat };
}

impl Board {
    /// Creates a board that shows tick 0. Returns the board and the driver's pass, which is the
    /// right to publish. Fails with `NoMemory` if memory runs out.
    pub fn make(alloc: Global) -> Result<(Board, DriverPass), NoMemory>
        ensures board { IfOk result (λ made. made.1.board ≡ made.0) }
        ensures first { IfOk result (λ made. made.1.states ≡ first_state ∷ []) }
    {
        let first = BoardState {
            tick: 0,
            events: 0,
            kills: 0,
        };
        let (cell, seat) = Cell::ruled(alloc, first)?;
        Ok((Board { cell }, DriverPass { seat }))
    }

    /// Publishes the state of the next tick. Later reads return this state or a later one.
    pub fn publish<R: Wait>(&self, rt: &R, pass: &mut DriverPass, state: BoardState)
        requires board { pass.old.board ≡ self.now }
        requires next { state.tick ≡ length pass.old.states }
        ensures board { pass.new.board ≡ pass.old.board }
        ensures shown { pass.new.states ≡ pass.old.states ++ state ∷ [] }
    {
        self.cell.swap_as::<Publishes, R>(rt, &mut pass.seat, state);
    }

    /// Creates a pass (the right to read the board) for a new observer, which has read nothing. The
    /// first read with the pass returns the latest published tick or a later one.
    pub fn pass<R: Wait>(&self, _rt: &R, driver: &mut DriverPass) -> Result<BoardPass, NoMemory>
        requires board { driver.old.board ≡ self.now }
        ensures ok { IsOk result }
        ensures same { driver.new ≡ driver.old }
        ensures board { IfOk result (λ pass. pass.board ≡ self.now) }
        ensures new { IfOk result (λ pass. pass.knows ≡ newcomer driver.old.states) }
    {
        Ok(BoardPass {
            seat: self.cell.split_pass::<Admits>(&mut driver.seat),
        })
    }

    /// Reads the state on the board. Its tick is at least the latest tick that the observer read or
    /// was notified of.
    pub fn read<R: Wait>(&self, rt: &R, pass: &mut BoardPass) -> BoardState
        requires board { pass.old.board ≡ self.now }
        ensures board { pass.new.board ≡ pass.old.board }
        ensures later { pass.old.knows.least ≤ result.tick }
        ensures read { pass.new.knows ≡ after_read result pass.old.knows }
    {
        self.cell.load_as::<Reads, R>(rt, &mut pass.seat)
    }

    /// Notifies an observer of all published states, so that its later reads return the latest tick
    /// or a later one. Also checks that each state that the observer has read is the published
    /// state of its tick. Always returns `Ok`.
    pub fn tell<R: Wait>(
        &self,
        rt: &R,
        driver: &mut DriverPass,
        pass: &mut BoardPass,
    ) -> Result<(), NoMemory>
        requires driver { driver.old.board ≡ self.now }
        requires board { pass.old.board ≡ self.now }
        ensures ok { result ≡ Ok tt }
        ensures same { driver.new ≡ driver.old }
        ensures board { pass.new.board ≡ pass.old.board }
        ensures known { pass.new.knows ≡ after_known driver.old.states pass.old.knows }
        ensures read { ArePublished driver.old.states pass.old.knows.read }
    {
        let seen = self.cell.split_pass::<Shows>(&mut pass.seat);
        self.cell.join_pass::<Shows>(&mut driver.seat, seen);
        self.cell.load_as::<Compares, R>(rt, &mut driver.seat);
        let shown = self.cell.split_pass::<Shows>(&mut driver.seat);
        self.cell.join_pass::<Shows>(&mut pass.seat, shown);
        Ok(())
    }
}

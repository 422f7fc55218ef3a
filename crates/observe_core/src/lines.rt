//! Writes the output: the lines of samples and of board states, and the last line. The module
//! `note` writes the messages for standard error.
ghost use Rattle.std.specs.Prelude.{◌≤◌, length};
ghost use Rattle.std.specs.List.{flat_map};
ghost use Rattle.outside.specs.Outside.{HasCause, SameInner};
ghost use Rattle.outside.specs.Calls.{PutsAll};
ghost use Rattle.observe_core.specs.Printed.{end_line, entry_line, printed, state_line, states_text};

use observer_log::{BoardState, Entry};
use outside::{Sink, WriteFailed};
use pressure_text::{Piece, put_pieces, put_timed};
use psi_base::Ns;

// Writes the output line of a sample: the numbers of the observer, the processor and the changes,
// the time (ns) of the last change, and the time (ns) in each of the seven states.
#[tactic(auto, using(pressure_text::proofs::Puts::times))]
fn put_entry<K: Sink>(out: &mut K, entry: &Entry<'_>) -> Result<(), WriteFailed>
    ensures bytes { PutsAll (K.has out.old) (K.has out.new) result (entry_line entry.now) }
    ensures cause { HasCause (K.faults out.old) (K.faults out.new) result }
    ensures below { SameInner (K.below out.old) (K.below out.new) }
{
    put_timed(
        out,
        &[
            Piece::Text(b"sample observer="),
            Piece::Number(u64::from(entry.observer)),
            Piece::Text(b" cpu="),
            Piece::Number(u64::from(entry.cpu.0)),
            Piece::Text(b" count="),
            Piece::Number(entry.count),
            Piece::Text(b" at="),
            Piece::Number(entry.at),
        ],
        &entry.seven,
    )
}

// Writes the output line of the board state that observer number `observer` read last.
#[tactic(auto, using(outside::proofs::Grows::chain))]
fn put_state<K: Sink>(out: &mut K, observer: u32, state: &BoardState) -> Result<(), WriteFailed>
    ensures bytes { PutsAll (K.has out.old) (K.has out.new) result
        (state_line observer state.now) }
    ensures cause { HasCause (K.faults out.old) (K.faults out.new) result }
    ensures below { SameInner (K.below out.old) (K.below out.new) }
{
    put_pieces(
        out,
        &[
            Piece::Text(b"board observer="),
            Piece::Number(u64::from(observer)),
            Piece::Text(b" tick="),
            Piece::Number(state.tick),
            Piece::Text(b" events="),
            Piece::Number(state.events),
            Piece::Text(b" kills="),
            Piece::Number(state.kills),
            Piece::Text(b"\n"),
        ],
    )
}

#[tactic(auto, using(outside::proofs::Grows::chain))]
fn put_end<K: Sink>(out: &mut K, finish: Ns, samples: u64) -> Result<(), WriteFailed>
    ensures bytes { PutsAll (K.has out.old) (K.has out.new) result (end_line finish samples) }
    ensures cause { HasCause (K.faults out.old) (K.faults out.new) result }
    ensures below { SameInner (K.below out.old) (K.below out.new) }
{
    put_pieces(
        out,
        &[
            Piece::Text(b"end "),
            Piece::Number(finish),
            Piece::Text(b" samples="),
            Piece::Number(samples),
            Piece::Text(b"\n"),
        ],
    )
}

#[tactic(auto, using(outside::proofs::Grows::growth))]
fn put_entries<K: Sink>(out: &mut K, entries: &[Entry<'_>]) -> Result<(), WriteFailed>
    ensures bytes { PutsAll (K.has out.old) (K.has out.new) result
        (flat_map entry_line entries.now) }
    ensures cause { HasCause (K.faults out.old) (K.faults out.new) result }
    ensures below { SameInner (K.below out.old) (K.below out.new) }
{
    'entries: for entry in entries {
        put_entry(out, entry)?;
    }
    Ok(())
}

// Writes one line for each observer, in the order of observers, with the board state that the
// observer read last.
#[tactic(auto, using(outside::proofs::Grows::growth))]
fn put_states<K: Sink>(out: &mut K, states: &[BoardState]) -> Result<(), WriteFailed>
    requires { length states.now ≤ 8 }
    ensures bytes { PutsAll (K.has out.old) (K.has out.new) result (states_text 0 states.now) }
    ensures cause { HasCause (K.faults out.old) (K.faults out.new) result }
    ensures below { SameInner (K.below out.old) (K.below out.new) }
{
    'states: for observer in 0..states.len() {
        put_state(out, observer as u32, &states[observer])?;
    }
    Ok(())
}

/// Writes the whole output: the samples in the order of `entries`, the state of the board that each
/// observer read last, and the end time (ns).
#[tactic(auto, using(outside::proofs::Grows::chain))]
pub(crate) fn put_observed<K: Sink>(
    out: &mut K,
    entries: &[Entry<'_>],
    states: &[BoardState],
    finish: Ns,
) -> Result<(), WriteFailed>
    requires { length states.now ≤ 8 }
    ensures bytes { PutsAll (K.has out.old) (K.has out.new) result
        (printed entries.now states.now finish) }
    ensures cause { HasCause (K.faults out.old) (K.faults out.new) result }
    ensures below { SameInner (K.below out.old) (K.below out.new) }
{
    put_entries(out, entries)?;
    put_states(out, states)?;
    put_end(out, finish, entries.len() as u64)
}

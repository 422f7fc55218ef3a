//! Writes single fields of an event into its line. A line is written from its end to its start, so
//! each function adds its field at the start.
ghost use Rattle.std.specs.Prelude.{◌≡◌, ◌≤◌, ◌+◌, ◌++◌, ◌∷◌, [], decimal, length};
ghost use Rattle.psi_spec.specs.Fields as fields;
ghost use Rattle.psi_trace.specs.Writes.{spaced};

use crate::line::{LineBuffer, LongLine};

/// Adds a space and a number at the start of the line.
#[tactic(auto, using(crate::proofs::InPieces::lines))]
pub(crate) fn put_number(line: &mut LongLine, number: u64)
    requires { length line.old ≤ 63 }
    ensures bytes { line.new ≡ 32 ∷ decimal number ++ line.old }
    ensures room { length line.new ≤ 21 + length line.old }
{
    line.number(number);
    line.text(b" ");
}

/// Adds three numbers at the start of the line, each after a space.
#[tactic(auto, using(crate::proofs::InPieces::lines))]
pub(crate) fn put_numbers(line: &mut LongLine, first: u64, second: u64, third: u64)
    requires { length line.old ≡ 0 }
    ensures bytes { line.new
        ≡ spaced (decimal first ∷ decimal second ∷ decimal third ∷ []) ++ line.old }
    ensures room { length line.new ≤ 63 }
{
    put_number(line, third);
    put_number(line, second);
    put_number(line, first);
}

/// Adds a space and a word at the start of the line.
#[inline(always)]
pub(crate) fn put_word<const ROOM: usize>(line: &mut LineBuffer<ROOM>, word: &str)
    requires { 1 + length word.now + length line.old ≤ ROOM }
    ensures bytes { line.new ≡ 32 ∷ word.now ++ line.old }
    ensures length { length line.new ≡ 1 + length word.now + length line.old }
{
    line.text(word.as_bytes());
    line.text(b" ");
}

/// Adds a space and `on` or `off` (for a group's accounting) at the start of the line.
pub(crate) fn put_account(line: &mut LongLine, on: bool)
    requires { length line.old ≤ 63 }
    ensures bytes { line.new ≡ 32 ∷ fields.account_word on ++ line.old }
    ensures room { length line.new ≤ 4 + length line.old }
{
    if on {
        put_word(line, "on")
    } else {
        put_word(line, "off")
    }
}

//! Writes a line piece by piece. Each piece is written as soon as it is formatted.
//!
//! No line is built in memory.
ghost use Rattle.std.specs.Prelude.{◌≡◌, ◌++◌, codes};
ghost use Rattle.std.specs.List.{flat_map};
ghost use Rattle.outside.specs.Outside.{HasCause, SameInner};
ghost use Rattle.outside.specs.Calls.{PutsAll};
ghost use Rattle.pressure_spec.specs.File.{hundredths, percent_text, two_digits};
ghost use Rattle.pressure_text.specs.Pieces.{piece_bytes, spaced_number};

use outside::{Sink, WriteFailed, put_all, put_number};

/// The fixed-point number that represents one percent.
const PERCENT: u64 = 2048;

/// A piece of a line.
#[derive(Clone, Copy)]
pub enum Piece<'a> {
    /// A number that is written in decimal.
    Number(u64),
    /// Bytes that are written unchanged.
    Text(&'a [u8]),
    /// A fixed-point average (2048 is one percent) that is written in percent with two decimals.
    Percent(u64),
}

// Returns a decimal point and the two decimals of an average in percent, rounded down.
#[tactic(auto, using(std::proofs::lemmas::Fmt::decimal_digit))]
fn fraction_of(average: u64) -> [u8; 3]
    ensures { result ≡ codes "." ++ two_digits (hundredths average) }
{
    let hundredths = (average % PERCENT) * 100 / PERCENT;
    let tens = (hundredths / 10) as u8;
    let ones = (hundredths % 10) as u8;
    [b'.', b'0' + tens, b'0' + ones]
}

// Writes a fixed-point average in percent with two decimals.
#[tactic(auto, using(outside::proofs::Grows::chain))]
fn put_percent<K: Sink>(out: &mut K, average: u64) -> Result<(), WriteFailed>
    ensures bytes { PutsAll (K.has out.old) (K.has out.new) result (percent_text average) }
    ensures cause { HasCause (K.faults out.old) (K.faults out.new) result }
    ensures below { SameInner (K.below out.old) (K.below out.new) }
{
    put_number(out, average / PERCENT)?;
    put_all(out, &fraction_of(average))
}

fn put_piece<K: Sink>(out: &mut K, piece: Piece) -> Result<(), WriteFailed>
    ensures bytes { PutsAll (K.has out.old) (K.has out.new) result (piece_bytes piece.entry) }
    ensures cause { HasCause (K.faults out.old) (K.faults out.new) result }
    ensures below { SameInner (K.below out.old) (K.below out.new) }
{
    match piece {
        Piece::Number(n) => put_number(out, n),
        Piece::Text(text) => put_all(out, text),
        Piece::Percent(average) => put_percent(out, average),
    }
}

/// Writes the pieces in order. If a write fails, only a prefix of their bytes has been written.
#[tactic(auto, using(outside::proofs::Grows::growth))]
pub fn put_pieces<K: Sink>(out: &mut K, pieces: &[Piece]) -> Result<(), WriteFailed>
    ensures bytes { PutsAll (K.has out.old) (K.has out.new) result
        (flat_map piece_bytes pieces.now) }
    ensures cause { HasCause (K.faults out.old) (K.faults out.new) result }
    ensures below { SameInner (K.below out.old) (K.below out.new) }
{
    for piece in pieces {
        put_piece(out, *piece)?;
    }
    Ok(())
}

#[tactic(auto, using(outside::proofs::Grows::chain))]
fn put_spaced<K: Sink>(out: &mut K, number: u64) -> Result<(), WriteFailed>
    ensures bytes { PutsAll (K.has out.old) (K.has out.new) result (spaced_number number) }
    ensures cause { HasCause (K.faults out.old) (K.faults out.new) result }
    ensures below { SameInner (K.below out.old) (K.below out.new) }
{
    put_all(out, b" ")?;
    put_number(out, number)
}

/// Writes each number after a space.
#[tactic(auto, using(outside::proofs::Grows::growth))]
pub(crate) fn put_numbers<K: Sink>(out: &mut K, numbers: &[u64]) -> Result<(), WriteFailed>
    ensures bytes { PutsAll (K.has out.old) (K.has out.new) result
        (flat_map spaced_number numbers.now) }
    ensures cause { HasCause (K.faults out.old) (K.faults out.new) result }
    ensures below { SameInner (K.below out.old) (K.below out.new) }
{
    for number in numbers {
        put_spaced(out, *number)?;
    }
    Ok(())
}

//! Writes whole texts and numbers to a sink, which may take only a part of the bytes of each write.
ghost use Rattle.std.specs.Prelude.{◌≡◌, ◌≤◌, length, take, OnOk, decimal};
ghost use Rattle.std.specs.Io.KnownBytes.{Appends};
ghost use Rattle.std.specs.List.{flat_map};
ghost use Rattle.outside.specs.Outside.{HasCause, SameInner};
ghost use Rattle.outside.specs.Calls.{PutsAll};

use crate::sink::{Sink, WriteFailed};

// Writes the bytes in order until all are taken or a write fails. Returns the number of bytes
// taken, and whether a write failed.
#[tactic(auto, using(crate::proofs::Grows::growth))]
pub(crate) fn send<K: Sink>(out: &mut K, bytes: &[u8]) -> (usize, Result<(), WriteFailed>)
    ensures bound { result.0 ≤ length bytes.now }
    ensures all { OnOk result.1 (result.0 ≡ length bytes.now) }
    ensures bytes { Appends (K.has out.old) (K.has out.new) (take result.0 bytes.now) }
    ensures cause { HasCause (K.faults out.old) (K.faults out.new) result.1 }
    ensures below { SameInner (K.below out.old) (K.below out.new) }
{
    let mut sent = 0;
    while sent < bytes.len() {
        match out.write(&bytes[sent..]) {
            Ok(count) => sent += count,
            Err(failed) => return (sent, Err(failed)),
        }
    }
    (sent, Ok(()))
}

/// Writes all the bytes in order, in as many writes as the sink needs. After a failure the sink has
/// a prefix of them.
pub fn put_all<K: Sink>(out: &mut K, bytes: &[u8]) -> Result<(), WriteFailed>
    ensures bytes { PutsAll (K.has out.old) (K.has out.new) result bytes.now }
    ensures cause { HasCause (K.faults out.old) (K.faults out.new) result }
    ensures below { SameInner (K.below out.old) (K.below out.new) }
{
    let (_, result) = send(out, bytes);
    result
}

/// Writes all the pieces in order. After a failure the sink has a prefix of their concatenation.
#[tactic(auto, using(crate::proofs::Grows::growth))]
pub fn put_each<K: Sink>(out: &mut K, pieces: &[&[u8]]) -> Result<(), WriteFailed>
    ensures bytes { PutsAll (K.has out.old) (K.has out.new) result
        (flat_map (λ piece. piece.now) pieces.now) }
    ensures cause { HasCause (K.faults out.old) (K.faults out.new) result }
    ensures below { SameInner (K.below out.old) (K.below out.new) }
{
    for piece in pieces {
        put_all(out, piece)?;
    }
    Ok(())
}

/// Writes a number in decimal, as [`psi_base::read_number`] parses it. After a failure the sink has
/// a prefix of the digits.
pub fn put_number<K: Sink>(out: &mut K, n: u64) -> Result<(), WriteFailed>
    ensures bytes { PutsAll (K.has out.old) (K.has out.new) result (decimal n) }
    ensures cause { HasCause (K.faults out.old) (K.faults out.new) result }
    ensures below { SameInner (K.below out.old) (K.below out.new) }
{
    let mut buffer = itoa::Buffer::new();
    put_all(out, buffer.format(n).as_bytes())
}

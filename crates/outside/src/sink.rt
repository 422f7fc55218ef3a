//! The trait for outputs to which bytes are written, and the failure of a write.
ghost use Rattle.std.specs.Prelude.{◌+◌, ℕ, List, Option, length, IfOk, ◌<◌};
ghost use Rattle.std.specs.Io.KnownBytes.{WriteAppends};
ghost use Rattle.std.specs.Io.{WritesAtMost};
ghost use Rattle.outside.specs.Outside.{Inner, HasCause, SameInner, no_inner};

/// A failed write: the sink took no bytes, and its fault count increased.
#[derive(Clone, Copy, Debug, PartialEq, Eq)]
pub struct WriteFailed;

/// An output to which bytes are written. Its fault count has 64 bits, starts at 0, never falls, and
/// saturates.
pub trait Sink {
    /// All bytes that the sink has taken, if known.
    ghost has: { Self → Option (List ℕ) };

    /// The number of failed writes.
    ghost faults: { Self → ℕ };

    /// The sink to which this sink forwards its bytes, if it borrows another sink. No call replaces
    /// that inner sink or removes bytes from it, so a caller knows its final content.
    ghost below: { Self → Inner } = { λ _. no_inner };

    /// Writes a prefix of `piece`, at least one byte unless `piece` is empty, and returns the
    /// length of the prefix. After `WriteFailed` no byte was written.
    fn write(&mut self, piece: &[u8]) -> Result<usize, WriteFailed>
        ensures bound { WritesAtMost result piece.now }
        ensures progress { IfOk result (λ n. 0 < length piece.now → 0 < n) }
        ensures bytes { WriteAppends (has self.old) (has self.new) result piece.now }
        ensures cause { HasCause (faults self.old) (faults self.new) result }
        ensures below { SameInner (below self.old) (below self.new) };
}

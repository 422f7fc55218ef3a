//! Ghost state: a sum and a log that only contracts and proofs read. They occupy no memory, and
//! their functions do nothing at run time.
ghost use Rattle.std.specs.Prelude.{◌≡◌, ◌+◌, ◌++◌, ◌∷◌, [], ℕ, List};
ghost use Rattle.std.specs.Borrow.{ftrue};
ghost use Rattle.outside.specs.Reads.{ReadCall, read_call};

use crate::shelf::ShelfFault;
use std::marker::Model;

/// A ghost sum, which only contracts and proofs read. Its value `count` is unbounded.
#[derive(Drop)]
pub struct Tally {
    pub ghost count: { ℕ },
}

impl Model for Tally {
    ghost also_owns = { λ _. ftrue };
}

impl Tally {
    /// Makes a sum of 0.
    pub fn new() -> Tally
        ensures { result.count ≡ 0 }
    {
        Tally {}
    }

    /// Returns the sum plus `more`.
    #[inline(always)]
    pub fn and(&self, more: usize) -> Tally
        ensures { result.count ≡ self.now.count + more }
    {
        Tally {}
    }
}

/// An entry of the log of reads: one call of `read_at`.
#[derive(Drop)]
pub struct Call<'a> {
    /// The name of the file that was read.
    pub name: &'a str,
    /// The offset of the read, in bytes.
    pub at: u64,
    /// The requested number of bytes.
    pub size: usize,
    /// The number of bytes returned, or the fault.
    pub outcome: Result<usize, ShelfFault>,
}

/// The ghost log of the reads of a shelf, in order. Only contracts and proofs read it, as `calls`.
#[derive(Drop)]
pub struct ReadLog {
    pub ghost calls: { List ReadCall },
}

impl Model for ReadLog {
    ghost also_owns = { λ _. ftrue };
}

impl ReadLog {
    /// Makes an empty log.
    pub fn new() -> ReadLog
        ensures { result.calls ≡ [] }
    {
        ReadLog {}
    }

    /// Returns the log with `call` appended.
    #[inline(always)]
    pub fn and(&self, call: &Call<'_>) -> ReadLog
        ensures { result.calls ≡ self.now.calls ++ read_call call.now.name.now
            call.now.at call.now.size call.now.outcome ∷ [] }
    {
        ReadLog {}
    }
}

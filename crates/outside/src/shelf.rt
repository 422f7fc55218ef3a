//! The trait for reading files by name, and the failures of a read.
ghost use Rattle.std.specs.Prelude.{◌≡◌, ◌⊎◌, ◌+◌, ◌++◌, ◌∷◌, [], ℕ, List, Option, Some, None, length, IfOk, IsErrOf, ◌≤◌};
ghost use Rattle.outside.specs.Outside.{Files, HasCauses, IsAbsent, ReadsBytes, counts_of, count_read, content_of};
ghost use Rattle.outside.specs.Reads.{ReadCall, read_call};

/// The failure of a read.
#[derive(Clone, Copy, Debug, PartialEq, Eq)]
pub enum ShelfFault {
    /// No file has this name. The count `absent` of the shelf increases.
    NoFile,
    /// The read failed. The count `faults` of the shelf increases.
    Failed,
}

/// A store of files that are read by name. Their contents never change. The counts `faults` and
/// `absent` have 64 bits, start at 0, never fall, and saturate. The count `bytes_read` and the log
/// `reads` exist only in proofs, and are unbounded.
pub trait Shelf {
    /// The names and contents of the files, if known. If two files have the same name, the first
    /// file is used.
    ghost holds: { Self → Option Files };

    /// The number of failed reads.
    ghost faults: { Self → ℕ };

    /// The number of reads of names that don't exist.
    ghost absent: { Self → ℕ };

    /// The number of bytes returned by all reads.
    ghost bytes_read: { Self → ℕ };

    /// The log of all reads, in order.
    ghost reads: { Self → List ReadCall };

    /// Reads the file `name` from offset `at` (bytes) into the beginning of `into`, and returns the
    /// number of bytes read. For a nonempty buffer, 0 means the end of the file.
    ///
    /// If the contents of the shelf are known, the result is `NoFile` only for a name that doesn't
    /// exist, and a read of such a name always returns `NoFile` or `Failed`.
    fn read_at(&mut self, name: &str, at: u64, into: &mut [u8]) -> Result<usize, ShelfFault>
        ensures unchanged { holds self.new ≡ holds self.old }
        ensures bound { IfOk result (λ n. n ≤ length into.new) }
        ensures bytes { (bytes : List ℕ) → content_of (holds self.old) name.now ≡ Some bytes
            → IfOk result (λ n. ReadsBytes bytes at n into.old into.new) }
        ensures cause { HasCauses (counts_of (faults self.old) (absent self.old))
            (counts_of (faults self.new) (absent self.new))
            (IsErrOf result ShelfFault.Failed) (IsErrOf result ShelfFault.NoFile) }
        ensures bytes_read { bytes_read self.new ≡ bytes_read self.old + count_read result }
        ensures log { reads self.new
            ≡ reads self.old ++ read_call name.now at (length into.old) result ∷ [] }
        ensures missed { IsErrOf result ShelfFault.NoFile →
            content_of (holds self.old) name.now ≡ None }
        ensures lacking { IsAbsent (holds self.old) name.now → IsErrOf result ShelfFault.NoFile
            ⊎ IsErrOf result ShelfFault.Failed };
}

//! Reads a file of a shelf into the free part of a buffer.
ghost use Rattle.std.specs.Prelude.{◌≡◌, ◌⊎◌, ◌+◌, ◌<◌, ◌≤◌, ℕ, List, Some, None, length, drop, take, IfOk, IsErrOf};
ghost use Rattle.outside.specs.Outside.{HasCauses, IsAbsent, ReadsBytes, counts_of, count_read, content_of};
ghost use Rattle.outside.specs.Reads.{ReadsFrom, after_read};
ghost use Rattle.outside.specs.Reads.Progress.{Next};

use crate::shelf::{Shelf, ShelfFault};

/// Reads once at offset `at` (bytes) into the part of the buffer after its first `held` bytes,
/// which are left unchanged. Returns the number of bytes read; 0 means the end of the file.
pub fn read_after<S: Shelf>(
    shelf: &mut S,
    name: &str,
    at: u64,
    bytes: &mut [u8],
    held: usize,
) -> Result<usize, ShelfFault>
    requires { held < length bytes.old }
    ensures unchanged { S.holds shelf.new ≡ S.holds shelf.old }
    ensures size { length bytes.new ≡ length bytes.old }
    ensures prefix { take held bytes.new ≡ take held bytes.old }
    ensures bound { IfOk result (λ n. held + n ≤ length bytes.new) }
    ensures bytes { (whole : List ℕ) → content_of (S.holds shelf.old) name.now ≡ Some whole
        → IfOk result (λ n. ReadsBytes whole at n (drop held bytes.old) (drop held bytes.new)) }
    ensures cause { HasCauses (counts_of (S.faults shelf.old) (S.absent shelf.old))
        (counts_of (S.faults shelf.new) (S.absent shelf.new))
        (IsErrOf result ShelfFault.Failed) (IsErrOf result ShelfFault.NoFile) }
    ensures bytes_read { S.bytes_read shelf.new ≡ S.bytes_read shelf.old + count_read result }
    ensures order { ReadsFrom name.now (Next at) (S.reads shelf.old) (S.reads shelf.new)
        (after_read at result) }
    ensures missed { IsErrOf result ShelfFault.NoFile →
        content_of (S.holds shelf.old) name.now ≡ None }
    ensures lacking { IsAbsent (S.holds shelf.old) name.now → IsErrOf result ShelfFault.NoFile
        ⊎ IsErrOf result ShelfFault.Failed }
{
    shelf.read_at(name, at, &mut bytes[held..])
}

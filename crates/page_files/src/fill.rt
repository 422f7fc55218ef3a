//! Fills a buffer with bytes of a file. A single read may return fewer bytes than the buffer holds,
//! so reads are repeated.
ghost use Rattle.std.specs.Prelude.{◌≡◌, ◌+◌, ◌^◌, ◌<◌, ◌≤◌, ℕ, List, drop, length, take, IfOk, IsErr, IsErrOf, Some, None};
ghost use Rattle.outside.specs.Outside.{HasCauses, IsAbsent, content_of, counts_of};
ghost use Rattle.page_files.specs.Fills.{FillsInOrder};

use outside::{Shelf, ShelfFault, read_after};

// Reads bytes of the file from offset `at` (bytes) until the buffer is full or the file ends.
// Returns the number of bytes read.
pub(crate) fn fill<S: Shelf>(
    shelf: &mut S,
    name: &str,
    at: u64,
    bytes: &mut [u8],
) -> Result<usize, ShelfFault>
    requires some { 0 < length bytes.old }
    requires place { at + length bytes.old < 2 ^ 63 }
    ensures unchanged { S.holds shelf.new ≡ S.holds shelf.old }
    ensures size { length bytes.new ≡ length bytes.old }
    ensures bound { IfOk result (λ n. n ≤ length bytes.new) }
    ensures bytes { (whole : List ℕ) → content_of (S.holds shelf.old) name.now ≡ Some whole →
        IfOk result (λ n. take n bytes.new ≡ take (length bytes.new) (drop at whole)) }
    ensures cause { HasCauses (counts_of (S.faults shelf.old) (S.absent shelf.old))
        (counts_of (S.faults shelf.new) (S.absent shelf.new))
        (IsErrOf result ShelfFault.Failed) (IsErrOf result ShelfFault.NoFile) }
    ensures order { FillsInOrder name.now at (length bytes.old)
        (S.reads shelf.old) (S.reads shelf.new) result }
    ensures missed { IsErrOf result ShelfFault.NoFile →
        content_of (S.holds shelf.old) name.now ≡ None }
    ensures lacking { IsAbsent (S.holds shelf.old) name.now → IsErr result }
{
    let mut filled = 0;
    'reads: while filled < bytes.len() {
        match read_after(shelf, name, at + filled as u64, bytes, filled) {
            Ok(0) => return Ok(filled),
            Ok(count) => filled += count,
            Err(fault) => return Err(fault),
        }
    }
    Ok(filled)
}

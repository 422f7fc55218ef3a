//! A buffer of fixed capacity. It contains the bytes that a reader of lines has read but not
//! returned yet. The module `lines` searches these bytes for newlines.
ghost use Rattle.std.specs.Prelude.{◌≡◌, ◌+◌, ◌-◌, ◌<◌, ◌≤◌, ◌⊎◌, [], ℕ, List, length, drop, take, IfOk, OnErr, IsErrOf, Some, None};
ghost use Rattle.outside.specs.Outside.{content_of, IsAbsent, counts_of, count_read};
ghost use Rattle.outside.specs.Reads.{ReadsFrom};
ghost use Rattle.outside.specs.Reads.Progress.{Next};
ghost use Rattle.psi_lines.specs.Next.{CausesFault, FillsBytes, IsReadFault, progress_by_read};

use crate::lines::LineFault;
use outside::{Shelf, read_after};
use psi_base::NoMemory;
use std::alloc::Global;
use std::marker::Model;

/// The maximum length (bytes) of a line with its newline. If at least this number of bytes is
/// buffered, no read is needed.
pub(crate) const LINE: usize = 513;

/// The capacity (bytes) of a buffer. It has room for an incomplete line and for the next read,
/// which can be at least 65,536 bytes long.
pub(crate) const ROOM: usize = 66048;

// Moves the bytes from index `start` to index `end` to the start of the buffer.
fn move_to_front(bytes: &mut [u8], start: usize, end: usize)
    requires order { start ≤ end }
    requires inside { end ≤ length bytes.old }
    ensures { take (end - start) bytes.new ≡ take (end - start) (drop start bytes.old) }
{
    if start > 0 {
        bytes.copy_within(start..end, 0);
    }
}

/// The bytes that a reader of lines has read but not returned yet. In contracts this is a list of
/// bytes, which is stored in `bytes[start..end]`. The allocation never grows. The bytes are moved
/// to its start only when a read is needed.
#[derive(Drop)]
pub(crate) struct Buffer {
    bytes: Vec<u8>,
    start: usize,
    end: usize,
}

impl Model for Buffer {
    ghost use Rattle.std.specs.Prelude.{◌≡◌, ◌-◌, ◌≤◌, ℕ, List, length, drop, take};

    ghost Value = { List ℕ };

    ghost view = { λ b. take (b.end - b.start) (drop b.start b.bytes.items) };

    ghost invariant = { λ b. (b.start ≤ b.end) × (b.end ≤ length b.bytes.items)
        × (length b.bytes.items ≡ 66048) };
}

impl Buffer {
    ghost use Rattle.std.specs.Borrow.{sem};
    ghost use Rattle.std.specs.Io.BufRead.{Rests};
    ghost use Rattle.psi_lines.specs.contracts.buffer.Buffer.{the_row};

    /// Creates an empty buffer, and allocates its whole capacity.
    pub(crate) fn new(alloc: Global) -> Result<Buffer, NoMemory>
        ensures { IfOk result (λ b. b ≡ []) }
    {
        Ok(Buffer {
            bytes: vec![in alloc; 0; ROOM]?,
            start: 0,
            end: 0,
        })
    }

    /// Returns the buffered bytes.
    #[inline(always)]
    pub(crate) fn buffered(&self) -> &[u8]
        ensures buffered { result.now ≡ self.now }
        ensures room { length self.now ≤ ROOM }
    {
        &self.bytes[self.start..self.end]
    }

    /// Removes the first `count` bytes and returns them. Also removes the byte after them, which is
    /// the newline. Precondition: more than `count` bytes are buffered.
    #[inline(always)]
    pub(crate) fn take_line(&mut self, count: usize) -> &[u8]
        requires { count < length self.old }
        ensures bytes { result.now ≡ take count self.old }
        ensures* rest { sem 𝓛 (Rests the_row self.entry (λ new.
            new ≡ drop (count + 1) self.old)) }
    {
        let start = self.start;
        self.start += count + 1;
        &self.bytes[start..start + count]
    }

    /// Reads once from the file store (`Shelf`) at offset `at` (bytes), and appends the bytes.
    /// Returns the number of bytes read; 0 means the end of the file. On failure the buffer is
    /// unchanged.
    pub(crate) fn read_more<S: Shelf>(
        &mut self,
        shelf: &mut S,
        name: &str,
        at: u64,
    ) -> Result<usize, LineFault>
        requires { length self.old < LINE }
        ensures unchanged { S.holds shelf.new ≡ S.holds shelf.old }
        ensures count { IfOk result (λ n. length self.new ≡ length self.old + n) }
        ensures room { length self.new ≤ ROOM }
        ensures prefix { take (length self.old) self.new ≡ self.old }
        ensures bytes { (bytes : List ℕ) → content_of (S.holds shelf.old) name.now ≡ Some bytes
            → IfOk result (FillsBytes bytes at self.old self.new) }
        ensures err { OnErr result (self.new ≡ self.old) }
        ensures cause { CausesFault (counts_of (S.faults shelf.old) (S.absent shelf.old))
            (counts_of (S.faults shelf.new) (S.absent shelf.new)) result }
        ensures bytes_read { S.bytes_read shelf.new ≡ S.bytes_read shelf.old + count_read result }
        ensures order { ReadsFrom name.now (Next at) (S.reads shelf.old) (S.reads shelf.new)
            (progress_by_read at result) }
        ensures missed { IsErrOf result LineFault.NoFile
            → content_of (S.holds shelf.old) name.now ≡ None }
        ensures lacking { IsAbsent (S.holds shelf.old) name.now → IsErrOf result LineFault.NoFile
            ⊎ IsErrOf result LineFault.ReadFault }
        ensures faults { IsReadFault result }
    {
        let buffered = self.end - self.start;
        move_to_front(&mut self.bytes, self.start, self.end);
        self.start = 0;
        self.end = buffered;
        let count = read_after(shelf, name, at, &mut self.bytes, buffered)?;
        self.end += count;
        Ok(count)
    }
}

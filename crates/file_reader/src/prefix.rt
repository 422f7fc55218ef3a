//! Reads the first bytes of a file, up to a given number. Repeats the read if the file store
//! (`Shelf`) returns fewer bytes.
ghost use Rattle.std.specs.Prelude.{◌≡◌, ◌+◌, ◌<◌, ◌≤◌, ℕ, List, length, take, IfOk, IsErrOf, Some, None};
ghost use Rattle.outside.specs.Outside.{IsAbsent, counts_of, content_of};
ghost use Rattle.outside.specs.Reads.{ReadsFile};
ghost use Rattle.file_reader.specs.Prefix.{CausesFileFault, ShowsNothing, shelf_fault_in};

use outside::{Shelf, ShelfFault, read_after};
use psi_base::NoMemory;
use std::alloc::Global;

/// Why a file can't be read.
#[derive(Clone, Copy, Debug, PartialEq, Eq)]
pub enum FileFault {
    /// No file has this name.
    NoFile,
    /// A read failed.
    ReadFault,
    /// Memory ran out.
    NoMemory(NoMemory),
}

impl From<ShelfFault> for FileFault {
    ghost use Rattle.std.specs.Prelude.{◌≡◌};
    ghost use Rattle.file_reader.specs.Prefix.{file_fault};

    ghost from_gives = { λ fault e. e ≡ file_fault fault };

    fn from(fault: ShelfFault) -> Self {
        match fault {
            ShelfFault::NoFile => FileFault::NoFile,
            ShelfFault::Failed => FileFault::ReadFault,
        }
    }
}

impl From<NoMemory> for FileFault {
    ghost use Rattle.std.specs.Prelude.{◌≡◌};
    ghost use Rattle.file_reader.specs.declared.prefix.FileFault.TheVariants as fault;

    ghost from_gives = { λ none e. e ≡ fault.NoMemory none };

    fn from(none: NoMemory) -> Self {
        FileFault::NoMemory(none)
    }
}

fn zeros(alloc: Global, count: usize) -> Result<Vec<u8>, NoMemory>
    ensures { IfOk result (λ bytes. length bytes.items ≡ count) }
{
    Ok(vec![in alloc; 0; count]?)
}

// Reads from the start of a file until the buffer is full or the file ends. Returns the number of
// bytes read.
fn fill<S: Shelf>(shelf: &mut S, name: &str, bytes: &mut [u8]) -> Result<usize, FileFault>
    requires some { 0 < length bytes.old }
    ensures unchanged { S.holds shelf.new ≡ S.holds shelf.old }
    ensures size { length bytes.new ≡ length bytes.old }
    ensures bound { IfOk result (λ n. n ≤ length bytes.new) }
    ensures prefix { (whole : List ℕ) → content_of (S.holds shelf.old) name.now ≡ Some whole →
        IfOk result (λ n. take n bytes.new ≡ take (length bytes.new) whole) }
    ensures cause { CausesFileFault (counts_of (S.faults shelf.old) (S.absent shelf.old))
        (counts_of (S.faults shelf.new) (S.absent shelf.new)) result }
    ensures bytes_read { S.bytes_read shelf.new ≤ S.bytes_read shelf.old + length bytes.new }
    ensures within { (whole : List ℕ) → content_of (S.holds shelf.old) name.now ≡ Some whole →
        S.bytes_read shelf.new ≤ S.bytes_read shelf.old + length whole }
    ensures order { ReadsFile name.now 0 (S.reads shelf.old) (S.reads shelf.new)
        (shelf_fault_in result) }
    ensures missed { IsErrOf result FileFault.NoFile →
        content_of (S.holds shelf.old) name.now ≡ None }
    ensures lacking { IsAbsent (S.holds shelf.old) name.now → ShowsNothing result }
{
    let mut buffered = 0;
    'reads: while buffered < bytes.len() {
        match read_after(shelf, name, buffered as u64, bytes, buffered) {
            Ok(0) => return Ok(buffered),
            Ok(count) => buffered += count,
            Err(fault) => return Err(FileFault::from(fault)),
        }
    }
    Ok(buffered)
}

/// Returns the bytes of a file, or its first `most` bytes if the file is longer. Allocates memory
/// for `most` bytes before reading. Reads at most `most` bytes, even if the call fails. Fails with
/// `NoFile` or `ReadFault` if the file store (`Shelf`) reports this fault and counts it.
/// Precondition: `most` is at least 1.
pub fn read_prefix<S: Shelf>(
    alloc: Global,
    shelf: &mut S,
    name: &str,
    most: usize,
) -> Result<Vec<u8>, FileFault>
    requires some { 0 < most }
    ensures unchanged { S.holds shelf.new ≡ S.holds shelf.old }
    ensures prefix { (whole : List ℕ) → content_of (S.holds shelf.old) name.now ≡ Some whole →
        IfOk result (λ bytes. bytes.items ≡ take most whole) }
    ensures short { IfOk result (λ bytes. length bytes.items ≤ most) }
    ensures cause { CausesFileFault (counts_of (S.faults shelf.old) (S.absent shelf.old))
        (counts_of (S.faults shelf.new) (S.absent shelf.new)) result }
    ensures bytes_read { S.bytes_read shelf.new ≤ S.bytes_read shelf.old + most }
    ensures within { (whole : List ℕ) → content_of (S.holds shelf.old) name.now ≡ Some whole →
        S.bytes_read shelf.new ≤ S.bytes_read shelf.old + length whole }
    ensures order { ReadsFile name.now 0 (S.reads shelf.old) (S.reads shelf.new)
        (shelf_fault_in result) }
    ensures missed { IsErrOf result FileFault.NoFile →
        content_of (S.holds shelf.old) name.now ≡ None }
    ensures lacking { IsAbsent (S.holds shelf.old) name.now → ShowsNothing result }
{
    let mut bytes = zeros(alloc, most)?;
    let buffered = fill(shelf, name, &mut bytes)?;
    bytes.truncate(buffered);
    Ok(bytes)
}

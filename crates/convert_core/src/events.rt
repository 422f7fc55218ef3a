//! Runs the command `events`: reads the table, and writes the events of all files with its layout.
//! Each file has the pages of one processor.
ghost use Rattle.std.specs.Prelude.{◌≡◌, ◌≢◌, ◌+◌, ◌≤◌, ◌∷◌, [], ℕ, List, IfOk, Some, Ok, length, map, string_bytes};
ghost use Rattle.outside.specs.Outside.{content_of};
ghost use Rattle.convert_core.specs.Convert.{contents_of, convert_of, files_output};
ghost use Rattle.convert_core.specs.Runs.{Converts, FailuresAreCounted, IsMissing, LacksFile, PutsOutput, ReadsInOrder, counts_of_run, ends_whole, refused_status, shelf_fault_in, table_status};

use crate::files::put_files;
use crate::status::Status;
use convert_table::{TableFault, read_table};
use file_reader::{FileFault, read_prefix};
use outside::{BufferedSink, Pending, Shelf, Sink};
use page_spec::Layout;
use psi_base::{Fault, NoMemory};
use std::alloc::Global;

/// One more than the largest size (bytes) of a table. A longer table is read up to this size and
/// rejected.
const MOST_OF_TABLE: usize = 65_537;

// Allocates memory for one page of `size` bytes, filled with zeros.
fn page_memory(alloc: Global, size: usize) -> Result<Vec<u8>, NoMemory>
    ensures { IfOk result (λ page. length page.items ≡ size) }
{
    Ok(vec![in alloc; 0; size]?)
}

// Returns whether all events were written, or all events before an invalid page.
fn ends_whole(status: Status) -> bool
    ensures { result ≡ ends_whole status }
{
    match status {
        Status::Done | Status::Page { .. } => true,
        _ => false,
    }
}

// Writes the events of all files through the buffer `pending`, so that the sink gets large pieces.
// The buffer is flushed at the end, unless a file is missing or a read or write failed.
fn put_buffered<S: Shelf, K: Sink>(
    shelf: &mut S,
    layout: &Layout,
    names: &[String],
    page: &mut [u8],
    pending: &mut Pending,
    out: &mut K,
) -> Status
    requires empty { pending.old ≡ [] }
    requires size { length page.old ≡ layout.now.page }
    requires least { 16 ≤ layout.now.page }
    requires most { layout.now.page ≤ 2097152 }
    requires few { length names.now ≤ 4096 }
    ensures command { result ≢ Status.Usage }
    ensures unchanged { S.holds shelf.new ≡ S.holds shelf.old }
    ensures bytes { (wholes : List (List ℕ)) →
        contents_of (S.holds shelf.old) (map string_bytes names.now) ≡ Some wholes →
        PutsOutput (K.has out.old) (K.has out.new) (files_output layout.now 0 wholes) result }
    ensures counts { FailuresAreCounted
        (counts_of_run (S.faults shelf.old) (S.absent shelf.old) (K.faults out.old))
        (counts_of_run (S.faults shelf.new) (S.absent shelf.new) (K.faults out.new)) result }
    ensures order { ReadsInOrder (map string_bytes names.now) (S.reads shelf.old)
        (S.reads shelf.new) (shelf_fault_in result) }
    ensures missed { (file : ℕ) → result ≡ Status.NoFile file →
        IsMissing (S.holds shelf.old) 1 (map string_bytes names.now) file }
    ensures lacking { LacksFile (S.holds shelf.old) (map string_bytes names.now) →
        result ≢ Status.Done }
{
    let mut buffered = BufferedSink::new(out, pending);
    let status = put_files(shelf, layout, 0, names, page, &mut buffered);
    if !ends_whole(status) {
        return status;
    }
    match buffered.flush() {
        Ok(()) => status,
        Err(_) => Status::WriteFault,
    }
}

// Writes the events of all files, whose pages have this layout.
fn put_events<S: Shelf, K: Sink>(
    alloc: Global,
    shelf: &mut S,
    layout: &Layout,
    names: &[String],
    out: &mut K,
) -> Status
    requires least { 16 ≤ layout.now.page }
    requires most { layout.now.page ≤ 2097152 }
    requires few { length names.now ≤ 4096 }
    ensures command { result ≢ Status.Usage }
    ensures unchanged { S.holds shelf.new ≡ S.holds shelf.old }
    ensures bytes { (wholes : List (List ℕ)) →
        contents_of (S.holds shelf.old) (map string_bytes names.now) ≡ Some wholes →
        Converts (K.has out.old) (K.has out.new) (Ok (files_output layout.now 0 wholes)) result }
    ensures counts { FailuresAreCounted
        (counts_of_run (S.faults shelf.old) (S.absent shelf.old) (K.faults out.old))
        (counts_of_run (S.faults shelf.new) (S.absent shelf.new) (K.faults out.new)) result }
    ensures order { ReadsInOrder (map string_bytes names.now) (S.reads shelf.old)
        (S.reads shelf.new) (shelf_fault_in result) }
    ensures missed { (file : ℕ) → result ≡ Status.NoFile file →
        IsMissing (S.holds shelf.old) 1 (map string_bytes names.now) file }
    ensures lacking { LacksFile (S.holds shelf.old) (map string_bytes names.now) →
        result ≢ Status.Done }
{
    let mut page = match page_memory(alloc, layout.page as usize) {
        Ok(page) => page,
        Err(none) => return Status::NoMemory(none),
    };
    let mut pending = match Pending::new(alloc) {
        Ok(pending) => pending,
        Err(none) => return Status::NoMemory(none),
    };
    put_buffered(shelf, layout, names, &mut page, &mut pending, out)
}

// Returns the status for a table that couldn't be read.
fn table_status(fault: FileFault) -> Status
    ensures exact { result ≡ table_status fault }
    ensures command { result ≢ Status.Usage }
    ensures failed { result ≢ Status.Done }
{
    match fault {
        FileFault::NoFile => Status::NoFile { file: 0 },
        FileFault::ReadFault => Status::ReadFault,
        FileFault::NoMemory(none) => Status::NoMemory(none),
    }
}

// Returns the status for a table that couldn't be parsed.
fn refused_status(fault: Fault<TableFault>) -> Status
    ensures exact { result ≡ refused_status fault }
    ensures command { result ≢ Status.Usage }
    ensures failed { result ≢ Status.Done }
{
    match fault {
        Fault::Refused(fault) => Status::Table(fault),
        Fault::NoMemory(none) => Status::NoMemory(none),
    }
}

/// Reads the table, and writes the events of all files with its layout.
pub(crate) fn convert<S: Shelf, K: Sink>(
    alloc: Global,
    shelf: &mut S,
    table: &str,
    names: &[String],
    out: &mut K,
) -> Status
    requires few { length names.now ≤ 4096 }
    ensures command { result ≢ Status.Usage }
    ensures unchanged { S.holds shelf.new ≡ S.holds shelf.old }
    ensures bytes { (bytes : List ℕ) (wholes : List (List ℕ)) →
        content_of (S.holds shelf.old) table.now ≡ Some bytes →
        contents_of (S.holds shelf.old) (map string_bytes names.now) ≡ Some wholes →
        Converts (K.has out.old) (K.has out.new) (convert_of bytes wholes) result }
    ensures counts { FailuresAreCounted
        (counts_of_run (S.faults shelf.old) (S.absent shelf.old) (K.faults out.old))
        (counts_of_run (S.faults shelf.new) (S.absent shelf.new) (K.faults out.new)) result }
    ensures order { ReadsInOrder (table.now ∷ map string_bytes names.now) (S.reads shelf.old)
        (S.reads shelf.new) (shelf_fault_in result) }
    ensures missed { (file : ℕ) → result ≡ Status.NoFile file →
        IsMissing (S.holds shelf.old) 0 (table.now ∷ map string_bytes names.now) file }
    ensures lacking { LacksFile (S.holds shelf.old) (table.now ∷ map string_bytes names.now) →
        result ≢ Status.Done }
{
    let bytes = match read_prefix(alloc, shelf, table, MOST_OF_TABLE) {
        Ok(bytes) => bytes,
        Err(fault) => return table_status(fault),
    };
    match read_table(alloc, &bytes) {
        Ok(layout) => put_events(alloc, shelf, &layout, names, out),
        Err(fault) => refused_status(fault),
    }
}

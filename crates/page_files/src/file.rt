//! Writes the events of a file, which consists of pages of one processor's ring buffer. The file is
//! read page by page.
ghost use Rattle.std.specs.Prelude.{◌≡◌, ◌≤◌, ℕ, List, length, IsErr, IsErrOf, Some, None};
ghost use Rattle.outside.specs.Outside.{HasCauses, IsAbsent, SameInner, content_of, counts_of};
ghost use Rattle.outside.specs.Reads.{ReadsFile};
ghost use Rattle.page_spec.specs.Items.{file_found, page_found};
ghost use Rattle.page_files.specs.Puts.{HasFileWriteCause, PutsFile, shelf_fault_in, stop_at, stop_of_read};

use crate::fill::fill;
use event_lines::{PageStop, put_page};
use outside::{Shelf, ShelfFault, Sink};
use page_spec::{Layout, PageCause};

/// The maximum number of pages of a file. Page numbers are therefore less than 2^32.
const MOST_PAGES: u64 = 0xffff_ffff;

/// The reason why not all events of a file were written.
#[derive(Clone, Copy, Debug, PartialEq, Eq)]
pub enum FileStop {
    /// There is no file with this name.
    NoFile,
    /// A read failed.
    ReadFault,
    /// The page with the number `page` (from 0) is invalid for the reason `cause`. `byte` is the
    /// offset of the fault in this page.
    Refused {
        page: u64,
        byte: u64,
        cause: PageCause,
    },
    /// A write failed.
    WriteFault,
}

fn read_stop(fault: ShelfFault) -> FileStop
    ensures { result ≡ stop_of_read fault }
{
    match fault {
        ShelfFault::NoFile => FileStop::NoFile,
        ShelfFault::Failed => FileStop::ReadFault,
    }
}

// Converts the fault `stop` of writing page number `page` (from 0) to a `FileStop`.
fn page_stop(page: u64, stop: PageStop) -> FileStop
    ensures { result ≡ stop_at page stop }
{
    match stop {
        PageStop::Refused(fault) => FileStop::Refused {
            page,
            byte: fault.byte,
            cause: fault.cause,
        },
        PageStop::WriteFault => FileStop::WriteFault,
    }
}

/// Writes the lines of all pages of a file, up to the first error. Each line names the processor
/// `cpu`. Bytes after the last whole page are ignored. `page` is memory for one page. No byte is
/// read twice, and nothing is read after a page with an error. If a read or a write fails, a prefix
/// of the lines was written.
pub fn put_file<S: Shelf, K: Sink>(
    shelf: &mut S,
    name: &str,
    layout: &Layout,
    cpu: u32,
    page: &mut [u8],
    out: &mut K,
) -> Result<(), FileStop>
    requires size { length page.old ≡ layout.now.page }
    requires least { 16 ≤ layout.now.page }
    requires most { layout.now.page ≤ 2097152 }
    ensures unchanged { S.holds shelf.new ≡ S.holds shelf.old }
    ensures size { length page.new ≡ length page.old }
    ensures bytes { (whole : List ℕ) → content_of (S.holds shelf.old) name.now ≡ Some whole →
        PutsFile (K.has out.old) (K.has out.new) cpu (file_found layout.now whole) result }
    ensures cause { HasCauses (counts_of (S.faults shelf.old) (S.absent shelf.old))
        (counts_of (S.faults shelf.new) (S.absent shelf.new))
        (IsErrOf result FileStop.ReadFault) (IsErrOf result FileStop.NoFile) }
    ensures writes { HasFileWriteCause (K.faults out.old) (K.faults out.new) result }
    ensures below { SameInner (K.below out.old) (K.below out.new) }
    ensures order { ReadsFile name.now 0 (S.reads shelf.old) (S.reads shelf.new)
        (shelf_fault_in result) }
    ensures missed { IsErrOf result FileStop.NoFile →
        content_of (S.holds shelf.old) name.now ≡ None }
    ensures lacking { IsAbsent (S.holds shelf.old) name.now → IsErr result }
{
    let size = layout.page as u64;
    let mut number: u64 = 0;
    'pages: loop {
        match fill(shelf, name, number * size, page) {
            Ok(count) if count < page.len() => return Ok(()),
            Ok(_) => {}
            Err(fault) => return Err(read_stop(fault)),
        }
        if number == MOST_PAGES {
            return Err(FileStop::Refused {
                page: number,
                byte: 0,
                cause: PageCause::TooMany,
            });
        }
        match put_page(layout, cpu, page, out) {
            Ok(()) => number += 1,
            Err(stop) => return Err(page_stop(number, stop)),
        }
    }
}

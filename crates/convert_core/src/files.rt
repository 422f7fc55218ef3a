//! Writes the events of several files of pages. File number `n` has the pages of processor `n`.
ghost use Rattle.std.specs.Prelude.{◌≡◌, ◌≢◌, ◌+◌, ◌≤◌, ℕ, List, Some, length, map, string_bytes};
ghost use Rattle.outside.specs.Outside.{SameInner};
ghost use Rattle.convert_core.specs.Convert.{contents_of, files_output};
ghost use Rattle.convert_core.specs.Runs.{FailuresAreCounted, IsMissing, LacksFile, PutsOutput, ReadsInOrder, counts_of_run, shelf_fault_in, status_at};

use crate::status::Status;
use outside::{Shelf, Sink};
use page_files::{FileStop, put_file};
use page_spec::Layout;

// Returns the status of a run that stops at the file of processor `cpu` for the reason `stop`.
fn status_at(cpu: u32, stop: FileStop) -> Status
    requires { cpu + 1 ≤ 4096 }
    ensures exact { result ≡ status_at cpu stop }
    ensures command { result ≢ Status.Usage }
    ensures failed { result ≢ Status.Done }
{
    match stop {
        FileStop::NoFile => Status::NoFile { file: cpu + 1 },
        FileStop::ReadFault => Status::ReadFault,
        FileStop::Refused { page, byte, cause } => Status::Page {
            cpu,
            page,
            byte,
            cause,
        },
        FileStop::WriteFault => Status::WriteFault,
    }
}

/// Writes the events of the files `names` as lines, one file after another, up to the first error.
/// The first file has the pages of processor `cpu`, and `page` is memory for one page. If a read or
/// a write fails, a prefix of the lines was written.
pub(crate) fn put_files<S: Shelf, K: Sink>(
    shelf: &mut S,
    layout: &Layout,
    cpu: u32,
    names: &[String],
    page: &mut [u8],
    out: &mut K,
) -> Status
    requires size { length page.old ≡ layout.now.page }
    requires least { 16 ≤ layout.now.page }
    requires most { layout.now.page ≤ 2097152 }
    requires few { cpu + length names.now ≤ 4096 }
    ensures command { result ≢ Status.Usage }
    ensures unchanged { S.holds shelf.new ≡ S.holds shelf.old }
    ensures bytes { (wholes : List (List ℕ)) →
        contents_of (S.holds shelf.old) (map string_bytes names.now) ≡ Some wholes →
        PutsOutput (K.has out.old) (K.has out.new) (files_output layout.now cpu wholes) result }
    ensures counts { FailuresAreCounted
        (counts_of_run (S.faults shelf.old) (S.absent shelf.old) (K.faults out.old))
        (counts_of_run (S.faults shelf.new) (S.absent shelf.new) (K.faults out.new)) result }
    ensures below { SameInner (K.below out.old) (K.below out.new) }
    ensures order { ReadsInOrder (map string_bytes names.now) (S.reads shelf.old)
        (S.reads shelf.new) (shelf_fault_in result) }
    ensures missed { (file : ℕ) → result ≡ Status.NoFile file →
        IsMissing (S.holds shelf.old) (cpu + 1) (map string_bytes names.now) file }
    ensures lacking { LacksFile (S.holds shelf.old) (map string_bytes names.now) →
        result ≢ Status.Done }
{
    let [first, rest @ ..] = names else {
        return Status::Done;
    };
    match put_file(shelf, first.as_str(), layout, cpu, page, out) {
        Ok(()) => put_files(shelf, layout, cpu + 1, rest, page, out),
        Err(stop) => status_at(cpu, stop),
    }
}

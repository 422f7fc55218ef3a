//! The files and streams of the operating system. Contracts can't state their content, so the
//! behaviour of the system is trusted, not proved.
ghost use Rattle.std.specs.Prelude.{◌≡◌, ◌≢◌, ◌<◌, ◌≤◌, ℕ, List, None, Some, IfErr, IfOk, IfSome, IsErrOf, OnOk, codes, length};
ghost use Rattle.std.specs.Io.KnownBytes.{Keeps, ReadConsumes};
ghost use Rattle.host_files.specs.Host.{GoesOn, LeavesFromPlace, ReadsPrefix, IsPlacedAt};

use crate::name::Name;
use outside::{Call, ReadLog, Shelf, ShelfFault, Sink, Tally, WriteFailed};
use std::fs;
use std::io::{AsBytes, Cursor, ErrorKind, Read, Seek, SeekFrom, Write};
use std::rt::Files;

// Returns the fault for a file that can't be opened. It is `NoFile` only if the system reports that
// the file doesn't exist.
fn open_fault(kind: ErrorKind) -> ShelfFault
    ensures missing { kind ≡ ErrorKind.NotFound → result ≡ ShelfFault.NoFile }
    ensures other { kind ≢ ErrorKind.NotFound → result ≡ ShelfFault.Failed }
{
    if kind == ErrorKind::NotFound {
        ShelfFault::NoFile
    } else {
        ShelfFault::Failed
    }
}

// Reads once from a stream whose current offset is `place` (bytes), and advances `place` by the
// number of bytes read.
fn read_next<I: Read>(stream: &mut I, place: &mut u64, into: &mut [u8]) -> Result<usize, ShelfFault>
    ensures bound { IfOk result (λ n. n ≤ length into.new) }
    ensures bytes { ReadConsumes (I.remaining stream.old) (I.remaining stream.new) result into.new }
    ensures place { GoesOn place.old place.new result }
{
    match stream.read(into) {
        Ok(count) => {
            *place = place.saturating_add(count as u64);
            Ok(count)
        }
        Err(_) => Err(ShelfFault::Failed),
    }
}

// Reads the input at offset `at` (bytes). Fails if the previous read didn't end at this offset.
fn read_input<I: Read>(
    input: &mut I,
    place: &mut u64,
    at: u64,
    into: &mut [u8],
) -> Result<usize, ShelfFault>
    ensures bound { IfOk result (λ n. n ≤ length into.new) }
    ensures order { at ≢ place.old → IsErrOf result ShelfFault.Failed }
    ensures bytes { ReadConsumes (I.remaining input.old) (I.remaining input.new) result into.new }
    ensures place { GoesOn place.old place.new result }
{
    if at != *place {
        return Err(ShelfFault::Failed);
    }
    read_next(input, place, into)
}

fn seek_to<F: Seek>(file: &mut F, at: u64) -> Result<(), ShelfFault>
    ensures bytes { Keeps (F.stream_bytes file.old) (F.stream_bytes file.new) }
    ensures place { (from : ℕ) → F.stream_position file.old ≡ Some from
        → OnOk result (F.stream_position file.new ≡ Some at) }
    ensures fault { IfErr result (λ fault. fault ≡ ShelfFault.Failed) }
{
    if file.seek(SeekFrom::Start(at)).is_err() {
        return Err(ShelfFault::Failed);
    }
    Ok(())
}

/// An open file. It stays open between reads, so that a file that can't seek (such as a pipe) is
/// read in order.
#[derive(Drop)]
struct Opened<F> {
    name: Name,
    file: F,
    place: u64,
}

impl<F: Read + Seek> Opened<F> {
    // Reads the open file at offset `at`. Seeks only if the previous read didn't end at this
    // offset.
    fn read_at(&mut self, at: u64, into: &mut [u8]) -> Result<usize, ShelfFault>
        ensures bound { IfOk result (λ n. n ≤ length into.new) }
        ensures bytes { (bytes : List ℕ)
            → LeavesFromPlace F.remaining F.stream_position F.stream_bytes
            → IsPlacedAt F.stream_position F.stream_bytes self.old.file self.old.place bytes
            → IfOk result (λ n. ReadsPrefix bytes at n into.new) }
        ensures place { OnOk result (GoesOn at self.new.place result) }
        ensures fault { IfErr result (λ fault. fault ≡ ShelfFault.Failed) }
        ensures name { self.new.name ≡ self.old.name }
    {
        if self.place != at {
            seek_to(&mut self.file, at)?;
            self.place = at;
        }
        read_next(&mut self.file, &mut self.place, into)
    }
}

// Opens a file at its first byte. Fails if the name doesn't fit in `Name`, because such a name is
// also too long for the system.
fn open<R: Files>(rt: &R, name: &str) -> Result<Opened<R::File>, ShelfFault>
    ensures name { IfOk result (λ opened. opened.name ≡ name.now) }
    ensures place { IfOk result (λ opened. opened.place ≡ 0) }
{
    let file = match fs::open(rt, name) {
        Ok(file) => file,
        Err(error) => return Err(open_fault(error.kind())),
    };
    match Name::new(name) {
        Some(name) => Ok(Opened {
            name,
            file,
            place: 0,
        }),
        None => Err(ShelfFault::Failed),
    }
}

// Reads a file at offset `at`, and leaves the file open for the next read.
fn read_file<R: Files>(
    rt: &R,
    opened: &mut Option<Opened<R::File>>,
    name: &str,
    at: u64,
    into: &mut [u8],
) -> Result<usize, ShelfFault>
    ensures bound { IfOk result (λ n. n ≤ length into.new) }
    ensures named { OnOk result (IfSome opened.new (λ file. file.name ≡ name.now)) }
{
    if let Some(file) = opened {
        if file.name.is(name) {
            return file.read_at(at, into);
        }
    }
    let mut file = open(rt, name)?;
    let count = file.read_at(at, into)?;
    *opened = Some(file);
    Ok(count)
}

/// A shelf (a store of files by name) with the system's files. The name `-` refers to `input`,
/// which can only be read in order, such as standard input. Reads don't allocate.
#[derive(Drop)]
pub struct HostShelf<'a, R: Files, I> {
    rt: &'a R,
    input: I,
    place: u64,
    opened: Option<Opened<R::File>>,
    faults: u64,
    absent: u64,
    bytes_read: Tally,
    reads: ReadLog,
}

impl<'a, R: Files, I: Read> HostShelf<'a, R, I> {
    /// Creates a shelf with the system's files. The name `-` refers to `input`.
    pub fn new(rt: &'a R, input: I) -> Self {
        HostShelf {
            rt,
            input,
            place: 0,
            opened: None,
            faults: 0,
            absent: 0,
            bytes_read: Tally::new(),
            reads: ReadLog::new(),
        }
    }

    // Reads at offset `at` (bytes): from the input if the name is `-`, and from the file with this
    // name if not.
    fn read_named(&mut self, name: &str, at: u64, into: &mut [u8]) -> Result<usize, ShelfFault>
        ensures bound { IfOk result (λ n. n ≤ length into.new) }
        ensures order { name.now ≡ codes "-" → at ≢ self.old.place →
            IsErrOf result ShelfFault.Failed }
        ensures bytes { name.now ≡ codes "-" → ReadConsumes (I.remaining self.old.input)
            (I.remaining self.new.input) result into.new }
        ensures input { name.now ≢ codes "-" →
            I.remaining self.new.input ≡ I.remaining self.old.input }
        ensures place { name.now ≢ codes "-" → self.new.place ≡ self.old.place }
        ensures faults { self.new.faults ≡ self.old.faults }
        ensures absent { self.new.absent ≡ self.old.absent }
        ensures bytes_read { self.new.bytes_read ≡ self.old.bytes_read }
        ensures log { self.new.reads ≡ self.old.reads }
    {
        if name == "-" {
            read_input(&mut self.input, &mut self.place, at, into)
        } else {
            read_file(self.rt, &mut self.opened, name, at, into)
        }
    }
}

impl<'a, R: Files, I: Read> Shelf for HostShelf<'a, R, I> {
    ghost holds = { λ _. None };

    ghost faults = { λ s. s.faults };

    ghost absent = { λ s. s.absent };

    ghost bytes_read = { λ s. s.bytes_read.count };

    ghost reads = { λ s. s.reads.calls };

    fn read_at(&mut self, name: &str, at: u64, into: &mut [u8]) -> Result<usize, ShelfFault> {
        let size = into.len();
        let outcome = self.read_named(name, at, into);
        self.reads = self.reads.and(&Call {
            name,
            at,
            size,
            outcome,
        });
        match outcome {
            Ok(count) => {
                self.bytes_read = self.bytes_read.and(count);
                Ok(count)
            }
            Err(ShelfFault::NoFile) => {
                self.absent = self.absent.saturating_add(1);
                Err(ShelfFault::NoFile)
            }
            Err(ShelfFault::Failed) => {
                self.faults = self.faults.saturating_add(1);
                Err(ShelfFault::Failed)
            }
        }
    }
}

/// A sink that writes to a stream, such as standard output or standard error. Contracts can state
/// the written bytes only if the stream's content is known, which isn't the case for the system's
/// streams. If a write of a nonempty piece writes no byte, it counts as a failure.
#[derive(Drop)]
pub struct HostSink<W> {
    stream: W,
    faults: u64,
}

impl<W: Write> HostSink<W> {
    /// Creates a sink that writes to a stream.
    pub fn new(stream: W) -> Self {
        HostSink { stream, faults: 0 }
    }
}

impl<W: Write> Sink for HostSink<W> {
    ghost has = { λ s. W.contents s.stream };

    ghost faults = { λ s. s.faults };

    fn write(&mut self, piece: &[u8]) -> Result<usize, WriteFailed> {
        match self.stream.write(piece) {
            Ok(count) if count > 0 || piece.is_empty() => Ok(count),
            _ => {
                self.faults = self.faults.saturating_add(1);
                Err(WriteFailed)
            }
        }
    }
}

/// For a cursor over bytes, the remaining bytes are the bytes from the cursor's position to the
/// end.
pub fn law_cursors_leave_from_place<T: AsBytes>()
    ensures { LeavesFromPlace ⟦<Cursor<T> as Read>⟧.remaining
        ⟦<Cursor<T> as Seek>⟧.stream_position
        ⟦<Cursor<T> as Seek>⟧.stream_bytes }
{}

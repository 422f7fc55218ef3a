//! A shelf (input files) and a sink (an output stream) in memory, for tests. A test chooses the
//! numbers of the calls that fail. The contracts specify the exact result of each call.
ghost use Rattle.std.specs.Prelude.{◌≡◌, ◌⊎◌, ◌+◌, ◌-◌, ◌<◌, ◌≤◌, Some, None, length, take, drop, min, IfOk, IsErr, IsTrue, MatchOption, vec_capacity, vec_len, Contains, IsErrOf, ◌↔◌, [], ◌++◌, ◌∷◌};
ghost use Rattle.std.specs.Io.KnownBytes.{WriteAppends};
ghost use Rattle.outside_fakes.specs.Memory.{GivesOf};
ghost use Rattle.outside.specs.Outside.{bytes_of, count_read};
ghost use Rattle.outside.specs.Calls.{CountsWhere, one_more};
ghost use Rattle.outside.specs.Reads.{read_call};

use outside::{Call, ReadLog, Shelf, ShelfFault, Sink, Tally, WriteFailed};
use psi_base::{NoMemory, Text};
use std::alloc::Global;

// Returns the contents of the file with this name, if the file exists.
pub(crate) fn find<'a>(files: &'a [(Text, Text)], name: &[u8]) -> Option<&'a [u8]>
    ensures { MatchOption result (bytes_of files.now name.now ≡ None)
        (λ found. bytes_of files.now name.now ≡ Some found.now) }
{
    for file in files {
        if file.0.bytes() == name {
            return Some(file.1.bytes());
        }
    }
    None
}

// Copies bytes from offset `at` into the beginning of `into`: at most `most` bytes, and at most the
// length of `into`. Returns the number of bytes copied.
pub(crate) fn copy_part(bytes: &[u8], at: u64, most: usize, into: &mut [u8]) -> usize
    ensures count { result ≡ min most (min (length into.new) (length bytes.now - at)) }
    ensures bytes { take result into.new ≡ take result (drop at bytes.now) }
    ensures rest { drop result into.new ≡ drop result into.old }
{
    if at >= bytes.len() as u64 {
        return 0;
    }
    let rest = &bytes[at as usize..];
    let count = most.min(into.len()).min(rest.len());
    into[..count].copy_from_slice(&rest[..count]);
    count
}

// Copies bytes of the file with this name to `into`, from offset `at`: at most `most` bytes. Adds
// the number of copied bytes to `bytes_read`, or adds 1 to `absent` if there is no such file.
pub(crate) fn give(
    files: &[(Text, Text)],
    most: usize,
    name: &str,
    at: u64,
    into: &mut [u8],
    absent: &mut u64,
    bytes_read: &mut Tally,
) -> Result<usize, ShelfFault>
    requires { 0 < most }
    ensures gives { GivesOf files.now name.now at most into.old into.new result }
    ensures failed { IsErrOf result ShelfFault.Failed → ⊥ }
    ensures absent { CountsWhere (IsErrOf result ShelfFault.NoFile) absent.old absent.new }
    ensures bytes_read { bytes_read.new.count ≡ bytes_read.old.count + count_read result }
{
    match find(files, name.as_bytes()) {
        Some(bytes) => {
            let count = copy_part(bytes, at, most, into);
            *bytes_read = bytes_read.and(count);
            Ok(count)
        }
        None => {
            *absent = absent.saturating_add(1);
            Err(ShelfFault::NoFile)
        }
    }
}

// Appends a prefix of `piece`: as much as fits in a sink of `room` bytes, but at most `most` bytes.
pub(crate) fn take_part(bytes: &mut Vec<u8>, room: usize, most: usize, piece: &[u8]) -> usize
    requires full { vec_len bytes.old ≤ room }
    requires room { room ≤ vec_capacity bytes.old }
    ensures count { result ≡ min most (min (length piece.now) (room - vec_len bytes.old)) }
    ensures bytes { bytes.new.items ≡ bytes.old.items ++ take result piece.now }
    ensures full { vec_len bytes.new ≤ room }
    ensures room { room ≤ vec_capacity bytes.new }
{
    let count = most.min(piece.len()).min(room - bytes.len());
    if bytes.extend_from_slice(&piece[..count]).is_err() {
        unreachable!()
    }
    count
}

pub(crate) fn finds_no_room(bytes: &[u8], room: usize, piece: &[u8]) -> bool
    ensures { IsTrue result ↔ ((0 < length piece.now) × (length bytes.now ≡ room)) }
{
    !piece.is_empty() && bytes.len() == room
}

fn is_failing(fails: &[u64], call: u64, is_full: bool) -> bool
    ensures { IsTrue result ↔ (Contains fails.now call ⊎ IsTrue is_full) }
{
    fails.contains(&call) || is_full
}

/// A shelf (a set of input files) in memory. `fails` has the numbers of the reads that fail.
#[derive(Drop)]
pub struct MemShelf {
    /// The names and bytes of the files. If two files have the same name, the first file is used.
    pub files: Vec<(Text, Text)>,
    /// The maximum number of bytes that one call returns, at least 1.
    pub most: usize,
    /// The numbers of the calls that fail, from 0.
    pub fails: Vec<u64>,
    /// The number of reads so far, which is the number of the next read.
    pub calls: u64,
    /// The number of failed calls.
    pub faults: u64,
    /// The number of reads of files that don't exist.
    pub absent: u64,
    /// The number of bytes that all reads returned.
    pub bytes_read: Tally,
    /// The log of all reads, in order.
    pub reads: ReadLog,
    ghost gives: { 0 < most },
}

impl MemShelf {
    /// Creates a shelf with these files. Each read returns at most `most` bytes, and the reads with
    /// the numbers `fails` fail.
    pub fn new(files: Vec<(Text, Text)>, most: usize, fails: Vec<u64>) -> MemShelf
        requires { 0 < most }
        ensures { (result.files ≡ files) × (result.most ≡ most) × (result.fails ≡ fails)
            × (result.calls ≡ 0) × (result.faults ≡ 0) × (result.absent ≡ 0)
            × (result.bytes_read.count ≡ 0) × (result.reads.calls ≡ []) }
    {
        MemShelf {
            files,
            most,
            fails,
            calls: 0,
            faults: 0,
            absent: 0,
            bytes_read: Tally::new(),
            reads: ReadLog::new(),
        }
    }
}

impl Shelf for MemShelf {
    ghost holds = { λ s. Some s.files.items };

    ghost faults = { λ s. s.faults };

    ghost absent = { λ s. s.absent };

    ghost bytes_read = { λ s. s.bytes_read.count };

    ghost reads = { λ s. s.reads.calls };

    /// Fails if the number of this call is in `fails`. Reads bytes of the file from offset `at`
    /// (bytes): at most `most`, and at most the length of `into`. Returns `NoFile` if there is no
    /// file with this name.
    fn read_at(&mut self, name: &str, at: u64, into: &mut [u8]) -> Result<usize, ShelfFault>
        ensures unchanged { (self.new.files ≡ self.old.files) × (self.new.most ≡ self.old.most)
            × (self.new.fails ≡ self.old.fails) }
        ensures bytes_read { self.new.bytes_read.count
            ≡ self.old.bytes_read.count + count_read result }
        ensures log { self.new.reads.calls ≡ self.old.reads.calls
            ++ read_call name.now at (length into.old) result ∷ [] }
        ensures calls { self.new.calls ≡ one_more self.old.calls }
        ensures failed { IsErrOf result ShelfFault.Failed
            ↔ Contains self.old.fails.items self.old.calls }
        ensures gives { ¬ Contains self.old.fails.items self.old.calls
            → GivesOf self.old.files.items name.now at self.old.most into.old into.new result }
        ensures faults { CountsWhere
            (IsErrOf result ShelfFault.Failed) self.old.faults self.new.faults }
        ensures absent { CountsWhere
            (IsErrOf result ShelfFault.NoFile) self.old.absent self.new.absent }
    {
        let size = into.len();
        let number = self.calls;
        self.calls = number.saturating_add(1);
        if self.fails.contains(&number) {
            self.faults = self.faults.saturating_add(1);
            let outcome = Err(ShelfFault::Failed);
            self.reads = self.reads.and(&Call {
                name,
                at,
                size,
                outcome,
            });
            return outcome;
        }
        let outcome = give(
            &self.files,
            self.most,
            name,
            at,
            into,
            &mut self.absent,
            &mut self.bytes_read,
        );
        self.reads = self.reads.and(&Call {
            name,
            at,
            size,
            outcome,
        });
        outcome
    }
}

/// A sink (an output stream) in memory. `fails` has the numbers of the writes that fail. The sink
/// allocates its memory when it is created, and never grows.
#[derive(Drop)]
pub struct MemSink {
    /// The bytes that were written.
    pub bytes: Vec<u8>,
    /// The capacity of the sink in bytes.
    pub room: usize,
    /// The maximum number of bytes that one call writes, at least 1.
    pub most: usize,
    /// The numbers of the calls that fail, from 0.
    pub fails: Vec<u64>,
    /// The number of writes so far, which is the number of the next write.
    pub calls: u64,
    /// The number of failed calls.
    pub faults: u64,
    ghost takes: { 0 < most },
    ghost inside: { vec_len bytes ≤ room },
    ghost reserved: { room ≤ vec_capacity bytes },
}

impl MemSink {
    /// Creates an empty sink with a capacity of `room` bytes. Each write accepts at most `most`
    /// bytes, and the writes with the numbers `fails` fail.
    pub fn new(
        alloc: Global,
        room: usize,
        most: usize,
        fails: Vec<u64>,
    ) -> Result<MemSink, NoMemory>
        requires { 0 < most }
        ensures { IfOk result (λ s. (s.bytes.items ≡ []) × (s.room ≡ room)
            × (s.most ≡ most)
            × (s.fails ≡ fails) × (s.calls ≡ 0) × (s.faults ≡ 0)) }
    {
        let bytes = Vec::with_capacity(alloc, room)?;
        Ok(MemSink {
            bytes,
            room,
            most,
            fails,
            calls: 0,
            faults: 0,
        })
    }
}

impl Sink for MemSink {
    ghost has = { λ s. Some s.bytes.items };

    ghost faults = { λ s. s.faults };

    /// Fails if the number of this call is in `fails`, or if `piece` isn't empty and the sink is
    /// full. If the call doesn't fail, it writes as much of `piece` as fits, at most `most` bytes.
    fn write(&mut self, piece: &[u8]) -> Result<usize, WriteFailed>
        ensures unchanged { (self.new.room ≡ self.old.room) × (self.new.most ≡ self.old.most)
            × (self.new.fails ≡ self.old.fails) }
        ensures bytes { WriteAppends (Some self.old.bytes.items)
            (Some self.new.bytes.items) result piece.now }
        ensures calls { self.new.calls ≡ one_more self.old.calls }
        ensures failed { IsErr result ↔ (Contains self.old.fails.items self.old.calls
            ⊎ ((0 < length piece.now) × (vec_len self.old.bytes ≡ self.old.room))) }
        ensures count { IfOk result (λ n. n ≡ min self.old.most
            (min (length piece.now) (self.old.room - vec_len self.old.bytes))) }
        ensures faults { CountsWhere (IsErr result) self.old.faults self.new.faults }
    {
        let call = self.calls;
        self.calls = call.saturating_add(1);
        let is_full = finds_no_room(&self.bytes, self.room, piece);
        if is_failing(&self.fails, call, is_full) {
            self.faults = self.faults.saturating_add(1);
            return Err(WriteFailed);
        }
        Ok(take_part(&mut self.bytes, self.room, self.most, piece))
    }
}

//! A shelf (input files) and a sink (an output stream) in memory, for tests. A read of an existing
//! file never fails, and a write fails only if the sink is full. The contracts specify the exact
//! result of each call.
ghost use Rattle.std.specs.Prelude.{◌≡◌, ◌+◌, ◌-◌, ◌<◌, ◌≤◌, Some, length, min, IfOk, IsErr, vec_capacity, vec_len, IsErrOf, ◌↔◌, [], ◌++◌, ◌∷◌};
ghost use Rattle.std.specs.Io.KnownBytes.{WriteAppends};
ghost use Rattle.outside_fakes.specs.Memory.{GivesOf};
ghost use Rattle.outside.specs.Outside.{count_read};
ghost use Rattle.outside.specs.Calls.{CountsWhere};
ghost use Rattle.outside.specs.Reads.{read_call};

use crate::memory::{finds_no_room, give, take_part};
use outside::{Call, ReadLog, Shelf, ShelfFault, Sink, Tally, WriteFailed};
use psi_base::{NoMemory, Text};
use std::alloc::Global;

/// A shelf (a set of input files) in memory. Reads of existing files never fail.
#[derive(Drop)]
pub struct HonestShelf {
    /// The names and bytes of the files. If two files have the same name, the first file is used.
    pub files: Vec<(Text, Text)>,
    /// The maximum number of bytes that one call returns, at least 1.
    pub most: usize,
    /// The number of reads of files that don't exist.
    pub absent: u64,
    /// The number of bytes that all reads returned.
    pub bytes_read: Tally,
    /// The log of all reads, in order.
    pub reads: ReadLog,
    ghost gives: { 0 < most },
}

impl HonestShelf {
    /// Creates a shelf with these files. Each read returns at most `most` bytes.
    pub fn new(files: Vec<(Text, Text)>, most: usize) -> HonestShelf
        requires { 0 < most }
        ensures { (result.files ≡ files) × (result.most ≡ most) × (result.absent ≡ 0)
            × (result.bytes_read.count ≡ 0) × (result.reads.calls ≡ []) }
    {
        HonestShelf {
            files,
            most,
            absent: 0,
            bytes_read: Tally::new(),
            reads: ReadLog::new(),
        }
    }
}

impl Shelf for HonestShelf {
    ghost holds = { λ s. Some s.files.items };

    ghost faults = { λ _. 0 };

    ghost absent = { λ s. s.absent };

    ghost bytes_read = { λ s. s.bytes_read.count };

    ghost reads = { λ s. s.reads.calls };

    /// Reads bytes of the file from offset `at` (bytes): at most `most`, and at most the length of
    /// `into`. Returns `NoFile` if there is no file with this name.
    fn read_at(&mut self, name: &str, at: u64, into: &mut [u8]) -> Result<usize, ShelfFault>
        ensures unchanged { (self.new.files ≡ self.old.files) × (self.new.most ≡ self.old.most) }
        ensures bytes_read { self.new.bytes_read.count
            ≡ self.old.bytes_read.count + count_read result }
        ensures log { self.new.reads.calls ≡ self.old.reads.calls
            ++ read_call name.now at (length into.old) result ∷ [] }
        ensures gives { GivesOf self.old.files.items name.now at
            self.old.most into.old into.new result }
        ensures failed { IsErrOf result ShelfFault.Failed → ⊥ }
        ensures absent { CountsWhere
            (IsErrOf result ShelfFault.NoFile) self.old.absent self.new.absent }
    {
        let size = into.len();
        let outcome = give(
            &self.files,
            self.most,
            name,
            at,
            into,
            &mut self.absent,
            &mut self.bytes_read,
        );
        self.reads = self.reads.and(&Call {
            name,
            at,
            size,
            outcome,
        });
        outcome
    }
}

/// A sink (an output stream) in memory that fails only if it is full. It allocates its memory when
/// it is created, and never grows.
#[derive(Drop)]
pub struct HonestSink {
    /// The bytes that were written.
    pub bytes: Vec<u8>,
    /// The capacity of the sink in bytes.
    pub room: usize,
    /// The number of failed writes.
    pub faults: u64,
    ghost inside: { vec_len bytes ≤ room },
    ghost reserved: { room ≤ vec_capacity bytes },
}

impl HonestSink {
    /// Creates an empty sink, and allocates its capacity of `room` bytes.
    pub fn new(alloc: Global, room: usize) -> Result<HonestSink, NoMemory>
        ensures { IfOk result (λ s. (s.bytes.items ≡ []) × (s.room ≡ room)
            × (s.faults ≡ 0)) }
    {
        let bytes = Vec::with_capacity(alloc, room)?;
        Ok(HonestSink {
            bytes,
            room,
            faults: 0,
        })
    }
}

impl Sink for HonestSink {
    ghost has = { λ s. Some s.bytes.items };

    ghost faults = { λ s. s.faults };

    /// Writes as much of `piece` as fits. Fails if `piece` isn't empty and the sink is full.
    fn write(&mut self, piece: &[u8]) -> Result<usize, WriteFailed>
        ensures unchanged { self.new.room ≡ self.old.room }
        ensures bytes { WriteAppends (Some self.old.bytes.items)
            (Some self.new.bytes.items) result piece.now }
        ensures failed { IsErr result ↔ ((0 < length piece.now)
            × (vec_len self.old.bytes ≡ self.old.room)) }
        ensures count { IfOk result (λ n. n ≡ min (length piece.now)
            (self.old.room - vec_len self.old.bytes)) }
        ensures faults { CountsWhere (IsErr result) self.old.faults self.new.faults }
    {
        if finds_no_room(&self.bytes, self.room, piece) {
            self.faults = self.faults.saturating_add(1);
            return Err(WriteFailed);
        }
        Ok(take_part(&mut self.bytes, self.room, piece.len(), piece))
    }
}

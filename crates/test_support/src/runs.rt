//! One run of a program in memory: its files, its output, its note (standard error), and the calls
//! that fail.
ghost use Rattle.std.specs.Prelude.{◌≡◌, ◌-◌, [], ◌∷◌, IfOk, IsUtf8, drop, max, take, vec_len};

use crate::text::{as_text, first_bytes, last_bytes};
use outside_fakes::{MemShelf, MemSink};
use psi_base::{NoMemory, Text};
use std::alloc::Global;
use std::fmt;
use std::fmt::Debug;

/// The numbers of the read, of the write and of the write to the note that fail, each counted from
/// 0. `NO_CALL` means that no such call fails.
#[derive(Clone, Copy, Debug)]
pub struct Failing {
    pub read: u64,
    pub write: u64,
    pub note: u64,
}

/// The number of a call that no test reaches.
pub const NO_CALL: u64 = 1_000_000;

/// No call of a run fails.
pub const NO_FAILURE: Failing = Failing {
    read: NO_CALL,
    write: NO_CALL,
    note: NO_CALL,
};

/// Makes a file for a store of files, from its name and its bytes.
pub fn file_of(alloc: Global, name: &str, bytes: &[u8]) -> Result<(Text, Text), NoMemory>
    ensures { IfOk result (λ file. (file.0 ≡ name.now) × (file.1 ≡ bytes.now)) }
{
    let name = Text::make(alloc, name.as_bytes())?;
    let bytes = Text::make(alloc, bytes)?;
    Ok((name, bytes))
}

/// The store of files, the output and the note of one run.
#[derive(Drop)]
pub struct Streams {
    pub shelf: MemShelf,
    pub output: MemSink,
    pub note: MemSink,
}

impl Streams {
    /// Creates a store of the files `files`, and two empty sinks with a capacity of `room` bytes
    /// each. Each call transfers at most `most` bytes (at least 1). The calls in `failing` fail.
    pub fn make(
        alloc: Global,
        files: Vec<(Text, Text)>,
        room: usize,
        most: usize,
        failing: Failing,
    ) -> Result<Streams, NoMemory>
        ensures shelf { IfOk result (λ streams. (streams.shelf.files ≡ files)
            × (streams.shelf.most ≡ max most 1) × (streams.shelf.calls ≡ 0)
            × (streams.shelf.fails.items ≡ failing.read ∷ [])) }
        ensures output { IfOk result (λ streams. (streams.output.bytes.items ≡ [])
            × (streams.output.room ≡ room) × (streams.output.most ≡ max most 1)
            × (streams.output.calls ≡ 0) × (streams.output.fails.items ≡ failing.write ∷ [])) }
        ensures note { IfOk result (λ streams. (streams.note.bytes.items ≡ [])
            × (streams.note.room ≡ room) × (streams.note.most ≡ max most 1)
            × (streams.note.calls ≡ 0) × (streams.note.fails.items ≡ failing.note ∷ [])) }
    {
        let most = most.max(1);
        let read = vec![in alloc; failing.read]?;
        let write = vec![in alloc; failing.write]?;
        let note = vec![in alloc; failing.note]?;
        Ok(Streams {
            shelf: MemShelf::new(files, most, read),
            output: MemSink::new(alloc, room, most, write)?,
            note: MemSink::new(alloc, room, most, note)?,
        })
    }

    /// Returns the results of the run, which ended with the status `status`.
    pub fn into_ran<S: Copy>(self, status: S) -> Ran<S>
        ensures { (result.status ≡ status) × (result.output ≡ self.output.bytes)
            × (result.note ≡ self.note.bytes) }
    {
        let Streams { output, note, .. } = self;
        Ran {
            status,
            output: output.bytes,
            note: note.bytes,
        }
    }
}

/// The results of a run: its status, output and note.
#[derive(Drop)]
pub struct Ran<S: Copy> {
    pub status: S,
    pub output: Vec<u8>,
    pub note: Vec<u8>,
}

impl<S: Copy> Ran<S> {
    /// Returns the status, the output and the note, for a comparison.
    pub fn results(&self) -> (S, &str, &str)
        ensures status { result.0 ≡ self.now.status }
        ensures output { IsUtf8 self.now.output.items → result.1.now ≡ self.now.output.items }
        ensures note { IsUtf8 self.now.note.items → result.2.now ≡ self.now.note.items }
    {
        (self.status, as_text(&self.output), as_text(&self.note))
    }

    /// Returns the status, the first `count` bytes of the output, and the note.
    pub fn beginning(&self, count: usize) -> (S, &str, &str)
        ensures status { result.0 ≡ self.now.status }
        ensures output { IsUtf8 (take count self.now.output.items) →
            result.1.now ≡ take count self.now.output.items }
        ensures note { IsUtf8 self.now.note.items → result.2.now ≡ self.now.note.items }
    {
        let output = as_text(first_bytes(&self.output, count));
        (self.status, output, as_text(&self.note))
    }

    /// Returns the status, the last `count` bytes of the output, and the note.
    pub fn ending(&self, count: usize) -> (S, &str, &str)
        ensures status { result.0 ≡ self.now.status }
        ensures output { IsUtf8 (drop (vec_len self.now.output - count) self.now.output.items) →
            result.1.now ≡ drop (vec_len self.now.output - count) self.now.output.items }
        ensures note { IsUtf8 self.now.note.items → result.2.now ≡ self.now.note.items }
    {
        let output = as_text(last_bytes(&self.output, count));
        (self.status, output, as_text(&self.note))
    }
}

impl<S: Copy + Debug> fmt::Display for Ran<S> {
    fn fmt<W: fmt::Write>(&self, f: &mut fmt::Formatter<W>) -> fmt::Result {
        write!(f, "{:?}", self.results())
    }
}

//! A reader of the lines of a file. It splits the file's bytes at newlines and doesn't interpret
//! the lines. The result doesn't depend on how many bytes each read returns.
ghost use Rattle.std.specs.Prelude.{◌≡◌, ◌≢◌, ◌+◌, ◌-◌, ◌*◌, ◌<◌, ◌≤◌, ◌^◌, ◌↔◌, [], ◌++◌, ℕ, List, length, drop, IfOk, OnErr, IsErrOf, IsTrue, MatchOption, slice_index, Ok, Some, None, false};
ghost use Rattle.psi_base.specs.Memory.{no_memory};
ghost use Rattle.outside.specs.Outside.{content_of, IsAbsent, counts_of};
ghost use Rattle.outside.specs.Reads.{ReadsFrom};
ghost use Rattle.outside.specs.Reads.Progress.{Next};
ghost use Rattle.psi_lines.specs.Lines.{HasNoNewline, Reader, left};
ghost use Rattle.psi_lines.specs.Next.{CausesFault, EndsAt, FindsLine, IsMissing, IsNumbered, IsReadFault, IsShortLine, NextOf, ReadsOn, ShowsLine, furthest, number_after, progress_by_end, progress_by_line};

use crate::buffer::{Buffer, LINE, ROOM};
use memchr::memchr;
use outside::{Shelf, ShelfFault};
use psi_base::{NoMemory, Text};
use std::alloc::Global;
use std::marker::Model;

/// A line of a file.
#[derive(Drop)]
pub struct Line {
    /// The number of the line, from 1.
    pub number: u32,
    /// The bytes of the line without its newline, at most 512.
    pub bytes: Text,
}

/// The reason why the next line can't be returned.
#[derive(Clone, Copy, Debug, PartialEq, Eq)]
pub enum LineFault {
    /// The line with this number is too long: it has more than 512 bytes before its newline.
    TooLong(u32),
    /// The input ends inside the line with this number, after 1 to 512 of its bytes.
    Cut(u32),
    /// No file has this name.
    NoFile,
    /// A read failed.
    ReadFault,
    /// Memory ran out.
    NoMemory(NoMemory),
}

impl From<NoMemory> for LineFault {
    ghost use Rattle.std.specs.Prelude.{◌≡◌};
    ghost use Rattle.psi_lines.specs.declared.lines.LineFault.TheVariants as fault;

    ghost from_gives = { λ none e. e ≡ fault.NoMemory none };

    fn from(none: NoMemory) -> Self {
        LineFault::NoMemory(none)
    }
}

impl From<ShelfFault> for LineFault {
    ghost use Rattle.std.specs.Prelude.{◌≡◌};
    ghost use Rattle.psi_lines.specs.Next.{read_fault};

    ghost from_gives = { λ fault e. e ≡ read_fault fault };

    fn from(fault: ShelfFault) -> Self {
        match fault {
            ShelfFault::NoFile => LineFault::NoFile,
            ShelfFault::Failed => LineFault::ReadFault,
        }
    }
}

/// A reader of a file's lines, which is always at the start of a line. In contracts it is a
/// `Reader`: the file's name, the number of the next line, the buffered bytes (read but not
/// returned yet), and the offset of the next read.
///
/// After a fault the reader is still at the start of the same line and keeps its buffered bytes. So
/// the next call continues at this line.
#[derive(Drop)]
pub struct Lines {
    alloc: Global,
    name: String,
    number: u64,
    buffered: Buffer,
    at: u64,
}

impl Model for Lines {
    ghost use Rattle.std.specs.Prelude.{◌+◌, ◌*◌, ◌^◌, ◌≤◌, string_bytes, length};
    ghost use Rattle.psi_lines.specs.Lines.{Reader};

    ghost Value = { Reader };

    ghost view = { λ l.
        record { name = string_bytes l.name; number = l.number; buffered = l.buffered; at = l.at } };

    ghost invariant = { λ l. (l.number ≤ 2 ^ 32)
        × (l.at + 513 ≤ 513 * l.number + length l.buffered) × (length l.buffered ≤ 66048) };
}

// Returns the index of the first newline, or `None`. Searches only the first 513 bytes, the maximum
// length of a line with its newline.
fn newline_in(buffered: &[u8]) -> Option<usize>
    ensures { MatchOption result ((k : ℕ) → k < length buffered.now → k < LINE
        → slice_index buffered.now k ≢ 10) (λ i. (i < length buffered.now) × (i < LINE)
        × (slice_index buffered.now i ≡ 10) × HasNoNewline buffered.now i) }
{
    memchr(b'\n', &buffered[..buffered.len().min(LINE)])
}

// Reads until the buffered bytes begin with a complete line. Returns the length (bytes) of the line
// without its newline, or `None` at the end of the input. `number` is the number of the line, which
// is reported in faults.
fn find_line<S: Shelf>(
    shelf: &mut S,
    name: &str,
    number: u32,
    at: &mut u64,
    buffered: &mut Buffer,
) -> Result<Option<usize>, LineFault>
    requires room { at.old < 2 ^ 63 }
    requires short { length buffered.old ≤ ROOM }
    ensures unchanged { S.holds shelf.new ≡ S.holds shelf.old }
    ensures on { ReadsOn buffered.old at.old buffered.new at.new }
    ensures short { length buffered.new ≤ ROOM }
    ensures left { (bytes : List ℕ) → content_of (S.holds shelf.old) name.now ≡ Some bytes
        → buffered.new ++ drop at.new bytes ≡ buffered.old ++ drop at.old bytes }
    ensures found { FindsLine number buffered.new result }
    ensures end { (bytes : List ℕ) → content_of (S.holds shelf.old) name.now ≡ Some bytes
        → EndsAt bytes at.new result }
    ensures cause { CausesFault (counts_of (S.faults shelf.old) (S.absent shelf.old))
        (counts_of (S.faults shelf.new) (S.absent shelf.new)) result }
    ensures bytes_read { S.bytes_read shelf.new + at.old ≡ S.bytes_read shelf.old + at.new }
    ensures buffered { ShowsLine buffered.old → shelf.new ≡ shelf.old }
    ensures missed { IsErrOf result LineFault.NoFile →
        content_of (S.holds shelf.old) name.now ≡ None }
    ensures missing { buffered.old ≡ [] → IsAbsent (S.holds shelf.old) name.now
        → (buffered.new ≡ [])
        × (at.new ≡ at.old) × IsMissing result }
    ensures order { ReadsFrom name.now (Next at.old) (S.reads shelf.old) (S.reads shelf.new)
        (progress_by_line at.new result) }
{
    'reads: loop {
        let line = buffered.buffered();
        if let Some(i) = newline_in(line) {
            return Ok(Some(i));
        }
        if line.len() >= LINE {
            return Err(LineFault::TooLong(number));
        }
        let is_empty = line.is_empty();
        let count = buffered.read_more(shelf, name, *at)?;
        if count == 0 {
            return if is_empty {
                Ok(None)
            } else {
                Err(LineFault::Cut(number))
            };
        }
        *at += count as u64;
    }
}

impl Lines {
    ghost use Rattle.std.specs.Borrow.{sem};
    ghost use Rattle.std.specs.Io.BufRead.{Rests};
    ghost use Rattle.psi_lines.specs.Lent.{LendsLine, lent_line};
    ghost use Rattle.psi_lines.specs.contracts.lines.Lines.{the_row};

    /// Creates a reader at the first byte of the file, before line 1. Allocates the whole buffer,
    /// but reads nothing.
    pub fn new(alloc: Global, name: &str) -> Result<Lines, NoMemory>
        ensures { IfOk result (λ l.
            l ≡ record { name = name.now; number = 1; buffered = []; at = 0 }) }
    {
        Ok(Lines {
            alloc,
            name: String::from_str(alloc, name)?,
            number: 1,
            buffered: Buffer::new(alloc)?,
            at: 0,
        })
    }

    // Finds the next line as [`find_line`] does. The reader stays at the start of this line.
    #[inline(always)]
    fn find<S: Shelf>(&mut self, shelf: &mut S) -> Result<Option<usize>, LineFault>
        requires { self.old.number < 2 ^ 32 }
        ensures unchanged { S.holds shelf.new ≡ S.holds shelf.old }
        ensures name { self.new.name ≡ self.old.name }
        ensures number { self.new.number ≡ self.old.number }
        ensures on { ReadsOn self.old.buffered self.old.at self.new.buffered self.new.at }
        ensures left { (bytes : List ℕ) → content_of (S.holds shelf.old) self.old.name ≡ Some bytes
            → left self.new bytes ≡ left self.old bytes }
        ensures found { FindsLine self.old.number self.new.buffered result }
        ensures end { (bytes : List ℕ) → content_of (S.holds shelf.old) self.old.name ≡ Some bytes
            → EndsAt bytes self.new.at result }
        ensures cause { CausesFault (counts_of (S.faults shelf.old) (S.absent shelf.old))
            (counts_of (S.faults shelf.new) (S.absent shelf.new)) result }
        ensures bytes_read { S.bytes_read shelf.new + self.old.at
            ≡ S.bytes_read shelf.old + self.new.at }
        ensures place { self.new.at ≤ furthest self.old.number }
        ensures buffered { ShowsLine self.old.buffered → shelf.new ≡ shelf.old }
        ensures missed { IsErrOf result LineFault.NoFile
            → content_of (S.holds shelf.old) self.old.name ≡ None }
        ensures missing { self.old.buffered ≡ [] → IsAbsent (S.holds shelf.old) self.old.name
            → (self.new.buffered ≡ []) × (self.new.at ≡ self.old.at) × IsMissing result }
        ensures order { ReadsFrom self.old.name (Next self.old.at) (S.reads shelf.old)
            (S.reads shelf.new) (progress_by_line self.new.at result) }
    {
        let number = self.number();
        find_line(
            shelf,
            self.name.as_str(),
            number,
            &mut self.at,
            &mut self.buffered,
        )
    }

    /// Returns the next line without its newline, and advances past the newline. Returns `None` at
    /// the end of the input, if no bytes follow the last newline.
    ///
    /// Reads at most one full buffer beyond the returned lines. Reads nothing if the buffered bytes
    /// already determine the line.
    ///
    /// Fails with `TooLong` if and only if the next 513 bytes contain no newline, and with `Cut` if
    /// and only if the input ends inside a line of at most 512 bytes. Fails with `NoFile` or
    /// `ReadFault` only if the file store counted a missing file or a failed read in this call.
    /// `ReadFault` is possible only if no complete line is buffered.
    ///
    /// No program of this repository calls this function.
    pub fn next<S: Shelf>(&mut self, shelf: &mut S) -> Result<Option<Line>, LineFault>
        requires { self.old.number < 2 ^ 32 }
        ensures unchanged { S.holds shelf.new ≡ S.holds shelf.old }
        ensures name { self.new.name ≡ self.old.name }
        ensures number { self.new.number ≡ number_after self.old.number result }
        ensures line { (bytes : List ℕ) → content_of (S.holds shelf.old) self.old.name ≡ Some bytes
            → NextOf bytes self.old self.new result }
        ensures numbered { IsNumbered self.old.number result }
        ensures short { IsShortLine result }
        ensures fault { OnErr result
            (ReadsOn self.old.buffered self.old.at self.new.buffered self.new.at) }
        ensures cause { CausesFault (counts_of (S.faults shelf.old) (S.absent shelf.old))
            (counts_of (S.faults shelf.new) (S.absent shelf.new)) result }
        ensures bytes_read { S.bytes_read shelf.new + self.old.at
            ≡ S.bytes_read shelf.old + self.new.at }
        ensures place { self.new.at ≤ furthest self.old.number }
        ensures buffered { ShowsLine self.old.buffered → shelf.new ≡ shelf.old }
        ensures missed { IsErrOf result LineFault.NoFile
            → content_of (S.holds shelf.old) self.old.name ≡ None }
        ensures missing { self.old.buffered ≡ [] → IsAbsent (S.holds shelf.old) self.old.name
            → (self.new.buffered ≡ []) × (self.new.at ≡ self.old.at) × IsMissing result }
        ensures order { ReadsFrom self.old.name (Next self.old.at) (S.reads shelf.old)
            (S.reads shelf.new) (progress_by_line self.new.at result) }
    {
        let number = self.number();
        let Some(count) = self.find(shelf)? else {
            return Ok(None);
        };
        let bytes = Text::make(self.alloc, &self.buffered.buffered()[..count])?;
        self.number += 1;
        self.buffered.take_line(count);
        Ok(Some(Line { number, bytes }))
    }

    /// Returns the next line as [`Lines::next`] does, but lends its bytes from the buffer until the
    /// next call. Doesn't allocate, so it never fails with `NoMemory`.
    pub fn next_bytes<S: Shelf>(&mut self, shelf: &mut S) -> Result<Option<&[u8]>, LineFault>
        requires { self.old.number < 2 ^ 32 }
        ensures unchanged { S.holds shelf.new ≡ S.holds shelf.old }
        ensures* rest { sem 𝓛 (Rests the_row self.entry (λ new. LendsLine (S.holds shelf.old)
            (S.bytes_read shelf.old) (S.bytes_read shelf.new) self.old new result)) }
        ensures numbered { IsNumbered self.old.number (lent_line self.old.number result) }
        ensures short { IsShortLine (lent_line self.old.number result) }
        ensures cause { CausesFault (counts_of (S.faults shelf.old) (S.absent shelf.old))
            (counts_of (S.faults shelf.new) (S.absent shelf.new)) result }
        ensures buffered { ShowsLine self.old.buffered → shelf.new ≡ shelf.old }
        ensures missed { IsErrOf result LineFault.NoFile
            → content_of (S.holds shelf.old) self.old.name ≡ None }
        ensures missing { self.old.buffered ≡ [] → IsAbsent (S.holds shelf.old) self.old.name
            → IsMissing result }
        ensures memory { IsErrOf result (LineFault.NoMemory no_memory) → ⊥ }
        ensures order { ReadsFrom self.old.name (Next self.old.at) (S.reads shelf.old)
            (S.reads shelf.new)
            (progress_by_line (self.old.at + S.bytes_read shelf.new - S.bytes_read shelf.old) result) }
    {
        let Some(count) = self.find(shelf)? else {
            return Ok(None);
        };
        self.number += 1;
        Ok(Some(self.buffered.take_line(count)))
    }

    /// Returns the number of the next line, counted from 1.
    #[inline(always)]
    pub fn number(&self) -> u32
        requires { self.now.number < 2 ^ 32 }
        ensures { result ≡ self.now.number }
    {
        self.number as u32
    }

    /// Returns the buffered bytes, which were read but not returned yet. Doesn't read from the
    /// file.
    #[inline(always)]
    pub fn buffered(&self) -> &[u8]
        ensures { result.now ≡ self.now.buffered }
    {
        self.buffered.buffered()
    }

    /// Advances past the first buffered line without reading. Precondition: the buffered bytes
    /// ([`Lines::buffered`]) begin with a line of `count` bytes and its newline.
    #[inline(always)]
    pub fn pass(&mut self, count: usize)
        requires number { self.old.number < 2 ^ 32 }
        requires inside { count < length self.old.buffered }
        requires short { count ≤ 512 }
        ensures place { self.new.at ≤ furthest self.old.number }
        ensures rest { self.new ≡ record {
          name = self.old.name;
          number = self.old.number + 1;
          buffered = drop (count + 1) self.old.buffered;
          at = self.old.at;
        } }
    {
        self.number += 1;
        self.buffered.take_line(count);
    }

    /// Returns whether the file has no bytes after the returned lines. Reads once if nothing is
    /// buffered, and not at all if bytes are buffered. Consumes no bytes.
    pub fn is_at_end<S: Shelf>(&mut self, shelf: &mut S) -> Result<bool, LineFault>
        ensures unchanged { S.holds shelf.new ≡ S.holds shelf.old }
        ensures same { (self.new.name ≡ self.old.name) × (self.new.number ≡ self.old.number) }
        ensures buffered { self.old.buffered ≢ [] → (result ≡ Ok false) × (self.new ≡ self.old)
            × (shelf.new ≡ shelf.old) }
        ensures end { IfOk result (λ b. IsTrue b ↔ (self.new.buffered ≡ [])) }
        ensures left { (bytes : List ℕ) → content_of (S.holds shelf.old) self.old.name ≡ Some bytes
            → (left self.new bytes ≡ left self.old bytes)
            × IfOk result (λ b. IsTrue b ↔ (left self.old bytes ≡ [])) }
        ensures on { ReadsOn self.old.buffered self.old.at self.new.buffered self.new.at }
        ensures faults { IsReadFault result }
        ensures unread { IsErrOf result LineFault.ReadFault → self.new.buffered ≡ [] }
        ensures cause { CausesFault (counts_of (S.faults shelf.old) (S.absent shelf.old))
            (counts_of (S.faults shelf.new) (S.absent shelf.new)) result }
        ensures bytes_read { S.bytes_read shelf.new + self.old.at
            ≡ S.bytes_read shelf.old + self.new.at }
        ensures place { self.new.at ≤ furthest self.old.number }
        ensures missed { IsErrOf result LineFault.NoFile
            → content_of (S.holds shelf.old) self.old.name ≡ None }
        ensures missing { self.old.buffered ≡ [] → IsAbsent (S.holds shelf.old) self.old.name
            → (self.new.buffered ≡ []) × (self.new.at ≡ self.old.at) × IsMissing result }
        ensures order { ReadsFrom self.old.name (Next self.old.at) (S.reads shelf.old)
            (S.reads shelf.new) (progress_by_end self.new.at result) }
    {
        if !self.buffered.buffered().is_empty() {
            return Ok(false);
        }
        let count = self.buffered.read_more(shelf, self.name.as_str(), self.at)?;
        self.at += count as u64;
        Ok(count == 0)
    }
}

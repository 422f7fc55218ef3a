//! A buffer of fixed size for one line, which is written from its end to its start. The modules
//! `write` and `word` add the words of the trace format to the line.
ghost use Rattle.std.specs.Prelude.{◌≡◌, ◌+◌, ◌≤◌, ◌++◌, [], decimal, length};

use std::marker::Model;

/// A line of at most `ROOM` bytes. It is written from its end to its start, so that each digit of a
/// number is stored directly in its final place. In contracts, a line is the list of the bytes
/// written so far.
#[derive(Drop)]
pub(crate) struct LineBuffer<const ROOM: usize> {
    bytes: [u8; ROOM],
    /// The index of the first byte written so far.
    start: usize,
}

/// A header, or the line of an event without a path, other than `host`. The longest such line is a
/// `switch`, with the time, the verb, the processor, the next task and the way in which the
/// previous task leaves.
pub(crate) type ShortLine = LineBuffer<80>;

/// The line of any other event. The longest such line is the memory sample of a group with a path
/// of 255 bytes.
pub(crate) type LongLine = LineBuffer<384>;

impl<const ROOM: usize> Model for LineBuffer<ROOM> {
    ghost use Rattle.std.specs.Prelude.{◌≤◌, ℕ, List, drop};

    ghost Value = { List ℕ };

    ghost view = { λ l. drop l.start l.bytes };

    ghost invariant = { λ l. l.start ≤ ROOM };
}

impl<const ROOM: usize> LineBuffer<ROOM> {
    /// Creates an empty line.
    #[inline(always)]
    pub(crate) fn new() -> LineBuffer<ROOM>
        ensures { result ≡ [] }
    {
        LineBuffer {
            bytes: [0; ROOM],
            start: ROOM,
        }
    }

    /// Returns the bytes written so far.
    #[inline(always)]
    pub(crate) fn bytes(&self) -> &[u8]
        ensures { result.now ≡ self.now }
    {
        let all = &self.bytes[..];
        &all[self.start..]
    }

    /// Adds bytes at the start of the line. Precondition: the line has room for the bytes.
    #[inline(always)]
    pub(crate) fn text(&mut self, text: &[u8])
        requires { length text.now + length self.old ≤ ROOM }
        ensures bytes { self.new ≡ text.now ++ self.old }
        ensures length { length self.new ≡ length text.now + length self.old }
    {
        let end = self.start;
        let start = end - text.len();
        let all = &mut self.bytes[..];
        all[start..end].copy_from_slice(text);
        self.start = start;
    }

    /// Adds a number in decimal digits at the start of the line. Precondition: the line has room
    /// for 20 bytes.
    #[inline(always)]
    pub(crate) fn number(&mut self, number: u64)
        requires { 20 + length self.old ≤ ROOM }
        ensures bytes { self.new ≡ decimal number ++ self.old }
        ensures length { length self.new ≤ 20 + length self.old }
    {
        self.start = itoa::write_digits(number, &mut self.bytes, self.start);
    }
}

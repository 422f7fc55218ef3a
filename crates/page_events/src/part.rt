//! Decodes the next part of a page's data: a record, a part without an event, or the end. A part
//! begins with a 4-byte word, whose lower 5 bits are the part's kind.
ghost use Rattle.std.specs.Prelude.{◌≡◌, ◌^◌, ◌<◌, ◌≤◌, length};
ghost use Rattle.page_spec.specs.Fields.{word_of};
ghost use Rattle.page_spec.specs.Records.{kind_step, long_step, step_at};
ghost use Rattle.page_events.specs.Parts.{step_of};

use crate::bytes::{bytes_from, bytes_to, word};

/// The next part of a page's data. `time` (ns) is the time after the part, and `rest` are the bytes
/// after the part.
#[derive(Drop)]
pub(crate) enum Part<'a> {
    /// No part follows.
    End,
    /// A part without an event: padding or a time stamp.
    Skipped {
        time: u64,
        rest: &'a [u8],
    },
    /// The record of an event; `bytes` are its bytes, and `byte` is its offset in the page.
    Found {
        byte: usize,
        time: u64,
        bytes: &'a [u8],
        rest: &'a [u8],
    },
}

/// The unit of the second word of a time: 2^27 ns, because the first word has the lower 27 bits of
/// the time.
const UNIT: u64 = 1 << 27;

/// The unit (2^59 ns) of the bits that an absolute time in a page lacks: a page stores only its
/// lower 59 bits. The higher bits are those of the time before it.
const RANGE: u64 = 1 << 59;

// Decodes a part with a second word, which is at the start of `after`. `kind` and `amount` are the
// lower 5 and the higher 27 bits of the first word, `time` (ns) is the time before the part, and
// `byte` is the part's offset in the page.
#[inline(always)]
fn long_part(byte: usize, time: u64, kind: u32, amount: u64, after: &[u8]) -> Part<'_>
    requires word { 4 ≤ length after.now }
    requires amount { amount < 2 ^ 27 }
    ensures { step_of result ≡ long_step byte time kind amount (word_of after.now) after.now }
{
    let more = word(after);
    let length = more as usize;
    let long = amount + u64::from(more) * UNIT;
    if kind == 0 {
        let bytes = bytes_to(bytes_from(after, 4), length.saturating_sub(4));
        Part::Found {
            byte,
            time: time.wrapping_add(amount),
            bytes,
            rest: bytes_from(after, length),
        }
    } else if kind == 29 {
        if amount == 0 {
            Part::End
        } else {
            Part::Skipped {
                time: time.wrapping_add(amount),
                rest: bytes_from(after, length),
            }
        }
    } else if kind == 30 {
        Part::Skipped {
            time: time.wrapping_add(long),
            rest: bytes_from(after, 4),
        }
    } else {
        Part::Skipped {
            time: time / RANGE * RANGE + long,
            rest: bytes_from(after, 4),
        }
    }
}

// Decodes a part of any kind. `kind` and `amount` are the lower 5 and the higher 27 bits of its
// first word. `after` are the bytes after this word, `time` (ns) is the time before the part, and
// `byte` is the part's offset in the page.
#[inline(always)]
fn kind_part(byte: usize, time: u64, kind: u32, amount: u64, after: &[u8]) -> Part<'_>
    requires kind { kind < 32 }
    requires amount { amount < 2 ^ 27 }
    ensures { step_of result ≡ kind_step byte time kind amount after.now }
{
    if 0 < kind && kind < 29 {
        let length = 4 * kind as usize;
        let bytes = bytes_to(after, length);
        Part::Found {
            byte,
            time: time.wrapping_add(amount),
            bytes,
            rest: bytes_from(after, length),
        }
    } else if after.len() < 4 {
        Part::End
    } else {
        long_part(byte, time, kind, amount, after)
    }
}

/// Decodes the part at the start of `rest`. `rest` ends at the offset `end` of the page, and `time`
/// (ns) is the time before the part.
#[inline(always)]
#[tactic(auto, unfolding(page_spec::specs::Records::step_at))]
pub(crate) fn part_at(end: usize, time: u64, rest: &[u8]) -> Part<'_>
    ensures { step_of result ≡ step_at end time rest.now }
{
    if rest.len() < 4 {
        return Part::End;
    }
    let first = word(rest);
    // `rest` ends at `end`, so it has at most `end` bytes.
    let byte = end.saturating_sub(rest.len());
    kind_part(
        byte,
        time,
        first % 32,
        u64::from(first / 32),
        bytes_from(rest, 4),
    )
}

//! Iterates over the records of a page, in order. Skips padding and time stamps, which aren't
//! records.
ghost use Rattle.std.specs.Prelude.{◌≡◌, ◌∷◌, [], List, MatchOption, length, ◌≤◌};
ghost use Rattle.page_spec.specs.Records.{record_at, records_after};
ghost use Rattle.page_events.specs.Walks.{WalksTo};

use crate::part::{Part, part_at};
use std::marker::Model;

/// A record that stores an event.
#[derive(Clone, Copy)]
pub struct EventRecord<'a> {
    /// The offset (bytes) of the record in its page.
    pub byte: usize,
    /// The time of the event in ns.
    pub time: u64,
    /// The bytes of the event.
    pub bytes: &'a [u8],
}

/// The result of searching for the next record. `byte` is the offset of the record in the page,
/// `time` (ns) and `rest` are the time and the bytes after the record, and `found` has the record's
/// own bytes. `found` is `None` and `byte` is 0 if there was no further record.
#[derive(Drop)]
pub(crate) struct Walked<'a> {
    pub(crate) byte: usize,
    pub(crate) time: u64,
    pub(crate) rest: &'a [u8],
    pub(crate) found: Option<&'a [u8]>,
}

// Finds the next record in the bytes `rest`, which end at the offset `end` of the page. `time` (ns)
// is the time before these bytes.
fn walk(end: usize, time: u64, rest: &[u8]) -> Walked<'_>
    ensures { WalksTo end time rest.now result }
{
    let mut time = time;
    let mut rest = rest;
    'parts: loop {
        match part_at(end, time, rest) {
            Part::End => return Walked {
                byte: 0,
                time,
                rest: &[],
                found: None,
            },
            Part::Skipped {
                time: next,
                rest: after,
            } => {
                time = next;
                rest = after;
            }
            Part::Found {
                byte,
                time,
                bytes,
                rest,
            } => return Walked {
                byte,
                time,
                rest,
                found: Some(bytes),
            },
        }
    }
}

/// The remaining records of a page. Contracts see them as a list.
#[derive(Drop)]
pub struct Records<'a> {
    end: usize,
    time: u64,
    rest: &'a [u8],
}

impl<'a> Model for Records<'a> {
    ghost use Rattle.std.specs.Prelude.{List};
    ghost use Rattle.page_spec.specs.Records.{Record, records_after};

    ghost Value = { List Record };

    ghost view = { λ r. records_after r.end r.time r.rest.now };
}

impl<'a> Records<'a> {
    /// Creates the iterator over the records in the bytes `rest`, which end at the offset `end` of
    /// a page. `time` (ns) is the time before the first record.
    pub fn new(end: usize, time: u64, rest: &'a [u8]) -> Self
        ensures { result ≡ records_after end time rest.now }
    {
        Records { end, time, rest }
    }

    /// Removes and returns the first remaining record, or returns `None` if no record remains.
    #[tactic(auto, unfolding(page_spec::specs::Records::records_from))]
    pub fn next_record(&mut self) -> Option<EventRecord<'a>>
        ensures { MatchOption result ((self.old ≡ []) × (self.new ≡ []))
            (λ found. self.old ≡ record_at found.byte found.time found.bytes.now ∷ self.new) }
    {
        let walked = walk(self.end, self.time, self.rest);
        self.time = walked.time;
        self.rest = walked.rest;
        let bytes = walked.found?;
        Some(EventRecord {
            byte: walked.byte,
            time: walked.time,
            bytes,
        })
    }
}

//! Finds the events among the records of a page. Events of kinds that the layout doesn't list are
//! skipped.
ghost use Rattle.std.specs.Prelude.{◌≡◌, ◌∷◌, [], List, length, true, IfOk, IfSome, OnSome, ◌<◌};
ghost use Rattle.std.specs.Option.{option_copied};
ghost use Rattle.page_spec.specs.Fields.{has_fields};
ghost use Rattle.page_spec.specs.Items.{events_of, kind_with, reading_of};
ghost use Rattle.page_events.specs.Events.{FindsEvent, reading_seen};

use crate::bytes::half;
use crate::records::Records;
use crate::value::has_fields;
use page_spec::{ByteFault, Kind, Layout, PageCause};

/// An event of a kind that the layout lists. Its record is long enough for all fields of the kind.
#[derive(Clone, Copy)]
pub struct Event<'a> {
    /// The time of the event in ns.
    pub time: u64,
    /// The kind of the event.
    pub kind: &'a Kind,
    /// The bytes of the event's record.
    pub bytes: &'a [u8],
}

/// The content of a record.
pub(crate) enum Outcome<'a> {
    /// An event of a kind that the layout doesn't list.
    Unread,
    /// A record with too few bytes for the number of the kind, or for the kind's fields.
    Short,
    /// An event of this kind, with all fields of the kind.
    Read(&'a Kind),
}

// Returns the kind with this number, or `None` if the layout doesn't list it.
fn kind_with(kinds: &[Kind], number: u16) -> Option<&Kind>
    ensures { option_copied result ≡ kind_with kinds.now number }
{
    kinds.iter().find(|kind| kind.number == number)
}

// Decodes the bytes of a record. The first two bytes are the number of the event's kind.
fn outcome_of<'a>(kinds: &'a [Kind], bytes: &[u8]) -> Outcome<'a>
    ensures { reading_seen result ≡ reading_of kinds.now bytes.now }
{
    if bytes.len() < 2 {
        return Outcome::Short;
    }
    match kind_with(kinds, half(bytes)) {
        None => Outcome::Unread,
        Some(kind) => {
            if has_fields(bytes, kind.fields.items()) {
                Outcome::Read(kind)
            } else {
                Outcome::Short
            }
        }
    }
}

/// Removes records until it finds the next event, and returns the event. Returns `None` if no event
/// remains. Fails at the offset of a record that is too short.
pub fn next_event<'a>(
    layout: &'a Layout,
    records: &mut Records<'a>,
) -> Result<Option<Event<'a>>, ByteFault>
    ensures next { FindsEvent layout.now records.old records.new result }
    ensures shorter { IfOk result (λ found.
        OnSome found (length records.new < length records.old)) }
    ensures whole { IfOk result (λ found.
        IfSome found (λ event. has_fields event.bytes.now event.kind.now.fields ≡ true)) }
{
    'records: while let Some(found) = records.next_record() {
        match outcome_of(layout.kinds.items(), found.bytes) {
            Outcome::Unread => {}
            Outcome::Short => return Err(ByteFault {
                byte: found.byte as u64,
                cause: PageCause::ShortRecord,
            }),
            Outcome::Read(kind) => {
                return Ok(Some(Event {
                    time: found.time,
                    kind,
                    bytes: found.bytes,
                }));
            }
        }
    }
    Ok(None)
}

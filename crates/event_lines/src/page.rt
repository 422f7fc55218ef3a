//! Writes the lines of one page: the number of events that were lost before it, and its own events.
//! The module `line` writes the single lines.
ghost use Rattle.std.specs.Prelude.{◌≡◌, ◌≤◌, length};
ghost use Rattle.outside.specs.Outside.{HasCause, SameInner};
ghost use Rattle.outside.specs.Calls.{PutsAll};
ghost use Rattle.page_spec.specs.Items.{after_items, events_of, losses_at, page_found};
ghost use Rattle.page_spec.specs.Lines.{items_text};
ghost use Rattle.event_lines.specs.Puts.{HasWriteCause, PutsFound};

use crate::line::{put_event, put_lost};
use outside::{Sink, WriteFailed};
use page_events::{Header, Records, next_event, read_header};
use page_spec::{ByteFault, Layout};

/// The reason why writing the lines of a page stopped before the end of the page.
#[derive(Clone, Copy, Debug, PartialEq, Eq)]
pub enum PageStop {
    /// The page is invalid: the offset of the fault in the page, and its cause.
    Refused(ByteFault),
    /// A write failed.
    WriteFault,
}

impl From<ByteFault> for PageStop {
    ghost use Rattle.std.specs.Prelude.{◌≡◌};
    ghost use Rattle.event_lines.specs.declared.page.PageStop.TheVariants as stop;

    ghost from_gives = { λ why e. e ≡ stop.Refused why };

    fn from(why: ByteFault) -> Self {
        PageStop::Refused(why)
    }
}

impl From<WriteFailed> for PageStop {
    ghost use Rattle.std.specs.Prelude.{◌≡◌};
    ghost use Rattle.event_lines.specs.declared.page.PageStop.TheVariants as stop;

    ghost from_gives = { λ failed e. e ≡ stop.WriteFault };

    fn from(_: WriteFailed) -> Self {
        PageStop::WriteFault
    }
}

// Writes one line for each event in the records. Stops with an error at the first record that is
// too short.
fn put_events<'a, K: Sink>(
    layout: &'a Layout,
    cpu: u32,
    records: Records<'a>,
    out: &mut K,
) -> Result<(), PageStop>
    ensures bytes { PutsFound (K.has out.old) (K.has out.new) cpu
        (events_of layout.now records.entry) result }
    ensures cause { HasWriteCause (K.faults out.old) (K.faults out.new) result }
    ensures below { SameInner (K.below out.old) (K.below out.new) }
{
    let mut records = records;
    'events: loop {
        match next_event(layout, &mut records) {
            Ok(Some(event)) => match put_event(out, layout, cpu, event) {
                Ok(()) => {}
                Err(failed) => return Err(PageStop::from(failed)),
            },
            Ok(None) => return Ok(()),
            Err(why) => return Err(PageStop::from(why)),
        }
    }
}

// Writes a line with the number of events that were lost before a page, or nothing if `lost` is
// `None`. `time` (ns) is the time of the page.
fn put_losses<K: Sink>(
    out: &mut K,
    cpu: u32,
    time: u64,
    lost: Option<u64>,
) -> Result<(), WriteFailed>
    ensures bytes { PutsAll (K.has out.old) (K.has out.new) result
        (items_text cpu (losses_at time lost)) }
    ensures cause { HasCause (K.faults out.old) (K.faults out.new) result }
    ensures below { SameInner (K.below out.old) (K.below out.new) }
{
    match lost {
        Some(count) => put_lost(out, cpu, time, count),
        None => Ok(()),
    }
}

// Writes the lines of a page: the number of events that were lost before the page (no line if
// `header.lost` is `None`), and the events of its records.
fn put_read<'a, K: Sink>(
    layout: &'a Layout,
    cpu: u32,
    header: Header<'a>,
    out: &mut K,
) -> Result<(), PageStop>
    ensures bytes { PutsFound (K.has out.old) (K.has out.new) cpu
        (after_items (losses_at header.entry.time header.entry.lost)
        (events_of layout.now header.entry.records)) result }
    ensures cause { HasWriteCause (K.faults out.old) (K.faults out.new) result }
    ensures below { SameInner (K.below out.old) (K.below out.new) }
{
    match put_losses(out, cpu, header.time, header.lost) {
        Ok(()) => put_events(layout, cpu, header.records, out),
        Err(failed) => Err(PageStop::from(failed)),
    }
}

/// Writes the lines of a page of processor `cpu`, up to the first error in the page: the number of
/// events that were lost before it, and its own events. If a write fails, a prefix of these lines
/// was written.
pub fn put_page<'a, K: Sink>(
    layout: &'a Layout,
    cpu: u32,
    page: &'a [u8],
    out: &mut K,
) -> Result<(), PageStop>
    requires { 16 ≤ length page.now }
    ensures bytes { PutsFound (K.has out.old) (K.has out.new) cpu
        (page_found layout.now page.now) result }
    ensures cause { HasWriteCause (K.faults out.old) (K.faults out.new) result }
    ensures below { SameInner (K.below out.old) (K.below out.new) }
{
    match read_header(layout, page) {
        Ok(header) => put_read(layout, cpu, header, out),
        Err(why) => Err(PageStop::from(why)),
    }
}

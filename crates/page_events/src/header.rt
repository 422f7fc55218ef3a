//! Reads the header of a page of a kernel ring buffer: the time, the number of lost events, and the
//! bytes of the records. The decoding of single records is in `records`.
ghost use Rattle.std.specs.Prelude.{◌≡◌, ◌+◌, ◌^◌, ◌<◌, ◌≤◌, length, MatchResult};
ghost use Rattle.page_spec.specs.Items.{byte_fault};
ghost use Rattle.page_spec.specs.Records.{lost_before, lost_in, page_time, records_of, used_of};
ghost use Rattle.page_spec.specs.declared.cause.PageCause.TheVariants.{TooLong};

use crate::bytes::{bytes_from, bytes_to, long, word};
use crate::records::Records;
use page_spec::{ByteFault, Layout, PageCause};

/// The offset in a page (bytes) of a 4-byte word: the size of the records (bytes) in its lower 30
/// bits, and two flags for lost events above them.
const USED_BYTES: usize = 8;

/// The header of a page, and the records of the page.
#[derive(Drop)]
pub struct Header<'a> {
    /// The time of the page in ns: the first record's time is relative to it.
    pub time: u64,
    /// The number of events that were lost before the page, or `None` if no event was lost. 0 means
    /// that the number is unknown.
    pub lost: Option<u64>,
    /// The records of the page, in order.
    pub records: Records<'a>,
}

// Returns the number of events that were lost before a page, or `None` if no event was lost.
// `flags` is the third word of the page. `end` is the offset (bytes) after the records, at which
// the page may store the number; 0 means that the number is unknown.
fn lost(flags: u32, end: usize, page: &[u8]) -> Option<u64>
    requires { end < 2 ^ 63 }
    ensures { result ≡ lost_in flags end page.now }
{
    if flags / 0x8000_0000 % 2 == 0 {
        None
    } else if flags / 0x4000_0000 % 2 == 1 && end + 8 <= page.len() {
        Some(long(bytes_from(page, end)))
    } else {
        Some(0)
    }
}

/// Reads the header of a page. Fails with `TooLong`, at the offset of the word with the size of the
/// records, if the records don't fit in the page.
pub fn read_header<'a>(layout: &Layout, page: &'a [u8]) -> Result<Header<'a>, ByteFault>
    requires { 16 ≤ length page.now }
    ensures { MatchResult result
        (λ found. (found.time ≡ page_time page.now)
        × (found.lost ≡ lost_before layout.now.header page.now)
        × (found.records ≡ records_of layout.now.header page.now)
        × (layout.now.header + used_of page.now ≤ length page.now))
        (λ why. (why ≡ byte_fault 8 TooLong)
        × (length page.now < layout.now.header + used_of page.now)) }
{
    let flags = word(bytes_from(page, USED_BYTES));
    let start = layout.header as usize;
    let used = (flags % 0x4000_0000) as usize;
    let end = start + used;
    if page.len() < end {
        return Err(ByteFault {
            byte: USED_BYTES as u64,
            cause: PageCause::TooLong,
        });
    }
    let time = long(page);
    Ok(Header {
        time,
        lost: lost(flags, end, page),
        records: Records::new(end, time, bytes_to(bytes_from(page, start), used)),
    })
}

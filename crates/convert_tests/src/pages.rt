//! Helpers for the tests: make pages of ring buffers. A page has 64 bytes with a header of 16
//! bytes, as the table in `runs` says. A test aborts if memory runs out.

use crate::runs::Host;

/// The size of a page in bytes.
const SIZE: usize = 64;

/// The flags in the third word of a page: events were lost before the page (`LOST`), and the number
/// of lost events is stored after the records (`STORED`).
pub const LOST: u32 = 1 << 31;

pub const STORED: u32 = 1 << 30;

/// The kinds of records that aren't events. The kind of a record is the lower 5 bits of its first
/// word.
pub const PADDING: u32 = 29;

pub const EXTENDS: u32 = 30;

pub const STAMP: u32 = 31;

/// Appends a number as `count` bytes in little-endian order.
pub fn put(rt: &impl Host, bytes: &mut Vec<u8>, number: u64, count: usize) {
    let mut rest = number;
    for _ in 0..count {
        bytes.push((rest % 256) as u8).expect(rt, "memory");
        rest /= 256;
    }
}

/// Returns the first word of a record. `kind` is the record's kind, and `delta` is the time (ns)
/// since the previous record.
pub fn head(kind: u32, delta: u32) -> u64 {
    u64::from(delta) * 32 + u64::from(kind)
}

/// Appends the record of an event `note` (kind 7) with a signed number and a text of four bytes.
/// `delta` is the time (ns) since the previous record.
pub fn put_note(rt: &impl Host, bytes: &mut Vec<u8>, delta: u32, number: u64, text: &[u8; 4]) {
    put(rt, bytes, head(3, delta), 4);
    put(rt, bytes, 7, 4);
    put(rt, bytes, number, 4);
    bytes.extend_from_slice(text).expect(rt, "memory");
}

/// Makes a page with this time (ns), these flags and the bytes of its records. `lost` is the number
/// that is stored after the records.
pub fn page_with(rt: &impl Host, time: u64, flags: u32, records: &[u8], lost: u64) -> Vec<u8> {
    let mut page = Vec::new(rt.alloc());
    put(rt, &mut page, time, 8);
    let size = u64::from(flags).checked_add(records.len() as u64);
    put(rt, &mut page, size.expect(rt, "a short page"), 8);
    page.extend_from_slice(records).expect(rt, "memory");
    put(rt, &mut page, lost, 8);
    for _ in page.len()..SIZE {
        page.push(0).expect(rt, "memory");
    }
    page
}

/// Makes a page with this time (ns) and the bytes of its records, without lost events.
pub fn page_of(rt: &impl Host, time: u64, records: &[u8]) -> Vec<u8> {
    page_with(rt, time, 0, records, 0)
}

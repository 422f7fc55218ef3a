//! The reasons why a page of a kernel's ring buffer is rejected, and the place of the fault.

/// The reason why a page is rejected.
#[derive(Clone, Copy, Debug, PartialEq, Eq)]
pub enum PageCause {
    /// The page's header reports more bytes of records than the page has.
    TooLong,
    /// A record is too short for the number of its kind of event, or for a field of the event.
    ShortRecord,
    /// The file has more than 4,294,967,295 pages.
    TooMany,
}

/// The fault for which a page is rejected.
#[derive(Clone, Copy, Debug, PartialEq, Eq)]
pub struct ByteFault {
    /// The offset (bytes, from 0) in the page at which the fault is: 8 for `TooLong`, which is the
    /// offset of the word with the number of bytes of records; the offset of the record's first
    /// word for `ShortRecord`; and 0 for `TooMany`.
    pub byte: u64,
    /// The reason.
    pub cause: PageCause,
}

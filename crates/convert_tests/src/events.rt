//! Tests of the events in pages: their fields and times, lost events, bytes that aren't events, and
//! invalid pages. The pages are made by hand.

use crate::pages::{
    EXTENDS, LOST, PADDING, STAMP, STORED, head, page_of, page_with, put, put_note,
};
use crate::runs::{
    Files, Host, ONE, TABLE, TWO, assert_files, assert_prints, pages_alone, run_files,
};
use convert_core::Status;
use page_spec::PageCause;
use test_support::{NO_FAILURE, assert_equal};

/// The output for a page with time 1,000 ns and the record of `one_note`.
const ONE_NOTE: &str = "1005 0 note -1 ab\n";

/// Makes the records of a page with a single event `note`.
fn one_note(rt: &impl Host) -> Vec<u8> {
    let mut records = Vec::new(rt.alloc());
    put_note(rt, &mut records, 5, 0xffff_ffff, b"ab\0c");
    records
}

/// Checks the output for a page with time 1,000 ns and these records.
fn assert_records(rt: &impl Host, records: &[u8], output: &str) {
    assert_prints(rt, &page_of(rt, 1000, records), output);
}

#[test]
fn numbers_and_texts(rt: HostRuntime) {
    let mut records = Vec::new(rt.alloc());
    put_note(&rt, &mut records, 0, 0x7fff_ffff, b"a \\\x7f");
    put_note(&rt, &mut records, 1, 0x8000_0000, b"\0abc");
    put_note(&rt, &mut records, 2, 0, b"!~\xff\n");
    let lines = "1000 0 note 2147483647 a\\040\\134\\177\n\
        1001 0 note -2147483648 \n\
        1003 0 note 0 !~\\377\\012\n";
    assert_records(&rt, &records, lines);
}

/// Appends the record of an event `state`: one byte, a state of two bytes, and a number of eight
/// bytes.
fn put_state(rt: &impl Host, bytes: &mut Vec<u8>, byte: u64, state: u64, number: u64) {
    put(rt, bytes, head(4, 1), 4);
    put(rt, bytes, 9, 2);
    put(rt, bytes, byte, 2);
    put(rt, bytes, state, 2);
    put(rt, bytes, number, 8);
    put(rt, bytes, 0, 2);
}

#[test]
fn states(rt: HostRuntime) {
    // If several letters of the table match a state, the first of them is printed.
    for row in &[(0, "R"), (1, "S"), (3, "S"), (2, "D"), (258, "R"), (4, "R")] {
        let (state, letter) = *row;
        let mut records = Vec::new(rt.alloc());
        put_state(&rt, &mut records, 255, state, 1 << 63);
        put_state(&rt, &mut records, 0, state, u64::MAX);
        let lines = format!(in rt.alloc();
            "1001 0 state {letter} 255 -9223372036854775808\n1002 0 state {letter} 0 -1\n"
        );
        assert_records(&rt, &records, &lines.expect(&rt, "memory"));
    }
}

#[test]
fn located_texts(rt: HostRuntime) {
    // Each row has the offset and the length of a text, and the text that is printed. A text ends
    // at the end of its record.
    for row in &[
        (8, 4, "/abc"),
        (8, 6, "/abcde"),
        (9, 2, "ab"),
        (9, 100, "abcde"),
        (14, 1, ""),
        (200, 4, ""),
    ] {
        let (offset, length, text) = *row;
        let mut records = Vec::new(rt.alloc());
        put(&rt, &mut records, head(4, 1), 4);
        put(&rt, &mut records, 11, 4);
        put(&rt, &mut records, length * 65536 + offset, 4);
        records
            .extend_from_slice(b"/abcde\0z")
            .expect(&rt, "memory");
        let line = format!(in rt.alloc(); "1001 0 path {text}\n");
        assert_records(&rt, &records, &line.expect(&rt, "memory"));
    }
}

#[test]
fn times(rt: HostRuntime) {
    // A time extension is added to the time. Its second word counts units of 2^27 ns.
    let mut records = Vec::new(rt.alloc());
    put(&rt, &mut records, head(EXTENDS, 3), 4);
    put(&rt, &mut records, 2, 4);
    put_note(&rt, &mut records, 1, 1, b"x\0\0\0");
    assert_records(&rt, &records, "268436460 0 note 1 x\n");
    // A time stamp has the lower 59 bits of an absolute time. The higher bits are those of the
    // previous time.
    let mut records = Vec::new(rt.alloc());
    put(&rt, &mut records, head(STAMP, 7), 4);
    put(&rt, &mut records, 1, 4);
    put_note(&rt, &mut records, 1, 1, b"x\0\0\0");
    assert_records(&rt, &records, "134217736 0 note 1 x\n");
    let page = page_of(&rt, (1 << 59) + 1000, &records);
    assert_prints(&rt, &page, "576460752437641224 0 note 1 x\n");
    // Times wrap around at 2^64 ns.
    let mut records = Vec::new(rt.alloc());
    put_note(&rt, &mut records, 3, 1, b"x\0\0\0");
    assert_prints(&rt, &page_of(&rt, u64::MAX, &records), "2 0 note 1 x\n");
}

#[test]
fn paddings(rt: HostRuntime) {
    // Padding with a time is skipped. Its second word is its length in bytes.
    let mut records = Vec::new(rt.alloc());
    put(&rt, &mut records, head(PADDING, 9), 4);
    put(&rt, &mut records, 12, 4);
    put(&rt, &mut records, 0xffff_ffff, 8);
    put_note(&rt, &mut records, 1, 1, b"x\0\0\0");
    assert_records(&rt, &records, "1010 0 note 1 x\n");
    // Padding without a time ends the page.
    let mut records = one_note(&rt);
    put(&rt, &mut records, head(PADDING, 0), 4);
    put(&rt, &mut records, 4, 4);
    put_note(&rt, &mut records, 1, 1, b"x\0\0\0");
    assert_records(&rt, &records, ONE_NOTE);
    // Fewer than four bytes at the end of the records are ignored.
    let mut records = one_note(&rt);
    put(&rt, &mut records, 3, 3);
    assert_records(&rt, &records, ONE_NOTE);
}

#[test]
fn long_records(rt: HostRuntime) {
    // The second word of a long record is its length in bytes, including the word itself.
    let mut records = Vec::new(rt.alloc());
    put(&rt, &mut records, head(0, 5), 4);
    put(&rt, &mut records, 16, 4);
    put(&rt, &mut records, 7, 4);
    put(&rt, &mut records, 12, 4);
    records.extend_from_slice(b"ab\0c").expect(&rt, "memory");
    put_note(&rt, &mut records, 1, 1, b"x\0\0\0");
    assert_records(&rt, &records, "1005 0 note 12 ab\n1006 0 note 1 x\n");
}

#[test]
fn kinds_that_are_not_read(rt: HostRuntime) {
    let mut records = Vec::new(rt.alloc());
    put(&rt, &mut records, head(1, 4), 4);
    put(&rt, &mut records, 8, 4);
    put_note(&rt, &mut records, 1, 0xffff_ffff, b"ab\0c");
    assert_records(&rt, &records, ONE_NOTE);
}

#[test]
fn losses(rt: HostRuntime) {
    let records = one_note(&rt);
    let rows = [
        (0, ONE_NOTE),
        (LOST, "1000 0 lost 0\n1005 0 note -1 ab\n"),
        (
            LOST + STORED,
            "1000 0 lost 18446744073709551615\n1005 0 note -1 ab\n",
        ),
        (STORED, ONE_NOTE),
    ];
    for row in &rows {
        let (flags, lines) = *row;
        let page = page_with(&rt, 1000, flags, &records, u64::MAX);
        assert_prints(&rt, &page, lines);
    }
    // The records fill the page, so the number of lost events doesn't fit into it and is unknown.
    let mut records = Vec::new(rt.alloc());
    put(&rt, &mut records, head(PADDING, 0), 48);
    let page = page_with(&rt, 1000, LOST + STORED, &records, 9);
    let whole = page.get(..64).expect(&rt, "a page");
    assert_prints(&rt, whole, "1000 0 lost 0\n");
}

#[test]
fn files(rt: HostRuntime) {
    let page = page_of(&rt, 1000, &one_note(&rt));
    let mut two = page_of(&rt, 1000, &one_note(&rt));
    two.extend_from_slice(&page_of(&rt, 500, &one_note(&rt)))
        .expect(&rt, "memory");
    // The file is empty, or ends in the middle of a page. An incomplete page is ignored.
    assert_prints(&rt, b"", "");
    let cut = page.get(..63).expect(&rt, "a page");
    assert_prints(&rt, cut, "");
    let cut = two.get(..127).expect(&rt, "two pages");
    assert_prints(&rt, cut, ONE_NOTE);
    assert_prints(&rt, &two, "1005 0 note -1 ab\n505 0 note -1 ab\n");
    // The events of the first processor are printed before those of the second.
    let files = Files {
        table: TABLE.as_bytes(),
        first: two.get(..64).expect(&rt, "two pages"),
        second: &page,
    };
    let lines = "1005 0 note -1 ab\n1005 1 note -1 ab\n";
    assert_files(&rt, TWO, files, Status::Done, lines, "");
    let files = Files {
        first: &[],
        ..files
    };
    assert_files(&rt, TWO, files, Status::Done, "1005 1 note -1 ab\n", "");
}

/// Checks that the second page of a file is rejected at the offset `byte` for this cause, which is
/// printed as `name`. The event of the first page and then `lines` must be printed before the
/// error.
fn assert_refused(
    rt: &impl Host,
    page: &[u8],
    byte: u64,
    cause: PageCause,
    name: &str,
    lines: &str,
) {
    let mut pages = page_of(rt, 1000, &one_note(rt));
    pages.extend_from_slice(page).expect(rt, "memory");
    let refused = |cpu| Status::Page {
        cpu,
        page: 1,
        byte,
        cause,
    };
    let lines = format!(in rt.alloc(); "{ONE_NOTE}{lines}").expect(rt, "memory");
    let note = format!(in rt.alloc(); "a page 1 byte {byte}: {name}\n").expect(rt, "memory");
    assert_files(rt, ONE, pages_alone(&pages), refused(0), &lines, &note);
    // The second file isn't read after an error in the first file, and the message names the first
    // file.
    let files = Files {
        table: TABLE.as_bytes(),
        first: &pages,
        second: &pages,
    };
    assert_files(rt, TWO, files, refused(0), &lines, &note);
    let note = format!(in rt.alloc(); "b page 1 byte {byte}: {name}\n").expect(rt, "memory");
    let files = Files {
        first: &[],
        ..files
    };
    let ran = run_files(rt, TWO, files, 65536, NO_FAILURE);
    let (status, _, printed) = ran.results();
    assert_equal!(rt; (status, printed), (refused(1), note.as_str()), TWO);
}

#[test]
fn rejected_pages(rt: HostRuntime) {
    let note = one_note(&rt);
    let lines = "505 0 note -1 ab\n";
    let short = PageCause::ShortRecord;
    // The page's header claims more bytes of records than fit in the page. None of its events is
    // printed. The header's word with this number is at offset 8.
    let page = page_with(&rt, 500, LOST + 49 - 16, &note, 0);
    assert_refused(&rt, &page, 8, PageCause::TooLong, "TooLong", "");
    let page = page_with(&rt, 500, STORED - 1, &[], 0);
    assert_refused(&rt, &page, 8, PageCause::TooLong, "TooLong", "");
    // After the header (16 bytes) and a valid record (16 bytes), a record is too short for its
    // fields.
    let mut records = one_note(&rt);
    put(&rt, &mut records, head(1, 1), 4);
    put(&rt, &mut records, 7, 4);
    let page = page_of(&rt, 500, &records);
    assert_refused(&rt, &page, 32, short, "ShortRecord", lines);
    // The records end in the middle of a record.
    let mut records = one_note(&rt);
    put(&rt, &mut records, head(3, 1), 4);
    put(&rt, &mut records, 7, 7);
    let page = page_of(&rt, 500, &records);
    assert_refused(&rt, &page, 32, short, "ShortRecord", lines);
    // After lost events and a time extension (8 bytes), a record is too short for the number of its
    // kind.
    let mut records = Vec::new(rt.alloc());
    put(&rt, &mut records, head(EXTENDS, 1), 4);
    put(&rt, &mut records, 0, 4);
    put(&rt, &mut records, head(0, 1), 4);
    put(&rt, &mut records, 4, 4);
    let page = page_with(&rt, 500, LOST, &records, 0);
    assert_refused(&rt, &page, 24, short, "ShortRecord", "500 0 lost 0\n");
}

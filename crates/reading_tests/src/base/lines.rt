//! Tests of reading lines from fake shelves, which split the lines at any byte or fail. The tests
//! use owned and borrowed lines.
ghost use Rattle.std.specs.Prelude.{◌+◌, ◌<◌, ◌≤◌, ◌^◌};

use crate::base::fakes::one_file;
use outside_fakes::MemShelf;
use psi_lines::{LineFault, Lines};
use std::alloc::Global;
use std::process::Abort;
use test_support::{as_text, assert_equal};

// Makes a shelf with the file `f`. A read returns at most `most` bytes, and read number `fails`
// fails.
fn shelf_of(rt: &impl Abort, alloc: Global, bytes: &str, most: usize, fails: u64) -> MemShelf
    requires { 0 < most }
{
    let fails = vec![in alloc; fails].expect(rt, "memory");
    MemShelf::new(one_file(rt, alloc, bytes.as_bytes()), most, fails)
}

// Creates a reader of the lines of a file.
fn lines_of(rt: &impl Abort, alloc: Global, name: &str) -> Lines
    ensures { result.number ≤ 1 }
{
    Lines::new(alloc, name).expect(rt, "memory")
}

// Formats a result as a line: the number and the bytes of the line read, or the end, or the error.
fn known(
    rt: &impl Abort,
    alloc: Global,
    number: u32,
    answer: Result<Option<&[u8]>, LineFault>,
) -> String {
    let line = match answer {
        Ok(Some(bytes)) => format!(in alloc; "{number}:{}\n", as_text(bytes)),
        Ok(None) => String::from_str(alloc, "end\n"),
        Err(fault) => format!(in alloc; "{fault:?}\n"),
    };
    line.expect(rt, "memory")
}

// Reads the next line as an owned line, and formats it.
fn next_own(rt: &impl Abort, alloc: Global, lines: &mut Lines, shelf: &mut MemShelf) -> String
    requires { lines.old.number < 2 ^ 32 }
    ensures { lines.new.number ≤ lines.old.number + 1 }
{
    match lines.next(shelf) {
        Ok(Some(line)) => known(rt, alloc, line.number, Ok(Some(line.bytes.bytes()))),
        Ok(None) => known(rt, alloc, 0, Ok(None)),
        Err(fault) => known(rt, alloc, 0, Err(fault)),
    }
}

// Reads the next line as a borrowed line, and formats it.
fn next_lent(rt: &impl Abort, alloc: Global, lines: &mut Lines, shelf: &mut MemShelf) -> String
    requires { lines.old.number < 2 ^ 32 }
    ensures { lines.new.number ≤ lines.old.number + 1 }
{
    let number = lines.number();
    known(rt, alloc, number, lines.next_bytes(shelf))
}

// Formats the results of `calls` calls, one line each.
fn answers(
    rt: &impl Abort,
    alloc: Global,
    name: &str,
    shelf: &mut MemShelf,
    calls: u32,
    lends: bool,
) -> String {
    let mut lines = lines_of(rt, alloc, name);
    let mut text = String::new(alloc);
    for _ in 0..calls {
        let line = if lends {
            next_lent(rt, alloc, &mut lines, shelf)
        } else {
            next_own(rt, alloc, &mut lines, shelf)
        };
        text.push_str(line.as_str()).expect(rt, "memory");
    }
    text
}

// Checks the results of `calls` calls, once with owned and once with borrowed lines. The shelf
// returns at most `most` bytes per read.
fn assert_lines_by(
    rt: &impl Abort,
    alloc: Global,
    bytes: &str,
    most: usize,
    calls: u32,
    wanted: &str,
)
    requires { 0 < most }
{
    for lends in &[false, true] {
        let mut shelf = shelf_of(rt, alloc, bytes, most, u64::MAX);
        let text = answers(rt, alloc, "f", &mut shelf, calls, *lends);
        assert_equal!(rt; text.as_str(), wanted, bytes);
    }
}

// Checks that the results are the same with reads of 1, 7 and 65,536 bytes.
fn assert_lines(rt: &impl Abort, alloc: Global, bytes: &str, calls: u32, wanted: &str) {
    assert_lines_by(rt, alloc, bytes, 1, calls, wanted);
    assert_lines_by(rt, alloc, bytes, 7, calls, wanted);
    assert_lines_by(rt, alloc, bytes, 65536, calls, wanted);
}

/// Each row has the bytes of a file, a number of calls, and the results of these calls.
const LINES: [(&str, u32, &str); 5] = [
    ("", 2, "end\nend\n"),
    ("\n", 2, "1:\nend\n"),
    ("abc\n\ndefghijkl\n", 4, "1:abc\n2:\n3:defghijkl\nend\n"),
    ("abc\nde", 3, "1:abc\nCut(2)\nCut(2)\n"),
    ("x", 1, "Cut(1)\n"),
];

#[test]
fn lines_are_the_same_in_all_pieces(rt: HostRuntime) {
    for (bytes, calls, wanted) in &LINES {
        assert_lines(&rt, rt.alloc(), bytes, *calls, wanted);
    }
}

// Makes a text with a line of `length` bytes, preceded by `before` and followed by `suffix`.
fn long_line(rt: &impl Abort, alloc: Global, before: &str, length: usize, suffix: &str) -> String {
    let line = "a".repeat(alloc, length).expect(rt, "memory");
    format!(in alloc; "{before}{line}{suffix}").expect(rt, "memory")
}

#[test]
fn lines_have_512_bytes(rt: HostRuntime) {
    let alloc = rt.alloc();
    let whole = long_line(&rt, alloc, "", 512, "\nb\n");
    let answers = long_line(&rt, alloc, "1:", 512, "\n2:b\nend\n");
    assert_lines(&rt, alloc, whole.as_str(), 3, answers.as_str());
    let cut = long_line(&rt, alloc, "", 512, "");
    assert_lines(&rt, alloc, cut.as_str(), 1, "Cut(1)\n");
}

#[test]
fn lines_have_no_513_bytes(rt: HostRuntime) {
    let alloc = rt.alloc();
    for suffix in &["\nb\n", ""] {
        let line = long_line(&rt, alloc, "", 513, suffix);
        assert_lines(&rt, alloc, line.as_str(), 2, "TooLong(1)\nTooLong(1)\n");
    }
}

// Checks the results of four calls for the next line. The shelf returns at most two bytes per read,
// and read number `fails` (from 0) fails.
fn assert_one_failure(rt: &impl Abort, alloc: Global, fails: u64, wanted: &str) {
    for lends in &[false, true] {
        let mut shelf = shelf_of(rt, alloc, "abc\nde\n", 2, fails);
        let text = answers(rt, alloc, "f", &mut shelf, 4, *lends);
        assert_equal!(rt; text.as_str(), wanted, "a read that fails");
        assert_equal!(rt; shelf.faults, 1, "faults");
    }
}

#[test]
fn faults_lose_nothing(rt: HostRuntime) {
    assert_one_failure(&rt, rt.alloc(), 0, "ReadFault\n1:abc\n2:de\nend\n");
    assert_one_failure(&rt, rt.alloc(), 1, "ReadFault\n1:abc\n2:de\nend\n");
    assert_one_failure(&rt, rt.alloc(), 3, "1:abc\nReadFault\n2:de\nend\n");
    assert_one_failure(&rt, rt.alloc(), 4, "1:abc\n2:de\nReadFault\nend\n");
}

#[test]
fn absent_names_have_no_lines(rt: HostRuntime) {
    for lends in &[false, true] {
        let mut shelf = shelf_of(&rt, rt.alloc(), "abc\n", 2, u64::MAX);
        let text = answers(&rt, rt.alloc(), "g", &mut shelf, 2, *lends);
        assert_equal!(rt; text.as_str(), "NoFile\nNoFile\n", "an absent name");
        assert_equal!(rt; shelf.absent, 2, "calls with an absent name");
    }
}

// Checks three calls of `is_at_end` after one line. The first call fails because the second read
// fails. The next call reads once. The last call reads again only if no byte is buffered.
fn assert_end_after_line(rt: &impl Abort, alloc: Global, bytes: &str, is_end: bool, calls: u64) {
    let mut shelf = shelf_of(rt, alloc, bytes, 3, 1);
    let mut lines = lines_of(rt, alloc, "f");
    let line = next_own(rt, alloc, &mut lines, &mut shelf);
    assert_equal!(rt; line.as_str(), "1:ab\n", bytes);
    let failed = lines.is_at_end(&mut shelf);
    assert_equal!(rt; failed, Err(LineFault::ReadFault), bytes);
    assert_equal!(rt; lines.is_at_end(&mut shelf), Ok(is_end), bytes);
    assert_equal!(rt; shelf.calls, 3, bytes);
    assert_equal!(rt; lines.is_at_end(&mut shelf), Ok(is_end), bytes);
    assert_equal!(rt; (shelf.calls, shelf.faults), (calls, 1), bytes);
}

#[test]
fn end_takes_one_read(rt: HostRuntime) {
    let alloc = rt.alloc();
    assert_end_after_line(&rt, alloc, "ab\n", true, 4);
    assert_end_after_line(&rt, alloc, "ab\ncd", false, 3);
    let mut shelf = shelf_of(&rt, alloc, "ab\n", 3, u64::MAX);
    let mut lines = lines_of(&rt, alloc, "g");
    let missed = lines.is_at_end(&mut shelf);
    assert_equal!(rt; missed, Err(LineFault::NoFile), "an absent name");
}

//! Tests of malformed command lines, of missing files, and of the maximum number of files. The
//! files are in memory.

use crate::runs::{Host, pages_alone, run_files};
use convert_core::Status;
use test_support::{Failing, NO_FAILURE, assert_equal};

/// The message on standard error for a malformed command line.
const USAGE: &str = "usage: psi_convert events TABLE PAGES..\n";

#[test]
fn words(rt: HostRuntime) {
    for line in &[
        "",
        "events",
        "events t",
        "event t a",
        "Events t a",
        " events t a",
        "events t a ",
        "events  t a",
        "events t --a",
        "events -t a",
        "--help",
    ] {
        // No file is read: the first read would fail.
        let failing = Failing {
            read: 0,
            ..NO_FAILURE
        };
        let ran = run_files(&rt, line, pages_alone(b""), 65536, failing);
        assert_equal!(rt; ran.results(), (Status::Usage, "", USAGE), *line);
    }
}

/// Checks that file number `file` of the command line (0 is the table) is reported as missing.
fn assert_missing(rt: &impl Host, line: &str, file: u32, note: &str) {
    let ran = run_files(rt, line, pages_alone(b""), 65536, NO_FAILURE);
    assert_equal!(rt; ran.results(), (Status::NoFile { file }, "", note), line);
}

#[test]
fn missing_files(rt: HostRuntime) {
    assert_missing(&rt, "events u a", 0, "no file: u\n");
    assert_missing(&rt, "events - a", 0, "no file: -\n");
    assert_missing(&rt, "events t c", 1, "no file: c\n");
    assert_missing(&rt, "events t a b c d", 3, "no file: c\n");
    // The table is read before the pages.
    let ran = run_files(&rt, "events a c", pages_alone(b"x"), 65536, NO_FAILURE);
    assert_equal!(rt; ran.status.code(), 3, "events a c");
}

#[test]
fn many_files(rt: HostRuntime) {
    // A command has at most 4,096 files of pages.
    let mut line = String::from_str(rt.alloc(), "events t").expect(&rt, "memory");
    for _ in 0..4096 {
        line.push_str(" a").expect(&rt, "memory");
    }
    let ran = run_files(&rt, &line, pages_alone(b""), 65536, NO_FAILURE);
    assert_equal!(rt; ran.results(), (Status::Done, "", ""), "4,096 files");
    line.push_str(" a").expect(&rt, "memory");
    let ran = run_files(&rt, &line, pages_alone(b""), 65536, NO_FAILURE);
    assert_equal!(rt; ran.results(), (Status::Usage, "", USAGE), "4,097 files");
}

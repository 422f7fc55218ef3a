//! Helpers for the tests: run a command line with one table and up to two files of pages, in
//! memory, and check the run. A test aborts if memory runs out.

use convert_core::{Status, run};
use std::process::Abort;
use test_support::{Failing, NO_FAILURE, Streams, assert_equal, file_of, words_of};

/// The capacity (bytes) of each sink.
const ROOM: usize = 4096;

/// The layout of the pages that the tests make.
pub const TABLE: &str = "psi_layout 1\n\
    page 64 16\n\
    letter 256 R\n\
    letter 1 S\n\
    letter 2 D\n\
    kind 7 note signed:4:4 text:8:4\n\
    kind 9 state state:4:2 unsigned:2:1 signed:6:8\n\
    kind 11 path located:4:4\n\
    end\n";

/// The command lines of most tests, for one file of pages and for two files.
pub const ONE: &str = "events t a";

pub const TWO: &str = "events t a b";

/// What a test needs from its runtime: memory, and a way to abort.
pub trait Host: AllocGlobal + Abort {}

impl<R: AllocGlobal + Abort> Host for R {}

/// The files of a run, in memory: a table named `t`, and files of pages named `a` and `b`.
#[derive(Clone, Copy)]
pub struct Files<'a> {
    pub table: &'a [u8],
    pub first: &'a [u8],
    pub second: &'a [u8],
}

/// Returns files with the table `TABLE` and one file of pages.
pub fn pages_alone(first: &[u8]) -> Files<'_> {
    Files {
        table: TABLE.as_bytes(),
        first,
        second: &[],
    }
}

/// The results of a run of psi_convert.
pub type Ran = test_support::Ran<Status>;

/// Runs a command line with these files and failing calls. Each call transfers at most `most`
/// bytes.
pub fn run_files(rt: &impl Host, line: &str, files: Files, most: usize, failing: Failing) -> Ran {
    let alloc = rt.alloc();
    let words = words_of(alloc, line, ' ').expect(rt, "memory");
    let held = vec![in alloc;
        file_of(alloc, "t", files.table).expect(rt, "memory"),
        file_of(alloc, "a", files.first).expect(rt, "memory"),
        file_of(alloc, "b", files.second).expect(rt, "memory"),
    ];
    let held = held.expect(rt, "memory");
    let mut streams = Streams::make(alloc, held, ROOM, most, failing).expect(rt, "memory");
    let status = run(
        alloc,
        &words,
        &mut streams.shelf,
        &mut streams.output,
        &mut streams.note,
    );
    streams.into_ran(status)
}

/// Checks the status, the output and the message on standard error (`note`) of a command line for
/// these files. Runs it with several limits of bytes per read and write.
pub fn assert_files(
    rt: &impl Host,
    line: &str,
    files: Files,
    status: Status,
    output: &str,
    note: &str,
) {
    for most in &[65536, 7, 1] {
        let ran = run_files(rt, line, files, *most, NO_FAILURE);
        assert_equal!(rt; ran.results(), (status, output, note), (line, *most));
    }
}

/// Checks that the events of one file of pages are printed as `output`.
pub fn assert_prints(rt: &impl Host, pages: &[u8], output: &str) {
    assert_files(rt, ONE, pages_alone(pages), Status::Done, output, "");
}

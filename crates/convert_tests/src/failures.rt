//! Tests of reads and writes that fail: the status, the message on standard error, and the printed
//! prefix. The input is a table, and a page with two events `note`.

use crate::pages::{page_of, put_note};
use crate::runs::{Host, ONE, Ran, pages_alone, run_files};
use convert_core::Status;
use test_support::{Failing, NO_FAILURE, as_text, assert_equal, first_bytes};

/// The output for the page.
const LINES: &str = "1005 0 note -1 ab\n1006 0 note 7 c\n";

/// Runs the command line `ONE` for a page with two events `note`, with these failing calls. Each
/// call transfers at most `most` bytes.
fn run_page(rt: &impl Host, most: usize, failing: Failing) -> Ran {
    let mut records = Vec::new(rt.alloc());
    put_note(rt, &mut records, 5, 0xffff_ffff, b"ab\0c");
    put_note(rt, &mut records, 1, 7, b"c\0\0\0");
    let page = page_of(rt, 1000, &records);
    run_files(rt, ONE, pages_alone(&page), most, failing)
}

/// Checks that a run ends with this status and with the message `note` on standard error, and
/// prints a prefix of `LINES`. The prefix has at most `longest` bytes.
fn assert_prefix(
    rt: &impl Host,
    ran: &Ran,
    status: Status,
    longest: usize,
    note: &str,
    failing: Failing,
) {
    let length = ran.output.len().min(longest);
    let prefix = as_text(first_bytes(LINES.as_bytes(), length));
    assert_equal!(rt; ran.results(), (status, prefix, note), failing);
}

#[test]
fn reads_that_fail(rt: HostRuntime) {
    // Reads 0 and 1 read the table. Read 2 returns the page, and read 3 returns the end of the
    // page's file.
    for read in &[0, 1, 2, 3] {
        let failing = Failing {
            read: *read,
            ..NO_FAILURE
        };
        let ran = run_page(&rt, 65536, failing);
        let status = Status::ReadFault;
        assert_prefix(&rt, &ran, status, LINES.len(), "read fault\n", failing);
    }
    let failing = Failing {
        read: 4,
        ..NO_FAILURE
    };
    let ran = run_page(&rt, 65536, failing);
    assert_equal!(rt; ran.results(), (Status::Done, LINES, ""), "read 4");
}

#[test]
fn writes_that_fail(rt: HostRuntime) {
    for write in &[0, 1, 4] {
        let failing = Failing {
            write: *write,
            ..NO_FAILURE
        };
        let ran = run_page(&rt, 7, failing);
        let status = Status::WriteFault;
        assert_prefix(
            &rt,
            &ran,
            status,
            LINES.len().saturating_sub(1),
            "write fault\n",
            failing,
        );
    }
    // A failed write of the message doesn't change the status.
    let failing = Failing {
        read: 0,
        note: 1,
        ..NO_FAILURE
    };
    let ran = run_page(&rt, 7, failing);
    let expected = (Status::ReadFault, "", "read fa");
    assert_equal!(rt; ran.results(), expected, "a note that fails");
}

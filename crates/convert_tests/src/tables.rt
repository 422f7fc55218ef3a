//! Tests of tables, which describe the layout of pages: the forms of their lines, and the first
//! error of each faulty table. The page has one event `note`.

use crate::pages::{page_of, put_note};
use crate::runs::{Files, Host, ONE, assert_files};
use convert_core::Status;
use convert_table::{TableCause, TableFault};

/// The first two lines of a table.
const START: &str = "psi_layout 1\npage 64 16\n";

/// Checks the status, the output and the message on standard error (`note`) of a run with this
/// table and a page with one event `note`.
fn assert_table(rt: &impl Host, table: &[u8], status: Status, output: &str, note: &str) {
    let mut records = Vec::new(rt.alloc());
    put_note(rt, &mut records, 5, 0xffff_ffff, b"ab\0c");
    let page = page_of(rt, 1000, &records);
    let files = Files {
        table,
        first: &page,
        second: &[],
    };
    assert_files(rt, ONE, files, status, output, note);
}

/// Checks that a table is rejected at this line for this cause, which is printed as `name`, and
/// that nothing else is printed.
fn assert_refused(rt: &impl Host, table: &[u8], line: u32, cause: TableCause, name: &str) {
    let note = format!(in rt.alloc(); "table line {line}: {name}\n").expect(rt, "memory");
    let fault = TableFault { line, cause };
    assert_table(rt, table, Status::Table(fault), "", &note);
}

#[test]
fn kinds(rt: HostRuntime) {
    for row in &[
        ("", ""),
        ("kind 7 n\n", "1005 0 n\n"),
        ("kind 7 n unsigned:4:4\n", "1005 0 n 4294967295\n"),
        ("kind 7 n unsigned:4:2 signed:4:1\n", "1005 0 n 65535 -1\n"),
        ("kind 7 n text:8:0\n", "1005 0 n ab\n"),
        ("kind 7 n text:8:1 text:12:0\n", "1005 0 n a \n"),
        ("kind 7 n state:4:1\n", "1005 0 n R\n"),
        ("letter 8 T\nkind 7 n state:4:1\n", "1005 0 n T\n"),
        ("kind 7 n state:4:1\nletter 8 T\n", "1005 0 n T\n"),
        // If two kinds have the same number, the first kind is used.
        ("kind 7 n\nkind 7 m\n", "1005 0 n\n"),
        ("kind 8 n\nkind 65535 m\n", ""),
    ] {
        let (rows, lines) = *row;
        let table = format!(in rt.alloc(); "{START}{rows}end\n").expect(&rt, "memory");
        assert_table(&rt, table.as_bytes(), Status::Done, lines, "");
    }
}

#[test]
fn bad_starts(rt: HostRuntime) {
    for table in &[
        "",
        "\n",
        "psi_layout 2\n",
        "psi_layout 1 \n",
        "psi_layout 1\r\n",
    ] {
        let cause = TableCause::BadHeader;
        assert_refused(&rt, table.as_bytes(), 1, cause, "BadHeader");
    }
    for second in &[
        "",
        "\n",
        "page 64\n",
        "page 64 16 0\n",
        "page 64  16\n",
        "page 64 15\n",
        "page 15 16\n",
        "page 2097153 16\n",
        "page 18446744073709551616 16\n",
        "pages 64 16\n",
        "end\n",
    ] {
        let table = format!(in rt.alloc(); "psi_layout 1\n{second}").expect(&rt, "memory");
        let cause = TableCause::BadPage;
        assert_refused(&rt, table.as_bytes(), 2, cause, "BadPage");
    }
}

#[test]
fn bad_rows(rt: HostRuntime) {
    for row in &[
        "",
        "kinds 7 n",
        "letter 1",
        "letter 1 RR",
        "letter x R",
        "letter 1 R ",
        "kind 7",
        "kind 65536 n",
        "kind 07 n",
        "kind 7 n unsigned:4",
        "kind 7 n unsigned:4:3",
        "kind 7 n unsigned:65536:4",
        "kind 7 n text:0:65536",
        "kind 7 n located:4:8",
        "kind 7 n number:4:4",
        "kind 7 n signed:4:4:",
        "kind 7 n ",
        "end ",
    ] {
        let table = format!(in rt.alloc(); "{START}letter 1 S\n{row}\nend\n");
        let table = table.expect(&rt, "memory");
        let cause = TableCause::BadRow;
        assert_refused(&rt, table.as_bytes(), 4, cause, "BadRow");
    }
}

#[test]
fn ends(rt: HostRuntime) {
    // The line `end` must end with a newline, and nothing may follow it.
    let table = format!(in rt.alloc(); "{START}end").expect(&rt, "memory");
    assert_refused(&rt, table.as_bytes(), 3, TableCause::NoNewline, "NoNewline");
    for rest in &["end\n\n", "end\nend\n", "end\nx"] {
        let table = format!(in rt.alloc(); "{START}{rest}").expect(&rt, "memory");
        let cause = TableCause::AfterEnd;
        assert_refused(&rt, table.as_bytes(), 4, cause, "AfterEnd");
    }
    let table = "psi_layout 1\npage 64 16";
    assert_refused(&rt, table.as_bytes(), 3, TableCause::NoEnd, "NoEnd");
}

#[test]
fn long_tables(rt: HostRuntime) {
    // A table of 65,536 bytes is accepted, a table of 65,537 bytes isn't.
    let mut table = String::new(rt.alloc());
    table.push_str(START).expect(&rt, "memory");
    table.push_str("kind 7 ").expect(&rt, "memory");
    for _ in table.len()..65_531 {
        table.push('n').expect(&rt, "memory");
    }
    table.push_str("\nend\n").expect(&rt, "memory");
    let cause = TableCause::TooLong;
    let long = format!(in rt.alloc(); "{}x", table.as_str()).expect(&rt, "memory");
    assert_refused(&rt, long.as_bytes(), 1, cause, "TooLong");
    let rows = format!(in rt.alloc(); "{}", table.as_str()).expect(&rt, "memory");
    let empty = Files {
        table: rows.as_bytes(),
        first: &[],
        second: &[],
    };
    assert_files(&rt, ONE, empty, Status::Done, "", "");
}

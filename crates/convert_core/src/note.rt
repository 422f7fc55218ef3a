//! Writes the messages of statuses to the error stream. A run that succeeds has no message.
ghost use Rattle.std.specs.Prelude.{◌≡◌, ◌+◌, map, string_bytes};
ghost use Rattle.outside.specs.Outside.{HasCause};
ghost use Rattle.outside.specs.Calls.{PutsAll};
ghost use Rattle.convert_core.specs.Status.{byte_fault_text, missing_text, page_cause_text, page_name_text, page_text, status_text, table_cause_text, table_text, word_at};

use crate::status::Status;
use convert_table::TableCause;
use itoa::Buffer;
use outside::{Sink, WriteFailed, put_all, put_each, put_number};
use page_spec::PageCause;

fn page_cause_name(cause: PageCause) -> &'static [u8]
    ensures { result.now ≡ page_cause_text cause }
{
    match cause {
        PageCause::TooLong => b"TooLong",
        PageCause::ShortRecord => b"ShortRecord",
        PageCause::TooMany => b"TooMany",
    }
}

fn table_cause_name(cause: TableCause) -> &'static [u8]
    ensures { result.now ≡ table_cause_text cause }
{
    match cause {
        TableCause::TooLong => b"TooLong",
        TableCause::BadHeader => b"BadHeader",
        TableCause::BadPage => b"BadPage",
        TableCause::BadRow => b"BadRow",
        TableCause::NoEnd => b"NoEnd",
        TableCause::NoNewline => b"NoNewline",
        TableCause::AfterEnd => b"AfterEnd",
    }
}

// Writes the words that name page number `page` of a file.
#[tactic(auto, using(outside::proofs::Grows::chain))]
fn put_page_name<N: Sink>(note: &mut N, name: &str, page: u64) -> Result<(), WriteFailed>
    ensures bytes { PutsAll (N.has note.old) (N.has note.new) result
        (page_name_text name.now page) }
    ensures cause { HasCause (N.faults note.old) (N.faults note.new) result }
{
    put_all(note, name.as_bytes())?;
    put_all(note, b" page ")?;
    put_number(note, page)
}

// Writes the offset of an error in a page, and its cause, as the end of a line.
fn put_byte_fault<N: Sink>(note: &mut N, byte: u64, cause: PageCause) -> Result<(), WriteFailed>
    ensures bytes { PutsAll (N.has note.old) (N.has note.new) result
        (byte_fault_text byte cause) }
    ensures cause { HasCause (N.faults note.old) (N.faults note.new) result }
{
    let mut digits = Buffer::new();
    let byte = digits.format(byte).as_bytes();
    put_each(
        note,
        &[
            b" byte ".as_slice(),
            byte,
            b": ".as_slice(),
            page_cause_name(cause),
            b"\n".as_slice(),
        ],
    )
}

// Writes the message for an invalid page of a file. `byte` is the offset of the error in the page.
#[tactic(auto, using(outside::proofs::Grows::chain))]
fn put_page_fault<N: Sink>(
    note: &mut N,
    name: &str,
    page: u64,
    byte: u64,
    cause: PageCause,
) -> Result<(), WriteFailed>
    ensures bytes { PutsAll (N.has note.old) (N.has note.new) result
        (page_text name.now page byte cause) }
    ensures cause { HasCause (N.faults note.old) (N.faults note.new) result }
{
    put_page_name(note, name, page)?;
    put_byte_fault(note, byte, cause)
}

// Writes the message for an invalid line of a table.
fn put_table_fault<N: Sink>(note: &mut N, line: u32, cause: TableCause) -> Result<(), WriteFailed>
    ensures bytes { PutsAll (N.has note.old) (N.has note.new) result (table_text line cause) }
    ensures cause { HasCause (N.faults note.old) (N.faults note.new) result }
{
    let mut digits = Buffer::new();
    let line = digits.format(line).as_bytes();
    put_each(
        note,
        &[
            b"table line ".as_slice(),
            line,
            b": ".as_slice(),
            table_cause_name(cause),
            b"\n".as_slice(),
        ],
    )
}

// Returns word number `number` (from 0), or nothing if there are fewer words.
fn word_at(words: &[String], number: u32) -> &str
    ensures { result.now ≡ word_at (map string_bytes words.now) number }
{
    let [first, rest @ ..] = words else {
        return "";
    };
    if number == 0 {
        first.as_str()
    } else {
        word_at(rest, number - 1)
    }
}

// Writes the message for a missing file.
fn put_missing<N: Sink>(note: &mut N, name: &str) -> Result<(), WriteFailed>
    ensures bytes { PutsAll (N.has note.old) (N.has note.new) result (missing_text name.now) }
    ensures cause { HasCause (N.faults note.old) (N.faults note.new) result }
{
    put_each(
        note,
        &[b"no file: ".as_slice(), name.as_bytes(), b"\n".as_slice()],
    )
}

/// Writes the message of a status as one line, or nothing for `Done`. Does not allocate.
pub(crate) fn put_status<N: Sink>(
    note: &mut N,
    words: &[String],
    status: Status,
) -> Result<(), WriteFailed>
    ensures bytes { PutsAll (N.has note.old) (N.has note.new) result
        (status_text (map string_bytes words.now) status) }
    ensures cause { HasCause (N.faults note.old) (N.faults note.new) result }
{
    match status {
        Status::Done => put_all(note, b""),
        Status::Usage => put_all(note, b"usage: psi_convert events TABLE PAGES..\n"),
        Status::Page {
            cpu,
            page,
            byte,
            cause,
        } => put_page_fault(
            note,
            word_at(words, cpu.saturating_add(2)),
            page,
            byte,
            cause,
        ),
        Status::Table(fault) => put_table_fault(note, fault.line, fault.cause),
        Status::NoFile { file } => put_missing(note, word_at(words, file.saturating_add(1))),
        Status::ReadFault => put_all(note, b"read fault\n"),
        Status::WriteFault => put_all(note, b"write fault\n"),
        Status::NoMemory(_) => put_all(note, b"out of memory\n"),
    }
}

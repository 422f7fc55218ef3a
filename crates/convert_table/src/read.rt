//! Parses a whole table, line by line. The form of each line is in `row`.
ghost use Rattle.std.specs.Prelude.{◌≡◌, ◌+◌, ◌-◌, ◌^◌, ◌<◌, ◌≤◌, [], IfOk, length};
ghost use Rattle.psi_base.specs.Gives.{Gives};
ghost use Rattle.psi_base.specs.Path.{parts_at};
ghost use Rattle.convert_table.specs.Table.{end_fault, layout_with, lines_layout, rows_from, table_of};
ghost use Rattle.convert_table.specs.Takes.{refused_at};

use crate::fault::{TableCause, TableFault};
use crate::row::{PageSize, Row, page_of, row_of};
use page_spec::{KindList, Layout, LetterList};
use psi_base::{Fault, Parts};
use std::alloc::Global;

/// The lines of a table that haven't been parsed yet.
type Lines<'a> = Parts<'a, b'\n'>;

// Returns the error that line number `line` (from 1) is invalid for this cause.
fn refused(line: u32, cause: TableCause) -> Fault<TableFault>
    ensures { result ≡ refused_at line cause }
{
    Fault::Refused(TableFault { line, cause })
}

// Checks the end of a table. `number` is the number of the line `end`, and `lines` are the parts
// after it. Returns an error unless the line `end` has a newline and nothing follows the newline.
fn end_fault(number: u32, mut lines: Lines) -> Option<TableFault>
    requires { number < 2 ^ 32 - 1 }
    ensures { result ≡ end_fault number lines.entry }
{
    let Some(rest) = lines.next_part() else {
        return Some(TableFault {
            line: number,
            cause: TableCause::NoNewline,
        });
    };
    if rest.is_empty() && lines.next_part().is_none() {
        None
    } else {
        Some(TableFault {
            line: number + 1,
            cause: TableCause::AfterEnd,
        })
    }
}

// Parses the lines from line 3 to the end, and returns the layout. `size` has the sizes from line
// 2.
fn read_rows(alloc: Global, size: PageSize, lines: Lines) -> Result<Layout, Fault<TableFault>>
    requires { length lines < 2 ^ 31 }
    ensures exact { Gives result (rows_from size 3 [] [] lines.entry) }
    ensures sizes { IfOk result (λ layout. (layout.header ≡ size.header)
        × (layout.page ≡ size.page)) }
{
    let mut lines = lines;
    let mut number: u32 = 3;
    let mut letters = Vec::new(alloc);
    let mut kinds = Vec::new(alloc);
    'lines: while let Some(line) = lines.next_part() {
        if line == b"end".as_slice() {
            if let Some(fault) = end_fault(number, lines) {
                return Err(Fault::Refused(fault));
            }
            return Ok(Layout {
                page: size.page,
                header: size.header,
                letters: LetterList::new(letters),
                kinds: KindList::new(kinds),
            });
        }
        match row_of(alloc, line) {
            Ok(Row::Letter(letter)) => letters.push(letter)?,
            Ok(Row::Event(kind)) => kinds.push(kind)?,
            Err(Fault::Refused(_)) => return Err(refused(number, TableCause::BadRow)),
            Err(Fault::NoMemory(none)) => return Err(Fault::NoMemory(none)),
        }
        number += 1;
    }
    Err(refused(number, TableCause::NoEnd))
}

// Parses all lines of a table, and returns the layout.
fn read_lines(alloc: Global, mut lines: Lines) -> Result<Layout, Fault<TableFault>>
    requires { length lines < 2 ^ 31 }
    ensures exact { Gives result (lines_layout lines.entry) }
    ensures ranges { IfOk result (λ layout. (16 ≤ layout.header) × (layout.header ≤ layout.page)
        × (layout.page ≤ 2097152)) }
{
    let Some(first) = lines.next_part() else {
        return Err(refused(1, TableCause::BadHeader));
    };
    if first != b"psi_layout 1".as_slice() {
        return Err(refused(1, TableCause::BadHeader));
    }
    let Some(second) = lines.next_part() else {
        return Err(refused(2, TableCause::BadPage));
    };
    match page_of(second) {
        Some(size) => read_rows(alloc, size, lines),
        None => Err(refused(2, TableCause::BadPage)),
    }
}

/// Parses a table, and returns its layout or its first error.
#[tactic(auto, unfolding(crate::specs::Table::table_of))]
pub fn read_table(alloc: Global, bytes: &[u8]) -> Result<Layout, Fault<TableFault>>
    ensures exact { Gives result (table_of bytes.now) }
    ensures ranges { IfOk result (λ layout. (16 ≤ layout.header) × (layout.header ≤ layout.page)
        × (layout.page ≤ 2097152)) }
{
    if bytes.len() > 65_536 {
        return Err(refused(1, TableCause::TooLong));
    }
    read_lines(alloc, Parts::new(bytes))
}

//! Parses single lines of a table. The order of the lines is checked in `read`.
ghost use Rattle.std.specs.Prelude.{◌≡◌, ◌^◌, ◌<◌, ◌≤◌, [], ◌∷◌, IfSome, MatchOption, None, Some};
ghost use Rattle.convert_table.specs.Table.{byte_in, ended, field_of, field_with, fields_of, kind_of, state_letter_of, next, page_of, row_of, small, width_of};
ghost use Rattle.convert_table.specs.Takes.{GivesSome};

use page_spec::{Field, FieldList, Kind, StateLetter, Width};
use psi_base::{Fault, Parts, Text, read_number};
use std::alloc::Global;

/// The words of a line that haven't been parsed yet.
pub(crate) type Words<'a> = Parts<'a, b' '>;

/// The error for a line whose first word isn't `letter` or `kind`, or that doesn't have the form
/// that its first word requires.
#[derive(Clone, Copy, Debug, PartialEq, Eq)]
pub(crate) struct BadRow;

impl From<BadRow> for Fault<BadRow> {
    ghost use Rattle.std.specs.Prelude.{◌≡◌};
    ghost use Rattle.psi_base.specs.declared.event.Fault.TheVariants as fault;

    ghost from_gives = { λ why e. e ≡ fault.Refused why };

    fn from(why: BadRow) -> Self {
        Fault::Refused(why)
    }
}

/// A line after the line `page` and before the line `end`.
#[derive(Drop)]
pub(crate) enum Row {
    /// The letter of a task's state.
    Letter(StateLetter),
    /// A kind of event.
    Event(Kind),
}

/// The sizes of a page and of its header, in bytes.
#[derive(Clone, Copy, Debug, PartialEq, Eq)]
pub(crate) struct PageSize {
    pub(crate) page: u32,
    pub(crate) header: u32,
}

// Removes the first part and returns it. Returns `None` if no part remains.
fn next<'a, const AT: u8>(parts: &mut Parts<'a, AT>) -> Option<&'a [u8]>
    ensures { MatchOption result (next parts.old ≡ None)
        (λ part. next parts.old ≡ Some (part.now, parts.new)) }
{
    parts.next_part()
}

// Returns `Some` if no part remains, and `None` if a part remains, so that `?` rejects a surplus
// part.
fn ended<const AT: u8>(parts: &mut Parts<'_, AT>) -> Option<()>
    ensures { MatchOption result (ended parts.old ≡ None) (λ _. ended parts.old ≡ Some tt) }
{
    match parts.next_part() {
        Some(_) => None,
        None => Some(()),
    }
}

// Parses a number below 65,536. Returns `None` for any other word.
fn small(word: &[u8]) -> Option<u32>
    ensures exact { result ≡ small word.now }
    ensures below { IfSome result (λ n. n < 65536) }
{
    match read_number(word) {
        Some(number) if number < 65_536 => Some(number as u32),
        _ => None,
    }
}

// Returns the width of a number with `size` bytes, or `None` unless `size` is 1, 2, 4 or 8.
fn width_of(size: u32) -> Option<Width>
    ensures { result ≡ width_of size }
{
    match size {
        1 => Some(Width::One),
        2 => Some(Width::Two),
        4 => Some(Width::Four),
        8 => Some(Width::Eight),
        _ => None,
    }
}

// Returns the field with this form, offset (bytes) and size (bytes). Returns `None` if the form is
// unknown or the size isn't allowed.
fn field_with(form: &[u8], offset: u32, size: u32) -> Option<Field>
    ensures { result ≡ field_with form.now offset size }
{
    if form == b"unsigned".as_slice() {
        let width = width_of(size)?;
        Some(Field::Unsigned { offset, width })
    } else if form == b"signed".as_slice() {
        let width = width_of(size)?;
        Some(Field::Signed { offset, width })
    } else if form == b"state".as_slice() {
        let width = width_of(size)?;
        Some(Field::State { offset, width })
    } else if form == b"text".as_slice() {
        Some(Field::Text { offset, most: size })
    } else if form == b"located".as_slice() && size == 4 {
        Some(Field::Located { offset })
    } else {
        None
    }
}

// Parses a field: its form, its offset (bytes) and its size (bytes), separated by colons.
#[tactic(auto, unfolding(crate::specs::Table::field_of))]
fn field_of(word: &[u8]) -> Option<Field>
    ensures { result ≡ field_of word.now }
{
    let mut parts: Parts<'_, b':'> = Parts::new(word);
    let form = next(&mut parts)?;
    let offset = next(&mut parts)?;
    let size = next(&mut parts)?;
    ended(&mut parts)?;
    let offset = small(offset)?;
    let size = small(size)?;
    field_with(form, offset, size)
}

// Parses all remaining words of a line as fields.
fn fields_of(alloc: Global, words: Words) -> Result<FieldList, Fault<BadRow>>
    ensures { GivesSome result (fields_of words.entry) }
{
    let mut words = words;
    let mut fields = Vec::new(alloc);
    'words: while let Some(word) = words.next_part() {
        match field_of(word) {
            Some(field) => fields.push(field)?,
            None => return Err(Fault::Refused(BadRow)),
        }
    }
    Ok(FieldList::new(fields))
}

// Returns the byte of a word that has exactly one byte, and `None` for any other word.
fn byte_in(word: &[u8]) -> Option<u8>
    ensures { result ≡ byte_in word.now }
{
    if word.len() == 1 { Some(word[0]) } else { None }
}

// Parses the words after `letter`: the bits of a task's state, and the letter of this state.
#[tactic(auto, unfolding(crate::specs::Table::state_letter_of))]
fn state_letter_of(mut words: Words) -> Option<StateLetter>
    ensures { result ≡ state_letter_of words.entry }
{
    let bits = next(&mut words)?;
    let letter = next(&mut words)?;
    ended(&mut words)?;
    let bits = read_number(bits)?;
    let letter = byte_in(letter)?;
    Some(StateLetter { bits, letter })
}

// Parses the words after `kind`: the number, the name and the fields of a kind of event.
#[tactic(auto, unfolding(crate::specs::Table::kind_of))]
fn kind_of(alloc: Global, mut words: Words) -> Result<Kind, Fault<BadRow>>
    ensures { GivesSome result (kind_of words.entry) }
{
    let number = next(&mut words).ok_or(BadRow)?;
    let name = next(&mut words).ok_or(BadRow)?;
    let number = small(number).ok_or(BadRow)? as u16;
    let name = Text::make(alloc, name)?;
    let fields = fields_of(alloc, words)?;
    Ok(Kind {
        number,
        name,
        fields,
    })
}

/// Parses the second line of a table, `page SIZE HEADER`. Returns `None` if the line has another
/// form or a size is out of range.
#[tactic(auto, unfolding(crate::specs::Table::page_of))]
pub(crate) fn page_of(line: &[u8]) -> Option<PageSize>
    ensures exact { result ≡ page_of line.now }
    ensures ranges { IfSome result (λ found. (16 ≤ found.header) × (found.header ≤ found.page)
        × (found.page ≤ 2097152)) }
{
    let mut words: Words<'_> = Parts::new(line);
    let word = next(&mut words)?;
    let page = next(&mut words)?;
    let header = next(&mut words)?;
    ended(&mut words)?;
    let page = read_number(page)?;
    let header = read_number(header)?;
    if word == b"page".as_slice() && 16 <= header && header <= page && page <= 2_097_152 {
        Some(PageSize {
            page: page as u32,
            header: header as u32,
        })
    } else {
        None
    }
}

/// Parses a line after the line `page` and before the line `end`.
#[tactic(auto, unfolding(crate::specs::Table::row_of))]
pub(crate) fn row_of(alloc: Global, line: &[u8]) -> Result<Row, Fault<BadRow>>
    ensures { GivesSome result (row_of line.now) }
{
    let mut words: Words<'_> = Parts::new(line);
    let word = next(&mut words).ok_or(BadRow)?;
    if word == b"letter".as_slice() {
        let letter = state_letter_of(words).ok_or(BadRow)?;
        Ok(Row::Letter(letter))
    } else if word == b"kind".as_slice() {
        let kind = kind_of(alloc, words)?;
        Ok(Row::Event(kind))
    } else {
        Err(Fault::Refused(BadRow))
    }
}

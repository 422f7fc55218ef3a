//! Decodes the values of an event's fields: numbers with or without a sign, the letter of a task's
//! state, and texts.
ghost use Rattle.std.specs.Prelude.{◌≡◌, ◌≤◌, ◌<◌, ◌^◌, ◌*◌, ◌-◌, ◌==◌, length, position};
ghost use Rattle.page_spec.specs.Fields.{at_most, end_of, has_fields, letter_of, located, signed_of, size_of, until_zero, value_of};
ghost use Rattle.page_events.specs.Parts.{seen_value};

use crate::bytes::{bytes_from, bytes_to, number, size, word};
use page_spec::{Field, StateLetter, Width};

/// The value of a field.
#[derive(Clone, Copy)]
pub enum FieldValue<'a> {
    /// A number that isn't negative.
    Count(u64),
    /// A negative number, represented by its absolute value.
    Minus(u64),
    /// The letter of a task's state.
    Letter(u8),
    /// The bytes of a text.
    Bytes(&'a [u8]),
}

// Returns `2^(bits - 1)` for a number with `bits` bits: signed numbers of this width are less than
// the result.
fn half_range(width: Width) -> u64
    ensures value { result ≡ 2 ^ (8 * size_of width - 1) }
{
    match width {
        Width::One => 1 << 7,
        Width::Two => 1 << 15,
        Width::Four => 1 << 31,
        Width::Eight => 1 << 63,
    }
}

// Returns the value of a signed number of this width in two's complement. `number` is the value of
// the same bits as an unsigned number.
fn signed<'a>(width: Width, number: u64) -> FieldValue<'a>
    requires { number < 2 ^ (8 * size_of width) }
    ensures { seen_value result ≡ signed_of width number }
{
    let half = half_range(width);
    if number < half {
        FieldValue::Count(number)
    } else {
        FieldValue::Minus(half - (number - half))
    }
}

// Returns the letter of a task's state: the first letter that represents a bit of `state`, or `R`
// (running) if no letter does.
fn letter(letters: &[StateLetter], state: u64) -> u8
    ensures { result ≡ letter_of letters.now state }
{
    letters
        .iter()
        .find(|row| state & row.bits != 0)
        .map_or(b'R', |row| row.letter)
}

fn zero_place(bytes: &[u8]) -> Option<usize>
    ensures { result ≡ position (λ byte. byte == 0) bytes.now }
{
    bytes.iter().position(|byte| *byte == 0)
}

// Returns the bytes before the first zero byte, or all bytes if none is zero.
fn until_zero(bytes: &[u8]) -> &[u8]
    ensures { result.now ≡ until_zero bytes.now }
{
    match zero_place(bytes) {
        Some(end) => bytes_to(bytes, end),
        None => bytes,
    }
}

// Returns the text that `word` locates in `bytes`. The lower 16 bits of `word` are the text's
// offset (bytes), and the higher 16 bits are its length (bytes). The text ends before its first
// zero byte.
fn located(word: u32, bytes: &[u8]) -> &[u8]
    ensures { result.now ≡ located word bytes.now }
{
    let rest = bytes_from(bytes, (word % 65536) as usize);
    until_zero(bytes_to(rest, (word / 65536) as usize))
}

// Returns the first `most` bytes, or all bytes if `most` is 0.
fn at_most(most: u32, bytes: &[u8]) -> &[u8]
    ensures { result.now ≡ at_most most bytes.now }
{
    if most == 0 {
        bytes
    } else {
        bytes_to(bytes, most as usize)
    }
}

// Returns the length (bytes) that a record must have to contain the field. A text may be empty, so
// only its offset counts.
fn end_of(field: Field) -> usize
    ensures { result ≡ end_of field }
{
    match field {
        Field::Unsigned { offset, width }
        | Field::Signed { offset, width }
        | Field::State { offset, width } => offset as usize + size(width),
        Field::Text { offset, .. } => offset as usize,
        Field::Located { offset } => offset as usize + 4,
    }
}

/// Returns whether the record is long enough for all fields.
pub(crate) fn has_fields(bytes: &[u8], fields: &[Field]) -> bool
    ensures { result ≡ has_fields bytes.now fields.now }
{
    fields.iter().all(|field| end_of(*field) <= bytes.len())
}

/// Returns the value of a field of a record. `bytes` are the record's bytes, and `letters` the
/// letters of task states. Requires that the record is long enough for the field.
pub fn value_of<'a>(letters: &[StateLetter], bytes: &'a [u8], field: Field) -> FieldValue<'a>
    requires { end_of field ≤ length bytes.now }
    ensures { seen_value result ≡ value_of letters.now bytes.now field }
{
    match field {
        Field::Unsigned { offset, width } => {
            FieldValue::Count(number(width, bytes_from(bytes, offset as usize)))
        }
        Field::Signed { offset, width } => {
            signed(width, number(width, bytes_from(bytes, offset as usize)))
        }
        Field::State { offset, width } => {
            let state = number(width, bytes_from(bytes, offset as usize));
            FieldValue::Letter(letter(letters, state))
        }
        Field::Text { offset, most } => {
            FieldValue::Bytes(until_zero(at_most(most, bytes_from(bytes, offset as usize))))
        }
        Field::Located { offset } => {
            FieldValue::Bytes(located(word(bytes_from(bytes, offset as usize)), bytes))
        }
    }
}

//! The syntax of argument values: parses numbers, ratios, sizes, Booleans and resources.
//!
//! The module `arguments` looks arguments up by key and fills in defaults.
ghost use Rattle.std.specs.Prelude.{◌≡◌, ◌<◌, ◌≤◌, ◌^◌, ◌*◌, ◌+◌, ◌++◌, ◌&&◌, nat_le, nat_lt, length, take, codes, if◌then◌else◌, Some, None, IfSome};
ghost use Rattle.ruleset_json.specs.Forms as form;
ghost use Rattle.ruleset_json.specs.Ranges.{IsRatio, IsSize, IsStallable};

use crate::types::Size;
use psi_base::{Parts, Res, read_digits, read_number};

/// The greatest size (bytes) that an argument may have.
const LARGEST_BYTES: u64 = 1 << 60;

/// The greatest integer part of a ratio.
const LARGEST_RATIO: u64 = 1000;

#[tactic(auto, unfolding(crate::specs::Forms::number_up_to))]
fn long_number(text: &[u8], most: u64) -> Option<u64>
    ensures value { result ≡ form.number_up_to most text.now }
    ensures range { IfSome result (λ n. n ≤ most) }
{
    match read_number(text) {
        Some(n) if n <= most => Some(n),
        _ => None,
    }
}

/// Parses a decimal number without leading zeros. Returns `None` if the number is above `most`.
pub fn number(text: &[u8], most: u32) -> Option<u32>
    ensures value { result ≡ form.number_up_to most text.now }
    ensures range { IfSome result (λ n. n ≤ most) }
{
    match long_number(text, u64::from(most)) {
        Some(n) => Some(n as u32),
        None => None,
    }
}

// Pads one to three digits with zeros at the end, to three digits. Returns `None` for any other
// number of digits.
fn padded(digits: &[u8]) -> Option<[u8; 3]>
    ensures { result
        ≡ (if nat_lt 0 (length digits.now) && nat_le (length digits.now) 3
        then Some (take 3 (digits.now ++ codes "00")) else None) }
{
    match digits {
        [tenths] => Some([*tenths, b'0', b'0']),
        [tenths, hundredths] => Some([*tenths, *hundredths, b'0']),
        [tenths, hundredths, thousandths] => Some([*tenths, *hundredths, *thousandths]),
        _ => None,
    }
}

// Parses one to three digits after a decimal point. Returns thousandths.
#[tactic(auto, unfolding(crate::specs::Forms::fraction_of), using(crate::proofs::Fractions::padded_most))]
fn fraction(digits: &[u8]) -> Option<u32>
    ensures value { result ≡ form.fraction_of digits.now }
    ensures range { IfSome result (λ n. n ≤ 999) }
{
    match read_digits(&padded(digits)?) {
        Some(n) => Some(n as u32),
        None => None,
    }
}

// Parses a number with an integer part of at most `most` and an optional fraction of one to three
// digits. Returns thousandths.
#[tactic(auto, unfolding(crate::specs::Forms::thousandths_of))]
fn thousandths(text: &[u8], most: u64) -> Option<u128>
    ensures value { result ≡ form.thousandths_of most text.now }
    ensures range { IfSome result (λ n. n ≤ most * 1000 + 999) }
{
    let mut parts: Parts<'_, b'.'> = Parts::new(text);
    let whole = u128::from(long_number(parts.next_part()?, most)?) * 1000;
    let Some(digits) = parts.next_part() else {
        return Some(whole);
    };
    if parts.next_part().is_some() {
        return None;
    }
    Some(whole + u128::from(fraction(digits)?))
}

/// Parses a ratio: an integer part of at most 1000 and an optional fraction of one to three digits.
/// Returns thousandths.
pub fn ratio(text: &[u8]) -> Option<u32>
    ensures value { result ≡ form.ratio_of text.now }
    ensures range { IfSome result IsRatio }
{
    match thousandths(text, LARGEST_RATIO) {
        Some(n) => Some(n as u32),
        None => None,
    }
}

// Returns the number of bytes of a unit with this letter (K, M, G or T, in either case). Returns
// `None` for any other byte.
#[tactic(auto, unfolding(crate::specs::Forms::unit_of))]
fn unit(letter: u8) -> Option<u128>
    ensures value { result ≡ form.unit_of letter }
    ensures range { IfSome result (λ n. n ≤ 2 ^ 40) }
{
    match letter {
        b'K' | b'k' => Some(1 << 10),
        b'M' | b'm' => Some(1 << 20),
        b'G' | b'g' => Some(1 << 30),
        b'T' | b't' => Some(1 << 40),
        _ => None,
    }
}

// Parses a number of units of `unit` bytes, with an optional fraction. Returns the size in bytes,
// rounded down. Returns `None` if the size is above 2^60 bytes.
#[tactic(auto, unfolding(crate::specs::Forms::scaled))]
fn scaled(text: &[u8], unit: u128) -> Option<u64>
    requires { unit ≤ 2 ^ 40 }
    ensures value { result ≡ form.scaled unit text.now }
    ensures range { IfSome result (λ n. n ≤ 2 ^ 60) }
{
    let bytes = thousandths(text, u64::MAX)? * unit / 1000;
    if bytes <= u128::from(LARGEST_BYTES) {
        Some(bytes as u64)
    } else {
        None
    }
}

// Parses a number of bytes, or a number with a unit letter at its end. `prefix` is the text without
// its last byte, and `last` is its last byte.
fn bytes(text: &[u8], prefix: &[u8], last: u8) -> Option<u64>
    requires { prefix.now ≡ form.prefix text.now }
    ensures value { result ≡ form.bytes_in (form.unit_of last) text.now }
    ensures range { IfSome result (λ n. n ≤ 2 ^ 60) }
{
    match unit(last) {
        Some(unit) => scaled(prefix, unit),
        None => long_number(text, LARGEST_BYTES),
    }
}

/// Parses a size: a percentage (a number from 0 to 100 and `%`), or at most 2^60 bytes. A number of
/// bytes is an integer, or a number with an optional fraction and one of the letters `K`, `M`, `G`,
/// `T` in either case, for powers of 1024.
#[tactic(auto, using(crate::proofs::Texts::empty_size), unfolding(crate::specs::Forms::size_of))]
pub fn size(text: &[u8]) -> Option<Size>
    ensures value { result ≡ form.size_of text.now }
    ensures range { IfSome result IsSize }
{
    if text.is_empty() {
        return None;
    }
    let prefix = &text[..text.len() - 1];
    let last = text[text.len() - 1];
    if last == b'%' {
        match number(prefix, 100) {
            Some(percent) => Some(Size::Percent(percent)),
            None => None,
        }
    } else {
        match bytes(text, prefix, last) {
            Some(bytes) => Some(Size::Bytes(bytes)),
            None => None,
        }
    }
}

/// Parses a Boolean. `true`, `True` and `1` are true; `false`, `False` and `0` are false.
#[tactic(auto, unfolding(crate::specs::Forms::truth_of))]
pub fn truth(text: &[u8]) -> Option<bool>
    ensures { result ≡ form.truth_of text.now }
{
    if text == b"true".as_slice() || text == b"True".as_slice() || text == b"1".as_slice() {
        Some(true)
    } else if text == b"false".as_slice()
        || text == b"False".as_slice()
        || text == b"0".as_slice()
    {
        Some(false)
    } else {
        None
    }
}

/// Parses a resource that a detector or an action may name: `io` or `memory`.
#[tactic(auto, unfolding(crate::specs::Forms::resource_of))]
pub fn resource(text: &[u8]) -> Option<Res>
    ensures value { result ≡ form.resource_of text.now }
    ensures range { IfSome result IsStallable }
{
    match Res::of(text) {
        Some(Res::Cpu) | None => None,
        stallable => stallable,
    }
}

//! Parses the parts of a marked line: the time and the processor in its head (the part before the
//! mark), and the fields in its tail (the part after the mark).
//!
//! The module `marked` finds the mark.
ghost use Rattle.std.specs.Prelude.{◌≡◌, ◌+◌, ◌-◌, ◌^◌, ◌<◌, ◌≤◌, IfSome, IsNone, Some, None, length, drop, if◌then◌else◌};
ghost use Rattle.import_spec.specs.Places.{last_place};
ghost use Rattle.import_spec.specs.Tails.{cpu_in, digit_count, field_in, how_in, is_bracketed, short_number, pid_in, time_in, time_of};
ghost use Rattle.ftrace_import.specs.Bytes.{IsLastBracket};

use crate::places::{after_last, count_before, count_digits};
use psi_base::{How, Ns, Pid, read_digits};

/// The length of a second (ns).
const SECOND: Ns = 1_000_000_000;

/// Parses a number of 1 to `most` digits. Returns `None` if there are no bytes, more than `most`
/// bytes, or a byte that isn't a digit.
fn number_in(digits: &[u8], most: usize) -> Option<u64>
    ensures value { result ≡ short_number most digits.now }
    ensures below { IfSome result (λ number. number < 10 ^ most) }
    ensures length { IfSome result (λ _. (0 < length digits.now) × (length digits.now ≤ most)) }
{
    if digits.is_empty() || digits.len() > most {
        return None;
    }
    read_digits(digits)
}

/// Returns the place value (ns) of the last digit in a fraction of a second with `9 - missing`
/// digits.
fn unit(missing: usize) -> Ns
    requires { missing ≤ 8 }
    ensures unit { result ≡ 10 ^ missing }
    ensures small { result ≤ 100000000 }
{
    match missing {
        0 => 1,
        1 => 10,
        2 => 100,
        3 => 1_000,
        4 => 10_000,
        5 => 100_000,
        6 => 1_000_000,
        7 => 10_000_000,
        8 => 100_000_000,
        _ => unreachable!(),
    }
}

/// Parses a time: 1 to 10 digits of seconds, a point, and 1 to 9 digits of the fraction. Returns
/// the time (ns), or `None` if the word isn't a time.
#[tactic(auto, unfolding(import_spec::specs::Tails::time_of))]
fn time_of(word: &[u8]) -> Option<Ns>
    ensures { result ≡ time_of word.now }
{
    let point = count_before(word, b'.');
    let seconds = number_in(&word[..point], 10)?;
    let digits = suffix(word, point);
    let fraction = number_in(digits, 9)?;
    Some(seconds * SECOND + fraction * unit(9 - digits.len()))
}

/// Returns the bytes after index `at`. Returns no bytes if `at` is the length.
fn suffix(bytes: &[u8], at: usize) -> &[u8]
    requires { at ≤ length bytes.now }
    ensures { result.now ≡ drop (at + 1) bytes.now }
{
    if at < bytes.len() {
        &bytes[at + 1..]
    } else {
        &[]
    }
}

/// Parses the time (ns) in the head of a line: the text after the last space. Returns `None` if the
/// head has no space, or if this text isn't a time.
#[tactic(auto, unfolding(import_spec::specs::Tails::time_in))]
pub(crate) fn time_in(head: &[u8]) -> Option<Ns>
    ensures { result ≡ time_in head.now }
{
    let word = after_last(head, b" ")?;
    time_of(word)
}

/// Returns the number of digits of the bracketed number at the start of the bytes, or `None` if the
/// bytes don't begin with a bracketed number. Precondition: there is at least one byte.
#[inline(always)]
#[tactic(auto, unfolding(import_spec::specs::Tails::is_bracketed))]
fn digits_in_brackets(bytes: &[u8]) -> Option<usize>
    requires { 0 < length bytes.now }
    ensures digits { result ≡
        (if is_bracketed bytes.now then Some (digit_count (drop 1 bytes.now)) else None) }
    ensures inside { IfSome result (λ count. count + 1 ≤ length bytes.now) }
{
    if !bytes.starts_with(b"[") {
        return None;
    }
    let rest = &bytes[1..];
    let count = count_digits(rest);
    if count > 0 && rest[count..].starts_with(b"]") {
        Some(count)
    } else {
        None
    }
}

/// The position of a number in brackets.
#[derive(Clone, Copy)]
struct Bracketed {
    /// The index of the number's first digit.
    start: usize,
    count: usize,
}

/// Returns the position of the last number in brackets, or `None` if there is no such number.
fn last_in_brackets(bytes: &[u8]) -> Option<Bracketed>
    ensures none { IsNone result → last_place is_bracketed bytes.now ≡ None }
    ensures some { IfSome result (λ found. IsLastBracket bytes.now found.start found.count) }
{
    let mut at = bytes.len();
    'places: while at > 0 {
        at -= 1;
        if let Some(count) = digits_in_brackets(&bytes[at..]) {
            return Some(Bracketed {
                start: at + 1,
                count,
            });
        }
    }
    None
}

/// Parses the processor in the head of a line: the last number in brackets. Returns `None` if there
/// is no such number, or if it has more than three digits.
#[tactic(auto, unfolding(import_spec::specs::Tails::cpu_in))]
pub(crate) fn cpu_in(head: &[u8]) -> Option<u32>
    ensures { result ≡ cpu_in head.now }
{
    let digits = last_in_brackets(head)?;
    let cpu = number_in(&head[digits.start..digits.start + digits.count], 3)?;
    Some(cpu as u32)
}

/// Parses the field after the last occurrence of `key` in `part`, a tail or a part of a tail. The
/// field ends at the next space. Returns `None` if `key` doesn't occur, or if the field isn't a
/// number below 2^32 with at most 10 digits.
#[tactic(auto, unfolding(import_spec::specs::Tails::field_in))]
pub(crate) fn field_in(part: &[u8], key: &[u8]) -> Option<u32>
    requires some { 0 < length key.now }
    ensures { result ≡ field_in key.now part.now }
{
    let rest = after_last(part, key)?;
    let number = number_in(&rest[..count_before(rest, b' ')], 10)?;
    if number <= u32::MAX as u64 {
        Some(number as u32)
    } else {
        None
    }
}

/// Returns the pid `number`, or `None` for 0, the pid of the idle task.
pub(crate) fn pid_in(number: u32) -> Option<Pid>
    ensures { result ≡ pid_in number }
{
    if number == 0 { None } else { Some(Pid(number)) }
}

/// Returns the way in which a task leaves its processor. The first letter of `state`, the task's
/// state, determines it. Returns `None` if the state is empty.
#[tactic(auto, unfolding(import_spec::specs::Tails::how_in))]
pub(crate) fn how_in(state: &[u8]) -> Option<How>
    ensures { result ≡ how_in state.now }
{
    if state.is_empty() {
        return None;
    }
    Some(match state[0] {
        b'R' => How::Preempt,
        b'D' => How::IoWait,
        b'X' | b'Z' => How::Exit,
        _ => How::Sleep,
    })
}

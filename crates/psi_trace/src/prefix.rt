//! Parses the lines with the most frequent verbs (`switch`, `wake`, `stall`, `unstall` and
//! `migrate`) in the buffer, and passes their events to a player (a consumer of events).
//!
//! Each line is parsed in one pass from the left, up to its newline. If the bytes don't begin with
//! such a line, the result is `None`, without a cause. `read_event` parses any line, and reports
//! the cause for which a line is malformed.
ghost use Rattle.std.specs.Prelude.{◌≡◌, ◌+◌, ◌<◌, ◌≤◌, ◌^◌, ◌∷◌, ◌++◌, ◌↔◌, IfNone, IfSome, IsTrue, codes, decimal, false, length};
ghost use Rattle.psi_spec.specs.Fields.{how_word, next_word, IsPid};
ghost use Rattle.psi_spec.specs.Refusal.{is_exit};
ghost use Rattle.psi_trace.specs.Prefix.{AreDigits, AreFour, BeginsWithTaskAct, IsDigit, TakesPrefix};

use psi_base::{Cause, Cpu, Fault, How, Ns, Pid};
use trace_player::{Player, TaskAct};

/// The maximum number of digits that are parsed for a number. Every number of 19 digits fits in 64
/// bits.
const MOST_DIGITS: usize = 19;

/// The result of parsing a line at the start of buffered bytes, and of passing its event to a
/// player.
#[derive(Clone, Copy)]
pub struct PlayedLine {
    /// The length (bytes) of the line without its newline.
    pub count: usize,
    /// The result that the player returned for the event.
    pub answer: Result<(), Fault<Cause>>,
}

// Returns the value of the four digits at index `place`, or `None` if one of the four bytes isn't a
// digit.
#[inline(always)]
fn four_at(bytes: &[u8], place: usize) -> Option<u64>
    requires { place + 4 ≤ length bytes.now }
    ensures { IfSome result (AreFour bytes.now place) }
{
    let first = bytes[place];
    let second = bytes[place + 1];
    let third = bytes[place + 2];
    let fourth = bytes[place + 3];
    // Combining the tests with `&` takes one branch, while `&&` would take four.
    if !(is_digit(first) & is_digit(second) & is_digit(third) & is_digit(fourth)) {
        return None;
    }
    let upper = value_of(first) * 10 + value_of(second);
    let lower = value_of(third) * 10 + value_of(fourth);
    Some(upper * 100 + lower)
}

#[inline(always)]
fn is_digit(byte: u8) -> bool
    ensures { IsTrue result ↔ (48 ≤ byte) × (byte ≤ 57) }
{
    (b'0' <= byte) & (byte <= b'9')
}

// Returns the value of a digit.
#[inline(always)]
fn value_of(byte: u8) -> u64
    requires low { 48 ≤ byte }
    requires high { byte ≤ 57 }
    ensures { IsDigit byte result }
{
    u64::from(byte - b'0')
}

// Returns the value of a digit, or `None` for any other byte.
#[inline(always)]
fn digit(byte: u8) -> Option<u64>
    ensures { IfSome result (IsDigit byte) }
{
    if !is_digit(byte) {
        return None;
    }
    Some(value_of(byte))
}

// Parses the digits at the start of the bytes in groups of four, up to 16 digits. Stops at the
// first group that isn't four digits. Returns the value and the number of the parsed digits.
#[inline(always)]
fn fours_before(bytes: &[u8]) -> (u64, usize)
    ensures are { AreDigits bytes.now result.0 result.1 }
    ensures below { result.0 < 10 ^ result.1 }
    ensures few { result.1 ≤ 19 }
{
    let mut number: u64 = 0;
    let mut count = 0;
    let most = bytes.len().min(MOST_DIGITS);
    'fours: while count + 4 <= most {
        let Some(four) = four_at(bytes, count) else {
            break 'fours;
        };
        number = number * 10_000 + four;
        count += 4;
    }
    (number, count)
}

// Continues to parse a number whose first `place` digits have the value `written`. Returns the
// value and the number of all digits, at most 19.
#[inline(always)]
fn continue_digits(bytes: &[u8], written: u64, place: usize) -> (u64, usize)
    requires are { AreDigits bytes.now written place }
    requires below { written < 10 ^ place }
    requires few { place ≤ 19 }
    ensures { AreDigits bytes.now result.0 result.1 }
{
    let mut number = written;
    let mut count = place;
    let most = bytes.len().min(MOST_DIGITS);
    'digits: while count < most {
        let Some(next) = digit(bytes[count]) else {
            break 'digits;
        };
        number = number * 10 + next;
        count += 1;
    }
    (number, count)
}

// Checks the end of a number that has `count` digits and the value `number`. Returns `number` and
// the bytes after the byte `end`. Returns `None` if the number has no digits or a leading zero, or
// if `end` doesn't follow it.
#[inline(always)]
fn ended_by(bytes: &[u8], number: u64, count: usize, end: u8) -> Option<(u64, &[u8])>
    requires { AreDigits bytes.now number count }
    ensures { IfSome result (λ found. bytes.now ≡ decimal found.0 ++ end ∷ found.1.now) }
{
    if count >= bytes.len() || bytes[count] != end || count == 0 {
        return None;
    }
    if count > 1 && bytes[0] == b'0' {
        return None;
    }
    Some((number, &bytes[count + 1..]))
}

// Parses a number of at most 19 digits that is followed by the byte `end`. Returns the number and
// the bytes after `end`, or `None` if the bytes don't begin like this.
#[inline(always)]
fn number_before(bytes: &[u8], end: u8) -> Option<(u64, &[u8])>
    ensures { IfSome result (λ found. bytes.now ≡ decimal found.0 ++ end ∷ found.1.now) }
{
    let (number, count) = continue_digits(bytes, 0, 0);
    ended_by(bytes, number, count, end)
}

// Parses a time (ns) of at most 19 digits that is followed by a space. Returns the time and the
// bytes after the space, or `None`. The digits are parsed in groups of four, because most times
// have many digits.
#[inline(always)]
fn time_before(bytes: &[u8]) -> Option<(Ns, &[u8])>
    ensures { IfSome result (λ found. bytes.now ≡ decimal found.0 ++ 32 ∷ found.1.now) }
{
    let (fours, place) = fours_before(bytes);
    let (number, count) = continue_digits(bytes, fours, place);
    ended_by(bytes, number, count, b' ')
}

// Parses a number below 2^32 that is followed by the byte `end`. Returns the number and the bytes
// after `end`, or `None`.
#[inline(always)]
fn small_before(bytes: &[u8], end: u8) -> Option<(u32, &[u8])>
    ensures { IfSome result (λ found. bytes.now ≡ decimal found.0 ++ end ∷ found.1.now) }
{
    match number_before(bytes, end) {
        Some((number, rest)) if number <= u32::MAX as u64 => Some((number as u32, rest)),
        _ => None,
    }
}

// Parses a pid (at least 1) that is followed by the byte `end`. Returns the pid and the bytes after
// `end`, or `None`.
#[inline(always)]
fn pid_before(bytes: &[u8], end: u8) -> Option<(Pid, &[u8])>
    ensures { IfSome result (λ found. IsPid found.0
        × (bytes.now ≡ decimal found.0.0 ++ end ∷ found.1.now)) }
{
    match small_before(bytes, end) {
        Some((number, rest)) if number > 0 => Some((Pid(number), rest)),
        _ => None,
    }
}

// Parses the number of a processor that is followed by the byte `end`. Returns the number and the
// bytes after `end`, or `None`.
#[inline(always)]
fn cpu_before(bytes: &[u8], end: u8) -> Option<(Cpu, &[u8])>
    ensures { IfSome result (λ found. (found.0.0 < 2 ^ 32)
        × (bytes.now ≡ decimal found.0.0 ++ end ∷ found.1.now)) }
{
    let (number, rest) = small_before(bytes, end)?;
    Some((Cpu(number), rest))
}

// Parses the next task of a switch, followed by the byte `end`. The task is a pid, or 0 for no
// task. Returns the task and the bytes after `end`.
#[inline(always)]
fn next_before(bytes: &[u8], end: u8) -> Option<(Option<Pid>, &[u8])>
    ensures { IfSome result (λ found. IfSome found.0 IsPid
        × (bytes.now ≡ next_word found.0 ++ end ∷ found.1.now)) }
{
    let (number, rest) = small_before(bytes, end)?;
    if number == 0 {
        return Some((None, rest));
    }
    Some((Some(Pid(number)), rest))
}

// Parses the way in which the running task leaves (other than `exit`), followed by a newline.
// Returns the way and the bytes after the newline, or `None` if the bytes don't begin like this.
#[inline(always)]
fn how_before_newline(bytes: &[u8]) -> Option<(How, &[u8])>
    ensures word { IfSome result (λ found. bytes.now ≡ how_word found.0 ++ 10 ∷ found.1.now) }
    ensures stays { IfSome result (λ found. is_exit found.0 ≡ false) }
{
    if let Some(rest) = bytes.strip_prefix(b"sleep\n".as_slice()) {
        return Some((How::Sleep, rest));
    }
    if let Some(rest) = bytes.strip_prefix(b"iowait\n".as_slice()) {
        return Some((How::IoWait, rest));
    }
    if let Some(rest) = bytes.strip_prefix(b"preempt\n".as_slice()) {
        return Some((How::Preempt, rest));
    }
    if let Some(rest) = bytes.strip_prefix(b"idle\n".as_slice()) {
        return Some((How::Idle, rest));
    }
    None
}

// Each of the next five functions parses the fields of one verb. It returns the task act (an event
// without its time that concerns only tasks) and the bytes after the newline. It returns `None` if
// the bytes don't begin with the verb's fields and a newline, or if a switch is an exit.

#[inline(always)]
fn switch_in(fields: &[u8]) -> Option<(TaskAct, &[u8])>
    ensures { IfSome result (λ found. BeginsWithTaskAct
        (codes "switch " ++ fields.now) found.0 found.1.now) }
{
    let (cpu, rest) = cpu_before(fields, b' ')?;
    let (next, rest) = next_before(rest, b' ')?;
    let (how, rest) = how_before_newline(rest)?;
    Some((TaskAct::Switch { cpu, next, how }, rest))
}

#[inline(always)]
fn wake_in(fields: &[u8]) -> Option<(TaskAct, &[u8])>
    ensures { IfSome result (λ found. BeginsWithTaskAct
        (codes "wake " ++ fields.now) found.0 found.1.now) }
{
    let (pid, rest) = pid_before(fields, b' ')?;
    let (cpu, rest) = cpu_before(rest, b'\n')?;
    Some((TaskAct::Wake { pid, cpu }, rest))
}

#[inline(always)]
fn stall_in(fields: &[u8]) -> Option<(TaskAct, &[u8])>
    ensures { IfSome result (λ found. BeginsWithTaskAct
        (codes "stall " ++ fields.now) found.0 found.1.now) }
{
    let (pid, rest) = pid_before(fields, b'\n')?;
    Some((TaskAct::Stall { pid }, rest))
}

#[inline(always)]
fn unstall_in(fields: &[u8]) -> Option<(TaskAct, &[u8])>
    ensures { IfSome result (λ found. BeginsWithTaskAct
        (codes "unstall " ++ fields.now) found.0 found.1.now) }
{
    let (pid, rest) = pid_before(fields, b'\n')?;
    Some((TaskAct::Unstall { pid }, rest))
}

#[inline(always)]
fn migrate_in(fields: &[u8]) -> Option<(TaskAct, &[u8])>
    ensures { IfSome result (λ found. BeginsWithTaskAct
        (codes "migrate " ++ fields.now) found.0 found.1.now) }
{
    let (pid, rest) = pid_before(fields, b' ')?;
    let (cpu, rest) = cpu_before(rest, b'\n')?;
    Some((TaskAct::Migrate { pid, cpu }, rest))
}

// Parses the verb and the fields of a task act (an event without its time that concerns only
// tasks). Returns the task act and the bytes after the newline. Returns `None` if the bytes don't
// begin with one of the five verbs and its fields, or if a switch is an exit.
#[inline(always)]
fn task_act_in(bytes: &[u8]) -> Option<(TaskAct, &[u8])>
    ensures { IfSome result (λ found. BeginsWithTaskAct bytes.now found.0 found.1.now) }
{
    if let Some(fields) = bytes.strip_prefix(b"switch ".as_slice()) {
        return switch_in(fields);
    }
    if let Some(fields) = bytes.strip_prefix(b"wake ".as_slice()) {
        return wake_in(fields);
    }
    if let Some(fields) = bytes.strip_prefix(b"stall ".as_slice()) {
        return stall_in(fields);
    }
    if let Some(fields) = bytes.strip_prefix(b"unstall ".as_slice()) {
        return unstall_in(fields);
    }
    if let Some(fields) = bytes.strip_prefix(b"migrate ".as_slice()) {
        return migrate_in(fields);
    }
    None
}

/// Parses the line at the start of `bytes`, and passes its event to the player. The line must be a
/// `wake`, `stall`, `unstall` or `migrate`, or a `switch` that isn't an exit, and the event is the
/// same as the result of [`read_event`](crate::read_event). For any other line, and for a line with
/// a time of 20 digits, returns `None` and doesn't call the player.
// All verbs share one call of the player, so that the player's code is inlined once.
#[inline(always)]
pub fn take_prefix<P: Player>(bytes: &[u8], player: &mut P) -> Option<PlayedLine>
    ensures prefix { IfSome result
        (TakesPrefix (P.Played player.old) (P.Played player.new) bytes.now) }
    ensures same { IfNone result (player.new ≡ player.old) }
{
    let (at, rest) = time_before(bytes)?;
    let (act, rest) = task_act_in(rest)?;
    let count = bytes.len() - rest.len() - 1;
    let answer = player.take_task(at, act);
    Some(PlayedLine { count, answer })
}

//! Finds the mark of a line and parses the content of marked lines. The mark is the text that shows
//! the kind of a line, such as `: sched_switch: `.
//!
//! The head of a line is the part before the mark, and the tail is the part after it. The module
//! `deeds` computes what a line does to the tasks.
ghost use Rattle.std.specs.Prelude.{◌≡◌, ◌≤◌, IfSome, IsNone, None, length, option_map};
ghost use Rattle.import_spec.specs.Places.{first_place};
ghost use Rattle.import_spec.specs.Marked.{begins_marked, if_formed, mark_of, migration_in, read_line, seen_in, sighting_of, switch_in, wakeup_in};
ghost use Rattle.ftrace_import.specs.Bytes.{IsFirstMark, mark_parts, parted};

use crate::fields::{cpu_in, field_in, how_in, pid_in, time_in};
use crate::places::{after_last, last_text};
use import_spec::{ImportCause, LineKind, Seen, Sighting};
use memchr::memchr;
use psi_base::Cpu;

/// The kind and the length of a mark. A mark is the text that shows the kind of a line.
#[derive(Clone, Copy)]
struct ShortMark {
    /// The kind of line that has this mark.
    kind: LineKind,
    /// The length (bytes) of the mark's text.
    size: usize,
}

fn mark(kind: LineKind, size: usize) -> ShortMark
    ensures { result ≡ record { kind = kind; size = size } }
{
    ShortMark { kind, size }
}

/// Returns the mark at the start of the bytes, or `None` if the bytes don't begin with a mark.
#[tactic(auto, unfolding(import_spec::specs::Marked::mark_of))]
fn mark_of(bytes: &[u8]) -> Option<ShortMark>
    ensures mark { result ≡ option_map mark_parts (mark_of bytes.now) }
    ensures inside { IfSome result (λ mark. mark.size ≤ length bytes.now) }
{
    if bytes.starts_with(b": sched_switch: ") {
        Some(mark(LineKind::Switch, 16))
    } else if bytes.starts_with(b": sched_wakeup: ") {
        Some(mark(LineKind::Wakeup, 16))
    } else if bytes.starts_with(b": sched_wakeup_new: ") {
        Some(mark(LineKind::Wakeup, 20))
    } else if bytes.starts_with(b": sched_migrate_task: ") {
        Some(mark(LineKind::Migration, 22))
    } else {
        None
    }
}

/// A mark in a line, and its index in the line.
#[derive(Clone, Copy)]
struct Found {
    at: usize,
    mark: ShortMark,
}

/// Finds the leftmost mark of a line, or returns `None`. The search jumps from colon to colon,
/// because every mark begins with a colon.
fn first_mark(line: &[u8]) -> Option<Found>
    ensures none { IsNone result → first_place begins_marked line.now ≡ None }
    ensures some { IfSome result (λ found. IsFirstMark line.now found.at found.mark) }
{
    let mut from = 0;
    'places: while let Some(next) = memchr(b':', &line[from..]) {
        let at = from + next;
        if let Some(mark) = mark_of(&line[at..]) {
            return Some(Found { at, mark });
        }
        from = at + 1;
    }
    None
}

/// Parses the tail of a switch on processor `cpu`. Returns `None` if the tail is malformed.
#[tactic(auto, unfolding(import_spec::specs::Marked::switch_in))]
fn switch_in(cpu: u32, tail: &[u8]) -> Option<Seen>
    ensures { result ≡ switch_in cpu tail.now }
{
    let arrow = last_text(tail, b" ==> ")?;
    let left = &tail[..arrow];
    let previous = field_in(left, b" prev_pid=")?;
    let state = after_last(left, b" prev_state=")?;
    let how = how_in(state)?;
    let next = field_in(&tail[arrow + 5..], b" next_pid=")?;
    Some(Seen::Switch {
        cpu: Cpu(cpu),
        previous: pid_in(previous),
        next: pid_in(next),
        how,
    })
}

/// Parses the tail of a wakeup. Returns `None` if the tail is malformed or names the pid 0.
#[tactic(auto, unfolding(import_spec::specs::Marked::wakeup_in))]
fn wakeup_in(tail: &[u8]) -> Option<Seen>
    ensures { result ≡ wakeup_in tail.now }
{
    let number = field_in(tail, b" pid=")?;
    let pid = pid_in(number)?;
    let target = field_in(tail, b" target_cpu=")?;
    Some(Seen::Wakeup {
        pid,
        cpu: Cpu(target),
    })
}

/// Parses the tail of a migration. Returns `None` if the tail is malformed or names the pid 0.
#[tactic(auto, unfolding(import_spec::specs::Marked::migration_in))]
fn migration_in(tail: &[u8]) -> Option<Seen>
    ensures { result ≡ migration_in tail.now }
{
    let number = field_in(tail, b" pid=")?;
    let pid = pid_in(number)?;
    let target = field_in(tail, b" dest_cpu=")?;
    Some(Seen::Migration {
        pid,
        cpu: Cpu(target),
    })
}

/// Parses the tail of a line of this kind on processor `cpu`. Returns `None` if the tail is
/// malformed.
fn seen_in(kind: LineKind, cpu: u32, tail: &[u8]) -> Option<Seen>
    ensures { result ≡ seen_in kind cpu tail.now }
{
    match kind {
        LineKind::Switch => switch_in(cpu, tail),
        LineKind::Wakeup => wakeup_in(tail),
        LineKind::Migration => migration_in(tail),
    }
}

/// Parses the time and the content of a marked line, from its head and tail. Returns `None` if the
/// line is malformed.
#[tactic(auto, unfolding(import_spec::specs::Marked::sighting_of))]
fn sighting_of(kind: LineKind, head: &[u8], tail: &[u8]) -> Option<Sighting>
    ensures { result ≡ sighting_of (record { kind = kind; head = head.now; tail = tail.now }) }
{
    let at = time_in(head)?;
    let cpu = cpu_in(head)?;
    let seen = seen_in(kind, cpu, tail)?;
    Some(Sighting { at, seen })
}

/// Parses a line with this mark. Fails with `BadLine` if the line is malformed.
fn read_marked(line: &[u8], found: Found) -> Result<Option<Sighting>, ImportCause>
    requires { IsFirstMark line.now found.at found.mark }
    ensures { result ≡ if_formed (sighting_of (parted line.now found.at found.mark)) }
{
    let tail = &line[found.at + found.mark.size..];
    match sighting_of(found.mark.kind, &line[..found.at], tail) {
        Some(sighting) => Ok(Some(sighting)),
        None => Err(ImportCause::BadLine),
    }
}

/// Parses the time and the content of a line. Returns `None` if the line begins with `#` or has no
/// mark. Fails with `BadLine` if any other line is malformed.
pub(crate) fn read_line(line: &[u8]) -> Result<Option<Sighting>, ImportCause>
    ensures { result ≡ read_line line.now }
{
    if line.starts_with(b"#") {
        return Ok(None);
    }
    match first_mark(line) {
        Some(found) => read_marked(line, found),
        None => Ok(None),
    }
}

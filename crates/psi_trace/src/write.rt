//! Writes headers and events as lines of a trace. Each line is built on the stack and then appended
//! to a buffer in memory. The module writes no files.
ghost use Rattle.std.specs.Prelude.{◌≡◌, ◌≤◌, ◌<◌, ◌+◌, ◌++◌, ◌∷◌, [], true, false, OnOk, OnErr, codes, decimal, length};
ghost use Rattle.std.specs.Prelude.{vec_capacity, vec_len};
ghost use Rattle.psi_spec.specs.Fields as fields;
ghost use Rattle.psi_spec.specs.Fields.{word};
ghost use Rattle.psi_spec.specs.Grammar.{Fits, act_words, header, spelling};
ghost use Rattle.psi_trace.specs.Writes.{is_short, spaced};

use crate::line::{LongLine, ShortLine};
use crate::word::{put_account, put_number, put_numbers, put_word};
use psi_base::{Act, Cpu, Event, How, Level, NoMemory, Path, Pid, Preference, Res};

/// Whether an event has no path and isn't `host` (with its three long numbers), so that its line
/// fits in a `ShortLine`.
fn is_short(act: &Act) -> bool
    ensures { result ≡ is_short act.now }
{
    matches!(
        act,
        Act::Wake { .. }
            | Act::Switch { .. }
            | Act::Stall { .. }
            | Act::Unstall { .. }
            | Act::Migrate { .. }
            | Act::Irq { .. }
            | Act::End
    )
}

/// Writes the words of an event with a short line (`is_short`) into an empty line, each after a
/// space. The time isn't written.
#[tactic(auto, using(crate::proofs::InPieces::lines))]
fn put_short_act(line: &mut ShortLine, act: &Act)
    requires short { is_short act.now ≡ true }
    requires empty { length line.old ≡ 0 }
    ensures bytes { line.new ≡ spaced (act_words act.now) ++ line.old }
    ensures room { length line.new ≤ 60 }
{
    match act {
        Act::Wake { pid, cpu } => put_task_on(line, b" wake ", *pid, *cpu),
        Act::Switch { cpu, next, how } => put_switch(line, *cpu, *next, *how),
        Act::Stall { pid } => put_task(line, b" stall ", *pid),
        Act::Unstall { pid } => put_task(line, b" unstall ", *pid),
        Act::Migrate { pid, cpu } => put_task_on(line, b" migrate ", *pid, *cpu),
        Act::Irq { cpu, ns } => put_irq(line, *cpu, *ns),
        Act::End => line.text(b" end"),
        _ => unreachable!(),
    }
}

/// Writes the words of an event without a short line (`is_short`) into an empty line, each after a
/// space. The time isn't written.
#[tactic(auto, using(crate::proofs::InPieces::lines))]
fn put_long_act(line: &mut LongLine, act: &Act)
    requires long { is_short act.now ≡ false }
    requires empty { length line.old ≡ 0 }
    ensures bytes { line.new ≡ spaced (act_words act.now) ++ line.old }
    ensures room { length line.new ≤ 330 }
{
    match act {
        Act::Group { path } => put_group(line, b" group ", path),
        Act::Remove { path } => put_group(line, b" rmgroup ", path),
        Act::Prefer { path, preference } => put_prefer(line, path, *preference),
        Act::Fork { pid, path, cpu } => put_fork(line, *pid, path, *cpu),
        Act::Move { pid, path } => put_move(line, *pid, path),
        Act::Mem {
            path,
            current,
            swap,
            scan,
        } => put_memory(line, path, *current, *swap, *scan),
        Act::Host {
            mem_total,
            swap_total,
            swap_free,
        } => put_host(line, *mem_total, *swap_total, *swap_free),
        Act::Trigger {
            path,
            res,
            level,
            threshold_us,
            window_us,
        } => put_trigger(line, path, *res, *level, *threshold_us, *window_us),
        Act::Pressure { path, on } => put_pressure(line, path, *on),
        _ => unreachable!(),
    }
}

/// Adds a verb and a group's path at the start of the line. `verb` includes the spaces before and
/// after the verb.
#[tactic(auto, using(crate::proofs::InPieces::lines))]
fn put_group(line: &mut LongLine, verb: &[u8], path: &Path)
    requires room { length line.old ≤ 63 }
    requires short { length verb.now ≤ 10 }
    ensures bytes { line.new ≡ verb.now ++ (path.now ++ line.old) }
    ensures room { length line.new ≤ 330 }
{
    line.text(path.bytes());
    line.text(verb);
}

#[tactic(auto, using(crate::proofs::InPieces::lines))]
fn put_prefer(line: &mut LongLine, path: &Path, preference: Preference)
    requires { length line.old ≡ 0 }
    ensures bytes { line.new
        ≡ spaced (codes "prefer" ∷ path.now ∷ fields.preference_word preference ∷ []) ++ line.old }
    ensures room { length line.new ≤ 330 }
{
    put_word(line, preference.word());
    put_group(line, b" prefer ", path);
}

#[tactic(auto, using(crate::proofs::InPieces::lines))]
fn put_fork(line: &mut LongLine, pid: Pid, path: &Path, cpu: Cpu)
    requires { length line.old ≡ 0 }
    ensures bytes { line.new
        ≡ spaced (codes "fork" ∷ decimal pid.0 ∷ path.now ∷ decimal cpu.0 ∷ []) ++ line.old }
    ensures room { length line.new ≤ 330 }
{
    line.number(u64::from(cpu.0));
    line.text(b" ");
    line.text(path.bytes());
    line.text(b" ");
    line.number(u64::from(pid.0));
    line.text(b" fork ");
}

#[tactic(auto, using(crate::proofs::InPieces::lines))]
fn put_move(line: &mut LongLine, pid: Pid, path: &Path)
    requires { length line.old ≡ 0 }
    ensures bytes { line.new
        ≡ spaced (codes "move" ∷ decimal pid.0 ∷ path.now ∷ []) ++ line.old }
    ensures room { length line.new ≤ 330 }
{
    line.text(path.bytes());
    line.text(b" ");
    line.number(u64::from(pid.0));
    line.text(b" move ");
}

#[tactic(auto, using(crate::proofs::InPieces::lines))]
fn put_memory(line: &mut LongLine, path: &Path, current: u64, swap: u64, scan: u64)
    requires { length line.old ≡ 0 }
    ensures bytes { line.new
        ≡ spaced (codes "mem" ∷ path.now ∷ decimal current ∷ decimal swap ∷ decimal scan ∷ [])
        ++ line.old }
    ensures room { length line.new ≤ 330 }
{
    put_numbers(line, current, swap, scan);
    put_group(line, b" mem ", path);
}

#[tactic(auto, using(crate::proofs::InPieces::lines))]
fn put_host(line: &mut LongLine, mem_total: u64, swap_total: u64, swap_free: u64)
    requires { length line.old ≡ 0 }
    ensures bytes { line.new
        ≡ spaced (codes "host" ∷ decimal mem_total ∷ decimal swap_total ∷ decimal swap_free ∷ [])
        ++ line.old }
    ensures room { length line.new ≤ 330 }
{
    put_numbers(line, mem_total, swap_total, swap_free);
    line.text(b" host");
}

#[tactic(auto, using(crate::proofs::InPieces::lines))]
fn put_trigger(
    line: &mut LongLine,
    path: &Path,
    res: Res,
    level: Level,
    threshold_us: u64,
    window_us: u64,
)
    requires { length line.old ≡ 0 }
    ensures bytes { line.new
        ≡ spaced (codes "trigger" ∷ path.now ∷ fields.resource_word res ∷ fields.level_word level
        ∷ decimal threshold_us ∷ decimal window_us ∷ [])
        ++ line.old }
    ensures room { length line.new ≤ 330 }
{
    put_number(line, window_us);
    put_number(line, threshold_us);
    put_word(line, level.word());
    put_word(line, res.word());
    put_group(line, b" trigger ", path);
}

#[tactic(auto, using(crate::proofs::InPieces::lines))]
fn put_pressure(line: &mut LongLine, path: &Path, on: bool)
    requires { length line.old ≡ 0 }
    ensures bytes { line.new
        ≡ spaced (codes "pressure" ∷ path.now ∷ fields.account_word on ∷ []) ++ line.old }
    ensures room { length line.new ≤ 330 }
{
    put_account(line, on);
    put_group(line, b" pressure ", path);
}

#[tactic(auto, using(crate::proofs::InPieces::lines))]
fn put_switch(line: &mut ShortLine, cpu: Cpu, next: Option<Pid>, how: How)
    requires { length line.old ≡ 0 }
    ensures bytes { line.new
        ≡ spaced (codes "switch" ∷ decimal cpu.0 ∷ fields.next_word next ∷ fields.how_word how ∷ [])
        ++ line.old }
    ensures room { length line.new ≤ 60 }
{
    put_word(line, how.word());
    match next {
        Some(pid) => line.number(u64::from(pid.0)),
        None => line.text(b"0"),
    }
    line.text(b" ");
    line.number(u64::from(cpu.0));
    line.text(b" switch ");
}

#[tactic(auto, using(crate::proofs::InPieces::lines))]
fn put_irq(line: &mut ShortLine, cpu: Cpu, ns: u64)
    requires { length line.old ≡ 0 }
    ensures bytes { line.new
        ≡ spaced (codes "irq" ∷ decimal cpu.0 ∷ decimal ns ∷ []) ++ line.old }
    ensures room { length line.new ≤ 60 }
{
    line.number(ns);
    line.text(b" ");
    line.number(u64::from(cpu.0));
    line.text(b" irq ");
}

/// Adds a verb and a task at the start of the line. `verb` includes the spaces before and after the
/// verb.
#[inline(always)]
#[tactic(auto, using(crate::proofs::InPieces::lines))]
fn put_task(line: &mut ShortLine, verb: &[u8], pid: Pid)
    requires room { length line.old ≤ 21 }
    requires short { length verb.now ≤ 10 }
    ensures bytes { line.new ≡ verb.now ++ (decimal pid.0 ++ line.old) }
    ensures room { length line.new ≤ 60 }
{
    line.number(u64::from(pid.0));
    line.text(verb);
}

/// Adds a verb, a task and a processor at the start of the line. `verb` includes the spaces before
/// and after the verb.
#[inline(always)]
#[tactic(auto, using(crate::proofs::InPieces::lines))]
fn put_task_on(line: &mut ShortLine, verb: &[u8], pid: Pid, cpu: Cpu)
    requires room { length line.old ≡ 0 }
    requires short { length verb.now ≤ 10 }
    ensures bytes { line.new
        ≡ verb.now ++ (decimal pid.0 ++ 32 ∷ decimal cpu.0 ++ line.old) }
    ensures room { length line.new ≤ 60 }
{
    line.number(u64::from(cpu.0));
    line.text(b" ");
    put_task(line, verb, pid);
}

/// Writes an event with a short line (`is_short`) into an empty line.
#[tactic(auto, using(crate::proofs::InPieces::lines))]
fn put_short(line: &mut ShortLine, event: &Event)
    requires short { is_short event.now.act ≡ true }
    requires empty { line.old ≡ [] }
    ensures { line.new ≡ spelling event.now }
{
    put_short_act(line, &event.act);
    line.number(event.at);
}

/// Writes an event without a short line (`is_short`) into an empty line.
#[tactic(auto, using(crate::proofs::InPieces::lines))]
fn put_long(line: &mut LongLine, event: &Event)
    requires long { is_short event.now.act ≡ false }
    requires empty { line.old ≡ [] }
    ensures { line.new ≡ spelling event.now }
{
    put_long_act(line, &event.act);
    line.number(event.at);
}

/// Writes the header of version 1 for `cpus` processors into an empty line.
#[tactic(auto, using(crate::proofs::InPieces::lines))]
fn put_header(line: &mut ShortLine, cpus: u32)
    requires { line.old ≡ [] }
    ensures { line.new ≡ header 1 cpus }
{
    line.number(u64::from(cpus));
    line.text(b"psitrace 1 cpus=");
}

/// Appends bytes to a buffer. If the call fails with `NoMemory`, the buffer is unchanged, and its
/// capacity was too small for the bytes.
fn append(bytes: &[u8], to: &mut Vec<u8>) -> Result<(), NoMemory>
    ensures written { OnOk result (to.new.items ≡ to.old.items ++ bytes.now) }
    ensures unchanged { OnErr result (to.new.items ≡ to.old.items) }
    ensures full { OnErr result (vec_capacity to.old < vec_len to.old + length bytes.now) }
    ensures capacity { vec_capacity to.old ≤ vec_capacity to.new }
{
    to.extend_from_slice(bytes)?;
    Ok(())
}

/// Appends the line of an event that has no short line (`is_short`). The function isn't inlined,
/// because a function with a `LongLine` on its stack clears the `LongLine` at each call.
#[inline(never)]
fn write_long(event: &Event, to: &mut Vec<u8>) -> Result<(), NoMemory>
    requires { is_short event.now.act ≡ false }
    ensures written { OnOk result (to.new.items ≡ to.old.items ++ spelling event.now) }
    ensures unchanged { OnErr result (to.new.items ≡ to.old.items) }
    ensures full { OnErr result
        (vec_capacity to.old < vec_len to.old + length (spelling event.now)) }
    ensures capacity { vec_capacity to.old ≤ vec_capacity to.new }
{
    let mut line = LongLine::new();
    put_long(&mut line, event);
    append(line.bytes(), to)
}

/// Appends the header of version 1 for `cpus` processors to a buffer, without a newline. If the
/// call fails with `NoMemory`, the buffer is unchanged, and its capacity was too small for the
/// header.
pub fn write_header(cpus: u32, to: &mut Vec<u8>) -> Result<(), NoMemory>
    ensures written { OnOk result (to.new.items ≡ to.old.items ++ header 1 cpus) }
    ensures unchanged { OnErr result (to.new.items ≡ to.old.items) }
    ensures full { OnErr result
        (vec_capacity to.old < vec_len to.old + length (header 1 cpus)) }
    ensures capacity { vec_capacity to.old ≤ vec_capacity to.new }
{
    let mut line = ShortLine::new();
    put_header(&mut line, cpus);
    append(line.bytes(), to)
}

/// Appends the line of an event to a buffer, without a newline. If the call fails with `NoMemory`,
/// the buffer is unchanged, and its capacity was too small for the line. Precondition: the event's
/// values are in the ranges of the trace format (times below 2^64 ns, pids of at least 1, sizes and
/// quantities of at most 2^60).
pub fn write_event(event: &Event, to: &mut Vec<u8>) -> Result<(), NoMemory>
    requires { Fits event.now }
    ensures written { OnOk result (to.new.items ≡ to.old.items ++ spelling event.now) }
    ensures unchanged { OnErr result (to.new.items ≡ to.old.items) }
    ensures full { OnErr result
        (vec_capacity to.old < vec_len to.old + length (spelling event.now)) }
    ensures capacity { vec_capacity to.old ≤ vec_capacity to.new }
{
    if !is_short(&event.act) {
        return write_long(event, to);
    }
    let mut line = ShortLine::new();
    put_short(&mut line, event);
    append(line.bytes(), to)
}

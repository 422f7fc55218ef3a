//! Writes the single lines that the commands print.
//!
//! The module `file` writes pressure files.
ghost use Rattle.std.specs.Prelude.{◌-◌, ◌<◌, ◌^◌};
ghost use Rattle.outside.specs.Outside.{HasCause, SameInner};
ghost use Rattle.outside.specs.Calls.{PutsAll};
ghost use Rattle.psi_spec.specs.Fields as fields;
ghost use Rattle.run_spec.specs.Lines.{check_line, end_line, event_line, kill_line};
ghost use Rattle.run_spec.specs.Lines.{live_line, stall_line};
ghost use Rattle.pressure_text.specs.Pieces.{with_numbers};

use crate::pieces::{Piece, put_numbers, put_pieces};
use outside::{Sink, WriteFailed, put_all};
use pressure_spec::Times;
use psi_base::{Cpu, Ns, Path, TriggerSpec};

/// Writes a line: the pieces of `head` in order, then each of the times (ns) after a space, and a
/// newline.
#[tactic(auto, using(outside::proofs::Grows::chain))]
pub fn put_timed<K: Sink>(out: &mut K, head: &[Piece], times: &[Ns]) -> Result<(), WriteFailed>
    ensures bytes { PutsAll (K.has out.old) (K.has out.new) result
        (with_numbers head.now times.now) }
    ensures cause { HasCause (K.faults out.old) (K.faults out.new) result }
    ensures below { SameInner (K.below out.old) (K.below out.new) }
{
    put_pieces(out, head)?;
    put_numbers(out, times)?;
    put_all(out, b"\n")
}

// Writes the `stall` line of a group on a processor, with the times `times` (ns).
#[tactic(auto, using(crate::proofs::Puts::times))]
fn put_stall<K: Sink>(out: &mut K, cpu: Cpu, path: &Path, times: &[Ns]) -> Result<(), WriteFailed>
    ensures bytes { PutsAll (K.has out.old) (K.has out.new) result
        (stall_line cpu.0 path.now times.now) }
    ensures cause { HasCause (K.faults out.old) (K.faults out.new) result }
    ensures below { SameInner (K.below out.old) (K.below out.new) }
{
    put_timed(
        out,
        &[
            Piece::Text(b"stall cpu="),
            Piece::Number(u64::from(cpu.0)),
            Piece::Text(b" "),
            Piece::Text(path.bytes()),
        ],
        times,
    )
}

/// Writes the `stall` line of a group on a processor, with the group's time (ns) in each of the
/// seven states. The times are ordered by state.
pub fn write_stall<K: Sink>(
    out: &mut K,
    cpu: Cpu,
    path: &Path,
    seven: [Ns; 7],
) -> Result<(), WriteFailed>
    ensures bytes { PutsAll (K.has out.old) (K.has out.new) result
        (stall_line cpu.0 path.now seven) }
    ensures cause { HasCause (K.faults out.old) (K.faults out.new) result }
    ensures below { SameInner (K.below out.old) (K.below out.new) }
{
    put_stall(out, cpu, path, &seven)
}

/// Writes the `stall` line of a group on a processor: the group's time (ns) in each of the seven
/// states, ordered by state, followed by the interrupt time (ns).
pub fn write_stall_irq<K: Sink>(
    out: &mut K,
    cpu: Cpu,
    path: &Path,
    eight: Times,
) -> Result<(), WriteFailed>
    ensures bytes { PutsAll (K.has out.old) (K.has out.new) result
        (stall_line cpu.0 path.now eight) }
    ensures cause { HasCause (K.faults out.old) (K.faults out.new) result }
    ensures below { SameInner (K.below out.old) (K.below out.new) }
{
    put_stall(out, cpu, path, &eight)
}

/// Writes the line for an accepted trace: the number of lines, the number of events and the end
/// time (ns). The end of the trace counts as an event. The number of lines is `events + 1`, because
/// of the header.
#[tactic(auto, using(outside::proofs::Grows::chain))]
pub fn write_check<K: Sink>(out: &mut K, events: u64, end: Ns) -> Result<(), WriteFailed>
    requires { events < 2 ^ 64 - 1 }
    ensures bytes { PutsAll (K.has out.old) (K.has out.new) result (check_line events end) }
    ensures cause { HasCause (K.faults out.old) (K.faults out.new) result }
    ensures below { SameInner (K.below out.old) (K.below out.new) }
{
    put_pieces(
        out,
        &[
            Piece::Text(b"ok lines="),
            Piece::Number(events + 1),
            Piece::Text(b" events="),
            Piece::Number(events),
            Piece::Text(b" end="),
            Piece::Number(end),
            Piece::Text(b"\n"),
        ],
    )
}

/// Writes a `live` line: a sample of the watched group's clock on processor `cpu`, taken during the
/// interval before the tick at time `at` (ns). `count` is the number of the processor's changes
/// that the sample includes. `seven` has the times (ns) in the seven states, ordered by state.
#[tactic(auto, using(crate::proofs::Puts::times))]
pub fn write_live<K: Sink>(
    out: &mut K,
    at: Ns,
    cpu: Cpu,
    count: u64,
    seven: [Ns; 7],
) -> Result<(), WriteFailed>
    ensures bytes { PutsAll (K.has out.old) (K.has out.new) result
        (live_line at cpu.0 count seven) }
    ensures cause { HasCause (K.faults out.old) (K.faults out.new) result }
    ensures below { SameInner (K.below out.old) (K.below out.new) }
{
    put_timed(
        out,
        &[
            Piece::Text(b"live "),
            Piece::Number(at),
            Piece::Text(b" cpu="),
            Piece::Number(u64::from(cpu.0)),
            Piece::Text(b" count="),
            Piece::Number(count),
        ],
        &seven,
    )
}

/// Writes the line for a trigger that fired at the tick at time `at` (ns): the index of the
/// trigger, the path of its group, its resource and level, and its threshold and window (us).
#[tactic(auto, using(outside::proofs::Grows::chain))]
pub fn write_fired<K: Sink>(
    out: &mut K,
    at: Ns,
    index: u32,
    path: &Path,
    spec: &TriggerSpec,
) -> Result<(), WriteFailed>
    ensures bytes { PutsAll (K.has out.old) (K.has out.new) result
        (event_line at index path.now spec.now) }
    ensures cause { HasCause (K.faults out.old) (K.faults out.new) result }
    ensures below { SameInner (K.below out.old) (K.below out.new) }
{
    put_pieces(
        out,
        &[
            Piece::Text(b"event "),
            Piece::Number(at),
            Piece::Text(b" trigger="),
            Piece::Number(u64::from(index)),
            Piece::Text(b" "),
            Piece::Text(path.bytes()),
            Piece::Text(b" "),
            Piece::Text(spec.res.word().as_bytes()),
            Piece::Text(b" "),
            Piece::Text(spec.level.word().as_bytes()),
            Piece::Text(b" "),
            Piece::Number(spec.threshold_us),
            Piece::Text(b" "),
            Piece::Number(spec.window_us),
            Piece::Text(b"\n"),
        ],
    )
}

/// Writes the line for a kill at the tick at time `at` (ns): the index of the ruleset, the index of
/// the action in it, and the path of the victim.
#[tactic(auto, using(outside::proofs::Grows::chain))]
pub fn write_kill<K: Sink>(
    out: &mut K,
    at: Ns,
    rule: u32,
    action: u32,
    path: &Path,
) -> Result<(), WriteFailed>
    ensures bytes { PutsAll (K.has out.old) (K.has out.new) result
        (kill_line at rule action path.now) }
    ensures cause { HasCause (K.faults out.old) (K.faults out.new) result }
    ensures below { SameInner (K.below out.old) (K.below out.new) }
{
    put_pieces(
        out,
        &[
            Piece::Text(b"kill "),
            Piece::Number(at),
            Piece::Text(b" ruleset="),
            Piece::Number(u64::from(rule)),
            Piece::Text(b" action="),
            Piece::Number(u64::from(action)),
            Piece::Text(b" "),
            Piece::Text(path.bytes()),
            Piece::Text(b"\n"),
        ],
    )
}

/// Writes the last line of a replay: the end time (ns), and the numbers of ticks, of signals of
/// triggers, and of kills.
#[tactic(auto, using(outside::proofs::Grows::chain))]
pub fn write_end<K: Sink>(
    out: &mut K,
    at: Ns,
    ticks: u64,
    events: u64,
    kills: u64,
) -> Result<(), WriteFailed>
    ensures bytes { PutsAll (K.has out.old) (K.has out.new) result
        (end_line at ticks events kills) }
    ensures cause { HasCause (K.faults out.old) (K.faults out.new) result }
    ensures below { SameInner (K.below out.old) (K.below out.new) }
{
    put_pieces(
        out,
        &[
            Piece::Text(b"end "),
            Piece::Number(at),
            Piece::Text(b" ticks="),
            Piece::Number(ticks),
            Piece::Text(b" events="),
            Piece::Number(events),
            Piece::Text(b" kills="),
            Piece::Number(kills),
            Piece::Text(b"\n"),
        ],
    )
}

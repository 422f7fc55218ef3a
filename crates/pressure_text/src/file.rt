//! Writes pressure files and reports. A report is a head line followed by a pressure file.
//!
//! The caller computes the averages and the totals.
ghost use Rattle.std.specs.Prelude.{[], slice_index_or};
ghost use Rattle.outside.specs.Outside.{HasCause, SameInner};
ghost use Rattle.outside.specs.Calls.{PutsAll};
ghost use Rattle.pressure_spec.specs.File.{file_line, file_text, full_line, state_line};
ghost use Rattle.pressure_spec.specs.Share.{irq_quantity};
ghost use Rattle.run_spec.specs.Lines.{head_line, irq_report, report_head, report_text};

use crate::pieces::{Piece, put_pieces};
use fixed_average::Averages;
use outside::{Sink, WriteFailed};
use pressure_spec::Amounts;
use psi_base::{Level, Ns, Path, Res, State};

// Writes one line of a pressure file: the level, the three averages, and the total. `total` is in
// ns, and is written in us.
fn put_line<K: Sink>(
    out: &mut K,
    level: Level,
    averages: [u64; 3],
    total: Ns,
) -> Result<(), WriteFailed>
    ensures bytes { PutsAll (K.has out.old) (K.has out.new) result
        (file_line level averages total) }
    ensures cause { HasCause (K.faults out.old) (K.faults out.new) result }
    ensures below { SameInner (K.below out.old) (K.below out.new) }
{
    put_pieces(
        out,
        &[
            Piece::Text(level.word().as_bytes()),
            Piece::Text(b" avg10="),
            Piece::Percent(averages[0]),
            Piece::Text(b" avg60="),
            Piece::Percent(averages[1]),
            Piece::Text(b" avg300="),
            Piece::Percent(averages[2]),
            Piece::Text(b" total="),
            Piece::Number(total / 1000),
            Piece::Text(b"\n"),
        ],
    )
}

// Writes the `some` or the `full` line of a resource.
fn put_state<K: Sink>(
    out: &mut K,
    res: Res,
    level: Level,
    totals: &Amounts,
    averages: &Averages,
) -> Result<(), WriteFailed>
    ensures bytes { PutsAll (K.has out.old) (K.has out.new) result
        (state_line res level totals.now averages.now.averages) }
    ensures cause { HasCause (K.faults out.old) (K.faults out.new) result }
    ensures below { SameInner (K.below out.old) (K.below out.new) }
{
    let state = State::of(res, level);
    put_line(out, level, averages.get(state), totals[state as usize])
}

// Writes the `full` line of a resource. At the root, the `full` line of CPU is all zeros.
fn put_full<K: Sink>(
    out: &mut K,
    res: Res,
    root: bool,
    totals: &Amounts,
    averages: &Averages,
) -> Result<(), WriteFailed>
    ensures bytes { PutsAll (K.has out.old) (K.has out.new) result
        (full_line res root totals.now averages.now.averages) }
    ensures cause { HasCause (K.faults out.old) (K.faults out.new) result }
    ensures below { SameInner (K.below out.old) (K.below out.new) }
{
    if root && res == Res::Cpu {
        return put_line(out, Level::FullStalled, [0; 3], 0);
    }
    put_state(out, res, Level::FullStalled, totals, averages)
}

/// Writes the pressure file of a resource for one group, in the format of
/// `Documentation/accounting/psi.rst`: the `some` line and the `full` line. `totals` (ns) and
/// `averages` are the group's, ordered by state; the last entry of `totals` is the interrupt time.
/// At the root, the `full` line of CPU is all zeros, as in the kernel.
pub fn write_file<K: Sink>(
    out: &mut K,
    res: Res,
    root: bool,
    totals: Amounts,
    averages: &Averages,
) -> Result<(), WriteFailed>
    ensures bytes { PutsAll (K.has out.old) (K.has out.new) result
        (file_text res root totals averages.now.averages) }
    ensures cause { HasCause (K.faults out.old) (K.faults out.new) result }
    ensures below { SameInner (K.below out.old) (K.below out.new) }
{
    put_state(out, res, Level::SomeStalled, &totals, averages)?;
    put_full(out, res, root, &totals, averages)
}

// Writes the head line of a report: the time of the tick (ns), the path of the group, and the word
// for the resource.
#[tactic(auto, using(outside::proofs::Grows::chain))]
fn put_head<'a, K: Sink>(
    out: &mut K,
    at: Ns,
    path: &'a Path,
    word: &'a [u8],
) -> Result<(), WriteFailed>
    ensures bytes { PutsAll (K.has out.old) (K.has out.new) result
        (head_line at path.now word.now) }
    ensures cause { HasCause (K.faults out.old) (K.faults out.new) result }
    ensures below { SameInner (K.below out.old) (K.below out.new) }
{
    put_pieces(
        out,
        &[
            Piece::Text(b"report "),
            Piece::Number(at),
            Piece::Text(b" "),
            Piece::Text(path.bytes()),
            Piece::Text(b" "),
            Piece::Text(word),
            Piece::Text(b"\n"),
        ],
    )
}

/// Writes the head line of a report on a resource: the time of the tick (ns), the path of the
/// group, and the name of the resource.
pub fn write_report_head<K: Sink>(
    out: &mut K,
    at: Ns,
    path: &Path,
    res: Res,
) -> Result<(), WriteFailed>
    ensures bytes { PutsAll (K.has out.old) (K.has out.new) result (report_head at path.now res) }
    ensures cause { HasCause (K.faults out.old) (K.faults out.new) result }
    ensures below { SameInner (K.below out.old) (K.below out.new) }
{
    put_head(out, at, path, res.word().as_bytes())
}

/// Writes the report on a resource of a group, at the tick at time `at` (ns): the head line
/// ([`write_report_head`]) and the pressure file ([`write_file`]).
#[tactic(auto, using(outside::proofs::Grows::chain))]
pub fn write_report<K: Sink>(
    out: &mut K,
    at: Ns,
    path: &Path,
    res: Res,
    root: bool,
    totals: Amounts,
    averages: &Averages,
) -> Result<(), WriteFailed>
    ensures bytes { PutsAll (K.has out.old) (K.has out.new) result
        (report_text at path.now res root totals averages.now.averages) }
    ensures cause { HasCause (K.faults out.old) (K.faults out.new) result }
    ensures below { SameInner (K.below out.old) (K.below out.new) }
{
    write_report_head(out, at, path, res)?;
    write_file(out, res, root, totals, averages)
}

/// Writes the report on interrupts of a group, at the tick at time `at` (ns): the head line, and
/// the `full` line with the averages and the total (ns) of interrupt time. Interrupts have no
/// `some` line.
#[tactic(auto, using(outside::proofs::Grows::chain))]
pub fn write_irq<K: Sink>(
    out: &mut K,
    at: Ns,
    path: &Path,
    total: u64,
    averages: &Averages,
) -> Result<(), WriteFailed>
    ensures bytes { PutsAll (K.has out.old) (K.has out.new) result
        (irq_report at path.now (slice_index_or averages.now.averages irq_quantity []) total) }
    ensures cause { HasCause (K.faults out.old) (K.faults out.new) result }
    ensures below { SameInner (K.below out.old) (K.below out.new) }
{
    put_head(out, at, path, b"irq")?;
    put_line(out, Level::FullStalled, averages.irq(), total)
}

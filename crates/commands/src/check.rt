//! The output of `check`, which accepts or rejects a trace without replaying it. The caller reports
//! a rejected trace.
ghost use Rattle.std.specs.Prelude.{List};
ghost use Rattle.outside.specs.Outside.{SameInner};
ghost use Rattle.psi_base.specs.declared.event.Event.{Event};
ghost use Rattle.psi_spec.specs.World.{Limits};
ghost use Rattle.run_spec.specs.Text.{check_text};
ghost use Rattle.trace_player.specs.Playing.{IsPlayed};
ghost use Rattle.trace_file.specs.Reads.{plain_trace};
ghost use Rattle.run_outcomes.specs.Writes.{WritesText};

use outside::{Sink, WriteFailed};
use pressure_text::write_check;
use run_spec::Status;
use task_table::Table;

/// Writes the output line for an accepted trace. `table` is the state of the tasks after all events
/// of the trace.
pub fn write_checked<K: Sink>(table: &Table, out: &mut K) -> Status
    ensures writes { (limits : Limits) (events : List Event) →
        IsPlayed table.now.limits table.now.world limits events →
        WritesText (check_text (plain_trace limits.cpus events))
        (K.faults out.old) (K.faults out.new) (K.has out.old) (K.has out.new) result }
    ensures below { SameInner (K.below out.old) (K.below out.new) }
{
    match write_check(out, u64::from(table.lines()), table.last()) {
        Ok(()) => Status::Done,
        Err(WriteFailed) => Status::WriteFault,
    }
}

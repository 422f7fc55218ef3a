//! Writes the lines of a tick: fired triggers, kills and pressure reports.
//!
//! This module skips groups that aren't live. It doesn't decide when reports are due.
ghost use Rattle.std.specs.Prelude.{◌≡◌, ◌<◌, length, ◌==◌};
ghost use Rattle.std.specs.List.{All};
ghost use Rattle.outside.specs.Outside.{HasCause, SameInner};
ghost use Rattle.outside.specs.Calls.{PutsAll};
ghost use Rattle.psi_base.specs.declared.event.TriggerSpec.{TriggerSpec};
ghost use Rattle.psi_spec.specs.Header.{version_of};
ghost use Rattle.run_spec.specs.Replay.{files_text, irq_files, resource_files, signal_lines};
ghost use Rattle.run_laws.specs.Reports.{slot_report, slot_reports};
ghost use Rattle.tick_engine.specs.Engine.{averages_in, totals_in};
ghost use Rattle.kill_spec.specs.declared.kill.Kill.{Kill};
ghost use Rattle.run_spec.specs.Replay.{kill_lines};
ghost use Rattle.group_tree.specs.Tree.{numbers_of};

use fixed_average::Averages;
use outside::{Sink, WriteFailed};
use pressure_spec::{Amounts, QUANTITIES};
use pressure_text::{write_fired, write_irq, write_kill, write_report};
use psi_base::{Ns, Path, Res, Slot, TriggerSpec};
use psi_spec::GroupLife;
use replay_rules::Kill;
use tick_engine::{Engine, is_live_at};

/// The version number of traces that contain interrupts.
const WITH_IRQ: u32 = 2;

/// The index of interrupt time among the quantities that are reported.
const IRQ: usize = QUANTITIES - 1;

/// Writes one line for each trigger that fired at the tick at time `at` (ns). `fired` has the
/// indexes of these triggers.
#[tactic(auto, using(outside::proofs::Grows::growth))]
pub(crate) fn put_signals<K: Sink>(
    out: &mut K,
    at: Ns,
    lives: &[GroupLife],
    triggers: &[TriggerSpec],
    fired: &[u32],
) -> Result<(), WriteFailed>
    requires numbers { All (λ number. number < length triggers.now) fired.now }
    requires slots { All (λ (trigger : TriggerSpec). trigger.slot.0 < length lives.now)
        triggers.now }
    ensures bytes { PutsAll (K.has out.old) (K.has out.new) result
        (signal_lines at lives.now triggers.now fired.now) }
    ensures cause { HasCause (K.faults out.old) (K.faults out.new) result }
    ensures below { SameInner (K.below out.old) (K.below out.new) }
{
    'fired: for number in fired {
        let trigger = &triggers[*number as usize];
        let path = &lives[trigger.slot.0 as usize].path;
        write_fired(out, at, *number, path, trigger)?;
    }
    Ok(())
}

/// Writes one line for each kill.
#[tactic(auto, using(outside::proofs::Grows::growth))]
pub(crate) fn put_kills<K: Sink>(
    out: &mut K,
    lives: &[GroupLife],
    kills: &[Kill],
) -> Result<(), WriteFailed>
    requires slots { All (λ (kill : Kill). kill.victim.0 < length lives.now) kills.now }
    ensures bytes { PutsAll (K.has out.old) (K.has out.new) result
        (kill_lines lives.now kills.now) }
    ensures cause { HasCause (K.faults out.old) (K.faults out.new) result }
    ensures below { SameInner (K.below out.old) (K.below out.new) }
{
    'kills: for kill in kills {
        let path = &lives[kill.victim.0 as usize].path;
        write_kill(out, kill.at, kill.rule, kill.action, path)?;
    }
    Ok(())
}

// Writes the reports on IO, memory and CPU of one group, at the tick at time `at` (ns).
#[tactic(auto, using(outside::proofs::Grows::growth))]
fn put_resources<K: Sink>(
    out: &mut K,
    at: Ns,
    path: &Path,
    slot: Slot,
    totals: Amounts,
    averages: &Averages,
) -> Result<(), WriteFailed>
    ensures bytes { PutsAll (K.has out.old) (K.has out.new) result
        (resource_files at path.now slot.0 totals averages.now.averages) }
    ensures cause { HasCause (K.faults out.old) (K.faults out.new) result }
    ensures below { SameInner (K.below out.old) (K.below out.new) }
{
    let is_root = slot.0 == 0;
    write_report(out, at, path, Res::Io, is_root, totals, averages)?;
    write_report(out, at, path, Res::Memory, is_root, totals, averages)?;
    write_report(out, at, path, Res::Cpu, is_root, totals, averages)
}

// Writes the report on interrupts of one group, at the tick at time `at` (ns). Writes nothing if
// traces of this version have no interrupts.
fn put_irq<K: Sink>(
    out: &mut K,
    version: u32,
    at: Ns,
    path: &Path,
    totals: Amounts,
    averages: &Averages,
) -> Result<(), WriteFailed>
    ensures bytes { PutsAll (K.has out.old) (K.has out.new) result
        (irq_files (version_of version) at path.now totals averages.now.averages) }
    ensures cause { HasCause (K.faults out.old) (K.faults out.new) result }
    ensures below { SameInner (K.below out.old) (K.below out.new) }
{
    if version == WITH_IRQ {
        return write_irq(out, at, path, totals[IRQ], averages);
    }
    Ok(())
}

/// Writes all reports of one group, at the tick at time `at` (ns). `version` is the version of the
/// trace.
#[tactic(auto, using(outside::proofs::Grows::growth))]
pub(crate) fn put_files<K: Sink>(
    out: &mut K,
    version: u32,
    at: Ns,
    path: &Path,
    slot: Slot,
    totals: Amounts,
    averages: &Averages,
) -> Result<(), WriteFailed>
    ensures bytes { PutsAll (K.has out.old) (K.has out.new) result
        (files_text (version_of version) at path.now slot.0 totals averages.now.averages) }
    ensures cause { HasCause (K.faults out.old) (K.faults out.new) result }
    ensures below { SameInner (K.below out.old) (K.below out.new) }
{
    put_resources(out, at, path, slot, totals, averages)?;
    put_irq(out, version, at, path, totals, averages)
}

// Writes the reports of the group in slot `slot`, at the tick at time `at` (ns). Writes nothing if
// the group isn't live at that time.
fn put_report<K: Sink>(
    out: &mut K,
    version: u32,
    at: Ns,
    lives: &[GroupLife],
    slot: Slot,
    engine: &Engine,
) -> Result<(), WriteFailed>
    requires made { slot.0 < length lives.now }
    requires unchanged { length engine.now.groups ≡ length lives.now }
    ensures bytes { PutsAll (K.has out.old) (K.has out.new) result
        (slot_report (version_of version) at lives.now (totals_in engine.now)
        (averages_in engine.now) slot.0) }
    ensures cause { HasCause (K.faults out.old) (K.faults out.new) result }
    ensures below { SameInner (K.below out.old) (K.below out.new) }
{
    let life = &lives[slot.0 as usize];
    if !is_live_at(life, at) {
        return Ok(());
    }
    put_files(
        out,
        version,
        at,
        &life.path,
        slot,
        engine.totals(slot),
        engine.averages(slot),
    )
}

/// Writes the reports of all groups that are live at the tick at time `at` (ns), in the order of
/// `order`. `version` is the version of the trace.
#[tactic(auto, using(outside::proofs::Grows::growth))]
pub(crate) fn put_reports<K: Sink>(
    out: &mut K,
    version: u32,
    at: Ns,
    lives: &[GroupLife],
    order: &[Slot],
    engine: &Engine,
) -> Result<(), WriteFailed>
    requires made { All (λ (slot : Slot). slot.0 < length lives.now) order.now }
    requires unchanged { length engine.now.groups ≡ length lives.now }
    ensures bytes { PutsAll (K.has out.old) (K.has out.new) result
        (slot_reports (version_of version) at lives.now (totals_in engine.now)
        (averages_in engine.now) (numbers_of order.now)) }
    ensures cause { HasCause (K.faults out.old) (K.faults out.new) result }
    ensures below { SameInner (K.below out.old) (K.below out.new) }
{
    'slots: for slot in order {
        put_report(out, version, at, lives, *slot, engine)?;
    }
    Ok(())
}

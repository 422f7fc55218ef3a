//! Writes the output lines of `stall`: one line for each group and processor. Precondition: the
//! clocks have applied all changes of the trace.

ghost use Rattle.std.specs.Prelude.{◌≡◌, ℕ, ◌<◌, ◌≤◌, length};
ghost use Rattle.std.specs.List.{All};
ghost use Rattle.outside.specs.Outside.{HasCause, SameInner};
ghost use Rattle.outside.specs.Calls.{PutsAll};
ghost use Rattle.plan_laws.specs.Plan.{IsPlan, last_change};
ghost use Rattle.psi_spec.specs.Within.{last_moment};
ghost use Rattle.psi_spec.specs.Grammar.{One, Two};
ghost use Rattle.psi_spec.specs.Header.{IsVersion, version_of};
ghost use Rattle.proc_plan.specs.Plans.{plan_at};
ghost use Rattle.commands.specs.Lines.{HasMadeAll, all_lines, plan_line, plan_lines};
ghost use Rattle.replay_workers.specs.Crew.{clocks_at};

use outside::{Sink, WriteFailed};
use pressure_text::{write_stall, write_stall_irq};
use proc_plan::{IrqClocks, PlainClocks, Plans, ProcClocks};
use psi_base::{Cpu, Ns, Slot};
use psi_spec::GroupLife;
use replay_workers::own_times;

// Writes the line of the group in `slot` on a processor, at the time `last` (ns) of the trace's
// end. The trace has version 1, so the line has no interrupt time.
fn put_times<K: Sink, C: ProcClocks>(
    out: &mut K,
    cpu: Cpu,
    clocks: &mut C,
    groups: &[GroupLife],
    slot: Slot,
    last: Ns,
) -> Result<(), WriteFailed>
    requires made { slot.0 < length groups.now }
    requires known { length (C.plan clocks.old).parents ≡ length groups.now }
    requires whole { IsPlan (C.plan clocks.old) }
    requires all { C.made clocks.old ≡ length (C.plan clocks.old).changes }
    requires later { last_change (C.plan clocks.old) (length (C.plan clocks.old).changes) ≤ last }
    requires early { last ≤ last_moment }
    ensures plan { C.plan clocks.new ≡ C.plan clocks.old }
    ensures made { C.made clocks.new ≡ C.made clocks.old }
    ensures bytes { PutsAll (K.has out.old) (K.has out.new) result
        (plan_line One cpu.0 groups.now (C.plan clocks.old) last slot) }
    ensures cause { HasCause (K.faults out.old) (K.faults out.new) result }
    ensures below { SameInner (K.below out.old) (K.below out.new) }
{
    let path = &groups[slot.0 as usize].path;
    write_stall(out, cpu, path, clocks.own(slot).opened(last))
}

// Writes the line of the group in `slot` on a processor, at the time `last` (ns) of the trace's
// end. The trace has version 2, so the line has the interrupt time.
fn put_irq_times<K: Sink, C: IrqClocks>(
    out: &mut K,
    cpu: Cpu,
    clocks: &mut C,
    groups: &[GroupLife],
    slot: Slot,
    last: Ns,
) -> Result<(), WriteFailed>
    requires made { slot.0 < length groups.now }
    requires known { length (C.plan clocks.old).parents ≡ length groups.now }
    requires whole { IsPlan (C.plan clocks.old) }
    requires all { C.made clocks.old ≡ length (C.plan clocks.old).changes }
    requires later { last_change (C.plan clocks.old) (length (C.plan clocks.old).changes) ≤ last }
    requires early { last ≤ last_moment }
    ensures plan { C.plan clocks.new ≡ C.plan clocks.old }
    ensures made { C.made clocks.new ≡ C.made clocks.old }
    ensures bytes { PutsAll (K.has out.old) (K.has out.new) result
        (plan_line Two cpu.0 groups.now (C.plan clocks.old) last slot) }
    ensures cause { HasCause (K.faults out.old) (K.faults out.new) result }
    ensures below { SameInner (K.below out.old) (K.below out.new) }
{
    let path = &groups[slot.0 as usize].path;
    write_stall_irq(out, cpu, path, own_times(clocks, slot, last))
}

// Writes the line of the group in `slot` on a processor, at the time `last` (ns) of the trace's
// end. `version` is the trace's version.
fn put_group<K: Sink, C: IrqClocks>(
    out: &mut K,
    version: u32,
    cpu: Cpu,
    clocks: &mut C,
    groups: &[GroupLife],
    slot: Slot,
    last: Ns,
) -> Result<(), WriteFailed>
    requires version { IsVersion version }
    requires made { slot.0 < length groups.now }
    requires known { length (C.plan clocks.old).parents ≡ length groups.now }
    requires whole { IsPlan (C.plan clocks.old) }
    requires all { C.made clocks.old ≡ length (C.plan clocks.old).changes }
    requires later { last_change (C.plan clocks.old) (length (C.plan clocks.old).changes) ≤ last }
    requires early { last ≤ last_moment }
    ensures plan { C.plan clocks.new ≡ C.plan clocks.old }
    ensures made { C.made clocks.new ≡ C.made clocks.old }
    ensures bytes { PutsAll (K.has out.old) (K.has out.new) result
        (plan_line (version_of version) cpu.0 groups.now (C.plan clocks.old) last slot) }
    ensures cause { HasCause (K.faults out.old) (K.faults out.new) result }
    ensures below { SameInner (K.below out.old) (K.below out.new) }
{
    if version == 2 {
        put_irq_times(out, cpu, clocks, groups, slot, last)
    } else {
        put_times(out, cpu, clocks, groups, slot, last)
    }
}

// Writes the lines of a processor at the time `last` (ns) of the trace's end, for the groups in
// `order`.
#[tactic(auto, using(outside::proofs::Grows::growth))]
fn put_processor<K: Sink, C: IrqClocks>(
    out: &mut K,
    version: u32,
    cpu: Cpu,
    clocks: &mut C,
    groups: &[GroupLife],
    order: &[Slot],
    last: Ns,
) -> Result<(), WriteFailed>
    requires version { IsVersion version }
    requires made { All (λ (slot : Slot). slot.0 < length groups.now) order.now }
    requires known { length (C.plan clocks.old).parents ≡ length groups.now }
    requires whole { IsPlan (C.plan clocks.old) }
    requires all { C.made clocks.old ≡ length (C.plan clocks.old).changes }
    requires later { last_change (C.plan clocks.old) (length (C.plan clocks.old).changes) ≤ last }
    requires early { last ≤ last_moment }
    ensures bytes { PutsAll (K.has out.old) (K.has out.new) result
        (plan_lines (version_of version) groups.now order.now last (C.plan clocks.old) cpu.0) }
    ensures cause { HasCause (K.faults out.old) (K.faults out.new) result }
    ensures below { SameInner (K.below out.old) (K.below out.new) }
{
    'groups: for slot in order {
        put_group(out, version, cpu, clocks, groups, *slot, last)?;
    }
    Ok(())
}

/// Writes the lines of all processors at the time `last` (ns) of the trace's end. Each processor
/// has one line for each group in `order`. Precondition: each processor's clocks have applied all
/// changes of its plan.
pub(crate) fn put_lines<K: Sink>(
    out: &mut K,
    version: u32,
    plans: &Plans,
    clocks: &mut [PlainClocks<'_>],
    order: &[Slot],
    last: Ns,
) -> Result<(), WriteFailed>
    requires version { IsVersion version }
    requires each { length clocks.old ≡ length plans.now.plans }
    requires few { length clocks.old ≤ 64 }
    requires all { (cpu : ℕ) → cpu < length clocks.old →
        HasMadeAll (plan_at plans.now cpu) (clocks_at clocks.old cpu) }
    requires known { (cpu : ℕ) → cpu < length clocks.old →
        length (plan_at plans.now cpu).parents ≡ length plans.now.lives }
    requires made { All (λ (slot : Slot). slot.0 < length plans.now.lives) order.now }
    requires later { (cpu : ℕ) → cpu < length clocks.old →
        last_change (plan_at plans.now cpu) (length (plan_at plans.now cpu).changes) ≤ last }
    requires early { last ≤ last_moment }
    ensures bytes { PutsAll (K.has out.old) (K.has out.new) result
        (all_lines (version_of version) plans.now.lives order.now last plans.now.plans) }
    ensures cause { HasCause (K.faults out.old) (K.faults out.new) result }
    ensures below { SameInner (K.below out.old) (K.below out.new) }
{
    let groups = plans.lives();
    'cpus: for place in 0..clocks.len() {
        let cpu = Cpu(place as u32);
        put_processor(out, version, cpu, &mut clocks[place], groups, order, last)?;
    }
    Ok(())
}

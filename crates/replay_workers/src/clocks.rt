//! Creates the clocks of processors, applies changes to them, and reads their times. All functions
//! here run in the caller's thread. The module `crew` starts threads.
ghost use Rattle.std.specs.Prelude.{◌≡◌, ◌<◌, ◌≤◌, ℕ, length, IfOk};
ghost use Rattle.plan_laws.specs.Plan.{IsPlan, last_change};
ghost use Rattle.psi_spec.specs.Within.{last_moment};
ghost use Rattle.proc_plan.specs.Plans.{plan_at};
ghost use Rattle.replay_workers.specs.Crew.{AreOnPlans, clocks_at, planned_with_irq};

use outside::Gate;
use pressure_spec::{TIMES, Times};
use proc_plan::{IrqClocks, PlainClocks, Plans, ProcClocks};
use psi_base::{Cpu, NoMemory, Ns, Slot};
use std::alloc::Global;

/// Creates the clocks of all processors, before the first change. Applying changes doesn't
/// allocate.
pub fn first_clocks(alloc: Global, plans: &Plans) -> Result<Vec<PlainClocks<'_>>, NoMemory>
    ensures on { IfOk result (λ clocks. AreOnPlans plans.now clocks.items) }
    ensures fresh { IfOk result (λ clocks. (cpu : ℕ) → cpu < length clocks.items →
        clocks_at clocks.items cpu ≡ record { plan = plan_at plans.now cpu; made = 0 }) }
{
    let slots = plans.groups().len() as u32;
    let mut clocks = Vec::new(alloc);
    'cpus: for cpu in 0..plans.cpus() {
        clocks.push(PlainClocks::make(alloc, plans.plan(Cpu(cpu)), slots)?)?;
    }
    Ok(clocks)
}

/// Applies the next changes of a processor's plan until `changes` changes have been applied in
/// total. Reports each change to the gate, a hook for tests.
pub fn make_until<C: ProcClocks, G: Gate>(clocks: &mut C, cpu: Cpu, changes: u64, gate: &G)
    requires all { changes ≤ length (C.plan clocks.old).changes }
    requires within { C.made clocks.old ≤ changes }
    ensures plan { C.plan clocks.new ≡ C.plan clocks.old }
    ensures made { C.made clocks.new ≡ changes }
    ensures home { C.home clocks.new ≡ C.home clocks.old }
{
    'changes: while clocks.count() < changes {
        clocks.apply();
        gate.moved(cpu, clocks.count());
    }
}

/// The index of the interrupt time in the list of a group's times. It follows the times in the
/// seven states.
const IRQ_PLACE: usize = 7;

/// Returns the times (ns) of a slot at the time `at` (ns): the time in each of the seven states,
/// ordered by state, followed by the interrupt time. Precondition: the last change that `clocks`
/// has applied isn't later than `at`.
pub fn own_times<C: IrqClocks>(clocks: &mut C, slot: Slot, at: Ns) -> Times
    requires slot { slot.0 < length (C.plan clocks.old).parents }
    requires whole { IsPlan (C.plan clocks.old) }
    requires past { last_change (C.plan clocks.old) (C.made clocks.old) ≤ at }
    requires early { at ≤ last_moment }
    ensures plan { C.plan clocks.new ≡ C.plan clocks.old }
    ensures made { C.made clocks.new ≡ C.made clocks.old }
    ensures home { C.home clocks.new ≡ C.home clocks.old }
    ensures times { result
        ≡ planned_with_irq (C.plan clocks.old) slot.0 (C.made clocks.old) at }
{
    let mut times = [0; TIMES];
    times[..IRQ_PLACE].copy_from_slice(&clocks.own(slot).opened(at));
    times[IRQ_PLACE] = clocks.own_irq(slot);
    times
}

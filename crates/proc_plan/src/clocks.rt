//! The clocks of one processor, which apply the changes of the processor's plan. Defines the traits
//! for clocks, and an implementation for use by one thread (`PlainClocks`). The crate clock_row has
//! an implementation whose clocks other threads can read.

ghost use Rattle.std.specs.Prelude.{◌≡◌, ◌+◌, ◌<◌, ℕ, length, IfOk};
ghost use Rattle.plan_laws.specs.Plan.{IsClock, PlanView, planned_irq};

use crate::irqs::add_irq;
use crate::plan::Plan;
use cpu_clock::Clock;
use psi_base::{NoMemory, Slot};
use slot_clocks::SlotClocks;
use std::alloc::Global;
use std::marker::Model;

/// The clocks of all groups on one processor. They apply the changes of the processor's plan in
/// order.
pub trait ProcClocks {
    /// The plan of the processor, which lists its changes.
    ghost plan: { Self → PlanView };

    /// The number of the plan's changes that the clocks have applied.
    ghost made: { Self → ℕ };

    /// The identity of these clocks, which never changes. Contracts use it to state that a reader
    /// and a writer share the same clocks.
    ghost Home: { Type 0 };

    ghost home: { Self → Home };

    /// Returns the number of the plan's changes that the clocks have applied.
    fn count(&self) -> u64
        ensures { result ≡ made self.now };

    /// Applies the next change of the plan to the clocks.
    fn apply(&mut self)
        requires { made self.old < length (plan self.old).changes }
        ensures plan { plan self.new ≡ plan self.old }
        ensures made { made self.new ≡ made self.old + 1 }
        ensures home { home self.new ≡ home self.old };

    /// Returns the clock of `slot` after the changes applied so far. The clock may have started
    /// before the last change, if later changes didn't affect the slot's states.
    fn own(&mut self, slot: Slot) -> Clock
        requires made { slot.0 < length (plan self.old).parents }
        ensures plan { plan self.new ≡ plan self.old }
        ensures made { made self.new ≡ made self.old }
        ensures home { home self.new ≡ home self.old }
        ensures clock { IsClock result (plan self.old) slot.0 (made self.old) };
}

/// Clocks that also count interrupt time: for each group, the time that interrupts took from it
/// while its accounting was on.
pub trait IrqClocks: ProcClocks {
    /// Returns the time (ns) that interrupts took from the group in `slot`, over the changes
    /// applied so far.
    fn own_irq(&mut self, slot: Slot) -> u64
        requires made { slot.0 < length (Self.plan self.old).parents }
        ensures plan { Self.plan self.new ≡ Self.plan self.old }
        ensures made { Self.made self.new ≡ Self.made self.old }
        ensures home { Self.home self.new ≡ Self.home self.old }
        ensures irq { result ≡ planned_irq (Self.plan self.old) slot.0 (Self.made self.old) };
}

/// Clocks for use by a single thread. In contracts they are the plan and the number of its changes
/// that were applied.
#[derive(Drop)]
pub struct PlainClocks<'a> {
    plan: &'a Plan,
    /// The parent of each slot of the plan.
    parents: &'a [Option<Slot>],
    clocks: SlotClocks,
    /// The time (ns) that interrupts took from each group, indexed by slot. Only changes with
    /// interrupt time write to this list.
    irqs: Vec<u64>,
    count: u64,
}

impl<'a> Model for PlainClocks<'a> {
    ghost use Rattle.std.specs.Prelude.{◌≡◌};
    ghost use Rattle.slot_clocks.specs.Clocks.{parent_numbers};
    ghost use Rattle.proc_plan.specs.Clocks.{AreClocks, AreIrqs, OnPlan};

    ghost Value = { OnPlan };

    ghost view = { λ c. record { plan = c.plan.now; made = c.count } };

    ghost invariant = { λ c.
        AreClocks c.plan.now c.clocks c.count
        × (parent_numbers c.parents.now ≡ c.plan.now.parents)
        × AreIrqs c.plan.now c.irqs.items c.count };
}

impl<'a> PlainClocks<'a> {
    /// Creates the clocks of a plan, before its first change. Precondition: the plan has `slots`
    /// slots. Later calls don't allocate.
    pub fn make(alloc: Global, plan: &'a Plan, slots: u32) -> Result<PlainClocks<'a>, NoMemory>
        requires { slots ≡ length plan.now.parents }
        ensures { IfOk result (λ clocks. clocks ≡ record { plan = plan.now; made = 0 }) }
    {
        Ok(PlainClocks {
            plan,
            parents: plan.parents(),
            clocks: SlotClocks::make(alloc, slots)?,
            irqs: vec![in alloc; 0; slots as usize]?,
            count: 0,
        })
    }
}

impl<'a> ProcClocks for PlainClocks<'a> {
    ghost plan = { λ clocks. clocks.plan };

    ghost made = { λ clocks. clocks.made };

    // Plain clocks aren't shared with other threads, so they need no identity.
    ghost Home = { Unit {0} };

    ghost home = { λ _. tt };

    fn count(&self) -> u64 {
        self.count
    }

    fn apply(&mut self) {
        let change = self.plan.packed(self.count + 1);
        add_irq(&mut self.irqs, self.parents, &self.clocks, change);
        self.clocks.apply(self.parents, change);
        self.count += 1;
    }

    fn own(&mut self, slot: Slot) -> Clock {
        self.clocks.clock(slot)
    }
}

impl<'a> IrqClocks for PlainClocks<'a> {
    fn own_irq(&mut self, slot: Slot) -> u64 {
        self.irqs[slot.0 as usize]
    }
}

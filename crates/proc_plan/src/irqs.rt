//! Sums the time that interrupts took from each group on one processor.

ghost use Rattle.std.specs.Prelude.{◌≡◌, ◌+◌, ◌<◌, ◌^◌, ℕ, length, if◌then◌else◌, IfSome};
ghost use Rattle.psi_spec.specs.LegalGroups.{AreOlder};
ghost use Rattle.slot_clocks.specs.Clocks.{parent_numbers};
ghost use Rattle.proc_plan.specs.Clocks.{AllGrow, irq_at, irq_taken};

use crate::plan::current_slot;
use psi_base::Slot;
use slot_clocks::{PackedChange, SlotClocks};

fn time_if(on: bool, irq: u64) -> u64
    ensures { result ≡ (if on then irq else 0) }
{
    if on { irq } else { 0 }
}

// Adds `irq` (ns) to the interrupt time of the group of the running task `current` and of each
// ancestor. Skips groups whose accounting is off in `clocks`. The function isn't inlined, because
// changes with interrupt time are rare.
#[inline(never)]
fn climb(
    times: &mut [u64],
    parents: &[Option<Slot>],
    clocks: &SlotClocks,
    current: Option<(Slot, bool)>,
    irq: u64,
)
    requires older { AreOlder (parent_numbers parents.now) }
    requires room { length times.old ≡ length parents.now }
    requires below { IfSome current (λ running. running.0.0 < length parents.now) }
    requires fits { (slot : ℕ) → slot < length times.old →
        irq_at times.old slot
        + irq_taken (parent_numbers parents.now) clocks.now current irq slot < 2 ^ 64 }
    ensures room { length times.new ≡ length times.old }
    ensures grown { AllGrow (parent_numbers parents.now) clocks.now current irq
        times.old times.new }
{
    let mut next = current_slot(current);
    'up: while let Some(slot) = next {
        let place = slot.0 as usize;
        times[place] += time_if(clocks.is_on(slot), irq);
        next = parents[place];
    }
}

/// Adds the interrupt time of `change` to the time in `times` of the running task's group and of
/// each ancestor. Skips groups whose accounting is off in `clocks`.
#[inline(always)]
pub(crate) fn add_irq(
    times: &mut [u64],
    parents: &[Option<Slot>],
    clocks: &SlotClocks,
    change: &PackedChange,
)
    requires older { AreOlder (parent_numbers parents.now) }
    requires room { length times.old ≡ length parents.now }
    requires below { IfSome change.now.current (λ running. running.0.0 < length parents.now) }
    requires fits { (slot : ℕ) → slot < length times.old →
        irq_at times.old slot
        + irq_taken (parent_numbers parents.now) clocks.now change.now.current change.now.irq slot
        < 2 ^ 64 }
    ensures room { length times.new ≡ length times.old }
    ensures grown { AllGrow (parent_numbers parents.now) clocks.now
        change.now.current change.now.irq times.old times.new }
{
    let irq = change.irq();
    if irq > 0 {
        climb(times, parents, clocks, change.current(), irq);
    }
}

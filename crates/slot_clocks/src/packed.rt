//! A change of a processor, packed into 16 bytes. A plan stores millions of changes in this form,
//! and [`PackedChange::change`] unpacks one.

ghost use Rattle.std.specs.Prelude.{◌≡◌, ◌<◌, ◌≤◌, None, Some, IfSome};
ghost use Rattle.psi_counts.specs.Touch.{AreAtMost, HasSlotsBelow, IsOfOne};
ghost use Rattle.psi_spec.specs.World.{longest_irq, most_groups};
ghost use Rattle.slot_clocks.specs.Bits.{counts_by};
ghost use Rattle.slot_clocks.specs.Packed.{part_by};
ghost use Rattle.slot_clocks.specs.Walk.{counts_in, height, slot_in};

use crate::part::{Part, bits_of, counts_at};
use crate::running::Running;
use psi_base::{Ns, Slot};
use psi_counts::{Change, Counts};
use std::marker::Model;

/// The kind of a change. It determines the meaning of all fields except the time and the running
/// task.
#[derive(Clone, Copy)]
enum Kind {
    /// The change subtracts, adds, or subtracts and adds the counts of one task.
    Task,
    /// Interrupts took time on the processor.
    Irq,
    /// The pressure accounting of a group is turned on.
    SwitchedOn,
    /// The pressure accounting of a group is turned off.
    SwitchedOff,
}

/// A change in 16 bytes. It concerns a single task, only interrupt time, or only an on/off switch
/// of accounting. In contracts it is the unpacked change.
///
/// A plan has up to 4,000,000 changes, and the first access to each page of memory is slow. So the
/// changes are kept small. A slot is stored as its height: the slot's number plus one, or 0 for no
/// slot. The counts of a task are stored as four bits. Interrupt time and on/off switches of
/// accounting are stored in the fields for a task's slots.
#[derive(Drop)]
pub struct PackedChange {
    at: Ns,
    /// For a change of a task, the slot with the subtracted counts, stored as its height (the
    /// slot's number plus one, or 0 for no slot). For interrupts, the lower 16 bits of the
    /// interrupt time. For accounting, the number of the slot whose accounting is turned on or off.
    first: u16,
    /// For a change of a task, the slot with the added counts, stored as its height. For
    /// interrupts, the upper 16 bits of the interrupt time.
    second: u16,
    current: Running,
    /// The bits of the subtracted counts in the upper four bits, and the bits of the added counts
    /// in the lower four bits.
    bits: u8,
    kind: Kind,
}

impl Model for PackedChange {
    ghost use Rattle.std.specs.Prelude.{◌/◌, ◌%◌};
    ghost use Rattle.psi_counts.specs.declared.changes.Change.{Change};
    ghost use Rattle.slot_clocks.specs.Packed.{IsPart, account_by, irq_by, task_part};

    ghost Value = { Change };

    ghost view = { λ p. record {
      at = p.at;
      minus = task_part p.kind p.first (p.bits / 16);
      plus = task_part p.kind p.second (p.bits % 16);
      current = p.current;
      irq = irq_by p.kind p.first p.second;
      account = account_by p.kind p.first;
    } };

    ghost invariant = { λ p.
        IsPart p.kind p.first (p.bits / 16) × IsPart p.kind p.second (p.bits % 16) };
}

// Packs the slot and the counts that a change subtracts or adds. Returns the height of the slot
// (the slot's number plus one) and the counts as four bits, or two zeros for `None`. Preconditions:
// the slot is less than 1,024, and each count is at most 1.
#[inline(always)]
fn pack_part(part: Option<(Slot, Counts)>) -> (u16, u8)
    requires low { IfSome part (λ part. part.0.0 < most_groups) }
    requires one { IfSome part (λ part. AreAtMost 1 part.1) }
    ensures part { part_by result.0 result.1 ≡ part }
    ensures counts { counts_by result.1 ≡ counts_in part }
    ensures few { result.1 < 16 }
{
    match part {
        Some((slot, counts)) => (slot.0 as u16 + 1, bits_of(&counts)),
        None => (0, 0),
    }
}

fn unpack_part(height: u16, bits: u8) -> Option<(Slot, Counts)>
    requires { bits < 16 }
    ensures { result ≡ part_by height bits }
{
    if height == 0 {
        return None;
    }
    Some((Slot(u32::from(height) - 1), counts_at(bits)))
}

impl PackedChange {
    /// Packs a change. Preconditions: the change concerns one task, only interrupt time, or only an
    /// on/off switch of accounting, and its slots are less than 1,024.
    #[inline(always)]
    pub fn new(change: Change) -> PackedChange
        requires one { IsOfOne change }
        requires low { HasSlotsBelow most_groups change }
        ensures { result ≡ change }
    {
        match change.account {
            Some(account) => PackedChange::of_account(change.at, change.current, account),
            None if change.irq > 0 => PackedChange::of_irq(change.at, change.current, change.irq),
            None => PackedChange::of_task(change.at, change.current, change.minus, change.plus),
        }
    }

    // Packs a change that concerns a task.
    #[inline(always)]
    fn of_task(
        at: Ns,
        current: Option<(Slot, bool)>,
        minus: Option<(Slot, Counts)>,
        plus: Option<(Slot, Counts)>,
    ) -> PackedChange
        requires running { IfSome current (λ current. current.0.0 < most_groups) }
        requires taken { IfSome minus (λ part. (part.0.0 < most_groups) × AreAtMost 1 part.1) }
        requires added { IfSome plus (λ part. (part.0.0 < most_groups) × AreAtMost 1 part.1) }
        ensures { result ≡ record {
          at = at;
          minus = minus;
          plus = plus;
          current = current;
          irq = 0;
          account = None;
        } }
    {
        let (first, taken) = pack_part(minus);
        let (second, added) = pack_part(plus);
        PackedChange {
            at,
            first,
            second,
            current: Running::of(current),
            bits: 16 * taken + added,
            kind: Kind::Task,
        }
    }

    // Packs a change that has only interrupt time. The function isn't inlined, because this case is
    // rare.
    #[inline(never)]
    fn of_irq(at: Ns, current: Option<(Slot, bool)>, irq: u64) -> PackedChange
        requires running { IfSome current (λ current. current.0.0 < most_groups) }
        requires short { irq ≤ longest_irq }
        ensures { result ≡ record {
          at = at;
          minus = None;
          plus = None;
          current = current;
          irq = irq;
          account = None;
        } }
    {
        PackedChange {
            at,
            first: (irq % 65_536) as u16,
            second: (irq / 65_536) as u16,
            current: Running::of(current),
            bits: 0,
            kind: Kind::Irq,
        }
    }

    // Packs a change that only turns accounting on or off. The function isn't inlined, because this
    // case is rare.
    #[inline(never)]
    fn of_account(at: Ns, current: Option<(Slot, bool)>, account: (Slot, bool)) -> PackedChange
        requires running { IfSome current (λ current. current.0.0 < most_groups) }
        requires low { account.0.0 < most_groups }
        ensures { result ≡ record {
          at = at;
          minus = None;
          plus = None;
          current = current;
          irq = 0;
          account = Some account;
        } }
    {
        let (slot, on) = account;
        PackedChange {
            at,
            first: slot.0 as u16,
            second: 0,
            current: Running::of(current),
            bits: 0,
            kind: if on {
                Kind::SwitchedOn
            } else {
                Kind::SwitchedOff
            },
        }
    }

    /// Returns the time (ns) of the change.
    #[inline(always)]
    pub fn at(&self) -> Ns
        ensures { result ≡ self.now.at }
    {
        self.at
    }

    /// Returns the counts that the change subtracts, with their slot, or `None` if the change
    /// subtracts no counts.
    pub fn minus(&self) -> Option<(Slot, Counts)>
        ensures { result ≡ self.now.minus }
    {
        match self.kind {
            Kind::Task => unpack_part(self.first, self.bits / 16),
            Kind::Irq | Kind::SwitchedOn | Kind::SwitchedOff => None,
        }
    }

    /// Returns the counts that the change adds, with their slot, or `None` if the change adds no
    /// counts.
    pub fn plus(&self) -> Option<(Slot, Counts)>
        ensures { result ≡ self.now.plus }
    {
        match self.kind {
            Kind::Task => unpack_part(self.second, self.bits % 16),
            Kind::Irq | Kind::SwitchedOn | Kind::SwitchedOff => None,
        }
    }

    /// Returns the slot of the task that runs after the change, and whether the task is in a memory
    /// stall. Returns `None` if no task runs.
    pub fn current(&self) -> Option<(Slot, bool)>
        ensures { result ≡ self.now.current }
    {
        self.current.get()
    }

    /// Returns the time (ns) that interrupts took, or 0 if the change has no interrupt time.
    #[inline(always)]
    pub fn irq(&self) -> u64
        ensures { result ≡ self.now.irq }
    {
        match self.kind {
            Kind::Irq => u64::from(self.first) + 65_536 * u64::from(self.second),
            Kind::Task | Kind::SwitchedOn | Kind::SwitchedOff => 0,
        }
    }

    /// Returns the slot of the group whose accounting the change turns on or off, and whether it is
    /// on afterwards. Returns `None` if the change doesn't concern accounting.
    #[inline(always)]
    pub fn account(&self) -> Option<(Slot, bool)>
        ensures { result ≡ self.now.account }
    {
        match self.kind {
            Kind::SwitchedOn => Some((Slot(u32::from(self.first)), true)),
            Kind::SwitchedOff => Some((Slot(u32::from(self.first)), false)),
            Kind::Task | Kind::Irq => None,
        }
    }

    /// Unpacks the change.
    pub fn change(&self) -> Change
        ensures { result ≡ self.now }
    {
        Change {
            at: self.at(),
            minus: self.minus(),
            plus: self.plus(),
            current: self.current(),
            irq: self.irq(),
            account: self.account(),
        }
    }

    /// Returns the heights of the slots with the subtracted and the added counts. The height of a
    /// slot is its number plus one, and 0 if the change has no such slot. Returns `None` if the
    /// change doesn't concern a task.
    #[inline(always)]
    pub(crate) fn heights(&self) -> Option<(u64, u64)>
        ensures task { IfSome result (λ _. self.now.account ≡ None) }
        ensures minus { IfSome result (λ heights. heights.0 ≡ height (slot_in self.now.minus)) }
        ensures plus { IfSome result (λ heights. heights.1 ≡ height (slot_in self.now.plus)) }
    {
        match self.kind {
            Kind::Task => Some((u64::from(self.first), u64::from(self.second))),
            Kind::Irq | Kind::SwitchedOn | Kind::SwitchedOff => None,
        }
    }

    /// Returns the counts that the change subtracts, which are zeros if it subtracts none.
    #[inline(always)]
    pub(crate) fn taken(&self) -> Part
        ensures { result ≡ counts_in self.now.minus }
    {
        Part::of(self.bits / 16)
    }

    /// Returns the counts that the change adds, which are zeros if it adds none.
    #[inline(always)]
    pub(crate) fn added(&self) -> Part
        ensures { result ≡ counts_in self.now.plus }
    {
        Part::of(self.bits % 16)
    }

    /// Returns the running task after the change, packed into two bytes.
    #[inline(always)]
    pub(crate) fn running(&self) -> &Running
        ensures { result.now ≡ self.now.current }
    {
        &self.current
    }
}

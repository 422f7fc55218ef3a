//! The running task of a processor, packed into two bytes. Packed changes store running tasks in
//! this form.

ghost use Rattle.std.specs.Prelude.{◌≡◌, ◌<◌, true, None, IfSome};
ghost use Rattle.psi_counts.specs.Touch.{is_current_stalled};
ghost use Rattle.psi_spec.specs.World.{most_groups};
ghost use Rattle.slot_clocks.specs.Walk.{height, slot_in};

use psi_base::Slot;
use std::marker::Model;

/// The running task of a processor, or no task. A task is represented by its slot and whether it is
/// in a memory stall. In contracts this is an `Option`.
///
/// The stored number is twice the height of the slot (the slot's number plus one), plus one if the
/// task is in a memory stall. It is 0 for no task.
#[derive(Drop)]
pub(crate) struct Running(u16);

impl Model for Running {
    ghost use Rattle.std.specs.Prelude.{Bool, Option};
    ghost use Rattle.psi_base.specs.declared.event.Slot.{Slot};
    ghost use Rattle.slot_clocks.specs.Bits.{IsRunning, running_by};

    ghost Value = { Option (Slot × Bool) };

    ghost view = { λ running. running_by running.0 };

    ghost invariant = { λ running. IsRunning running.0 };
}

impl Running {
    /// Returns the value that represents no running task.
    pub(crate) fn none() -> Running
        ensures { result ≡ None }
    {
        Running(0)
    }

    /// Packs the running task, or `None` if no task is running. Precondition: the task's slot is
    /// less than 1,024.
    #[inline(always)]
    pub(crate) fn of(current: Option<(Slot, bool)>) -> Running
        requires { IfSome current (λ running. running.0.0 < most_groups) }
        ensures { result ≡ current }
    {
        match current {
            Some((slot, stalled)) => Running(2 * (slot.0 as u16 + 1) + u16::from(stalled)),
            None => Running(0),
        }
    }

    /// Returns a copy of the packed running task.
    #[inline(always)]
    pub(crate) fn again(&self) -> Running
        ensures { result ≡ self.now }
    {
        Running(self.0)
    }

    /// Unpacks the running task. Returns `None` if no task is running.
    pub(crate) fn get(&self) -> Option<(Slot, bool)>
        ensures { result ≡ self.now }
    {
        let height = self.0 / 2;
        if height == 0 {
            return None;
        }
        Some((Slot(u32::from(height) - 1), self.0 % 2 == 1))
    }

    /// Returns the height of the running task's slot (its number plus one), at which the walk over
    /// the group and its ancestors starts. Returns 0 if no task is running.
    #[inline(always)]
    pub(crate) fn height(&self) -> u64
        ensures { result ≡ height (slot_in self.now) }
    {
        u64::from(self.0 / 2)
    }

    /// Returns whether a task is running and is in a memory stall.
    #[inline(always)]
    pub(crate) fn is_stalled(&self) -> bool
        ensures { result ≡ is_current_stalled self.now }
    {
        self.0 % 2 == 1
    }

    /// Returns whether both values represent the same slot and the same stall, or both represent no
    /// task.
    #[inline(always)]
    pub(crate) fn is_same(&self, other: &Running) -> bool
        ensures { result ≡ true → self.now ≡ other.now }
    {
        self.0 == other.0
    }
}

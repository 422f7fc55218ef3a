//! A set of states of a group, stored as the bits of a byte. The module `states` computes the
//! states from counts of tasks.

ghost use Rattle.std.specs.Prelude.{◌≡◌, ◌^◌};
ghost use Rattle.psi_base.specs.declared.event.State.{State};
ghost use Rattle.psi_counts.specs.Counts.{IsMask, mask_holds};
ghost use Rattle.psi_spec.specs.Stall.{state_number};

use psi_base::State;
use std::marker::Model;

/// A set of states with one bit for each state, like the kernel's `state_mask`. In contracts a mask
/// is the number with these bits, so two masks with the same states are equal.
#[derive(Clone, Copy, Debug, PartialEq, Eq)]
pub struct Mask(u8);

impl Model for Mask {
    ghost use Rattle.std.specs.Prelude.{ℕ};
    ghost use Rattle.psi_counts.specs.Counts.{IsMask};

    ghost Value = { ℕ };

    ghost view = { λ mask. mask.0 };

    ghost invariant = { λ mask. IsMask mask.0 };

    ghost inverse = { λ bits. record { 0 = bits } };
}

fn bit(state: State) -> u8
    ensures { result ≡ 2 ^ state_number state }
{
    1 << state as u8
}

impl Mask {
    /// Returns the empty mask.
    pub fn empty() -> Mask
        ensures { result ≡ 0 }
    {
        Mask(0)
    }

    /// Returns the mask with these bits. Precondition: only the lower seven bits are set, one for
    /// each state.
    pub fn from_bits(bits: u8) -> Mask
        requires { IsMask bits }
        ensures { result ≡ bits }
    {
        Mask(bits)
    }

    /// Returns the bits of the mask. Bit `n` is set if the state with the number `n` is in the
    /// mask.
    pub fn bits(self) -> u8
        ensures value { result ≡ self }
        ensures few { IsMask result }
    {
        self.0
    }

    /// Returns whether `state` is in the mask.
    pub fn holds(self, state: State) -> bool
        ensures { result ≡ mask_holds self state }
    {
        self.0 & bit(state) != 0
    }
}

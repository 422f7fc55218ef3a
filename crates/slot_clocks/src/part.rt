//! The counts that a change subtracts or adds, stored in four bits. Four bits suffice, because each
//! count of a single task is 0 or 1.

ghost use Rattle.std.specs.Prelude.{◌≡◌, ◌<◌, if◌then◌else◌};
ghost use Rattle.psi_counts.specs.Touch.{AreAtMost, no_counts};
ghost use Rattle.slot_clocks.specs.Bits.{counts_by};

use psi_counts::Counts;
use std::marker::Model;

// The counts that each number from 0 to 15 represents: four entries for each number, in the order
// of the fields of `Counts`. The table consists of plain numbers, because a table of structs would
// be rebuilt at each use.
const COUNTS: [u32; 64] = [
    0, 0, 0, 0, 1, 0, 0, 0, 0, 1, 0, 0, 1, 1, 0, 0, 0, 0, 1, 0, 1, 0, 1, 0, 0, 1, 1, 0, 1, 1, 1, 0,
    0, 0, 0, 1, 1, 0, 0, 1, 0, 1, 0, 1, 1, 1, 0, 1, 0, 0, 1, 1, 1, 0, 1, 1, 0, 1, 1, 1, 1, 1, 1, 1,
];

/// Returns the counts as four bits. Precondition: each count is at most 1.
#[inline(always)]
pub(crate) fn bits_of(counts: &Counts) -> u8
    requires { AreAtMost 1 counts.now }
    ensures few { result < 16 }
    ensures counts { counts_by result ≡ counts.now }
{
    (counts.io + 2 * counts.stalled + 4 * counts.running + 8 * counts.stalled_running) as u8
}

/// Returns the counts that four bits represent.
#[inline(always)]
pub(crate) fn counts_at(bits: u8) -> Counts
    requires { bits < 16 }
    ensures { result ≡ counts_by bits }
{
    let place = 4 * usize::from(bits);
    Counts {
        io: COUNTS[place],
        stalled: COUNTS[place + 1],
        running: COUNTS[place + 2],
        stalled_running: COUNTS[place + 3],
    }
}

/// The counts that a change subtracts, or the counts that it adds. In contracts this is a value of
/// type `Counts`.
///
/// The method `at` looks up the counts for a group in a table. The index is the part's bits if the
/// walk on the part's chain has reached the group, and 0 (all counts are zero) if it hasn't. The
/// table replaces a branch on the order of the four chains, which processors predict badly.
#[derive(Drop)]
pub(crate) struct Part(u8);

impl Model for Part {
    ghost use Rattle.std.specs.Prelude.{◌<◌};
    ghost use Rattle.psi_counts.specs.declared.changes.Counts.{Counts};
    ghost use Rattle.slot_clocks.specs.Bits.{counts_by};

    ghost Value = { Counts };

    ghost view = { λ part. counts_by part.0 };

    ghost invariant = { λ part. part.0 < 16 };
}

impl Part {
    /// Creates the part with the counts that the four bits `bits` represent.
    #[inline(always)]
    pub(crate) fn of(bits: u8) -> Part
        requires { bits < 16 }
        ensures { result ≡ counts_by bits }
    {
        Part(bits)
    }

    /// Returns this part's counts if `here` is true, and zeros if it is false. `here` is whether
    /// the walk on this part's chain has reached the group.
    #[inline(always)]
    pub(crate) fn at(&self, here: bool) -> Counts
        ensures { result ≡ (if here then self.now else no_counts) }
    {
        counts_at(if here { self.0 } else { 0 })
    }
}

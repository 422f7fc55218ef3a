//! The counts of tasks, the accounting and the clock of one group on one processor. The module
//! `chains` finds the groups that a change affects.

ghost use Rattle.std.specs.Prelude.{◌≡◌, ◌&&◌, ◌+◌, ◌<◌, ◌≤◌, ◌^◌};
ghost use Rattle.psi_base.specs.declared.event.State.{State};
ghost use Rattle.psi_counts.specs.Clock.{ClockFollows};
ghost use Rattle.psi_counts.specs.Counts.{IsMask, mask_holds, shows};
ghost use Rattle.psi_spec.specs.Within.{last_moment};
ghost use Rattle.psi_counts.specs.Touch.{Follows};
ghost use Rattle.slot_clocks.specs.Clocks.{CanFollow, IsUpTo, StaysByMask, zero_cell};

use cpu_clock::Clock;
use psi_base::Ns;
use state_mask::{Counts, Mask, mask_of};

pub(crate) const NO_COUNTS: Counts = Counts {
    io: 0,
    stalled: 0,
    running: 0,
    stalled_running: 0,
};

/// The counts and the clock of a group on a processor. Both are also updated while the group's
/// accounting is off, but the group is then in no state.
#[derive(Clone, Copy, Debug)]
pub(crate) struct Cell {
    pub(crate) counts: Counts,
    /// Whether the group's pressure accounting is on.
    pub(crate) on: bool,
    pub(crate) clock: Clock,
}

fn moved(count: u32, minus: u32, plus: u32) -> u32
    requires taken { minus ≤ count + plus }
    requires fits { count + plus < 2 ^ 32 }
    ensures { result + minus ≡ count + plus }
{
    count + plus - minus
}

/// Returns the counts after a change that subtracts `minus` and adds `plus`.
fn follow(counts: &Counts, minus: &Counts, plus: &Counts) -> Counts
    requires { CanFollow counts.now minus.now plus.now }
    ensures { Follows counts.now minus.now plus.now result }
{
    Counts {
        io: moved(counts.io, minus.io, plus.io),
        stalled: moved(counts.stalled, minus.stalled, plus.stalled),
        running: moved(counts.running, minus.running, plus.running),
        stalled_running: moved(
            counts.stalled_running,
            minus.stalled_running,
            plus.stalled_running,
        ),
    }
}

impl Cell {
    /// Returns the counts and the clock of a group before the first change.
    pub(crate) fn zero() -> Cell
        ensures { result ≡ zero_cell }
    {
        Cell {
            counts: NO_COUNTS,
            on: true,
            clock: Clock::zero(),
        }
    }

    // Returns the states that the group is in, or no state if its accounting is off. `on_cpu` is
    // whether the running task is in the group or below it. `current_stalled` is whether the
    // running task is in a memory stall.
    #[inline(always)]
    fn mask(&self, on_cpu: bool, current_stalled: bool) -> Mask
        ensures few { IsMask result }
        ensures states { (state : State) →
            mask_holds result state
            ≡ (self.now.on && shows state self.now.counts on_cpu current_stalled) }
    {
        if self.on {
            mask_of(&self.counts, on_cpu, current_stalled)
        } else {
            Mask::empty()
        }
    }

    /// Applies a change at the time `at` (ns), which subtracts `minus` from the group's counts and
    /// adds `plus`. After the change, `on_cpu` is whether the running task is in the group or below
    /// it, and `current_stalled` whether the running task is in a memory stall. The clock stays the
    /// same if the group's states stay the same.
    #[inline(always)]
    pub(crate) fn turn(
        &mut self,
        at: Ns,
        minus: &Counts,
        plus: &Counts,
        on_cpu: bool,
        current_stalled: bool,
    )
        requires fits { CanFollow self.old.counts minus.now plus.now }
        requires up_to { IsUpTo at self.old.clock }
        requires early { at ≤ last_moment }
        ensures counts { Follows self.old.counts minus.now plus.now self.new.counts }
        ensures on { self.new.on ≡ self.old.on }
        ensures clock { ClockFollows self.old.clock at self.new.clock }
        ensures unchanged { StaysByMask self.old.clock self.new.clock }
        ensures up_to { IsUpTo at self.new.clock }
        ensures known { (state : State) →
            mask_holds self.new.clock.mask state
            ≡ (self.new.on && shows state self.new.counts on_cpu current_stalled) }
    {
        self.counts = follow(&self.counts, minus, plus);
        let mask = self.mask(on_cpu, current_stalled);
        self.clock.turn(at, mask);
    }
}

//! The clock of one group on one processor, with functions that read it, advance it, and convert it
//! to nine words.

ghost use Rattle.std.specs.Prelude.{◌≡◌, if◌then◌else◌};
ghost use Rattle.psi_counts.specs.Clock.{AreWordsOfClock, ClockFollows, IsInTime, IsWholeClock, advanced, opened, opened_time, words_of, zero_clock};

use psi_base::{Ns, State};
use state_mask::{Mask, STATES};
use std::marker::Model;

/// The time that a group was in each state on a processor. The fields correspond to `times`,
/// `state_mask` and `state_start` of the kernel's `psi_group_cpu`. A clock may skip a change that
/// leaves the states unchanged, so clocks with different fields can be equivalent. Therefore clocks
/// have no `==`.
#[derive(Clone, Copy, Debug)]
pub struct Clock {
    /// The time (ns) that the group was in each state up to `start`, ordered by state.
    pub times: [u64; 7],
    /// The mask: the states that the group has been in since `start`.
    pub mask: Mask,
    /// The time (ns) since which the group has been in the states of the mask. Later changes left
    /// the mask unchanged.
    pub start: Ns,
}

impl Model for Clock {
    ghost use Rattle.std.specs.Prelude.{◌≡◌, length};
    ghost use Rattle.psi_counts.specs.Clock.{ClockView};

    ghost Value = { ClockView };

    ghost view = { λ clock.
        record { times = clock.times; mask = clock.mask; start = clock.start } };

    ghost invariant = { λ clock. length clock.times ≡ 7 };

    ghost inverse = { λ clock.
        record { times = clock.times; mask = clock.mask; start = clock.start } };
}

/// The index of the mask among the nine words of a clock. The mask follows the seven times.
const MASK_WORD: usize = 7;

/// The index of the start among the nine words of a clock.
const START_WORD: usize = 8;

/// Returns `time` if `held` is true, and 0 if it is false. `time` is the time (ns) since a clock's
/// start, and `held` is whether a state is in the clock's mask. The function avoids a branch on
/// `held`, which processors predict badly.
fn open_time(held: bool, time: u64) -> u64
    ensures { result ≡ (if held then time else 0) }
{
    u64::from(held) * time
}

impl Clock {
    /// Returns the clock at time 0, whose mask is empty.
    pub fn zero() -> Clock
        ensures { result ≡ zero_clock }
    {
        Clock {
            times: [0; 7],
            mask: Mask::empty(),
            start: 0,
        }
    }

    /// Returns the time (ns) that the group was in `state` up to the time `at` (ns). Precondition:
    /// the same as for [`Clock::opened`].
    fn opened_time(&self, at: Ns, state: State) -> u64
        requires { IsInTime self.now at }
        ensures { result ≡ opened_time self.now at state }
    {
        let open = open_time(self.mask.holds(state), at - self.start);
        self.times[state as usize] + open
    }

    /// Returns the time (ns) that the group was in each state up to the time `at` (ns), ordered by
    /// state. The time since the clock's start counts for the states in the mask. The kernel's
    /// `get_recent_times` does the same, and then subtracts the times of its last call.
    ///
    /// Precondition: `at` isn't before the clock's start, and neither `at` nor the clock's times
    /// are greater than the latest time of a trace.
    pub fn opened(&self, at: Ns) -> [u64; 7]
        requires { IsInTime self.now at }
        ensures { result ≡ opened self.now at }
    {
        // Most groups are idle on most processors, so an empty mask is checked first.
        if self.mask.bits() == 0 {
            return self.times;
        }
        STATES.map(|state| self.opened_time(at, state))
    }

    /// Advances the clock to the time `at` (ns). From then on, the group is in the states of
    /// `mask`. In the same way, the kernel calls `record_times` and then sets the new mask.
    /// Precondition: the same as for [`Clock::opened`].
    pub fn advance(&mut self, at: Ns, mask: Mask)
        requires { IsInTime self.old at }
        ensures { self.new ≡ advanced self.old at mask }
    {
        self.times = self.opened(at);
        self.mask = mask;
        self.start = at;
    }

    /// Applies a change of the clock's processor at the time `at` (ns), from which the group is in
    /// the states of `mask`. If the mask stays the same, the clock stays the same. Precondition:
    /// the same as for [`Clock::opened`].
    ///
    /// So if the clock is correct for a group before a change, and `mask` has the group's states
    /// after it, the clock is also correct after the change. See [`plan_laws::law_plan_clocks`].
    pub fn turn(&mut self, at: Ns, mask: Mask)
        requires { IsInTime self.old at }
        ensures mask { self.new.mask ≡ mask }
        ensures follows { ClockFollows self.old at self.new }
        ensures unchanged { mask ≡ self.old.mask → self.new ≡ self.old }
        ensures whole { IsWholeClock self.new }
    {
        if mask.bits() != self.mask.bits() {
            self.advance(at, mask);
        }
    }

    /// Returns the clock as nine words: the times ordered by state, the mask and the start.
    pub fn to_words(&self) -> [u64; 9]
        ensures words { result ≡ words_of self.now }
        ensures of_clock { AreWordsOfClock result }
    {
        let mut words = [0; 9];
        words[..MASK_WORD].copy_from_slice(&self.times);
        words[MASK_WORD] = u64::from(self.mask.bits());
        words[START_WORD] = self.start;
        words
    }

    /// Returns the clock with these nine words. Precondition: the words represent a clock, for
    /// example because [`Clock::to_words`] returned them. The function doesn't check the
    /// precondition.
    pub fn from_words(words: [u64; 9]) -> Clock
        requires { AreWordsOfClock words }
        ensures { words_of result ≡ words }
    {
        let mut times = [0; 7];
        times.copy_from_slice(&words[..MASK_WORD]);
        Clock {
            times,
            mask: Mask::from_bits(words[MASK_WORD] as u8),
            start: words[START_WORD],
        }
    }
}

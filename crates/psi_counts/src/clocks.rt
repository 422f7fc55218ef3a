//! Laws about the states that counts of tasks determine, about masks (sets of states), and about
//! clocks. Each function has an empty body: its contract is the law.

ghost use Rattle.psi_counts.specs.Clock.{NoLongerThanClock, SameAfterChange, SameMaskIsNoChange, WordsShowClock};
ghost use Rattle.psi_counts.specs.Counts.{CountsShow, MasksAreTheirStates};

/// If at most one task of a list is running, the states that follow from the counts of the tasks
/// are the states that psi_spec defines by the tasks themselves.
pub fn law_states_by_counts()
    ensures { CountsShow }
{}

/// Two masks are equal if they contain the same states.
pub fn law_masks()
    ensures { MasksAreTheirStates }
{}

/// The time in a state is never longer than the time that has passed since the start of the trace.
/// If this is true at a clock's start, it is also true at any later time.
pub fn law_clock_times()
    ensures { NoLongerThanClock }
{}

/// Advancing a clock with an unchanged mask gives an equivalent clock. Equivalent clocks are equal
/// after they are advanced to the same time with the same mask.
pub fn law_same_clocks()
    ensures no_change { SameMaskIsNoChange }
    ensures same_after { SameAfterChange }
{}

/// Two clocks are equal if their words are equal. The words of a clock are its times, its mask and
/// its start.
pub fn law_clock_words()
    ensures { WordsShowClock }
{}

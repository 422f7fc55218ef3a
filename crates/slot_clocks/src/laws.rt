//! A law of the clocks of a processor before the first change. The function has an empty body: its
//! contract is the law.

ghost use Rattle.slot_clocks.specs.Clocks.{FirstAreKnown};

/// Before the first change each group is in no state, and its mask is empty. This doesn't depend on
/// the parents of the groups.
pub fn law_first_clocks()
    ensures { FirstAreKnown }
{}

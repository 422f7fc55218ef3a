//! Laws of a trace at a given time: stall time, interrupt time, live groups and triggers. Each
//! function has an empty body: its contract is the law.
ghost use Rattle.plan_laws.specs.Moments.{GroupsKeepSlots, IrqGrows, IrqIsWithin, LivesAreInOrder, LivesShowLive, NoIrqAtFirst, NoStallAtFirst, OrderShowsLive, OrderShowsSlots, StallGrows, StallIsWithin, TriggersAreInOrder, TriggersAreOnGroups, TriggersAreWithin, TriggersUpTo};

/// Between two times, stall time never decreases, and grows by at most the elapsed time. The stall
/// time up to a time is at most that time, and is 0 at time 0.
pub fn law_growth()
    ensures grows { StallGrows }
    ensures within { StallIsWithin }
    ensures none { NoStallAtFirst }
{}

/// Between two times, interrupt time never decreases, and grows by at most the elapsed time plus
/// one second. The interrupt time up to a time is at most that time, and is 0 at time 0. The laws
/// require at most 64 processors, because the time of the last `irq` line is stored only for them.
pub fn law_irq_growth()
    ensures grows { IrqGrows }
    ensures within { IrqIsWithin }
    ensures none { NoIrqAtFirst }
{}

/// The groups after all events determine the groups at any earlier time: which groups were live,
/// and that the groups created up to the time have the same slots, paths and parents. A group is
/// live from its creation to its removal, and neither is later than the last event.
pub fn law_lives()
    ensures live { LivesShowLive }
    ensures lives { LivesAreInOrder }
    ensures slots { GroupsKeepSlots }
{}

/// Sorting all groups of a trace by path once is enough. The live groups at any time, in path
/// order, are the groups of this order that are live at that time. At most one live group has a
/// given path, so the order of groups with equal paths doesn't matter.
pub fn law_path_order()
    ensures live { OrderShowsLive }
    ensures slots { OrderShowsSlots }
{}

/// The triggers of a trace are within the limits, their times never decrease, and each was set on a
/// group that existed. The triggers of the events up to a time are the triggers set up to that
/// time.
pub fn law_triggers()
    ensures within { TriggersAreWithin }
    ensures order { TriggersAreInOrder }
    ensures up_to { TriggersUpTo }
    ensures groups { TriggersAreOnGroups }
{}

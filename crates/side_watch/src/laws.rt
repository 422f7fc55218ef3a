//! Laws about side events: memory samples, preferences, and tasks that join or leave groups.
//!
//! Each function has an empty body: its contract is the law, and the proof shows that the law
//! holds.

ghost use Rattle.side_watch.specs.Laws.{HostIsLastSide, MemoryIsLastSide};
ghost use Rattle.side_watch.specs.Laws.{PopulatedIsCounted, PreferenceIsLastSide};

/// The last memory sample of a group in the side events of a trace is the last one in all its
/// events. This also holds for the last preference of a group and the last sample of the host's
/// memory. A group is populated if and only if there are live tasks in it or in its descendants.
pub fn law_sides_show()
    ensures memory { MemoryIsLastSide }
    ensures preference { PreferenceIsLastSide }
    ensures host { HostIsLastSide }
    ensures populated { PopulatedIsCounted }
{}

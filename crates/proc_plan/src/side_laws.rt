//! Laws of the side events of a trace: memory samples, preferences, and tasks that join or leave
//! groups. Each function has an empty body: its contract is the law.

ghost use Rattle.proc_plan.specs.SideLaws.{MembersAreKnown, SidesAreInOrder, SidesAreOnGroups, SidesUpTo};

/// The side events of a trace are in order of time, and they name existing slots. The side events
/// up to any time are determined by the events up to this time. The number of tasks in a group
/// itself (without its descendants) is the number of tasks that joined the group minus the number
/// that left it. It is at most 65,536.
pub fn law_sides()
    ensures up_to { SidesUpTo }
    ensures order { SidesAreInOrder }
    ensures slots { SidesAreOnGroups }
    ensures members { MembersAreKnown }
{}

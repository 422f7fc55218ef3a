//! Laws about a trace from which the tasks of a killed group are removed.
//!
//! Each function has an empty body: its contract is the law, and the proof shows that the law
//! holds.
ghost use Rattle.whatif_trace.specs.Laws.{ExitsLeaveNone, WithoutIsAccepted, WorldsWithout};

/// If a trace is accepted, the trace without the tasks of a killed group is also accepted, unless
/// it has too many events.
pub fn law_without()
    ensures { WithoutIsAccepted }
{}

/// For a kill before the end of an accepted trace, if not too many events remain: after the events
/// by which the killed group's tasks exit, none of these tasks is live. After each later event of
/// the original trace, the scheduler state of the new trace is the state of the original trace
/// without these tasks. Only the number of lines and the time of the last event may also differ.
pub fn law_worlds_without()
    ensures exits { ExitsLeaveNone }
    ensures worlds { WorldsWithout }
{}

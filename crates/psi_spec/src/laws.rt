//! Laws about stall time and interrupt time. Each function has an empty body: its contract is the
//! law.

ghost use Rattle.psi_spec.specs.Laws.{GrowsByEvent, GrowsWithTime, IrqByEvent};

/// The stall time is the total time between events during which the group is in the state. After
/// the last event it grows with time if and only if the group is in the state.
pub fn law_stall_time()
    ensures by_event { GrowsByEvent }
    ensures with_time { GrowsWithTime }
{}

/// Appending an event to a trace increases a group's interrupt time by the time that the event adds
/// (`irq_from`).
pub fn law_irq_time()
    ensures { IrqByEvent }
{}

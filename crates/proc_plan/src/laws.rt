//! Laws of the plans that a planner builds. Each function has an empty body: its contract is the
//! law.

ghost use Rattle.proc_plan.specs.Plans.{EndedIsAccepted, PlansAreOfEvents};

/// If plans represent a trace's events, the plan of each processor is the result of `plan_of`
/// (plan_laws) for these events. So the laws of plan_laws apply to that plan.
pub fn law_standing_plans()
    ensures { PlansAreOfEvents }
{}

/// If the `end` event was added to a planner, all events added to the planner are a complete trace.
pub fn law_ended_traces()
    ensures { EndedIsAccepted }
{}

//! Laws of plans (a plan is the list of the changes on one processor), and of the clocks that plans
//! determine. Each function has an empty body: its contract is the law.
ghost use Rattle.plan_laws.specs.Plan.{AsideStays, ChangesAreNumbered, ChangesUntil, ClockIsInTime, ClockShowsPlanned, CountsByChange, CountsByPlan, CurrentByChange, EmptyIsPlan, FollowedIsClock, KeptIsClock, NoPlannedIrq, OnAtFirst, OnByChange, PlaceOfMoment, PlanCountsAreFew, PlanIsWhole, PlanShowsStates, PlannedAfter, PlannedByChange, PlannedIrqByChange, PlannedIrqFits, PlannedIrqIsIrq, PlannedIrqUntil, PlannedIsStall, PlannedUntil, StallByOwnChanges, StallUpTo, StatesStay, ZeroIsClock};

/// Each event that touches a processor makes one change on it, at the time of the event. The
/// changes are in the order of these events. The events up to change k make exactly the first k
/// changes, and end at the time of change k.
pub fn law_numbered_changes()
    ensures numbered { ChangesAreNumbered }
    ensures until { ChangesUntil }
{}

/// A plan determines the states of each group after each of its changes. An event that doesn't
/// touch the processor leaves the states there unchanged.
pub fn law_plan_states()
    ensures states { PlanShowsStates }
    ensures stay { StatesStay }
{}

/// The plan of legal events satisfies the invariant `IsPlan`. The number of changes, the task
/// counts and the interrupt time are within their limits. The times of the changes never decrease,
/// and are limited too. Each change subtracts and adds the counts of at most one task each, and
/// names existing slots. Each parent has a smaller slot than its child. The empty plan satisfies
/// the invariant too.
pub fn law_whole_plans()
    ensures whole { PlanIsWhole }
    ensures empty { EmptyIsPlan }
{}

/// Laws of a single change of a plan. The counts after the change follow from the counts before it,
/// and stay within the limit. The running task after the change is the task that the change names.
/// Accounting is on before the first change, and a switch in a change turns it on or off. The
/// states of a group that the change doesn't affect stay the same. The times of two successive
/// changes give the number of changes up to a time between them.
pub fn law_plan_steps()
    ensures counts { CountsByChange }
    ensures few { PlanCountsAreFew }
    ensures current { CurrentByChange }
    ensures on { OnByChange }
    ensures first { OnAtFirst }
    ensures aside { AsideStays }
    ensures place { PlaceOfMoment }
{}

/// The time in a state is computed from a plan, one change after another. The time computed from
/// the first k changes is the stall time for the events up to change k.
pub fn law_planned_times()
    ensures by_change { PlannedByChange }
    ensures stall { PlannedIsStall }
{}

/// A processor's stall times depend on its own changes alone: events that don't touch the processor
/// don't affect them. The times of the processor's changes give the number of changes up to a time.
pub fn law_own_changes()
    ensures stall { StallByOwnChanges }
    ensures up_to { StallUpTo }
    ensures count { CountsByPlan }
{}

/// Before the first change, the clock that consists of zeros is a valid clock of each group. After
/// one more change, a clock that follows the earlier clock and contains the new states is valid.
/// The earlier clock stays valid if the states don't change. A group's clock can be advanced to any
/// time at or after the last change, and shows the times computed from the plan.
pub fn law_plan_clocks()
    ensures zero { ZeroIsClock }
    ensures followed { FollowedIsClock }
    ensures unchanged { KeptIsClock }
    ensures in_time { ClockIsInTime }
    ensures shows { ClockShowsPlanned }
{}

/// The times in the states that are computed from the changes up to a time are the stall times up
/// to that time.
pub fn law_planned_until()
    ensures { PlannedUntil }
{}

/// The times in the states that are computed from the first k changes are the stall times for the
/// events up to change k.
pub fn law_planned_after()
    ensures { PlannedAfter }
{}

/// The interrupt time that is computed from a plan is 0 at first, grows with each change, and is at
/// most the time of the last change.
pub fn law_planned_irq()
    ensures none { NoPlannedIrq }
    ensures by_change { PlannedIrqByChange }
    ensures fits { PlannedIrqFits }
{}

/// The interrupt time that is computed from the first k changes is the interrupt time for the
/// events up to change k. For the changes up to a time, it is the interrupt time up to that time.
pub fn law_irq_times()
    ensures irq { PlannedIrqIsIrq }
    ensures until { PlannedIrqUntil }
{}

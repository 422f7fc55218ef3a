//! Laws of the output of a replay, which grows tick by tick. Each function has an empty body: its
//! contract is the law.
ghost use Rattle.run_laws.specs.Live.{NoTextAtFirst, OneTextMore, OneTextUnwatched, SlotByLives, TextsGoOn, WholeText};
ghost use Rattle.run_laws.specs.Reports.{ReportsByOrder};
ghost use Rattle.run_laws.specs.Ticking.{KillsMore, SignalsMore, TextMore, TicksFollow, TicksMore};

/// Each tick of an accepted trace is a valid successor of the previous tick. No time decreases. The
/// time in a state grows by at most the time between the two ticks, and interrupt time grows by at
/// most one second more than that.
pub fn law_next_tick()
    ensures { TicksFollow }
{}

/// The next tick appends its table, its trigger signals, its kills and its lines to those of the
/// previous ticks.
pub fn law_one_tick_more()
    ensures ticks { TicksMore }
    ensures signals { SignalsMore }
    ensures kills { KillsMore }
    ensures text { TextMore }
{}

/// The reports of a tick can be computed slot by slot, if all slots are visited in the byte order
/// of their paths. Slots with equal paths may be in any order.
pub fn law_reports()
    ensures { ReportsByOrder }
{}

/// The list of all groups at the end of a trace determines which slot a path has at each time.
pub fn law_live_slot()
    ensures { SlotByLives }
{}

/// Laws of the output with live lines. There is no output before the first tick. The next tick
/// appends its lines. After all ticks the last line completes the output. The output of the first
/// ticks can always be extended to a complete output.
pub fn law_live_texts()
    ensures more { OneTextMore }
    ensures whole { WholeText }
    ensures on { TextsGoOn }
    ensures none { NoTextAtFirst }
{}

/// If no group is watched, there is exactly one possible output.
pub fn law_unwatched()
    ensures { OneTextUnwatched }
{}

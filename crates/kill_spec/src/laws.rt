//! Laws about detectors, choices, victims and kills. Each function has an empty body: its contract
//! is the law.
ghost use Rattle.kill_spec.specs.Choices.{LargestIsChoice, UnbeatenIsChoice};
ghost use Rattle.kill_spec.specs.Laws.{BreakStartsAnew, HeldForShows, HoldsAtOnce, LongerIsLater, EndingsApart, EndsOnce, KillsAreOfActions, DescentEnds, VictimsMatch};

/// A condition has been true for a duration if and only if it was true at some reading at least
/// that much earlier, and at every later reading. For a duration of 0 only the current reading
/// counts. A reading at which the condition is false restarts the duration. A condition that has
/// been true for a duration has been true for every shorter duration.
pub fn law_durations()
    ensures shows { HeldForShows }
    ensures at_once { HoldsAtOnce }
    ensures anew { BreakStartsAnew }
    ensures later { LongerIsLater }
{}

/// The choice by a ranking value and the choice of the largest group are `None` if and only if the
/// list is empty. A chosen group is beaten by no other group of the list.
pub fn law_choices()
    ensures by_measure { UnbeatenIsChoice }
    ensures largest { LargestIsChoice }
{}

/// A victim, or a descendant of the victim, has a live task. The victim matches the patterns of its
/// action; for a recursive action it may instead be a descendant of a matching group. A recursive
/// action repeats its choice at most once for each group.
pub fn law_victims()
    ensures matching { VictimsMatch }
    ensures ends { DescentEnds }
{}

/// If two kills of a ruleset each ended its chain of actions, they are apart by at least the delay
/// of the first kill's action, and are never at the same reading. A group is killed only as the
/// victim of an action of a ruleset that fires.
pub fn law_kills()
    ensures apart { EndingsApart }
    ensures once { EndsOnce }
    ensures of_actions { KillsAreOfActions }
{}

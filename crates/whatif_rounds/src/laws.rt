//! Laws about the text that a replay prints up to a kill.
//!
//! Each function has an empty body: its contract is the law, and the proof shows that the law
//! holds.
ghost use Rattle.whatif_rounds.specs.Until.{SameUntilKill, SameUntilRound};

/// Removing the tasks of a killed group doesn't change the lines of any tick up to and including
/// the tick of the kill.
pub fn law_until_kill()
    ensures { SameUntilKill }
{}

/// A round removes the victims of one kill from a trace. It doesn't change the printed text up to
/// and including the tick of that kill.
pub fn law_until_round()
    ensures { SameUntilRound }
{}

//! Laws about the rounds of `whatif`, each of which removes one kill's victim from a trace. Each
//! function has an empty body: its contract is the law.
ghost use Rattle.run_spec.specs.Laws.{LastOutgrown, LastWithoutKill, OutgrownAtRound};

/// A round of `whatif` that finds no kill to remove ends with the final trace. The result is an
/// error if and only if too many events remain after some round.
pub fn law_last_trace()
    ensures left { LastWithoutKill }
    ensures outgrown { LastOutgrown }
    ensures at_round { OutgrownAtRound }
{}

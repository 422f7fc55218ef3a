//! Laws of players. A player is a state machine that processes the events of a trace. Each function
//! has an empty body: its contract is the law.
ghost use Rattle.psi_base.specs.declared.event.Event.{Event};
ghost use Rattle.trace_player.specs.Laws.{RefusesForOne, TakesOrRefuses};

use crate::player::Player;

/// A player never both accepts and rejects an event, and rejects an event for exactly one cause.
pub fn law_answers<P: Player>()
    ensures either { (old new : P) (event : Event) →
        TakesOrRefuses (P.Played old) (P.Played new) event }
    ensures cause { (old new : P) (event : Event) →
        RefusesForOne (P.Played old) (P.Played new) event }
{}

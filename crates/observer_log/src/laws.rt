//! The law of the tick board. The function is empty, because its contract is the law.
ghost use Rattle.observer_log.specs.Board.{LastReadIsLast};

/// If an observer was notified of all published states, the state that it reads next is the last
/// published state. This requires that every state that the observer has read was published; the
/// driver checks that when it notifies the observer again.
pub fn law_last_read()
    ensures { LastReadIsLast }
{}

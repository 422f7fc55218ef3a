//! The trait for players. A player is a state machine that processes the events of a trace, and
//! rejects illegal events.
ghost use Rattle.std.specs.Prelude.{◌≡◌, ◌≤◌, List, [], IfOk, false};
ghost use Rattle.psi_base.specs.declared.event.Event.{Event};
ghost use Rattle.psi_spec.specs.Grammar.{Fits};
ghost use Rattle.psi_spec.specs.World.{Limits, after};
ghost use Rattle.psi_spec.specs.Trace.{IsCpuCount};
ghost use Rattle.psi_spec.specs.Within.{last_moment};
ghost use Rattle.trace_player.specs.Playing.{PlayerTakes};
ghost use Rattle.trace_player.specs.TaskActs.{as_event, exits};

use crate::task_act::TaskAct;
use psi_base::{Cause, Event, Fault, NoMemory, Ns};
use std::alloc::Global;

/// A state machine that processes (*plays*) the events of a trace one by one. After it has rejected
/// an event, it must not be used again.
pub trait Player: Sized {
    /// Holds if the player has processed exactly these events of a trace with these limits, and no
    /// other events.
    ghost Played: { Self → Limits → List Event → Type 0 };

    /// Creates a player that has processed no event. The trace has `cpus` processors (1 to 64), and
    /// no event may be later than `latest` (ns).
    fn start(alloc: Global, cpus: u32, latest: Ns) -> Result<Self, NoMemory>
        requires counted { IsCpuCount cpus }
        requires short { latest ≤ last_moment }
        ensures { IfOk result (λ player.
            Self.Played player (record { cpus = cpus; latest = latest }) []) };

    /// Processes the next event. The numbers in the event must be within the ranges of the trace
    /// format. Fails with `Refused` and the first cause if the event isn't legal.
    fn take(&mut self, event: &Event) -> Result<(), Fault<Cause>>
        requires { Fits event.now }
        ensures { PlayerTakes (Self.Played self.old) (Self.Played self.new) event.now result };

    /// Processes a task event (`TaskAct`) at time `at` (ns), like [`Player::take`]. This is the
    /// fast path, because no `Event` is stored. Precondition: the event doesn't make a task exit,
    /// and its numbers are within the ranges of the trace format.
    fn take_task(&mut self, at: Ns, act: TaskAct) -> Result<(), Fault<Cause>>
        requires fits { Fits (as_event at act) }
        requires stays { exits act ≡ false }
        ensures { PlayerTakes (Self.Played self.old) (Self.Played self.new) (as_event at act)
            result };

    /// Returns whether the event `end`, which ends the trace, was processed.
    fn is_ended(&self) -> bool
        ensures { (limits : Limits) (events : List Event) → Self.Played self.now limits events →
            result ≡ (after events).ended };
}

//! Implements the trait `Player` for the planner, for commands that replay a trace. Playing an
//! event adds the event to the plans.

use crate::planner::Planner;
use psi_base::{Cause, Event, Fault, NoMemory, Ns};
use std::alloc::Global;
use trace_player::{Player, TaskAct};

impl Player for Planner {
    ghost use Rattle.proc_plan.specs.Plans.{HasTaken};

    ghost Played = { λ planner limits events. HasTaken planner limits events };

    fn start(alloc: Global, cpus: u32, latest: Ns) -> Result<Self, NoMemory> {
        Planner::new(alloc, cpus, latest)
    }

    #[inline(always)]
    fn take(&mut self, event: &Event) -> Result<(), Fault<Cause>> {
        self.take_other(event)
    }

    #[inline(always)]
    fn take_task(&mut self, at: Ns, act: TaskAct) -> Result<(), Fault<Cause>> {
        Planner::take_task(self, at, act)
    }

    fn is_ended(&self) -> bool {
        Planner::is_ended(self)
    }
}

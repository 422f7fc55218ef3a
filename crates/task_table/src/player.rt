//! Implements the trait `Player` for the table of tasks, so that a trace can be checked by playing
//! its events in order. Unlike the planner of proc_plan, the table doesn't record the changes of
//! processors.

use crate::table::Table;
use psi_base::{Cause, Event, Fault, NoMemory, Ns};
use std::alloc::Global;
use trace_player::{Player, TaskAct};

impl Player for Table {
    ghost use Rattle.trace_player.specs.Playing.{IsPlayed};

    ghost Played = { λ table limits events. IsPlayed table.limits table.world limits events };

    fn start(alloc: Global, cpus: u32, latest: Ns) -> Result<Self, NoMemory> {
        Table::new(alloc, cpus, latest)
    }

    #[inline(always)]
    fn take(&mut self, event: &Event) -> Result<(), Fault<Cause>> {
        Table::play(self, event)
    }

    #[inline(always)]
    fn take_task(&mut self, at: Ns, act: TaskAct) -> Result<(), Fault<Cause>> {
        self.play_task(at, act)
    }

    fn is_ended(&self) -> bool {
        Table::is_ended(self)
    }
}

//! A player that stores the events of a trace. It is meant for callers that need the events
//! themselves, such as the code that removes kills from a trace.
use psi_base::{Cause, Event, Fault, NoMemory, Ns};
use std::alloc::Global;
use task_table::Table;
use trace_player::{Player, TaskAct};
use whatif_trace::copy_event;

/// Plays the events of a trace on a table of tasks, and stores them.
#[derive(Drop)]
pub struct Keeper {
    /// The number of processors of the trace.
    pub cpus: u32,
    /// The events played so far, in order.
    pub events: Vec<Event>,
    table: Table,
    alloc: Global,
}

impl Player for Keeper {
    ghost use Rattle.trace_file.specs.Reads.{HasKept};

    ghost Played = { λ keeper limits events. HasKept
        keeper.cpus keeper.events.items keeper.table.limits keeper.table.world limits events };

    fn start(alloc: Global, cpus: u32, latest: Ns) -> Result<Self, NoMemory> {
        Ok(Keeper {
            cpus,
            events: Vec::new(alloc),
            table: Table::new(alloc, cpus, latest)?,
            alloc,
        })
    }

    fn take(&mut self, event: &Event) -> Result<(), Fault<Cause>> {
        match self.table.play(event) {
            Ok(()) => {}
            Err(fault) => return Err(fault),
        }
        self.events.push(copy_event(self.alloc, event)?)?;
        Ok(())
    }

    fn take_task(&mut self, at: Ns, act: TaskAct) -> Result<(), Fault<Cause>> {
        match self.table.play_task(at, act) {
            Ok(()) => {}
            Err(fault) => return Err(fault),
        }
        self.events.push(act.to_event(at))?;
        Ok(())
    }

    fn is_ended(&self) -> bool {
        self.table.is_ended()
    }
}

//! A simulated machine for the tests: an engine of ticks, and a table of times (ns) that a test
//! sets before each tick. A table has, for each group and processor, the time in each state and the
//! interrupt time.
ghost use Rattle.std.specs.Prelude.{◌≡◌, length};
ghost use Rattle.aggregate.specs.Table.{HaveSameSizes};

use crate::engine::checks::{are_lives, are_triggers, table_grew_within};
use aggregate::Rows;
use pressure_spec::{Amounts, AverageRows, Times};
use psi_base::{Cpu, Ns, Slot, State, TriggerSpec};
use psi_spec::GroupLife;
use std::alloc::Global;
use std::marker::Model;
use std::process::Abort;
use test_support::LAST_MOMENT;
use tick_engine::Engine;

/// The longest tick (ns).
const LONGEST_TICK: Ns = 60_000_000_000;

/// An engine, the table of times of its last tick, and the table that is set for the next tick.
#[derive(Drop)]
pub struct Machine {
    cpus: u32,
    slots: u32,
    at: Ns,
    last: Rows,
    next: Rows,
    engine: Engine,
}

impl Model for Machine {
    ghost use Rattle.tick_engine.specs.Engine.{EngineView};
    ghost use Rattle.pressure_tests.specs.Machine.{IsMachine};

    ghost Value = { EngineView };

    ghost view = { λ m. m.engine };

    ghost invariant = { λ m. IsMachine m.cpus m.slots m.at m.last m.next m.engine };
}

// Copies the times of a table of `slots` groups to another table of the same size.
fn copy_table(slots: u32, from: &Rows, into: &mut Rows)
    requires slots { length from.now ≡ slots }
    requires sizes { HaveSameSizes into.old from.now }
    ensures { into.new ≡ from.now }
{
    'slots: for slot in 0..slots {
        into.set_row(Slot(slot), from.row(Slot(slot)));
    }
}

impl Machine {
    /// Creates a machine with `cpus` processors, and with these groups and triggers.
    pub fn make(
        rt: &impl Abort,
        alloc: Global,
        cpus: u32,
        lives: &[GroupLife],
        triggers: &[TriggerSpec],
    ) -> Machine {
        assert!(rt;
            (1..=64).contains(&cpus),
            "the number of processors is out of range"
        );
        let few = lives.len() <= 1024 && triggers.len() <= 256;
        assert!(rt; few, "there are too many groups or triggers");
        assert!(rt; are_lives(lives), "a group is out of range");
        assert!(rt;
            are_triggers(triggers, lives.len()),
            "a trigger is out of range"
        );
        let slots = lives.len() as u32;
        Machine {
            cpus,
            slots,
            at: 0,
            last: Rows::make(alloc, cpus, slots).expect(rt, "memory"),
            next: Rows::make(alloc, cpus, slots).expect(rt, "memory"),
            engine: Engine::make(alloc, lives, triggers, cpus).expect(rt, "memory"),
        }
    }

    /// Sets the times (ns) of a group on a processor, for the next tick.
    pub fn set(&mut self, rt: &impl Abort, cpu: u32, slot: u32, times: Times) {
        assert!(rt; cpu < self.cpus, "there is no such processor");
        assert!(rt; slot < self.slots, "there is no such group");
        self.next.set(Cpu(cpu), Slot(slot), times);
    }

    /// Makes the next tick, at `now` (ns). Aborts if the tick's time or the growth of the times is
    /// out of range.
    pub fn tick(&mut self, rt: &impl Abort, now: Ns) {
        let is_soon = now > self.at && now - self.at <= LONGEST_TICK && now <= LAST_MOMENT;
        assert!(rt; is_soon, "the time of the tick is out of range");
        let has_grown = table_grew_within(now - self.at, now, self.slots, &self.last, &self.next);
        assert!(rt; has_grown, "the times grow out of range");
        self.engine.tick(now, &self.next);
        copy_table(self.slots, &self.next, &mut self.last);
        self.at = now;
    }

    /// Returns the time (ns) of the last tick.
    pub fn at(&self) -> Ns {
        self.at
    }

    /// Returns the totals (ns) of a group.
    pub fn totals(&self, rt: &impl Abort, slot: u32) -> Amounts {
        assert!(rt; slot < self.slots, "there is no such group");
        self.engine.totals(Slot(slot))
    }

    /// Returns the averages of a group, ordered by state, followed by the averages of interrupts.
    pub fn averages(&self, rt: &impl Abort, slot: u32) -> AverageRows {
        assert!(rt; slot < self.slots, "there is no such group");
        let averages = self.engine.averages(Slot(slot));
        [
            averages.get(State::IoSome),
            averages.get(State::IoFull),
            averages.get(State::MemSome),
            averages.get(State::MemFull),
            averages.get(State::CpuSome),
            averages.get(State::CpuFull),
            averages.irq(),
        ]
    }

    /// Returns the numbers of the triggers that fired at the last tick.
    pub fn fired(&self) -> &[u32] {
        self.engine.fired()
    }
}

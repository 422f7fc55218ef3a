//! Prepares observers for the interval before a tick: sends each reader the number of changes made
//! so far, and stores copies of the current clocks as the last samples.
ghost use Rattle.std.specs.Prelude.{◌≡◌, ◌<◌, Some, length};
ghost use Rattle.std.specs.List.{All};
ghost use Rattle.replay_ticks.specs.Replays.{IsSomeReplay};
ghost use Rattle.replay_workers.specs.Crew.{row_at};
ghost use Rattle.observer_log.specs.Watch.{reader_at};
ghost use Rattle.observe_core.specs.Driving.{AreLasts, AreReady, HasMet, ArePreparedChanges, IsReady, MayReady, made_by};
ghost use Rattle.observe_core.specs.Observing.{ObserverView};

use crate::observer::Observer;
use clock_row::Sample;
use observer_log::Watcher;
use psi_base::{Cpu, Slot};
use replay_ticks::Replay;
use std::sync::ledger::Ledger;

// Sends the watcher's reader of processor `cpu` the number of changes made on the processor
// (`ClockWriter::meet`). Afterwards the reader has seen exactly these changes.
fn meet(replay: &mut Replay<'_>, watcher: &mut Watcher<'_>, cpu: Cpu)
    requires replay { IsSomeReplay replay.old }
    requires cpu { cpu.0 < length replay.old.plans.plans }
    requires plans { watcher.old.plans ≡ replay.old.plans }
    requires row { Some (reader_at watcher.old.readers cpu.0).row
        ≡ row_at replay.old.crew.rows cpu.0 }
    ensures same { replay.new ≡ replay.old }
    ensures met { HasMet cpu.0 (made_by replay.old.crew cpu.0) watcher.old watcher.new }
{
    let reader = watcher.reader(cpu);
    replay.settle(cpu, reader);
    replay.meet(cpu, reader);
}

// Prepares a watcher for sampling `slot`: sends its readers the numbers of changes made so far, and
// copies the current clocks of the slot to `lasts`.
fn ready(replay: &mut Replay<'_>, watcher: &mut Watcher<'_>, lasts: &mut Vec<Sample>, slot: Slot)
    requires { MayReady replay.old slot.0 watcher.old lasts.old.items }
    ensures same { replay.new ≡ replay.old }
    ensures prepared_changes { ArePreparedChanges (made_by replay.old.crew) (length lasts.old.items)
        watcher.old watcher.new }
    ensures many { length lasts.new.items ≡ length lasts.old.items }
    ensures lasts { AreLasts replay.old.plans slot.0 (made_by replay.old.crew)
        (length lasts.old.items) lasts.new.items }
{
    'cpus: for place in 0..lasts.len() {
        let cpu = Cpu(place as u32);
        meet(replay, watcher, cpu);
        lasts[place] = replay.last(cpu, slot);
    }
}

impl<'j, 'a, L: Ledger> Observer<'j, 'a, L> {
    fn ready(&mut self, replay: &mut Replay<'_>, slot: Slot)
        requires { MayReady replay.old slot.0 self.old.watcher self.old.lasts }
        ensures same { replay.new ≡ replay.old }
        ensures ready { IsReady replay.old.plans slot.0 (made_by replay.old.crew)
            self.old self.new }
    {
        ready(replay, &mut self.watcher, &mut self.lasts, slot);
    }
}

/// Prepares all observers for sampling `slot` in the next interval.
pub(crate) fn ready_all<L: Ledger>(
    replay: &mut Replay<'_>,
    observers: &mut [Observer<'_, '_, L>],
    slot: Slot,
)
    requires { All (λ (observer : ObserverView).
        MayReady replay.old slot.0 observer.watcher observer.lasts) observers.old }
    ensures same { replay.new ≡ replay.old }
    ensures ready { AreReady replay.old.plans slot.0 (made_by replay.old.crew)
        observers.old observers.new }
{
    'observers: for observer in observers.iter_mut() {
        observer.ready(replay, slot);
    }
}

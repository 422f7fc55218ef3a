//! Shows after an interval that each reader of each observer has seen at most the changes that the
//! replay has made (`ClockWriter::settle`). So no sample of the interval includes a later change.
ghost use Rattle.std.specs.Prelude.{◌≡◌, ◌<◌, Some, false, length};
ghost use Rattle.std.specs.List.{All};
ghost use Rattle.replay_ticks.specs.Replays.{IsSomeReplay};
ghost use Rattle.replay_workers.specs.Crew.{row_at};
ghost use Rattle.observer_log.specs.Watch.{reader_at};
ghost use Rattle.observe_core.specs.Driving.{AreSettled, AreWithin, HasSettled, IsSettled, MaySettle, made_by};
ghost use Rattle.observe_core.specs.Observing.{ObserverView};

use crate::observer::Observer;
use observer_log::Watcher;
use psi_base::Cpu;
use replay_ticks::Replay;
use std::sync::ledger::Ledger;

// Shows that the watcher's reader of processor `cpu` has seen at most the changes made on the
// processor. The reader doesn't change.
fn settle(replay: &mut Replay<'_>, watcher: &mut Watcher<'_>, cpu: Cpu)
    requires replay { IsSomeReplay replay.old }
    requires cpu { cpu.0 < length replay.old.plans.plans }
    requires plans { watcher.old.plans ≡ replay.old.plans }
    requires row { Some (reader_at watcher.old.readers cpu.0).row
        ≡ row_at replay.old.crew.rows cpu.0 }
    ensures same { replay.new ≡ replay.old }
    ensures settled { HasSettled cpu.0 (made_by replay.old.crew cpu.0) watcher.old watcher.new }
{
    let reader = watcher.reader(cpu);
    replay.settle(cpu, reader);
}

// Shows that the watcher's readers of the first `cpus` processors have seen at most the changes
// made on their processors.
fn settle_readers(replay: &mut Replay<'_>, watcher: &mut Watcher<'_>, cpus: usize)
    requires { MaySettle replay.old watcher.old cpus }
    ensures same { replay.new ≡ replay.old }
    ensures watcher { watcher.new ≡ watcher.old }
    ensures within { AreWithin (made_by replay.old.crew) cpus watcher.old }
{
    'cpus: for place in 0..cpus {
        settle(replay, watcher, Cpu(place as u32));
    }
}

impl<'j, 'a, L: Ledger> Observer<'j, 'a, L> {
    fn settle(&mut self, replay: &mut Replay<'_>)
        requires { self.old.failed ≡ false →
            MaySettle replay.old self.old.watcher (length self.old.lasts) }
        ensures same { replay.new ≡ replay.old }
        ensures settled { IsSettled (made_by replay.old.crew) self.old self.new }
    {
        match self.failed {
            None => settle_readers(replay, &mut self.watcher, self.lasts.len()),
            Some(_) => {}
        }
    }
}

/// Shows that the readers of all observers have seen at most the changes made on their processors.
/// Skips observers that ran out of memory.
pub(crate) fn settle_all<L: Ledger>(replay: &mut Replay<'_>, observers: &mut [Observer<'_, '_, L>])
    requires { All (λ (observer : ObserverView). observer.failed ≡ false →
        MaySettle replay.old observer.watcher (length observer.lasts)) observers.old }
    ensures same { replay.new ≡ replay.old }
    ensures settled { AreSettled (made_by replay.old.crew) observers.old observers.new }
{
    'observers: for observer in observers.iter_mut() {
        observer.settle(replay);
    }
}

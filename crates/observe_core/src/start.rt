//! Creates the observers of a replay. Each observer has a reader for the clocks of each processor.
//! No thread is started here.
ghost use Rattle.std.specs.Prelude.{◌≡◌, ◌<◌, ℕ, Some, IfOk, length, slice_index_or};
ghost use Rattle.replay_ticks.specs.Replays.{IsSomeReplay};
ghost use Rattle.replay_workers.specs.Crew.{AreInRows, row_at};
ghost use Rattle.observer_log.specs.Watch.{AreReaders, reader_at};
ghost use Rattle.observe_core.specs.Driving.{IsNew, IsNewWatcher, MayBegin, Setting};
ghost use Rattle.observe_core.specs.Observing.{ObserverView};

use crate::observer::Observer;
use clock_row::{ClockReader, Sample};
use cpu_clock::Clock;
use observer_log::{Board, BoardPass, DriverPass, Journal, Watcher};
use proc_plan::Plans;
use psi_base::{Cpu, NoMemory};
use replay_ticks::Replay;
use std::alloc::Global;
use std::sync::ledger::{Ledger, Share};
use std::sync::{Mutex, Wait};

// Returns one reader for the clocks of each processor, in order. Requires that the replay stores
// the clocks of each processor in a seqlock (clock_row).
fn readers_of(
    alloc: Global,
    cpus: u32,
    replay: &mut Replay<'_>,
) -> Result<Vec<ClockReader>, NoMemory>
    requires replay { IsSomeReplay replay.old }
    requires cpus { cpus ≡ length replay.old.plans.plans }
    requires rows { AreInRows replay.old.plans replay.old.crew.rows }
    ensures same { replay.new ≡ replay.old }
    ensures readers { IfOk result (λ readers. AreReaders replay.old.plans readers.items) }
    ensures rows { IfOk result (λ readers. (cpu : ℕ) → cpu < length replay.old.plans.plans →
        Some (reader_at readers.items cpu).row ≡ row_at replay.old.crew.rows cpu) }
{
    let mut readers = Vec::new(alloc);
    'cpus: for cpu in 0..cpus {
        readers.push(replay.reader(Cpu(cpu))?)?;
    }
    Ok(readers)
}

// Returns one empty sample for each processor. Preparing the observer for an interval replaces
// these samples by the current clocks.
fn places(alloc: Global, cpus: u32) -> Result<Vec<Sample>, NoMemory>
    ensures { IfOk result (λ lasts. length lasts.items ≡ cpus) }
{
    let none = Sample {
        count: 0,
        clock: Clock::zero(),
    };
    Ok(vec![in alloc; none; cpus as usize]?)
}

// Creates the watcher of observer `number`, which takes samples on all processors.
fn watcher_of<'a>(
    alloc: Global,
    number: u32,
    plans: &'a Plans,
    replay: &mut Replay<'a>,
) -> Result<Watcher<'a>, NoMemory>
    requires replay { IsSomeReplay replay.old }
    requires plans { plans.now ≡ replay.old.plans }
    requires rows { AreInRows replay.old.plans replay.old.crew.rows }
    ensures same { replay.new ≡ replay.old }
    ensures new { IfOk result (IsNewWatcher number replay.old) }
{
    let readers = readers_of(alloc, plans.cpus(), replay)?;
    Ok(Watcher::make(alloc, number, plans, readers))
}

// Creates observer `number` with a new watcher. `pass` gives the observer access to the board, and
// `share` is its share of the journal's ledger.
fn observer_of<'j, 'a, L: Ledger>(
    alloc: Global,
    number: u32,
    plans: &'a Plans,
    replay: &mut Replay<'a>,
    journal: &'j Mutex<Journal<'a, L>>,
    pass: BoardPass,
    share: Share<L>,
) -> Result<Observer<'j, 'a, L>, NoMemory>
    requires replay { IsSomeReplay replay.old }
    requires plans { plans.now ≡ replay.old.plans }
    requires rows { AreInRows replay.old.plans replay.old.crew.rows }
    requires part { share.parts ≡ 1 }
    requires nothing { share.amount ≡ 0 }
    ensures same { replay.new ≡ replay.old }
    ensures new { IfOk result (λ observer. (set : Setting) → MayBegin set replay.old →
        set.board ≡ pass.board → IsNew set number observer) }
{
    let watcher = watcher_of(alloc, number, plans, replay)?;
    let lasts = places(alloc, plans.cpus())?;
    Ok(Observer::new(journal, watcher, pass, share, lasts))
}

/// Creates `count` observers (1 to 8) before the first tick of a replay. Each observer gets one
/// share of the journal's ledger, which counts the journal's entries.
pub(crate) fn make_observers<'j, 'a, L: Ledger, R: Wait>(
    rt: &R,
    alloc: Global,
    count: u32,
    plans: &'a Plans,
    replay: &mut Replay<'a>,
    journal: &'j Mutex<Journal<'a, L>>,
    board: &Board,
    driver: &mut DriverPass,
    all: &mut Share<L>,
) -> Result<Vec<Observer<'j, 'a, L>>, NoMemory>
    requires replay { IsSomeReplay replay.old }
    requires plans { plans.now ≡ replay.old.plans }
    requires rows { AreInRows replay.old.plans replay.old.crew.rows }
    requires driver { driver.old.board ≡ board.now }
    requires parts { all.old.parts ≡ count }
    requires amount { all.old.amount ≡ 0 }
    ensures same { replay.new ≡ replay.old }
    ensures driver { driver.new ≡ driver.old }
    ensures parts { IfOk result (λ _. all.new.parts ≡ 0) }
    ensures amount { IfOk result (λ _. all.new.amount ≡ 0) }
    ensures many { IfOk result (λ observers. length observers.items ≡ count) }
    ensures new { IfOk result (λ observers. (set : Setting) → MayBegin set replay.old →
        set.board ≡ board.now → (number : ℕ) (d : ObserverView) → number < count →
        IsNew set number (slice_index_or observers.items number d)) }
{
    let mut observers = Vec::new(alloc);
    'observers: for number in 0..count {
        let pass = board.pass(rt, driver)?;
        let share = all.split_off(1, 0);
        observers.push(observer_of(alloc, number, plans, replay, journal, pass, share)?)?;
    }
    Ok(observers)
}

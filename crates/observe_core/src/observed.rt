//! Replays a trace while observers take samples, and returns the samples. The trace is represented
//! by plans, which list the changes on each processor. This module writes no output.
ghost use Rattle.std.specs.Prelude.{◌≡◌, [], Some, IfOk, length};
ghost use Rattle.psi_spec.specs.Header.{version_of};
ghost use Rattle.psi_spec.specs.Trace.{Trace};
ghost use Rattle.run_spec.specs.Outputs.{timing_of};
ghost use Rattle.run_spec.specs.LegalCommand.{IsWithin};
ghost use Rattle.replay_rules.specs.Planned.{IsPlanned};
ghost use Rattle.replay_ticks.specs.Replays.{IsReplay};
ghost use Rattle.replay_workers.specs.Crew.{AreInRows};
ghost use Rattle.observe_spec.specs.Observed.{IsObservedText};
ghost use Rattle.observe_spec.specs.Run.{options_on, timing_on};
ghost use Rattle.observe_core.specs.Printed.{printed};
ghost use Rattle.observe_core.specs.Results.{IsPlannedFor};

use crate::end::{end_all, ordered};
use crate::start::make_observers;
use crate::ticks::all_ticks;
use crate::words::Request;
use observer_log::{Board, BoardState, Entry, Journal};
use outside::Gate;
use proc_plan::Plans;
use psi_base::{NoMemory, Path};
use replay_ticks::{Replay, prepare};
use run_spec::Options;
use std::alloc::Global;
use std::sync::ledger::{Blank, Ledger};
use std::sync::{Mutex, Wait};
use std::thread::Threads;

/// The result of a replay with observers.
#[derive(Drop)]
pub(crate) struct Observed<'a> {
    /// The samples, in the journal's order.
    pub(crate) entries: Vec<Entry<'a>>,
    /// The board state that each observer read last, in the order of observers.
    pub(crate) states: Vec<BoardState>,
}

// Returns the options of a replay that keeps clocks for observers of the group `path`.
fn options(alloc: Global, path: &Path) -> Result<Options, NoMemory>
    ensures { IfOk result (λ options. options ≡ options_on (Some path.now)) }
{
    Ok(Options {
        rules: None,
        drop_in: None,
        tick_ms: 2000,
        interval_s: 5,
        report_s: 10,
        workers: 64,
        live: Some(path.copy(alloc)?),
        live_count: 1,
    })
}

// Creates a replay of the trace of `plans`. The replay keeps clocks for observers of the group
// `path`, and hasn't made a tick. `version` is the trace's version.
fn prepared<'a>(
    alloc: Global,
    version: u32,
    plans: &'a Plans,
    path: &Path,
) -> Result<Replay<'a>, NoMemory>
    requires { (trace : Trace) × IsPlannedFor plans.now trace version path.now }
    ensures replay { IfOk result (λ replay. (trace : Trace) →
        IsPlanned plans.now trace (timing_of (options_on (Some path.now))) →
        version_of version ≡ trace.version →
        IsReplay replay trace (timing_of (options_on (Some path.now))) [] 0) }
    ensures plans { IfOk result (λ replay. replay.plans ≡ plans.now) }
    ensures rows { IfOk result (λ replay. AreInRows replay.plans replay.crew.rows) }
{
    let options = options(alloc, path)?;
    prepare(alloc, version, plans, None, &options)
}

/// Replays the trace of `plans` while observers take samples, each in its own thread if one can be
/// started. `blank` is an unused ledger that has one part for each observer. `version` is the
/// trace's version.
pub(crate) fn observe_trace<'a, L: Ledger + Send + Sync, R: Threads + Wait + Sync, G: Gate>(
    rt: &R,
    alloc: Global,
    blank: Blank,
    version: u32,
    plans: &'a Plans,
    request: &Request<'_>,
    gate: &G,
) -> Result<Observed<'a>, NoMemory>
    requires name { blank.name ≡ L.name }
    requires parts { (blank.parts ≡ L.parts) × (L.parts ≡ request.now.observers) }
    requires within { IsWithin 1 8 request.now.observers }
    requires planned { (trace : Trace) × IsPlannedFor plans.now trace version request.now.path }
    ensures states { IfOk result (λ observed.
        length observed.states.items ≡ request.now.observers) }
    ensures observed { IfOk result (λ observed. (trace : Trace) →
        IsPlannedFor plans.now trace version request.now.path →
        IsObservedText trace (timing_on request.now.path) request.now.path request.now.observers
        (printed observed.entries.items observed.states.items plans.now.finish)) }
{
    let (board, mut driver) = Board::make(alloc)?;
    let mut replay = prepared(alloc, version, plans, &request.path)?;
    let (book, mut all) = blank.open::<L>();
    let journal = Mutex::new(Journal::make(alloc, book));
    let observers = make_observers(
        rt,
        alloc,
        request.observers,
        plans,
        &mut replay,
        &journal,
        &board,
        &mut driver,
        &mut all,
    )?;
    let observers = all_ticks(rt, replay, observers, &board, &mut driver, gate)?;
    let ended = end_all(rt, alloc, observers, &board, &mut driver, &mut all)?;
    let entries = ordered(journal.into_inner(), &mut all, &ended.own)?;
    Ok(Observed {
        entries,
        states: ended.states,
    })
}

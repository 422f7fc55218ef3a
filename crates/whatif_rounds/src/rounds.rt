//! Removes the victims of kills from a trace, round by round.
//!
//! Each round replays the remaining trace from its start to find one kill.
ghost use Rattle.std.specs.Prelude.{◌≡◌, IfOk, MatchResult, Ok};
ghost use Rattle.psi_base.specs.Gives.{FaultOf};
ghost use Rattle.psi_spec.specs.Header.{IsVersion};
ghost use Rattle.psi_spec.specs.Trace.{IsAccepted, IsCpuCount, limits_of};
ghost use Rattle.ruleset_json.specs.RuleRanges.{FitsRules};
ghost use Rattle.run_spec.specs.Outputs.{of_ms};
ghost use Rattle.proc_plan.specs.Plans.{Represent};
ghost use Rattle.whatif_spec.specs.Without.{without};
ghost use Rattle.whatif_trace.specs.Bounded.{bounded};
ghost use Rattle.whatif_rounds.specs.Rounds.{AreLastPlans, Finds, IsOutgrown, IsTraceAt, MayReplay, trace_from};

use crate::search::find_kill;
use kill_spec::Kill;
use proc_plan::Plans;
use psi_base::{Event, Fault, MILLISECOND, MOST_TICKS, NoMemory, Ns};
use ruleset_json::Rules;
use run_spec::Options;
use std::alloc::Global;
use std::thread::Threads;
use whatif_trace::{TooLarge, without};

/// The maximum number of kills whose victims are removed.
const MOST_ROUNDS: usize = 64;

/// The result of searching for a kill in one round.
#[derive(Drop)]
pub(crate) enum Round {
    /// The kill whose index is the number of the round.
    Kill(Kill),
    /// There is no kill with the index of the round. The value has the plans of the trace.
    Last(Plans),
}

// Returns the latest time (ns) that an event of a trace may have, if the trace is replayed with the
// tick length of the options.
fn latest_of(options: &Options) -> Ns
    requires { MayReplay options.now }
    ensures { result ≡ (limits_of (of_ms options.now.tick_ms) 1).latest }
{
    MOST_TICKS * (Ns::from(options.tick_ms) * MILLISECOND)
}

fn plans_of(
    alloc: Global,
    cpus: u32,
    options: &Options,
    events: &[Event],
) -> Result<Plans, NoMemory>
    requires options { MayReplay options.now }
    requires counted { IsCpuCount cpus }
    requires accepted { IsAccepted (limits_of (of_ms options.now.tick_ms) cpus) events.now }
    ensures { IfOk result (λ plans. Represent plans cpus events.now) }
{
    match Plans::build(alloc, cpus, latest_of(options), events) {
        Ok(plans) => Ok(plans),
        Err(Fault::NoMemory(none)) => Err(none),
        Err(Fault::Refused(_)) => unreachable!(),
    }
}

// Replays a trace to find the kill with the index `number`, counted from 0. The trace is passed as
// its version, its number of processors and its events. Precondition: the trace is accepted.
fn find_in<R: Threads + Sync>(
    rt: &R,
    alloc: Global,
    version: u32,
    cpus: u32,
    events: &[Event],
    rules: &Rules,
    options: &Options,
    number: usize,
) -> Result<Round, NoMemory>
    requires version { IsVersion version }
    requires trace { IsTraceAt options.now (trace_from version cpus events.now) }
    requires fit { FitsRules rules.now.rules }
    requires options { MayReplay options.now }
    ensures { IfOk result
        (Finds options.now rules.now.rules number (trace_from version cpus events.now)) }
{
    let plans = plans_of(alloc, cpus, options, events)?;
    let rules = Some(rules.copy(alloc)?);
    match find_kill(rt, alloc, version, &plans, rules, options, number)? {
        Some(kill) => Ok(Round::Kill(kill)),
        None => Ok(Round::Last(plans)),
    }
}

// Returns the events of a trace without the tasks of the killed group. Precondition: the trace is
// accepted.
fn take_out(
    alloc: Global,
    cpus: u32,
    options: &Options,
    events: Vec<Event>,
    kill: Kill,
) -> Result<Vec<Event>, Fault<TooLarge>>
    requires options { MayReplay options.now }
    requires counted { IsCpuCount cpus }
    requires accepted { IsAccepted (limits_of (of_ms options.now.tick_ms) cpus) events.items }
    ensures content { let left_of = bounded (without events.items kill.at kill.victim.0) in
        MatchResult result (λ left. left_of ≡ Ok left.items) (λ fault. FaultOf fault left_of) }
    ensures accepted { IfOk result
        (λ left. IsAccepted (limits_of (of_ms options.now.tick_ms) cpus) left.items) }
{
    without(
        alloc,
        cpus,
        latest_of(options),
        &events,
        kill.at,
        kill.victim,
    )
}

/// Removes the victims of at most 64 kills from a trace, in order, and returns the plans of the
/// remaining trace. Each round replays the trace with these rules and options. Precondition: the
/// trace with this version, number of processors and events is accepted. Fails with `TooLarge` if
/// and only if more than 4,000,000 events remain after a round, and with `NoMemory` if memory runs
/// out.
pub fn last_plans<R: Threads + Sync>(
    rt: &R,
    alloc: Global,
    version: u32,
    cpus: u32,
    events: Vec<Event>,
    rules: &Rules,
    options: &Options,
) -> Result<Plans, Fault<TooLarge>>
    requires version { IsVersion version }
    requires trace { IsTraceAt options.now (trace_from version cpus events.items) }
    requires fit { FitsRules rules.now.rules }
    requires options { MayReplay options.now }
    ensures { let trace = trace_from version cpus events.items in MatchResult result
        (λ plans. AreLastPlans options.now rules.now.rules trace plans)
        (λ fault. IsOutgrown options.now rules.now.rules trace fault) }
{
    let mut events = events;
    'rounds: for number in 0..MOST_ROUNDS {
        let round = find_in(rt, alloc, version, cpus, &events, rules, options, number)?;
        match round {
            Round::Kill(kill) => match take_out(alloc, cpus, options, events, kill) {
                Ok(left) => events = left,
                Err(fault) => return Err(fault),
            },
            Round::Last(plans) => return Ok(plans),
        }
    }
    match plans_of(alloc, cpus, options, &events) {
        Ok(plans) => Ok(plans),
        Err(none) => Err(Fault::NoMemory(none)),
    }
}

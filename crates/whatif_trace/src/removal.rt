//! Removes the tasks of a killed group from a trace.
//!
//! This module splits the trace at the time of the kill. The modules `exits` and `rest` append the
//! events after the split.
ghost use Rattle.std.specs.Prelude.{◌≡◌, ◌++◌, ◌<◌, ◌≤◌, IfOk, MatchResult, None, OnOk, Ok, drop, length, nat_lt, take};
ghost use Rattle.psi_base.specs.Gives.{FaultOf};
ghost use Rattle.psi_spec.specs.Refusal.{AreLegal, cause_of};
ghost use Rattle.psi_spec.specs.Trace.{IsAccepted};
ghost use Rattle.psi_spec.specs.World.{after, after_event, after_from};
ghost use Rattle.whatif_spec.specs.Without.{members, without};
ghost use Rattle.whatif_trace.specs.Left.{Adds, AreForked, exits_left, prefix_length, rest_left, turned_by};
ghost use Rattle.whatif_trace.specs.Bounded.{bounded};

use crate::copies::keep_copies;
use crate::exits::keep_exits;
use crate::members::members;
use crate::rest::keep_rest;
use crate::runners::{no_runners, turn};
use psi_base::{Event, Fault, MOST_EVENTS, NoMemory, Ns, Pid, Slot};
use std::alloc::Global;
use std::collections::BTreeSet;
use task_table::Table;

/// The error if the resulting trace has more events than a trace may have.
#[derive(Clone, Copy, Debug, PartialEq, Eq)]
pub struct TooLarge {
    /// The number of events of the resulting trace, which is greater than 4,000,000.
    pub events: u64,
}

/// Returns the number of leading events whose times are at or before `at` (ns).
fn prefix_length(events: &[Event], at: Ns) -> usize
    ensures length { result ≡ prefix_length at events.now }
    ensures inside { result ≤ length events.now }
{
    let mut count = 0;
    'events: while count < events.len() && events[count].at <= at {
        count += 1;
    }
    count
}

fn prefix_of(events: &[Event], count: usize) -> &[Event]
    requires { count ≤ length events.now }
    ensures { result.now ≡ take count events.now }
{
    &events[..count]
}

fn rest_of(events: &[Event], count: usize) -> &[Event]
    requires { count ≤ length events.now }
    ensures { result.now ≡ drop count events.now }
{
    &events[count..]
}

/// Returns the pids in the set as a list in ascending order.
fn numbers_of(alloc: Global, pids: &BTreeSet<u32>) -> Result<Vec<u32>, NoMemory>
    ensures { IfOk result (λ numbers. numbers.items ≡ pids.now.keys) }
{
    Ok(pids.iter().copied().collect(alloc)?)
}

/// Returns whether time `at` (ns) is before the end of the trace.
#[tactic(auto, using(crate::proofs::Cutting::before_known))]
fn is_before_end(events: &[Event], at: Ns) -> bool
    ensures { result ≡ nat_lt at (after events.now).last }
{
    match events.last() {
        Some(event) => at < event.at,
        None => false,
    }
}

/// Applies one event to the task table. Precondition: the event is legal.
fn play_one(table: &mut Table, event: &Event) -> Result<(), NoMemory>
    requires { cause_of table.old.limits table.old.world event.now ≡ None }
    ensures limits { OnOk result (table.new.limits ≡ table.old.limits) }
    ensures world { OnOk result (table.new.world ≡ after_event table.old.world event.now) }
{
    match table.play(event) {
        Ok(()) => Ok(()),
        Err(Fault::NoMemory(none)) => Err(none),
        Err(Fault::Refused(_)) => unreachable!(),
    }
}

/// Applies events to the task table, and updates the list of running tasks. Precondition: each
/// event is legal after the events before it.
fn play_all(
    table: &mut Table,
    runners: &mut Vec<Option<Pid>>,
    events: &[Event],
) -> Result<(), NoMemory>
    requires { AreLegal table.old.limits table.old.world events.now }
    ensures limits { OnOk result (table.new.limits ≡ table.old.limits) }
    ensures world { OnOk result (table.new.world ≡ after_from table.old.world events.now) }
    ensures runners { OnOk result (runners.new.items ≡ turned_by runners.old.items events.now) }
{
    let mut at = 0;
    'events: while at < events.len() {
        let event = &events[at];
        play_one(table, event)?;
        turn(runners, &event.act);
        at += 1;
    }
    Ok(())
}

/// Appends the events by which the tasks in `dead` exit at time `at` (ns). `runners` has the
/// running task of each processor before the exits.
fn keep_all_exits(
    alloc: Global,
    kept: &mut Vec<Event>,
    at: Ns,
    table: &Table,
    runners: &[Option<Pid>],
    dead: &BTreeSet<u32>,
) -> Result<(), NoMemory>
    ensures { Adds kept.old.items kept.new.items result
        (exits_left at table.now.world.tasks runners.now dead.now.keys) }
{
    let pids = numbers_of(alloc, dead)?;
    let runners_then = Vec::from_slice(alloc, runners)?;
    keep_exits(kept, at, table, runners_then, &pids)
}

/// Returns the events of `prefix` and `rest`, without the tasks that are in the group `victim` or
/// in one of its descendants after `prefix`. These tasks exit at time `at` (ns), between the two
/// lists. `table` has all tasks after `prefix`, and `runners` the running task of each processor.
fn left_of(
    alloc: Global,
    table: &Table,
    runners: Vec<Option<Pid>>,
    prefix: &[Event],
    rest: &[Event],
    at: Ns,
    victim: Slot,
) -> Result<Vec<Event>, NoMemory>
    requires { AreForked table.now.world.tasks prefix.now }
    ensures { IfOk result (λ left. left.items
        ≡ (prefix.now ++ exits_left at table.now.world.tasks runners.items
        (members table.now.world victim.0))
        ++ rest_left (members table.now.world victim.0) runners.items rest.now) }
{
    let dead = members(alloc, table, prefix, victim)?;
    let mut kept: Vec<Event> = Vec::new(alloc);
    keep_copies(alloc, &mut kept, prefix)?;
    keep_all_exits(alloc, &mut kept, at, table, &runners, &dead)?;
    keep_rest(alloc, &mut kept, dead, runners, rest)?;
    Ok(kept)
}

/// Returns the events of the trace without the tasks that are in the group `victim` or in one of
/// its descendants at time `at` (ns). Precondition: `at` is before the end of the trace.
fn cut_down(
    alloc: Global,
    cpus: u32,
    latest: Ns,
    events: &[Event],
    at: Ns,
    victim: Slot,
) -> Result<Vec<Event>, NoMemory>
    requires some { 1 ≤ cpus }
    requires few { cpus ≤ 64 }
    requires accepted { IsAccepted (record { cpus = cpus; latest = latest }) events.now }
    requires before { at < (after events.now).last }
    ensures { IfOk result (λ left. left.items ≡ without events.now at victim.0) }
{
    let count = prefix_length(events, at);
    let prefix = prefix_of(events, count);
    let rest = rest_of(events, count);
    let mut table = Table::new(alloc, cpus, latest)?;
    let mut runners = no_runners(alloc, cpus)?;
    play_all(&mut table, &mut runners, prefix)?;
    left_of(alloc, &table, runners, prefix, rest, at + 1, victim)
}

/// Returns the events of the trace without the tasks that are in the group `victim` or in one of
/// its descendants at time `at` (ns). Returns all events if `at` isn't before the end of the trace.
fn all_left(
    alloc: Global,
    cpus: u32,
    latest: Ns,
    events: &[Event],
    at: Ns,
    victim: Slot,
) -> Result<Vec<Event>, NoMemory>
    requires some { 1 ≤ cpus }
    requires few { cpus ≤ 64 }
    requires accepted { IsAccepted (record { cpus = cpus; latest = latest }) events.now }
    ensures { IfOk result (λ left. left.items ≡ without events.now at victim.0) }
{
    if is_before_end(events, at) {
        return cut_down(alloc, cpus, latest, events, at, victim);
    }
    let mut kept: Vec<Event> = Vec::new(alloc);
    keep_copies(alloc, &mut kept, events)?;
    Ok(kept)
}

/// Removes from a trace the tasks that are in the group `victim` or in one of its descendants at
/// time `at` (ns). The result has the events up to that time, the exits of these tasks 1 ns later,
/// and the later events without these tasks. If `at` isn't before the end of the trace, the result
/// has all events. Precondition: the trace is accepted, has 1 to 64 processors, and has no event
/// later than `latest` (ns). Fails with `TooLarge` if more than 4,000,000 events remain, or with
/// `NoMemory` if memory runs out before that is known.
pub fn without(
    alloc: Global,
    cpus: u32,
    latest: Ns,
    events: &[Event],
    at: Ns,
    victim: Slot,
) -> Result<Vec<Event>, Fault<TooLarge>>
    requires some { 1 ≤ cpus }
    requires few { cpus ≤ 64 }
    requires accepted { IsAccepted (record { cpus = cpus; latest = latest }) events.now }
    ensures content { MatchResult result
        (λ left. bounded (without events.now at victim.0) ≡ Ok left.items)
        (λ fault. FaultOf fault (bounded (without events.now at victim.0))) }
    ensures accepted { IfOk result
        (λ left. IsAccepted (record { cpus = cpus; latest = latest }) left.items) }
{
    let left = all_left(alloc, cpus, latest, events, at, victim)?;
    if left.len() > MOST_EVENTS as usize {
        let events = left.len() as u64;
        return Err(Fault::Refused(TooLarge { events }));
    }
    Ok(left)
}

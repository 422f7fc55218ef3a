//! Runs each command on its files. The commands themselves are in the crates `commands`,
//! `rules_file` and `whatif_rounds`.
ghost use Rattle.std.specs.Prelude.{◌≡◌, ◌+◌, ◌≤◌, None, IfSome, IsUtf8};
ghost use Rattle.outside.specs.Outside.{SameInner};
ghost use Rattle.run_spec.specs.MostRead.{most_read};
ghost use Rattle.run_spec.specs.Run.{Runs, run_counts};
ghost use Rattle.run_spec.specs.ReadOrder.{ReadsInOrder};
ghost use Rattle.run_spec.specs.Stops.{StopsAtRefusal};
ghost use Rattle.run_spec.specs.LegalCommand.{IsCommand, IsWithin};
ghost use Rattle.psi_words.specs.Reads.{HasTextNames};
ghost use Rattle.run_outcomes.specs.Writes.{IsStatusOf};

use crate::whatif::run_whatif;
use commands::{
    run_import, write_checked, write_generated, write_replay, write_stalls, write_stress,
};
use outside::{Gate, Shelf, Sink};
use proc_plan::Planner;
use psi_base::{DEFAULT_TICK, MILLISECOND, Ns};
use rules_file::{name_of, read_rules, run_rules};
use run_spec::{Command, Options, Status, Which};
use std::alloc::Global;
use std::thread::Threads;
use task_table::Table;
use trace_file::{TraceFault, play_trace};

/// Returns the status of a run whose trace was rejected or couldn't be read.
pub(crate) fn fault_status(fault: TraceFault) -> Status
    ensures status { IsStatusOf fault result }
{
    match fault {
        TraceFault::Refused(refusal) => Status::Trace {
            line: refusal.line,
            cause: refusal.cause,
        },
        TraceFault::NoFile => Status::NoFile {
            which: Which::TraceFile,
        },
        TraceFault::ReadFault => Status::ReadFault,
        TraceFault::NoMemory(none) => Status::NoMemory(none),
    }
}

// Runs `stall` on the trace file `name`, and writes the stall times of each group.
fn run_stall<R: Threads + Sync, S: Shelf, K: Sink>(
    rt: &R,
    alloc: Global,
    name: &str,
    shelf: &mut S,
    out: &mut K,
) -> Status
    ensures unchanged { S.holds shelf.new ≡ S.holds shelf.old }
    ensures runs { Runs (Command.Stall name.now) (S.holds shelf.old)
        (run_counts (S.faults shelf.old) (S.absent shelf.old) (K.faults out.old))
        (run_counts (S.faults shelf.new) (S.absent shelf.new) (K.faults out.new))
        (K.has out.old) (K.has out.new) result }
    ensures reads { S.bytes_read shelf.new
        ≤ S.bytes_read shelf.old + most_read (Command.Stall name.now) }
    ensures stops { StopsAtRefusal (Command.Stall name.now) (S.holds shelf.old)
        (S.bytes_read shelf.old) (S.bytes_read shelf.new) result }
    ensures order { ReadsInOrder (Command.Stall name.now) (S.holds shelf.old)
        (S.reads shelf.old) (S.reads shelf.new) result }
    ensures below { SameInner (K.below out.old) (K.below out.new) }
{
    match play_trace::<S, Planner>(alloc, name, shelf, DEFAULT_TICK) {
        Ok((version, planner)) => write_stalls(rt, alloc, version, planner, out),
        Err(fault) => fault_status(fault),
    }
}

// Checks whether the trace file `name` can be replayed with ticks of `tick_ms` ms, and writes one
// line if the trace is accepted. Doesn't replay the trace.
fn run_check<S: Shelf, K: Sink>(
    alloc: Global,
    name: &str,
    tick_ms: u32,
    shelf: &mut S,
    out: &mut K,
) -> Status
    requires { tick_ms ≤ 60000 }
    ensures unchanged { S.holds shelf.new ≡ S.holds shelf.old }
    ensures runs { Runs (Command.Check name.now tick_ms) (S.holds shelf.old)
        (run_counts (S.faults shelf.old) (S.absent shelf.old) (K.faults out.old))
        (run_counts (S.faults shelf.new) (S.absent shelf.new) (K.faults out.new))
        (K.has out.old) (K.has out.new) result }
    ensures reads { S.bytes_read shelf.new
        ≤ S.bytes_read shelf.old + most_read (Command.Check name.now tick_ms) }
    ensures stops { StopsAtRefusal (Command.Check name.now tick_ms) (S.holds shelf.old)
        (S.bytes_read shelf.old) (S.bytes_read shelf.new) result }
    ensures order { ReadsInOrder (Command.Check name.now tick_ms) (S.holds shelf.old)
        (S.reads shelf.old) (S.reads shelf.new) result }
    ensures below { SameInner (K.below out.old) (K.below out.new) }
{
    let tick = Ns::from(tick_ms) * MILLISECOND;
    match play_trace::<S, Table>(alloc, name, shelf, tick) {
        Ok((_, table)) => write_checked(&table, out),
        Err(fault) => fault_status(fault),
    }
}

// Runs `replay` on the trace file `name`, with the rules of the rules file and the drop-in file, if
// the options name these files.
fn run_replay<R: Threads + Sync, S: Shelf, K: Sink, G: Gate>(
    rt: &R,
    alloc: Global,
    name: &str,
    options: &Options,
    shelf: &mut S,
    out: &mut K,
    gate: &G,
) -> Status
    requires workers { IsWithin 1 64 options.now.workers }
    requires some { 1 ≤ options.now.tick_ms }
    requires short { options.now.tick_ms ≤ 60000 }
    requires interval { 1 ≤ options.now.interval_s }
    requires often { options.now.interval_s ≤ 3600 }
    requires text { IfSome options.now.rules IsUtf8 }
    requires drop_in { IfSome options.now.drop_in IsUtf8 }
    requires over { options.now.rules ≡ None → options.now.drop_in ≡ None }
    ensures unchanged { S.holds shelf.new ≡ S.holds shelf.old }
    ensures runs { Runs (Command.Replay name.now options.now) (S.holds shelf.old)
        (run_counts (S.faults shelf.old) (S.absent shelf.old) (K.faults out.old))
        (run_counts (S.faults shelf.new) (S.absent shelf.new) (K.faults out.new))
        (K.has out.old) (K.has out.new) result }
    ensures reads { S.bytes_read shelf.new
        ≤ S.bytes_read shelf.old + most_read (Command.Replay name.now options.now) }
    ensures stops { StopsAtRefusal (Command.Replay name.now options.now) (S.holds shelf.old)
        (S.bytes_read shelf.old) (S.bytes_read shelf.new) result }
    ensures order { ReadsInOrder (Command.Replay name.now options.now) (S.holds shelf.old)
        (S.reads shelf.old) (S.reads shelf.new) result }
    ensures below { SameInner (K.below out.old) (K.below out.new) }
{
    let rules = match read_rules(alloc, options, shelf) {
        Ok(rules) => rules,
        Err(status) => return status,
    };
    let tick = Ns::from(options.tick_ms) * MILLISECOND;
    match play_trace::<S, Planner>(alloc, name, shelf, tick) {
        Ok((version, planner)) => {
            write_replay(rt, alloc, version, planner, rules, options, out, gate)
        }
        Err(fault) => fault_status(fault),
    }
}

/// Runs a command on its files, writes its output, and returns its status.
pub(crate) fn run_command<R: Threads + Sync, S: Shelf, K: Sink, G: Gate>(
    rt: &R,
    alloc: Global,
    command: &Command,
    shelf: &mut S,
    out: &mut K,
    gate: &G,
) -> Status
    requires ranges { IsCommand command.now }
    requires texts { HasTextNames command.now }
    ensures unchanged { S.holds shelf.new ≡ S.holds shelf.old }
    ensures runs { Runs command.now (S.holds shelf.old)
        (run_counts (S.faults shelf.old) (S.absent shelf.old) (K.faults out.old))
        (run_counts (S.faults shelf.new) (S.absent shelf.new) (K.faults out.new))
        (K.has out.old) (K.has out.new) result }
    ensures reads { S.bytes_read shelf.new ≤ S.bytes_read shelf.old + most_read command.now }
    ensures stops { StopsAtRefusal command.now (S.holds shelf.old)
        (S.bytes_read shelf.old) (S.bytes_read shelf.new) result }
    ensures order { ReadsInOrder command.now (S.holds shelf.old)
        (S.reads shelf.old) (S.reads shelf.new) result }
    ensures below { SameInner (K.below out.old) (K.below out.new) }
{
    match command {
        Command::Stall { trace } => run_stall(rt, alloc, name_of(trace), shelf, out),
        Command::Check { trace, tick_ms } => {
            run_check(alloc, name_of(trace), *tick_ms, shelf, out)
        }
        Command::Replay { trace, options } => {
            run_replay(rt, alloc, name_of(trace), options, shelf, out, gate)
        }
        Command::Gen { shape } => write_generated(alloc, *shape, out),
        Command::Stress { shape, workers } => {
            write_stress(rt, alloc, *shape, *workers, out, gate)
        }
        Command::Import { file, cpus } => run_import(alloc, name_of(file), *cpus, shelf, out),
        Command::Rules { file, drop_in } => { run_rules(alloc, name_of(file), drop_in, shelf, out) }
        Command::Whatif { trace, options } => {
            run_whatif(rt, alloc, name_of(trace), options, shelf, out, gate)
        }
    }
}

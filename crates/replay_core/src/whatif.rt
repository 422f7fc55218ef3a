//! The command `whatif`: removes the victims of at most 64 kills from a trace, and replays the
//! remaining trace. The crate whatif_rounds removes the victims.
ghost use Rattle.std.specs.Prelude.{◌≡◌, ◌+◌, ◌≤◌, IfSome, IsSome, IsUtf8};
ghost use Rattle.outside.specs.Outside.{SameInner};
ghost use Rattle.psi_spec.specs.Header.{IsVersion};
ghost use Rattle.ruleset_json.specs.RuleRanges.{FitsRules};
ghost use Rattle.run_spec.specs.Outputs.{timing_of};
ghost use Rattle.run_spec.specs.MostRead.{most_read};
ghost use Rattle.run_spec.specs.Run.{Runs, run_counts};
ghost use Rattle.run_spec.specs.ReadOrder.{ReadsInOrder};
ghost use Rattle.run_spec.specs.Stops.{StopsAtRefusal};
ghost use Rattle.whatif_rounds.specs.Rounds.{IsTraceAt, MayReplay, trace_from};
ghost use Rattle.run_outcomes.specs.Writes.{IsStatusOfRounds, WritesLast};

use crate::command::fault_status;
use commands::write_planned;
use outside::{Gate, Shelf, Sink};
use psi_base::{Event, Fault, MILLISECOND, Ns};
use rules_file::{name_of, read_joined};
use ruleset_json::Rules;
use run_spec::{Command, Options, Status};
use std::alloc::Global;
use std::thread::Threads;
use trace_file::{Keeper, play_trace};
use whatif_rounds::{TooLarge, last_plans};

// Returns the status of a `whatif` run that fails: too many events remain, or memory ran out.
fn rounds_status(fault: Fault<TooLarge>) -> Status
    ensures { IsStatusOfRounds fault result }
{
    match fault {
        Fault::Refused(large) => Status::TooLarge {
            events: large.events,
        },
        Fault::NoMemory(none) => Status::NoMemory(none),
    }
}

// Removes the victims of at most 64 kills from the trace of `events`, and writes the output of
// `replay` for the remaining trace. `version` is the version of the trace, and `cpus` is its number
// of processors. The victims are removed before anything is written.
fn write_whatif<R: Threads + Sync, K: Sink, G: Gate>(
    rt: &R,
    alloc: Global,
    version: u32,
    cpus: u32,
    events: Vec<Event>,
    rules: Rules,
    options: &Options,
    out: &mut K,
    gate: &G,
) -> Status
    requires version { IsVersion version }
    requires trace { IsTraceAt options.now (trace_from version cpus events.items) }
    requires fit { FitsRules rules.rules }
    requires options { MayReplay options.now }
    ensures writes { WritesLast (trace_from version cpus events.items) (timing_of options.now)
        rules.rules (K.faults out.old) (K.faults out.new) (K.has out.old) (K.has out.new) result }
    ensures below { SameInner (K.below out.old) (K.below out.new) }
{
    match last_plans(rt, alloc, version, cpus, events, &rules, options) {
        Ok(plans) => write_planned(rt, alloc, version, &plans, Some(rules), options, out, gate),
        Err(fault) => rounds_status(fault),
    }
}

/// Runs `whatif` on the trace file `name`. The rules come from the rules file and, if the options
/// name one, from the drop-in file. Precondition: the options name a rules file.
pub(crate) fn run_whatif<R: Threads + Sync, S: Shelf, K: Sink, G: Gate>(
    rt: &R,
    alloc: Global,
    name: &str,
    options: &Options,
    shelf: &mut S,
    out: &mut K,
    gate: &G,
) -> Status
    requires options { MayReplay options.now }
    requires named { IsSome options.now.rules }
    requires text { IfSome options.now.rules IsUtf8 }
    requires drop_in { IfSome options.now.drop_in IsUtf8 }
    ensures unchanged { S.holds shelf.new ≡ S.holds shelf.old }
    ensures runs { Runs (Command.Whatif name.now options.now) (S.holds shelf.old)
        (run_counts (S.faults shelf.old) (S.absent shelf.old) (K.faults out.old))
        (run_counts (S.faults shelf.new) (S.absent shelf.new) (K.faults out.new))
        (K.has out.old) (K.has out.new) result }
    ensures reads { S.bytes_read shelf.new
        ≤ S.bytes_read shelf.old + most_read (Command.Whatif name.now options.now) }
    ensures stops { StopsAtRefusal (Command.Whatif name.now options.now) (S.holds shelf.old)
        (S.bytes_read shelf.old) (S.bytes_read shelf.new) result }
    ensures order { ReadsInOrder (Command.Whatif name.now options.now) (S.holds shelf.old)
        (S.reads shelf.old) (S.reads shelf.new) result }
    ensures below { SameInner (K.below out.old) (K.below out.new) }
{
    let Some(rules_name) = &options.rules else {
        unreachable!();
    };
    let rules = match read_joined(alloc, name_of(rules_name), &options.drop_in, shelf) {
        Ok(rules) => rules,
        Err(status) => return status,
    };
    let tick = Ns::from(options.tick_ms) * MILLISECOND;
    match play_trace::<S, Keeper>(alloc, name, shelf, tick) {
        Ok((version, keeper)) => write_whatif(
            rt,
            alloc,
            version,
            keeper.cpus,
            keeper.events,
            rules,
            options,
            out,
            gate,
        ),
        Err(fault) => fault_status(fault),
    }
}

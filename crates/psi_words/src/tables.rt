//! The arguments of each command: the options with their ranges and defaults, and the command that
//! they form.
//!
//! Single values are parsed in `values`.
ghost use Rattle.std.specs.Prelude.{map, string_bytes, IfOk, IfSome, IsUtf8};
ghost use Rattle.psi_words.specs.Reads.{Finds, HasTextNames, ReadsWord};
ghost use Rattle.run_spec.specs.Words as spec;

use crate::parsed::Parsed;
use crate::values::{drop_in, live, needed, number_or, rules};
use crate::words::BadWords;
use psi_base::{Fault, Text};
use run_spec::{Command, Options, Shape};
use std::alloc::Global;

// Returns the name of the trace file, which is the positional argument. Fails if it is missing or
// empty.
fn trace(alloc: Global, parsed: &Parsed) -> Result<Text, Fault<BadWords>>
    ensures exact { ReadsWord result (spec.trace_option parsed.now) }
    ensures text { IfOk result IsUtf8 }
{
    match parsed.positional() {
        Some(name) if !name.is_empty() => Ok(Text::make(alloc, name.as_bytes())?),
        _ => Err(Fault::Refused(BadWords)),
    }
}

// Returns the length of a tick in ms: 1 to 60,000, by default 2,000.
fn tick_ms(parsed: &Parsed) -> Result<u32, BadWords>
    ensures { Finds result (spec.tick_option parsed.now) }
{
    number_or(2_000, 1, 60_000, parsed.value("tick-ms"))
}

// Returns the number of worker threads: 1 to 64, by default 64.
fn workers(parsed: &Parsed) -> Result<u32, BadWords>
    ensures { Finds result (spec.workers_option parsed.now) }
{
    number_or(64, 1, 64, parsed.value("workers"))
}

// Returns the options of `replay` and `whatif`.
#[tactic(auto, unfolding(run_spec::specs::Words::options_of))]
fn options(alloc: Global, parsed: &Parsed) -> Result<Options, Fault<BadWords>>
    ensures exact { ReadsWord result (spec.options_of parsed.now) }
    ensures text { IfOk result (λ options. IfSome options.rules IsUtf8) }
    ensures drop_in { IfOk result (λ options. IfSome options.drop_in IsUtf8) }
{
    let rules = rules(alloc, parsed.value("rules"))?;
    let drop_in = drop_in(alloc, &rules, parsed.value("drop-in"))?;
    let tick_ms = tick_ms(parsed)?;
    let interval_s = number_or(5, 1, 3_600, parsed.value("interval-s"))?;
    let report_s = number_or(10, 0, 3_600, parsed.value("report-s"))?;
    let workers = workers(parsed)?;
    let live = live(alloc, parsed.value("live"))?;
    let live_count = number_or(1, 1, 16, parsed.value("live-count"))?;
    Ok(Options {
        rules,
        drop_in,
        tick_ms,
        interval_s,
        report_s,
        workers,
        live,
        live_count,
    })
}

// Returns the shape of a generated trace: its seed and its numbers of processors, groups and
// events. Fails if the words have a positional argument or lack one of these options.
#[tactic(auto, unfolding(run_spec::specs::Words::shape_of))]
fn shape(parsed: &Parsed) -> Result<Shape, BadWords>
    ensures { Finds result (spec.shape_of parsed.now) }
{
    if parsed.positional().is_some() {
        return Err(BadWords);
    }
    let seed = needed(0, u64::MAX, parsed.value("seed"))?;
    let cpus = needed(1, 64, parsed.value("cpus"))? as u32;
    let groups = needed(0, 1_000, parsed.value("groups"))? as u32;
    let events = needed(0, 3_900_000, parsed.value("events"))? as u32;
    Ok(Shape {
        seed,
        cpus,
        groups,
        events,
    })
}

#[tactic(auto, unfolding(run_spec::specs::Words::stall_of))]
fn stall_words(alloc: Global, parsed: &Parsed) -> Result<Command, Fault<BadWords>>
    ensures exact { ReadsWord result (spec.stall_of parsed.now) }
    ensures texts { IfOk result HasTextNames }
{
    let trace = trace(alloc, parsed)?;
    Ok(Command::Stall { trace })
}

/// Parses the words after `stall`.
pub(crate) fn read_stall(alloc: Global, words: &[String]) -> Result<Command, Fault<BadWords>>
    ensures exact { ReadsWord result (spec.spelled spec.stall_form (map string_bytes words.now)) }
    ensures texts { IfOk result HasTextNames }
{
    let parsed = Parsed::read(alloc, &[], words)?;
    let command = stall_words(alloc, &parsed);
    drop(parsed);
    command
}

#[tactic(auto, unfolding(run_spec::specs::Words::check_of))]
fn check_words(alloc: Global, parsed: &Parsed) -> Result<Command, Fault<BadWords>>
    ensures exact { ReadsWord result (spec.check_of parsed.now) }
    ensures texts { IfOk result HasTextNames }
{
    let trace = trace(alloc, parsed)?;
    let tick_ms = tick_ms(parsed)?;
    Ok(Command::Check { trace, tick_ms })
}

/// Parses the words after `check`.
pub(crate) fn read_check(alloc: Global, words: &[String]) -> Result<Command, Fault<BadWords>>
    ensures exact { ReadsWord result (spec.spelled spec.check_form (map string_bytes words.now)) }
    ensures texts { IfOk result HasTextNames }
{
    let parsed = Parsed::read(alloc, &["tick-ms"], words)?;
    let command = check_words(alloc, &parsed);
    drop(parsed);
    command
}

#[tactic(auto, unfolding(run_spec::specs::Words::replay_of))]
fn replay_words(alloc: Global, parsed: &Parsed) -> Result<Command, Fault<BadWords>>
    ensures exact { ReadsWord result (spec.replay_of parsed.now) }
    ensures texts { IfOk result HasTextNames }
{
    let trace = trace(alloc, parsed)?;
    let options = options(alloc, parsed)?;
    Ok(Command::Replay { trace, options })
}

/// Parses the words after `replay`.
pub(crate) fn read_replay(alloc: Global, words: &[String]) -> Result<Command, Fault<BadWords>>
    ensures exact { ReadsWord result (spec.spelled spec.replay_form (map string_bytes words.now)) }
    ensures texts { IfOk result HasTextNames }
{
    let names = [
        "rules",
        "drop-in",
        "tick-ms",
        "interval-s",
        "report-s",
        "workers",
        "live",
        "live-count",
    ];
    let parsed = Parsed::read(alloc, &names, words)?;
    let command = replay_words(alloc, &parsed);
    drop(parsed);
    command
}

#[tactic(auto, unfolding(run_spec::specs::Words::gen_of))]
fn gen_words(parsed: &Parsed) -> Result<Command, Fault<BadWords>>
    ensures exact { ReadsWord result (spec.gen_of parsed.now) }
    ensures texts { IfOk result HasTextNames }
{
    let shape = shape(parsed)?;
    Ok(Command::Gen { shape })
}

/// Parses the words after `gen`.
pub(crate) fn read_gen(alloc: Global, words: &[String]) -> Result<Command, Fault<BadWords>>
    ensures exact { ReadsWord result (spec.spelled spec.gen_form (map string_bytes words.now)) }
    ensures texts { IfOk result HasTextNames }
{
    let parsed = Parsed::read(alloc, &["seed", "cpus", "groups", "events"], words)?;
    let command = gen_words(&parsed);
    drop(parsed);
    command
}

#[tactic(auto, unfolding(run_spec::specs::Words::stress_of))]
fn stress_words(parsed: &Parsed) -> Result<Command, Fault<BadWords>>
    ensures exact { ReadsWord result (spec.stress_of parsed.now) }
    ensures texts { IfOk result HasTextNames }
{
    let shape = shape(parsed)?;
    let workers = workers(parsed)?;
    Ok(Command::Stress { shape, workers })
}

/// Parses the words after `stress`.
pub(crate) fn read_stress(alloc: Global, words: &[String]) -> Result<Command, Fault<BadWords>>
    ensures exact { ReadsWord result (spec.spelled spec.stress_form (map string_bytes words.now)) }
    ensures texts { IfOk result HasTextNames }
{
    let names = ["workers", "seed", "cpus", "groups", "events"];
    let parsed = Parsed::read(alloc, &names, words)?;
    let command = stress_words(&parsed);
    drop(parsed);
    command
}

#[tactic(auto, unfolding(run_spec::specs::Words::import_command_of))]
fn import_words(alloc: Global, parsed: &Parsed) -> Result<Command, Fault<BadWords>>
    ensures exact { ReadsWord result (spec.import_command_of parsed.now) }
    ensures texts { IfOk result HasTextNames }
{
    let file = trace(alloc, parsed)?;
    let cpus = needed(1, 64, parsed.value("cpus"))? as u32;
    Ok(Command::Import { file, cpus })
}

/// Parses the words after `import`.
pub(crate) fn read_import(alloc: Global, words: &[String]) -> Result<Command, Fault<BadWords>>
    ensures exact { ReadsWord result (spec.spelled spec.import_form (map string_bytes words.now)) }
    ensures texts { IfOk result HasTextNames }
{
    let parsed = Parsed::read(alloc, &["cpus"], words)?;
    let command = import_words(alloc, &parsed);
    drop(parsed);
    command
}

#[tactic(auto, unfolding(run_spec::specs::Words::rules_command_of))]
fn rules_option(alloc: Global, parsed: &Parsed) -> Result<Command, Fault<BadWords>>
    ensures exact { ReadsWord result (spec.rules_command_of parsed.now) }
    ensures texts { IfOk result HasTextNames }
{
    let file = trace(alloc, parsed)?;
    let drop_in = rules(alloc, parsed.value("drop-in"))?;
    Ok(Command::Rules { file, drop_in })
}

/// Parses the words after `rules`.
pub(crate) fn read_rules(alloc: Global, words: &[String]) -> Result<Command, Fault<BadWords>>
    ensures exact { ReadsWord result (spec.spelled spec.rules_form (map string_bytes words.now)) }
    ensures texts { IfOk result HasTextNames }
{
    let parsed = Parsed::read(alloc, &["drop-in"], words)?;
    let command = rules_option(alloc, &parsed);
    drop(parsed);
    command
}

#[tactic(auto, unfolding(run_spec::specs::Words::whatif_of))]
fn whatif_options(alloc: Global, parsed: &Parsed) -> Result<Command, Fault<BadWords>>
    ensures exact { ReadsWord result (spec.whatif_of parsed.now) }
    ensures texts { IfOk result HasTextNames }
{
    let trace = trace(alloc, parsed)?;
    let options = options(alloc, parsed)?;
    if options.rules.is_some() && options.live.is_none() {
        Ok(Command::Whatif { trace, options })
    } else {
        Err(Fault::Refused(BadWords))
    }
}

/// Parses the words after `whatif`.
pub(crate) fn read_whatif(alloc: Global, words: &[String]) -> Result<Command, Fault<BadWords>>
    ensures exact { ReadsWord result (spec.spelled spec.whatif_form (map string_bytes words.now)) }
    ensures texts { IfOk result HasTextNames }
{
    let names = [
        "rules",
        "drop-in",
        "tick-ms",
        "interval-s",
        "report-s",
        "workers",
    ];
    let parsed = Parsed::read(alloc, &names, words)?;
    let command = whatif_options(alloc, &parsed);
    drop(parsed);
    command
}

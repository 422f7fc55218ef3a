//! Tests of parsing command lines: valid ones, with all fields of the resulting command, and
//! invalid ones, which are rejected.
mod rows;

use crate::words::rows::{ACCEPTED, REFUSED};
use psi_base::{Fault, Path, Text};
use psi_words::read_words;
use run_spec::{Command, Options, Shape};
use std::alloc::Global;
use std::process::Abort;
use test_support::{as_text, assert_equal, words_of};

fn name_shown(name: &Option<Text>) -> &str {
    match name {
        Some(name) => as_text(name.bytes()),
        None => "none",
    }
}

// Returns `+` and the name of the drop-in file, or empty texts if no drop-in file is named.
fn over_shown(drop_in: &Option<Text>) -> (&str, &str) {
    match drop_in {
        Some(name) => ("+", as_text(name.bytes())),
        None => ("", ""),
    }
}

fn path_shown(path: &Option<Path>) -> &str {
    match path {
        Some(path) => path.text(),
        None => "none",
    }
}

fn options_shown(rt: &impl Abort, alloc: Global, options: &Options) -> String {
    let rules = name_shown(&options.rules);
    let live = path_shown(&options.live);
    let (plus, drop_in) = over_shown(&options.drop_in);
    let shown = format!(in alloc;
        "{rules}{plus}{drop_in} {} {} {} {} {live} {}",
        options.tick_ms, options.interval_s, options.report_s, options.workers, options.live_count
    );
    shown.expect(rt, "memory")
}

fn shape_shown(rt: &impl Abort, alloc: Global, shape: &Shape) -> String {
    let shown = format!(in alloc;
        "{} {} {} {}",
        shape.seed, shape.cpus, shape.groups, shape.events
    );
    shown.expect(rt, "memory")
}

// Formats a command as text, with all its fields.
fn command_shown(rt: &impl Abort, alloc: Global, command: &Command) -> String {
    let text = match command {
        Command::Stall { trace } => format!(in alloc; "stall {}", as_text(trace.bytes())),
        Command::Check { trace, tick_ms } => {
            format!(in alloc; "check {} {tick_ms}", as_text(trace.bytes()))
        }
        Command::Replay { trace, options } => {
            let options = options_shown(rt, alloc, options);
            format!(in alloc; "replay {} {options}", as_text(trace.bytes()))
        }
        Command::Gen { shape } => {
            let shape = shape_shown(rt, alloc, shape);
            format!(in alloc; "gen {shape}")
        }
        Command::Stress { shape, workers } => {
            let shape = shape_shown(rt, alloc, shape);
            format!(in alloc; "stress {shape} {workers}")
        }
        Command::Import { file, cpus } => {
            format!(in alloc; "import {} {cpus}", as_text(file.bytes()))
        }
        Command::Rules { file, drop_in } => {
            let (plus, drop_in) = over_shown(drop_in);
            format!(in alloc; "rules {}{plus}{drop_in}", as_text(file.bytes()))
        }
        Command::Whatif { trace, options } => {
            let options = options_shown(rt, alloc, options);
            format!(in alloc; "whatif {} {options}", as_text(trace.bytes()))
        }
    };
    text.expect(rt, "memory")
}

// Splits a line into words at `|`; `(none)` has no words.
fn words_at_bars(rt: &impl Abort, alloc: Global, line: &str) -> Vec<String> {
    if line == "(none)" {
        return Vec::new(alloc);
    }
    words_of(alloc, line, '|').expect(rt, "memory")
}

// Formats the command that the words of a line form, or the error if they form none.
fn answer(rt: &impl Abort, alloc: Global, line: &str) -> String {
    let words = words_at_bars(rt, alloc, line);
    match read_words(alloc, words.as_slice()) {
        Ok(command) => command_shown(rt, alloc, &command),
        Err(Fault::Refused(_)) => String::from_str(alloc, "refused").expect(rt, "memory"),
        Err(Fault::NoMemory(_)) => String::from_str(alloc, "no memory").expect(rt, "memory"),
    }
}

// Checks the result for the words of a line.
fn assert_answer(rt: &impl Abort, alloc: Global, line: &str, wanted: &str) {
    let answer = answer(rt, alloc, line);
    assert_equal!(rt; answer.as_str(), wanted, line);
}

#[test]
fn accepts(rt: HostRuntime) {
    for row in ACCEPTED.lines() {
        let (line, wanted) = row.split_once(" => ").expect(&rt, row);
        assert_answer(&rt, rt.alloc(), line, wanted);
    }
}

#[test]
fn refuses(rt: HostRuntime) {
    for line in REFUSED.lines() {
        assert_answer(&rt, rt.alloc(), line, "refused");
    }
}

//! Types for parsed command lines, and laws about their syntax. The crate commands parses command
//! lines.
ghost use Rattle.run_spec.specs.Laws.{OrderIsFree, SpelledInRange, ValueMayFollow};

use psi_base::{Path, Text};

/// A parsed command. Options that are absent from the command line have their default values.
#[derive(Drop)]
pub enum Command {
    /// Prints the time (ns) that each group spent in each state on each processor and, for a trace
    /// of version 2, the interrupt time (ns).
    Stall {
        /// The name of the trace's file, or `-` for standard input.
        trace: Text,
    },
    /// Checks a trace, and prints its numbers of lines and events if it is accepted.
    Check {
        /// The name of the trace's file, or `-` for standard input.
        trace: Text,
        /// The length of a tick in ms: 1 to 60,000, by default 2,000. A trace may last at most a
        /// million ticks.
        tick_ms: u32,
    },
    /// Replays the trace tick by tick.
    Replay {
        /// The name of the trace's file, or `-` for standard input.
        trace: Text,
        /// The options of the replay.
        options: Options,
    },
    /// Prints a generated trace.
    Gen {
        /// The shape of the generated trace.
        shape: Shape,
    },
    /// Replays a generated trace, which is never stored as a file.
    Stress {
        /// The shape of the generated trace.
        shape: Shape,
        /// The maximum number of threads: 1 to 64, by default 64.
        workers: u32,
    },
    /// Converts the text of the kernel's ftrace to a trace, and prints it.
    Import {
        /// The name of the file with the ftrace text, or `-` for standard input.
        file: Text,
        /// The number of processors of the machine: 1 to 64.
        cpus: u32,
    },
    /// Prints rules as one line of JSON, with every default filled in.
    Rules {
        /// The name of the rules file, or `-` for standard input.
        file: Text,
        /// The name of the drop-in file. By default there is no drop-in file.
        drop_in: Option<Text>,
    },
    /// Replays the trace that remains after the victims of its kills were removed, one kill at a
    /// time.
    Whatif {
        /// The name of the trace's file, or `-` for standard input.
        trace: Text,
        /// The options of `replay`. A rules file is required, and no group is watched.
        options: Options,
    },
}

/// The options of `replay` and `whatif`.
#[derive(Drop)]
pub struct Options {
    /// The name of the rules file. By default there is no rules file.
    pub rules: Option<Text>,
    /// The name of the drop-in file. By default there is no drop-in file.
    pub drop_in: Option<Text>,
    /// The length of a tick in ms: 1 to 60,000, by default 2,000.
    pub tick_ms: u32,
    /// The interval (s) of evaluations, from 1 to 3,600 and by default 5. An evaluation is due at
    /// the first tick at or after each multiple of the interval.
    pub interval_s: u32,
    /// The period (s) of reports, from 0 to 3,600 and by default 10. A report is due at the first
    /// tick at or after each multiple of the period, and at the last tick. With a period of 0, only
    /// the last tick has a report.
    pub report_s: u32,
    /// The maximum number of threads: 1 to 64, by default 64.
    pub workers: u32,
    /// The group whose clocks are sampled while the replay runs (`--live`). By default there is no
    /// such group.
    pub live: Option<Path>,
    /// The number of live samples of each processor in each interval: 1 to 16, by default 1.
    pub live_count: u32,
}

/// The shape of a generated trace.
#[derive(Clone, Copy, Debug, PartialEq, Eq)]
pub struct Shape {
    /// The seed of the random numbers: any 64-bit number.
    pub seed: u64,
    /// The number of processors of the machine: 1 to 64.
    pub cpus: u32,
    /// The number of groups besides the root: 0 to 1,000.
    pub groups: u32,
    /// The number of events after the events that create the groups and tasks: 0 to 3,900,000.
    pub events: u32,
}

/// All numbers of a parsed command are in range, and its file names aren't empty.
pub fn law_ranges()
    ensures { SpelledInRange }
{}

/// Options may be in any order: two adjacent options with different names may be swapped.
pub fn law_option_order()
    ensures { OrderIsFree }
{}

/// An option `--name=value` may also be written as two words, `--name value`, if no earlier word is
/// `--` and the value doesn't begin with `-` (a single `-` is allowed).
pub fn law_option_value()
    ensures { ValueMayFollow }
{}

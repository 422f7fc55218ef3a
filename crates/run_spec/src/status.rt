//! The status with which a run ends, its exit status, and laws about missing files and read calls.
ghost use Rattle.std.specs.Prelude.{◌≡◌};
ghost use Rattle.run_spec.specs.Laws.{CommandCallsAreFew, FileCallsAreFew, MissingDropInComesFirst, MissingDropInShows, MissingRulesComeFirst, MissingRulesShow, MissingSourceShows};
ghost use Rattle.run_spec.specs.Status.{code_of};

use dropin_rules::DropFault;
use import_spec::ImportCause;
use psi_base::{Cause, NoMemory};
use ruleset_json::RulesFault;

/// The kinds of files that a command reads.
#[derive(Clone, Copy, Debug, PartialEq, Eq)]
pub enum Which {
    /// The rules file.
    RulesFile,
    /// The trace.
    TraceFile,
    /// The ftrace text that is imported.
    ImportFile,
    /// The drop-in file.
    DropInFile,
}

/// The status with which a run ended.
#[derive(Clone, Copy, Debug, PartialEq, Eq)]
pub enum Status {
    /// The whole output was written.
    Done,
    /// The words don't form a command.
    Usage,
    /// The trace is rejected at this line (numbered from 1), for this cause.
    Trace { line: u32, cause: Cause },
    /// The rules file is rejected with this error.
    Rules { fault: RulesFault },
    /// The file of this kind doesn't exist.
    NoFile { which: Which },
    /// A read failed.
    ReadFault,
    /// A write failed; a prefix of the output was written.
    WriteFault,
    /// Out of memory.
    NoMemory(NoMemory),
    /// The ftrace text is rejected at this line (numbered from 1), for this cause.
    Import { line: u32, cause: ImportCause },
    /// The drop-in file is rejected with this error.
    DropIn { fault: DropFault },
    /// A round of `whatif` left this many events, more than a trace may have.
    TooLarge { events: u64 },
}

impl Status {
    /// Returns the exit status of the program for this status.
    pub fn code(self) -> u8
        ensures { result ≡ code_of self }
    {
        match self {
            Status::Done => 0,
            Status::Usage => 1,
            Status::Trace { .. } => 2,
            Status::Rules { .. } => 3,
            Status::NoFile { .. } => 4,
            Status::ReadFault => 5,
            Status::WriteFault => 6,
            Status::NoMemory(_) => 7,
            Status::Import { .. } => 8,
            Status::DropIn { .. } => 9,
            Status::TooLarge { .. } => 10,
        }
    }
}

/// If a file of a command is known to be missing, the run reports the missing file or fails in
/// another way. If the trace or the ftrace text is missing, the run may instead report an error in
/// the rules file or in the drop-in file, which are read first. If the drop-in file is missing, the
/// run may report an error in the rules file. No file after the missing file was read.
pub fn law_missing_files()
    ensures rules { MissingRulesShow }
    ensures drop_in { MissingDropInShows }
    ensures source { MissingSourceShows }
    ensures rules_first { MissingRulesComeFirst }
    ensures drop_in_first { MissingDropInComesFirst }
{}

/// The number of read calls for a file is at most the number of bytes that the calls returned, plus
/// one. The number of read calls of a command is at most the number of bytes that the calls
/// returned, plus one for each file.
pub fn law_reads()
    ensures file { FileCallsAreFew }
    ensures command { CommandCallsAreFew }
{}

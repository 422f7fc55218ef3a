//! Writes the message of a status to standard error. A message names files as they are named on the
//! command line.
ghost use Rattle.std.specs.Prelude.{◌≡◌, ◌++◌, codes, option_map};
ghost use Rattle.dropin_rules.specs.FaultText.{drop_fault_text};
ghost use Rattle.ruleset_json.specs.FaultText.{fault_text};
ghost use Rattle.outside.specs.Outside.{HasCause};
ghost use Rattle.outside.specs.Calls.{PutsAll};
ghost use Rattle.run_spec.specs.Text.{import_cause_text};
ghost use Rattle.run_spec.specs.Status.{import_refusal_text, name_text, status_text};

use dropin_rules::DropFault;
use import_spec::ImportCause;
use itoa::Buffer;
use outside::{Sink, WriteFailed, put_all, put_each};
use rules_file::{put_drop_fault, put_fault};
use ruleset_json::RulesFault;
use run_spec::{Command, Status, Which};
use trace_file::put_refusal;

// Returns the name of the reason why a line of an ftrace text is rejected.
fn import_cause_name(cause: ImportCause) -> &'static [u8]
    ensures { result.now ≡ import_cause_text cause }
{
    match cause {
        ImportCause::LineTooLong => b"LineTooLong",
        ImportCause::Cut => b"Cut",
        ImportCause::BadLine => b"BadLine",
        ImportCause::BadCpu => b"BadCpu",
        ImportCause::TooLate => b"TooLate",
        ImportCause::TooManyTasks => b"TooManyTasks",
        ImportCause::TooManyEvents => b"TooManyEvents",
        ImportCause::TooManyLines => b"TooManyLines",
    }
}

// Writes the message for a rejected line of an ftrace text.
fn put_import_refusal<N: Sink>(
    note: &mut N,
    line: u32,
    cause: ImportCause,
) -> Result<(), WriteFailed>
    ensures bytes { PutsAll (N.has note.old) (N.has note.new) result
        (import_refusal_text line cause) }
    ensures cause { HasCause (N.faults note.old) (N.faults note.new) result }
{
    let mut digits = Buffer::new();
    let line = digits.format(line).as_bytes();
    put_each(
        note,
        &[
            b"import line ".as_slice(),
            line,
            b": ".as_slice(),
            import_cause_name(cause),
            b"\n".as_slice(),
        ],
    )
}

// Writes the message for an error in a rules file.
fn put_rules_fault<N: Sink>(note: &mut N, fault: RulesFault) -> Result<(), WriteFailed>
    ensures bytes { PutsAll (N.has note.old) (N.has note.new) result
        (fault_text fault ++ codes "\n") }
    ensures cause { HasCause (N.faults note.old) (N.faults note.new) result }
{
    put_fault(note, fault)?;
    put_all(note, b"\n")
}

// Writes the message for an error in a drop-in file.
fn put_drop_in_fault<N: Sink>(note: &mut N, fault: DropFault) -> Result<(), WriteFailed>
    ensures bytes { PutsAll (N.has note.old) (N.has note.new) result
        (drop_fault_text fault ++ codes "\n") }
    ensures cause { HasCause (N.faults note.old) (N.faults note.new) result }
{
    put_drop_fault(note, fault)?;
    put_all(note, b"\n")
}

// Returns the name of the file of kind `which` on the command line, or an empty name if the command
// line has no such file.
fn file_name(command: Option<&Command>, which: Which) -> &[u8]
    ensures { result.now ≡ name_text (option_map (λ command. command.now) command.entry) which }
{
    let name = match (which, command) {
        (Which::TraceFile, Some(Command::Stall { trace }))
        | (Which::TraceFile, Some(Command::Check { trace, .. }))
        | (Which::TraceFile, Some(Command::Replay { trace, .. }))
        | (Which::TraceFile, Some(Command::Whatif { trace, .. })) => Some(trace),
        (Which::RulesFile, Some(Command::Replay { options, .. }))
        | (Which::RulesFile, Some(Command::Whatif { options, .. })) => options.rules.as_ref(),
        (Which::RulesFile, Some(Command::Rules { file, .. })) => Some(file),
        (Which::DropInFile, Some(Command::Replay { options, .. }))
        | (Which::DropInFile, Some(Command::Whatif { options, .. })) => options.drop_in.as_ref(),
        (Which::DropInFile, Some(Command::Rules { drop_in, .. })) => drop_in.as_ref(),
        (Which::ImportFile, Some(Command::Import { file, .. })) => Some(file),
        _ => None,
    };
    match name {
        Some(name) => name.bytes(),
        None => b"",
    }
}

/// Writes the message of a status as one line, or nothing for `Done`. Does not allocate.
pub(crate) fn put_status<N: Sink>(
    note: &mut N,
    command: Option<&Command>,
    status: Status,
) -> Result<(), WriteFailed>
    ensures bytes { PutsAll (N.has note.old) (N.has note.new) result
        (status_text (option_map (λ command. command.now) command.entry) status) }
    ensures cause { HasCause (N.faults note.old) (N.faults note.new) result }
{
    match status {
        Status::Done => put_all(note, b""),
        Status::Usage => put_all(
            note,
            b"usage: psi_oomd stall or check or replay or gen or stress or import or rules or whatif\n",
        ),
        Status::Trace { line, cause } => put_refusal(note, line, cause),
        Status::Rules { fault } => put_rules_fault(note, fault),
        Status::NoFile { which } => put_each(
            note,
            &[
                b"no file: ".as_slice(),
                file_name(command, which),
                b"\n".as_slice(),
            ],
        ),
        Status::ReadFault => put_all(note, b"read fault\n"),
        Status::WriteFault => put_all(note, b"write fault\n"),
        Status::NoMemory(_) => put_all(note, b"out of memory\n"),
        Status::Import { line, cause } => put_import_refusal(note, line, cause),
        Status::DropIn { fault } => put_drop_in_fault(note, fault),
        Status::TooLarge { .. } => put_all(note, b"too large\n"),
    }
}

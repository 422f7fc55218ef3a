//! The entry point of `psi_oomd`: `run` runs one command line. Its contract is the specification of
//! the whole program; the definitions that it uses are in the crate run_spec. Parsing words,
//! reading files and replaying traces are done in other modules and crates.
ghost use Rattle.std.specs.Prelude.{◌≡◌, ◌⊎◌, ◌≢◌, ◌+◌, ◌≤◌, ◌++◌, ℕ, List, Option, Some, None, Ok, Err, codes, map, string_bytes};
ghost use Rattle.std.specs.Io.KnownBytes.{Appends, Keeps};
ghost use Rattle.psi_base.specs.Memory.{no_memory};
ghost use Rattle.outside.specs.Outside.{AppendsPrefix, Increased};
ghost use Rattle.psi_base.specs.declared.event.Event.{Event};
ghost use Rattle.psi_spec.specs.Trace.{Trace, text_of, trace_of};
ghost use Rattle.import_spec.specs.Import.{import_of, import_trace};
ghost use Rattle.psi_words.specs.Reads.{HasTextNames};
ghost use Rattle.run_spec.specs.declared.command.Command.{Command};
ghost use Rattle.run_spec.specs.declared.command.Options.{Options};
ghost use Rattle.run_spec.specs.declared.status.Status.{Status};
ghost use Rattle.run_spec.specs.Outputs.{accepts_of, timing_of};
ghost use Rattle.run_spec.specs.MostRead.{most_read};
ghost use Rattle.run_spec.specs.Replay.{IsReplayText, replay_text, with_rules};
ghost use Rattle.run_spec.specs.Whatif.{last_trace};
ghost use Rattle.run_spec.specs.Promises.{Completes, MakesOutput, PrintsRules, RejectsDropIn, RejectsRules, RejectsSource};
ghost use Rattle.run_spec.specs.ReadOrder.{ReadsInOrder};
ghost use Rattle.run_spec.specs.Run.{FailuresAreCounted, HasContent, RulesContent, Runs, run_counts};
ghost use Rattle.run_spec.specs.Stops.{StopsAtRefusal};
ghost use Rattle.run_spec.specs.declared.status.Which.TheVariants.{ImportFile, TraceFile};
ghost use Rattle.dropin_rules.specs.RulesText.{rules_text};
ghost use Rattle.ruleset_json.specs.declared.types.Rule.{Rule};
ghost use Rattle.run_spec.specs.Status.{status_text};
ghost use Rattle.run_spec.specs.Words.{command_of};
ghost use Rattle.run_spec.specs.LegalCommand.{IsCommand};

use crate::command::run_command;
use crate::note::put_status;
use outside::{BufferedSink, Gate, Pending, Shelf, Sink};
use psi_base::Fault;
use psi_words::{BadWords, read_words};
use run_spec::{Command, Status};
use std::alloc::Global;
use std::thread::Threads;

// Runs a command. Collects the output of the command in a buffer, so that few large writes are made
// instead of many small writes.
fn run_buffered<R: Threads + Sync, S: Shelf, K: Sink, G: Gate>(
    rt: &R,
    alloc: Global,
    command: &Command,
    shelf: &mut S,
    out: &mut K,
    gate: &G,
) -> Status
    requires ranges { IsCommand command.now }
    requires texts { HasTextNames command.now }
    ensures unchanged { S.holds shelf.new ≡ S.holds shelf.old }
    ensures runs { Runs command.now (S.holds shelf.old)
        (run_counts (S.faults shelf.old) (S.absent shelf.old) (K.faults out.old))
        (run_counts (S.faults shelf.new) (S.absent shelf.new) (K.faults out.new))
        (K.has out.old) (K.has out.new) result }
    ensures reads { S.bytes_read shelf.new ≤ S.bytes_read shelf.old + most_read command.now }
    ensures stops { StopsAtRefusal command.now (S.holds shelf.old)
        (S.bytes_read shelf.old) (S.bytes_read shelf.new) result }
    ensures order { ReadsInOrder command.now (S.holds shelf.old)
        (S.reads shelf.old) (S.reads shelf.new) result }
{
    let mut pending = match Pending::new(alloc) {
        Ok(pending) => pending,
        Err(none) => return Status::NoMemory(none),
    };
    let mut buffered = BufferedSink::new(out, &mut pending);
    match run_command(rt, alloc, command, shelf, &mut buffered, gate) {
        Status::Done => match buffered.flush() {
            Ok(()) => Status::Done,
            Err(_) => Status::WriteFault,
        },
        status => status,
    }
}

/// Runs one command line.
///
/// `words` is the command line without the program's name. The files are read from `shelf` (the
/// file store), the output is written to `out`, and the message of the status to `note` (standard
/// error): one line, or nothing for `Done`. A failed write to `note` doesn't change the status.
/// `gate` is a hook for tests, which may pause a thread but changes no result. The threads of
/// `replay`, `whatif` and `stress` call the gate after each change of a processor's clocks. They
/// also call it before and after each live sample.
pub fn run<R: Threads + Sync, S: Shelf, K: Sink, N: Sink, G: Gate>(
    rt: &R,
    alloc: Global,
    words: &[String],
    shelf: &mut S,
    out: &mut K,
    note: &mut N,
    gate: &G,
) -> Status
    // The run doesn't change the files.
    ensures unchanged { S.holds shelf.new ≡ S.holds shelf.old }

    // The result is Usage only if the words don't form a command. For such words the result is
    // Usage, or NoMemory if memory runs out.
    ensures usage { result ≡ Status.Usage → command_of (map string_bytes words.now) ≡ None }
    ensures unknown { command_of (map string_bytes words.now) ≡ None →
        (result ≡ Status.Usage) ⊎ (result ≡ Status.NoMemory no_memory) }

    // The general contract: `Runs` relates the status to the command's files, the output and the
    // failure counts. Most of the following clauses state a consequence for one command.
    ensures runs { (command : Command) →
        command_of (map string_bytes words.now) ≡ Some command →
        Runs command (S.holds shelf.old)
        (run_counts (S.faults shelf.old) (S.absent shelf.old) (K.faults out.old))
        (run_counts (S.faults shelf.new) (S.absent shelf.new) (K.faults out.new))
        (K.has out.old) (K.has out.new) result }

    // The main result: if `replay` returns Done, it appended exactly a text that the specification
    // allows for the trace and the rules. The rules come from the rules file with the drop-in file
    // applied. With `--live` several texts are allowed: a live line may show a processor's clocks
    // after any number of changes between the count at the previous tick and the count at the
    // line's own tick.
    ensures headline { (name bytes : List ℕ) (options : Options) (rules : List Rule) →
        command_of (map string_bytes words.now) ≡ Some (Command.Replay name options) →
        HasContent (Command.Replay name options) TraceFile (S.holds shelf.old) bytes →
        RulesContent (Command.Replay name options) (S.holds shelf.old) rules →
        result ≡ Status.Done →
        (trace : Trace) × (trace_of (accepts_of (Command.Replay name options)) bytes ≡ Ok trace)
        × ((text : List ℕ) × IsReplayText trace (timing_of options) rules text
        × Appends (K.has out.old) (K.has out.new) text) }

    // Without `--live` the specification defines exactly one text: if `replay` returns Done, it
    // appended `replay_text`.
    ensures alone { (name bytes : List ℕ) (options : Options) (rules : List Rule) →
        command_of (map string_bytes words.now) ≡ Some (Command.Replay name options) →
        options.live ≡ None →
        HasContent (Command.Replay name options) TraceFile (S.holds shelf.old) bytes →
        RulesContent (Command.Replay name options) (S.holds shelf.old) rules →
        result ≡ Status.Done →
        (trace : Trace) × (trace_of (accepts_of (Command.Replay name options)) bytes ≡ Ok trace)
        × Appends (K.has out.old) (K.has out.new)
        (replay_text trace (timing_of options) (with_rules rules)) }

    // If `import` returns Done, it appended to the output exactly the text of the trace that
    // `import_of` defines for the bytes of the ftrace text.
    ensures imported { (name bytes : List ℕ) (cpus : ℕ) →
        command_of (map string_bytes words.now) ≡ Some (Command.Import name cpus) →
        HasContent (Command.Import name cpus) ImportFile (S.holds shelf.old) bytes →
        result ≡ Status.Done →
        (events : List Event) × (import_of cpus bytes ≡ Ok events)
        × Appends (K.has out.old) (K.has out.new) (text_of (import_trace cpus events)) }

    // If `rules` returns Done, it appended to the output exactly the text of the rules and a
    // newline.
    ensures printed { (name : List ℕ) (drop_in : Option (List ℕ)) (rules : List Rule) →
        command_of (map string_bytes words.now) ≡ Some (Command.Rules name drop_in) →
        RulesContent (Command.Rules name drop_in) (S.holds shelf.old) rules →
        result ≡ Status.Done →
        Appends (K.has out.old) (K.has out.new) (rules_text rules ++ codes "\n") }

    // If the rules are accepted, `rules` returns Done, unless a read or a write fails or memory
    // runs out.
    ensures prints { (name : List ℕ) (drop_in : Option (List ℕ)) →
        command_of (map string_bytes words.now) ≡ Some (Command.Rules name drop_in) →
        PrintsRules name drop_in (S.holds shelf.old)
        (run_counts (S.faults shelf.old) (S.absent shelf.old) (K.faults out.old))
        (run_counts (S.faults shelf.new) (S.absent shelf.new) (K.faults out.new)) result }

    // If `whatif` returns Done, it appended to the output exactly the replay of the last trace.
    // Each round removes the victim of one kill from the trace; the last trace is the trace after
    // all rounds.
    ensures supposed { (name bytes : List ℕ) (options : Options) (rules : List Rule) →
        command_of (map string_bytes words.now) ≡ Some (Command.Whatif name options) →
        HasContent (Command.Whatif name options) TraceFile (S.holds shelf.old) bytes →
        RulesContent (Command.Whatif name options) (S.holds shelf.old) rules →
        result ≡ Status.Done →
        (trace : Trace) × (last : Trace)
        × (trace_of (accepts_of (Command.Whatif name options)) bytes ≡ Ok trace)
        × (last_trace trace (timing_of options) rules ≡ Ok last)
        × Appends (K.has out.old) (K.has out.new)
        (replay_text last (timing_of options) (with_rules rules)) }

    // If the result is TooLarge, the trace after a round of `whatif` has `events` events, more than
    // a trace may have. A round removes the victim of one kill. Nothing was written to the output.
    ensures outgrown { (name bytes : List ℕ) (options : Options) (rules : List Rule)
        (events : ℕ) →
        command_of (map string_bytes words.now) ≡ Some (Command.Whatif name options) →
        HasContent (Command.Whatif name options) TraceFile (S.holds shelf.old) bytes →
        RulesContent (Command.Whatif name options) (S.holds shelf.old) rules →
        result ≡ Status.TooLarge events →
        (trace : Trace)
        × (trace_of (accepts_of (Command.Whatif name options)) bytes ≡ Ok trace)
        × (last_trace trace (timing_of options) rules ≡ Err events)
        × Keeps (K.has out.old) (K.has out.new) }

    // If the rules and the trace (or the ftrace text) are accepted, the result is Done, and the
    // whole output was written. If a round of `whatif` leaves too many events, the result is
    // TooLarge instead. Other results are possible only if a read or a write fails or memory runs
    // out.
    ensures complete { (command : Command) →
        command_of (map string_bytes words.now) ≡ Some command →
        Completes command (S.holds shelf.old)
        (run_counts (S.faults shelf.old) (S.absent shelf.old) (K.faults out.old))
        (run_counts (S.faults shelf.new) (S.absent shelf.new) (K.faults out.new)) result }

    // If the rules file is rejected, the result reports the first error in that file and its
    // position. Another result is possible only if a read of the file fails or memory runs out.
    ensures faulty { (command : Command) →
        command_of (map string_bytes words.now) ≡ Some command →
        RejectsRules command (S.holds shelf.old) (S.reads shelf.old) (S.reads shelf.new) result }

    // If the rules file is accepted and the drop-in file is rejected, the result reports the first
    // error in the drop-in file and its position. Another result is possible only if a read of one
    // of the two files fails or memory runs out.
    ensures dropped { (command : Command) →
        command_of (map string_bytes words.now) ≡ Some command →
        RejectsDropIn command (S.holds shelf.old) (S.reads shelf.old) (S.reads shelf.new) result }

    // If the rules are accepted and the trace (or the ftrace text) is rejected, the result reports
    // the first rejected line and the cause. Another result is possible only if a read fails or
    // memory runs out.
    ensures refuses { (command : Command) →
        command_of (map string_bytes words.now) ≡ Some command →
        RejectsSource command (S.holds shelf.old)
        (run_counts (S.faults shelf.old) (S.absent shelf.old) (K.faults out.old))
        (run_counts (S.faults shelf.new) (S.absent shelf.new) (K.faults out.new)) result }

    // If the command reads no file, the result is Done with the whole output, unless a write fails
    // or memory runs out.
    ensures made { (command : Command) →
        command_of (map string_bytes words.now) ≡ Some command →
        MakesOutput command
        (run_counts (S.faults shelf.old) (S.absent shelf.old) (K.faults out.old))
        (run_counts (S.faults shelf.new) (S.absent shelf.new) (K.faults out.new)) result }

    // A failure count (failed reads, missing files, failed writes) increased exactly if the status
    // reports that failure.
    ensures counts { FailuresAreCounted
        (run_counts (S.faults shelf.old) (S.absent shelf.old) (K.faults out.old))
        (run_counts (S.faults shelf.new) (S.absent shelf.new) (K.faults out.new)) result }

    // Whatever the size of its files and the result, a command reads at most `most_read` bytes. If
    // the words don't form a command, nothing is read.
    ensures reads { (command : Command) →
        command_of (map string_bytes words.now) ≡ Some command →
        S.bytes_read shelf.new ≤ S.bytes_read shelf.old + most_read command }
    ensures unread { command_of (map string_bytes words.now) ≡ None →
        S.bytes_read shelf.new ≡ S.bytes_read shelf.old }
    ensures no_reads { command_of (map string_bytes words.now) ≡ None →
        S.reads shelf.new ≡ S.reads shelf.old }

    // A command reads its files in order: the rules file, then the drop-in file, then the trace or
    // the ftrace text. Each file is read from its first byte without gaps, and nothing is read
    // after a failed read. If the result is ReadFault, the files before the failed file were
    // accepted.
    ensures order { (command : Command) →
        command_of (map string_bytes words.now) ≡ Some command →
        ReadsInOrder command (S.holds shelf.old) (S.reads shelf.old) (S.reads shelf.new) result }

    // Reading stops at the first rejected line of a trace or an ftrace text. If the result reports
    // that line, at most the rules file, the drop-in file, the lines before the rejected line, and
    // one buffer of bytes were read. If a read fails although the file has a rejected line, that
    // line was incomplete in the bytes read before the failure.
    ensures stops { (command : Command) →
        command_of (map string_bytes words.now) ≡ Some command →
        StopsAtRefusal command (S.holds shelf.old) (S.bytes_read shelf.old) (S.bytes_read shelf.new)
        result }

    // Unless the result is Done or WriteFault, the output is unchanged.
    ensures quiet { result ≢ Status.Done → result ≢ Status.WriteFault →
        Keeps (K.has out.old) (K.has out.new) }

    // The message of the status was appended to `note`: all of it if every write to `note`
    // succeeded, and a prefix of it if a write failed.
    ensures note { (Increased (N.faults note.old) (N.faults note.new) → ⊥) →
        Appends (N.has note.old) (N.has note.new)
        (status_text (command_of (map string_bytes words.now)) result) }
    ensures note_prefix { AppendsPrefix (N.has note.old) (N.has note.new)
        (status_text (command_of (map string_bytes words.now)) result) }
{
    match read_words(alloc, words) {
        Ok(command) => {
            let status = run_buffered(rt, alloc, &command, shelf, out, gate);
            let _ = put_status(note, Some(&command), status);
            status
        }
        Err(Fault::Refused(BadWords)) => {
            let _ = put_status(note, None, Status::Usage);
            Status::Usage
        }
        Err(Fault::NoMemory(none)) => {
            let _ = put_status(note, None, Status::NoMemory(none));
            Status::NoMemory(none)
        }
    }
}

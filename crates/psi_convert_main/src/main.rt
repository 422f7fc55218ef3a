//! The program `psi_convert`: opens the real files and streams, calls `run`, and exits with its
//! status.
//!
//! It has no logic of its own; `convert_core` does the work.
#![tactic(auto)]

ghost use Rattle.std.specs.Prelude.{◌≡◌, IfOk, [], OnErr, map, string_bytes};
ghost use Rattle.std.specs.Io.KnownBytes.{Keeps};
ghost use Rattle.std.specs.Process.{exit_status};
ghost use Rattle.psi_base.specs.Memory.{no_memory};
ghost use Rattle.convert_core.specs.declared.status.Status.{Status};
ghost use Rattle.convert_core.specs.Runs.{counts_of_run};
ghost use Rattle.convert_core.specs.Status.{code_of};
ghost use Rattle.psi_convert_main.specs.End.{EndsAs, RanAs, run_reads};

use convert_core::{Status, run};
use host_files::{HostShelf, HostSink, words_of};
use outside::{Shelf, Sink, put_all};
use psi_base::NoMemory;
use std::alloc::Global;
use std::env;
use std::process::ExitCode;

// Returns the exit code that reports a status.
fn exit_code(status: Status) -> ExitCode
    ensures { exit_status result ≡ code_of status }
{
    ExitCode::from(status.code())
}

// Writes the out-of-memory message and returns its exit code. This function is called if memory
// runs out before the arguments are collected.
fn end_without_words<N: Sink>(none: NoMemory, note: &mut N) -> ExitCode
    ensures { EndsAs [] (Status.NoMemory no_memory) (exit_status result)
        (N.faults note.old) (N.faults note.new) (N.has note.old) (N.has note.new) }
{
    let _ = put_all(note, b"out of memory\n");
    exit_code(Status::NoMemory(none))
}

// Runs the command line `words`, and returns the exit code of the status. The contract of `run`
// specifies the status, the output, the failure counts and the reads. If `words` is `Err`, the
// status is NoMemory, nothing is read, and the output is unchanged.
fn end_of<S: Shelf, K: Sink, N: Sink>(
    alloc: Global,
    words: Result<Vec<String>, NoMemory>,
    shelf: &mut S,
    out: &mut K,
    note: &mut N,
) -> ExitCode
    ensures words { IfOk words (λ given. (status : Status)
        × EndsAs (map string_bytes given.items) status (exit_status result)
        (N.faults note.old) (N.faults note.new) (N.has note.old) (N.has note.new)
        × RanAs (map string_bytes given.items) status (S.holds shelf.old)
        (counts_of_run (S.faults shelf.old) (S.absent shelf.old) (K.faults out.old))
        (counts_of_run (S.faults shelf.new) (S.absent shelf.new) (K.faults out.new))
        (run_reads (S.reads shelf.old) (S.reads shelf.new))
        (K.has out.old) (K.has out.new)) }
    ensures none { OnErr words (EndsAs [] (Status.NoMemory no_memory) (exit_status result)
        (N.faults note.old) (N.faults note.new) (N.has note.old) (N.has note.new)) }
    ensures idle { OnErr words (Keeps (K.has out.old) (K.has out.new)
        × (S.reads shelf.new ≡ S.reads shelf.old)) }
{
    match words {
        Ok(words) => exit_code(run(alloc, &words, shelf, out, note)),
        Err(none) => end_without_words(none, note),
    }
}

fn main(rt: HostRuntime) -> ExitCode {
    let words = words_of(rt.alloc(), env::args(&rt));
    let mut shelf = HostShelf::new(&rt, rt.stdin());
    let mut out = HostSink::new(rt.stdout());
    let mut note = HostSink::new(rt.stderr());
    end_of(rt.alloc(), words, &mut shelf, &mut out, &mut note)
}

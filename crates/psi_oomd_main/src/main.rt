//! The program `psi_oomd`: opens the real files and streams, calls `run`, and exits with its
//! status.
//!
//! All logic is in the crate `replay_core`.
#![tactic(auto)]

ghost use Rattle.std.specs.Prelude.{◌≡◌, IfOk, None, OnErr, map, string_bytes};
ghost use Rattle.std.specs.Process.{exit_status};
ghost use Rattle.psi_base.specs.Memory.{no_memory};
ghost use Rattle.run_spec.specs.Run.{run_counts};
ghost use Rattle.run_spec.specs.declared.status.Status.{Status};
ghost use Rattle.run_spec.specs.Words.{command_of};
ghost use Rattle.run_spec.specs.Status.{code_of};
ghost use Rattle.psi_oomd_main.specs.End.{DoesNothing, EndsAs, RanAs, run_reads};

use host_files::{HostShelf, HostSink, words_of};
use outside::{OpenGate, Shelf, Sink, put_all};
use psi_base::NoMemory;
use replay_core::{Status, run};
use std::alloc::Global;
use std::env;
use std::process::ExitCode;
use std::thread::Threads;

// Returns the exit code that reports a status.
fn exit_code(status: Status) -> ExitCode
    ensures { exit_status result ≡ code_of status }
{
    ExitCode::from(status.code())
}

// Writes the out-of-memory message and returns its exit code. It is called if memory runs out
// before the arguments are collected.
fn end_without_words<N: Sink>(none: NoMemory, note: &mut N) -> ExitCode
    ensures { EndsAs None (Status.NoMemory no_memory) (exit_status result)
        (N.faults note.old) (N.faults note.new) (N.has note.old) (N.has note.new) }
{
    let _ = put_all(note, b"out of memory\n");
    exit_code(Status::NoMemory(none))
}

// Runs the command line `words`, and returns the exit code of the resulting status. If `words` is
// an error, runs nothing and reports that memory ran out. The contract repeats the contract of
// `run` about the status, the files, the output, the failure counts and the reads.
fn end_of<R: Threads + Sync, S: Shelf, K: Sink, N: Sink>(
    rt: &R,
    alloc: Global,
    words: Result<Vec<String>, NoMemory>,
    shelf: &mut S,
    out: &mut K,
    note: &mut N,
) -> ExitCode
    ensures words { IfOk words (λ args. (status : Status)
        × EndsAs (command_of (map string_bytes args.items)) status (exit_status result)
        (N.faults note.old) (N.faults note.new) (N.has note.old) (N.has note.new)
        × RanAs (command_of (map string_bytes args.items)) status (S.holds shelf.old)
        (run_counts (S.faults shelf.old) (S.absent shelf.old) (K.faults out.old))
        (run_counts (S.faults shelf.new) (S.absent shelf.new) (K.faults out.new))
        (run_reads (S.bytes_read shelf.old) (S.bytes_read shelf.new)
        (S.reads shelf.old) (S.reads shelf.new))
        (K.has out.old) (K.has out.new)) }
    ensures none { OnErr words (EndsAs None (Status.NoMemory no_memory) (exit_status result)
        (N.faults note.old) (N.faults note.new) (N.has note.old) (N.has note.new)) }
    ensures idle { OnErr words (DoesNothing
        (run_reads (S.bytes_read shelf.old) (S.bytes_read shelf.new)
        (S.reads shelf.old) (S.reads shelf.new)) (K.has out.old) (K.has out.new)) }
{
    match words {
        Ok(words) => exit_code(run(rt, alloc, &words, shelf, out, note, &OpenGate)),
        Err(none) => end_without_words(none, note),
    }
}

fn main(rt: HostRuntime) -> ExitCode {
    let words = words_of(rt.alloc(), env::args(&rt));
    let mut shelf = HostShelf::new(&rt, rt.stdin());
    let mut out = HostSink::new(rt.stdout());
    let mut note = HostSink::new(rt.stderr());
    end_of(&rt, rt.alloc(), words, &mut shelf, &mut out, &mut note)
}

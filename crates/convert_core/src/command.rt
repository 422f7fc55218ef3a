//! The public call of `psi_convert`. Its contract is the specification of the whole program; the
//! definitions that it uses are in `specs/Convert.antt`.
ghost use Rattle.std.specs.Prelude.{◌≡◌, ◌≢◌, ◌∷◌, ◌≤◌, ℕ, List, Some, true, false, codes, length, map, string_bytes};
ghost use Rattle.std.specs.Io.KnownBytes.{Appends, Keeps};
ghost use Rattle.std.specs.List.{list_all};
ghost use Rattle.outside.specs.Outside.{AppendsPrefix, Increased, content_of};
ghost use Rattle.convert_core.specs.Convert.{are_names, contents_of, convert_of, is_command, is_name};
ghost use Rattle.convert_core.specs.Runs.{Converts, FailuresAreCounted, IsMissing, LacksFile, ReadsInOrder, counts_of_run, shelf_fault_in};
ghost use Rattle.convert_core.specs.Status.{status_text};

use crate::events::convert;
use crate::note::put_status;
use crate::status::Status;
use outside::{Shelf, Sink};
use std::alloc::Global;

// Returns whether a word can be the name of a file: it isn't empty, and doesn't begin with `-`
// unless it is one byte long.
fn is_name(word: &str) -> bool
    ensures { result ≡ is_name word.now }
{
    let bytes = word.as_bytes();
    !bytes.is_empty() && (bytes.len() == 1 || bytes[0] != b'-')
}

fn all_names(names: &[String]) -> bool
    ensures { result ≡ list_all (λ name. is_name (string_bytes name)) names.now }
{
    names.iter().all(|name| is_name(name.as_str()))
}

// Returns whether the words can be the names of a table and of 1 to 4,096 files of pages.
fn are_names(names: &[String]) -> bool
    ensures exact { result ≡ are_names (map string_bytes names.now) }
    ensures count { result ≡ true → (2 ≤ length names.now) × (length names.now ≤ 4097) }
{
    if names.len() < 2 || names.len() > 4_097 {
        return false;
    }
    all_names(names)
}

// Runs the command. The first of `names` is the table, and the others are the files of pages.
fn run_names<S: Shelf, K: Sink>(
    alloc: Global,
    names: &[String],
    shelf: &mut S,
    out: &mut K,
) -> Status
    requires some { 2 ≤ length names.now }
    requires few { length names.now ≤ 4097 }
    ensures command { result ≢ Status.Usage }
    ensures unchanged { S.holds shelf.new ≡ S.holds shelf.old }
    ensures events { (table : List ℕ) (pages : List (List ℕ)) (bytes : List ℕ)
        (wholes : List (List ℕ)) → map string_bytes names.now ≡ table ∷ pages →
        content_of (S.holds shelf.old) table ≡ Some bytes →
        contents_of (S.holds shelf.old) pages ≡ Some wholes →
        Converts (K.has out.old) (K.has out.new) (convert_of bytes wholes) result }
    ensures counts { FailuresAreCounted
        (counts_of_run (S.faults shelf.old) (S.absent shelf.old) (K.faults out.old))
        (counts_of_run (S.faults shelf.new) (S.absent shelf.new) (K.faults out.new)) result }
    ensures order { ReadsInOrder (map string_bytes names.now) (S.reads shelf.old)
        (S.reads shelf.new) (shelf_fault_in result) }
    ensures missed { (file : ℕ) → result ≡ Status.NoFile file →
        IsMissing (S.holds shelf.old) 0 (map string_bytes names.now) file }
    ensures lacking { LacksFile (S.holds shelf.old) (map string_bytes names.now) →
        result ≢ Status.Done }
{
    let [table, pages @ ..] = names else {
        unreachable!()
    };
    convert(alloc, shelf, table.as_str(), pages, out)
}

// Runs the command line `words`. Returns `Usage` if the words aren't a command.
fn run_words<S: Shelf, K: Sink>(
    alloc: Global,
    words: &[String],
    shelf: &mut S,
    out: &mut K,
) -> Status
    ensures unchanged { S.holds shelf.new ≡ S.holds shelf.old }
    ensures usage { result ≡ Status.Usage → is_command (map string_bytes words.now) ≡ false }
    ensures unknown { is_command (map string_bytes words.now) ≡ false → result ≡ Status.Usage }
    ensures quiet { result ≡ Status.Usage → Keeps (K.has out.old) (K.has out.new) }
    ensures unread { result ≡ Status.Usage → S.reads shelf.new ≡ S.reads shelf.old }
    ensures events { (table : List ℕ) (pages : List (List ℕ)) (bytes : List ℕ)
        (wholes : List (List ℕ)) → is_command (map string_bytes words.now) ≡ true →
        map string_bytes words.now ≡ codes "events" ∷ table ∷ pages →
        content_of (S.holds shelf.old) table ≡ Some bytes →
        contents_of (S.holds shelf.old) pages ≡ Some wholes →
        Converts (K.has out.old) (K.has out.new) (convert_of bytes wholes) result }
    ensures counts { FailuresAreCounted
        (counts_of_run (S.faults shelf.old) (S.absent shelf.old) (K.faults out.old))
        (counts_of_run (S.faults shelf.new) (S.absent shelf.new) (K.faults out.new)) result }
    ensures order { (names : List (List ℕ)) → is_command (map string_bytes words.now) ≡ true →
        map string_bytes words.now ≡ codes "events" ∷ names →
        ReadsInOrder names (S.reads shelf.old) (S.reads shelf.new) (shelf_fault_in result) }
    ensures missed { (names : List (List ℕ)) (file : ℕ) →
        map string_bytes words.now ≡ codes "events" ∷ names → result ≡ Status.NoFile file →
        IsMissing (S.holds shelf.old) 0 names file }
    ensures lacking { (names : List (List ℕ)) →
        map string_bytes words.now ≡ codes "events" ∷ names →
        LacksFile (S.holds shelf.old) names → result ≢ Status.Done }
{
    let [first, names @ ..] = words else {
        return Status::Usage;
    };
    if first.as_str() != "events" || !are_names(names) {
        return Status::Usage;
    }
    run_names(alloc, names, shelf, out)
}

/// Runs one command line of `psi_convert`. `words` is the command line without the program's name:
/// `events`, the name of a table, and the names of files of pages, one for each processor. Writes
/// the events of the pages to `out` as lines, one processor after another, and the message of the
/// status to `note`: one line, or nothing for `Done`. A failed write to `note` doesn't change the
/// status.
pub fn run<S: Shelf, K: Sink, N: Sink>(
    alloc: Global,
    words: &[String],
    shelf: &mut S,
    out: &mut K,
    note: &mut N,
) -> Status
    // The run doesn't change the files.
    ensures unchanged { S.holds shelf.new ≡ S.holds shelf.old }

    // The result is Usage exactly if the words aren't a command. In this case nothing is read or
    // written.
    ensures usage { result ≡ Status.Usage → is_command (map string_bytes words.now) ≡ false }
    ensures unknown { is_command (map string_bytes words.now) ≡ false → result ≡ Status.Usage }
    ensures quiet { result ≡ Status.Usage → Keeps (K.has out.old) (K.has out.new) }
    ensures unread { result ≡ Status.Usage → S.reads shelf.new ≡ S.reads shelf.old }

    // The main result, for any bytes of the table and of the files of pages: the output and the
    // status are those that `convert_of` defines. Done: the text of all events was appended. Page:
    // the text of the events before the first error was appended. Table: the table has an error,
    // and nothing was written. If a read or a write failed, a prefix of the text was appended. If
    // memory ran out, nothing was written.
    ensures events { (table : List ℕ) (pages : List (List ℕ)) (bytes : List ℕ)
        (wholes : List (List ℕ)) → is_command (map string_bytes words.now) ≡ true →
        map string_bytes words.now ≡ codes "events" ∷ table ∷ pages →
        content_of (S.holds shelf.old) table ≡ Some bytes →
        contents_of (S.holds shelf.old) pages ≡ Some wholes →
        Converts (K.has out.old) (K.has out.new) (convert_of bytes wholes) result }

    // A failure count increased exactly if the status reports that failure.
    ensures counts { FailuresAreCounted
        (counts_of_run (S.faults shelf.old) (S.absent shelf.old) (K.faults out.old))
        (counts_of_run (S.faults shelf.new) (S.absent shelf.new) (K.faults out.new)) result }

    // The files are read in the order of their names. Each byte is read at most once, and nothing
    // is read after a failed read.
    ensures order { (names : List (List ℕ)) → is_command (map string_bytes words.now) ≡ true →
        map string_bytes words.now ≡ codes "events" ∷ names →
        ReadsInOrder names (S.reads shelf.old) (S.reads shelf.new) (shelf_fault_in result) }

    // If the result is NoFile and the files are known, the reported file doesn't exist.
    ensures missed { (names : List (List ℕ)) (file : ℕ) →
        map string_bytes words.now ≡ codes "events" ∷ names → result ≡ Status.NoFile file →
        IsMissing (S.holds shelf.old) 0 names file }

    // If the files are known and one of them doesn't exist, the result isn't Done.
    ensures lacking { (names : List (List ℕ)) →
        map string_bytes words.now ≡ codes "events" ∷ names →
        LacksFile (S.holds shelf.old) names → result ≢ Status.Done }

    // The message of the status was appended to `note`: the whole message if no write to `note`
    // failed, and a prefix of it in any case.
    ensures note { (Increased (N.faults note.old) (N.faults note.new) → ⊥) →
        Appends (N.has note.old) (N.has note.new)
        (status_text (map string_bytes words.now) result) }
    ensures note_prefix { AppendsPrefix (N.has note.old) (N.has note.new)
        (status_text (map string_bytes words.now) result) }
{
    let status = run_words(alloc, words, shelf, out);
    let _ = put_status(note, words, status);
    status
}

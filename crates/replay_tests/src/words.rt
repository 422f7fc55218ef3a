//! Tests of command lines that aren't a command or that name a missing file, and of the exit codes
//! of all statuses.

use crate::runs::{Host, ONE_WAIT, assert_prints_nothing};
use dropin_rules::{DropCause, DropFault};
use import_spec::ImportCause;
use psi_base::Cause;
use replay_core::{Status, Which};
use ruleset_json::Place;
use test_support::{NO_CALL, assert_equal, no_memory};

const NO_FILE: Status = Status::NoFile {
    which: Which::TraceFile,
};

/// Checks that a command line prints nothing, and ends with this status and note.
fn assert_reported(rt: &impl Host, line: &str, status: Status, note: &str) {
    assert_prints_nothing(rt, line, ONE_WAIT, 7, NO_CALL, status, note);
}

// The shelf in memory has no files with the names `u` and `-`.
#[test]
fn words_and_names(rt: HostRuntime) {
    let usage =
        "usage: psi_oomd stall or check or replay or gen or stress or import or rules or whatif\n";
    assert_reported(&rt, "stall", Status::Usage, usage);
    assert_reported(&rt, "stall u", NO_FILE, "no file: u\n");
    assert_reported(&rt, "check u", NO_FILE, "no file: u\n");
    assert_reported(&rt, "stall -", NO_FILE, "no file: -\n");
}

#[test]
fn codes_of_statuses(rt: HostRuntime) {
    let cause = Cause::NoEnd;
    let no_memory = no_memory(rt.alloc());
    let codes = [
        Status::Done.code(),
        Status::Usage.code(),
        Status::Trace { line: 1, cause }.code(),
        NO_FILE.code(),
        Status::ReadFault.code(),
        Status::WriteFault.code(),
        Status::NoMemory(no_memory).code(),
        Status::Import {
            line: 1,
            cause: ImportCause::Cut,
        }
        .code(),
        Status::DropIn {
            fault: DropFault {
                place: Place::Whole,
                what: DropCause::NoParts,
            },
        }
        .code(),
        Status::TooLarge { events: 4_000_001 }.code(),
    ];
    assert_equal!(rt; codes, [0, 1, 2, 4, 5, 6, 7, 8, 9, 10], "exit codes");
}

//! Tests of the fake shelves and sinks in memory, which other tests use: the result of each call,
//! and the counts of calls and failures.
ghost use Rattle.std.specs.Prelude.{◌<◌};

use outside::{Gate, OpenGate, Shelf, ShelfFault, WriteFailed, put_all, put_each, put_number};
use outside_fakes::{HonestShelf, HonestSink, MemShelf, MemSink};
use psi_base::{Cpu, Text};
use std::alloc::Global;
use std::process::Abort;
use test_support::{assert_equal, file_of};

/// Makes the list of files of a shelf with one file, `f`.
pub fn one_file(rt: &impl Abort, alloc: Global, bytes: &[u8]) -> Vec<(Text, Text)> {
    let file = file_of(alloc, "f", bytes).expect(rt, "memory");
    vec![in alloc; file].expect(rt, "memory")
}

/// Each row has the file of a read and its offset (bytes), the result, and the numbers of calls,
/// failures and reads of absent files after it.
const READS: [(&str, u64, Result<usize, ShelfFault>, u64, u64, u64); 6] = [
    ("f", 0, Ok(2), 1, 0, 0),
    ("f", 0, Err(ShelfFault::Failed), 2, 1, 0),
    ("g", 0, Err(ShelfFault::NoFile), 3, 1, 1),
    ("f", 4, Ok(1), 4, 1, 1),
    ("f", 5, Ok(0), 5, 1, 1),
    ("f", 99, Ok(0), 6, 1, 1),
];

// Makes a shelf with the bytes `abcde`, which returns at most two bytes per call and fails at the
// second call.
fn failing_shelf(rt: &impl Abort, alloc: Global) -> MemShelf {
    let fails = vec![in alloc; 1].expect(rt, "memory");
    MemShelf::new(one_file(rt, alloc, b"abcde"), 2, fails)
}

#[test]
fn shelf_fails_by_number(rt: HostRuntime) {
    let mut shelf = failing_shelf(&rt, rt.alloc());
    let mut into = [0u8; 4];
    for (name, at, answer, calls, faults, absent) in &READS {
        let found = shelf.read_at(name, *at, &mut into);
        assert_equal!(rt; (shelf.calls, found), (*calls, *answer), name);
        assert_equal!(rt; (shelf.faults, shelf.absent), (*faults, *absent), name);
    }
    assert_equal!(rt; into.as_slice(), b"eb\0\0".as_slice(), "the bytes read");
}

#[test]
fn honest_shelf_misses_only_names(rt: HostRuntime) {
    let mut shelf = HonestShelf::new(one_file(&rt, rt.alloc(), b"abcde"), 9);
    let mut into = [0u8; 4];
    assert_equal!(rt; shelf.read_at("f", 1, &mut into), Ok(4), "f");
    assert_equal!(rt; into.as_slice(), b"bcde".as_slice(), "the bytes read");
    let missed = shelf.read_at("g", 0, &mut into);
    assert_equal!(rt; missed, Err(ShelfFault::NoFile), "g");
    assert_equal!(rt; shelf.absent, 1, "absent files");
}

// Makes a sink with a capacity of nine bytes, which accepts at most `most` bytes per call and fails
// at the second call.
fn failing_sink(rt: &impl Abort, alloc: Global, most: usize) -> MemSink
    requires { 0 < most }
{
    let fails = vec![in alloc; 1].expect(rt, "memory");
    MemSink::new(alloc, 9, most, fails).expect(rt, "memory")
}

// Checks the bytes that the sink has accepted, and its numbers of calls and failures.
fn assert_taken(rt: &impl Abort, sink: &MemSink, bytes: &[u8], calls: u64, faults: u64) {
    assert_equal!(rt; sink.bytes.as_slice(), bytes, "what the sink took");
    let counts = (sink.calls, sink.faults);
    assert_equal!(rt; counts, (calls, faults), "its calls and faults");
}

#[test]
fn sinks_keep_a_prefix(rt: HostRuntime) {
    let mut sink = failing_sink(&rt, rt.alloc(), 3);
    let answer = put_all(&mut sink, b"abcdef");
    assert_equal!(rt; answer, Err(WriteFailed), "abcdef");
    assert_taken(&rt, &sink, b"abc", 2, 1);
    assert_equal!(rt; put_all(&mut sink, b"defghi"), Ok(()), "defghi");
    assert_equal!(rt; put_all(&mut sink, b""), Ok(()), "nothing");
    assert_taken(&rt, &sink, b"abcdefghi", 4, 1);
    assert_equal!(rt; put_all(&mut sink, b"j"), Err(WriteFailed), "j");
    assert_taken(&rt, &sink, b"abcdefghi", 5, 2);
}

#[test]
fn sinks_keep_a_prefix_of_a_number(rt: HostRuntime) {
    let mut sink = failing_sink(&rt, rt.alloc(), 2);
    assert_equal!(rt; put_number(&mut sink, 12345), Err(WriteFailed), "12345");
    assert_taken(&rt, &sink, b"12", 2, 1);
}

#[test]
fn honest_sink_fails_only_where_it_is_full(rt: HostRuntime) {
    let mut sink = HonestSink::new(rt.alloc(), 8).expect(&rt, "memory");
    let pieces = [b"ab".as_slice(), b"".as_slice(), b"cde".as_slice()];
    assert_equal!(rt; put_each(&mut sink, &pieces), Ok(()), "pieces");
    assert_equal!(rt; sink.faults, 0, "faults of pieces that fit");
    let answer = put_number(&mut sink, u64::MAX);
    assert_equal!(rt; answer, Err(WriteFailed), "a number that doesn't fit");
    assert_equal!(rt; sink.bytes.as_slice(), b"abcde184".as_slice(), "bytes");
    assert_equal!(rt; sink.faults, 1, "faults of a number that doesn't fit");
}

#[test]
fn open_gate_returns() {
    let gate = OpenGate;
    gate.moved(Cpu(0), 1);
    gate.before_sample(Cpu(0), 0);
    gate.sampled(Cpu(0), 1);
}

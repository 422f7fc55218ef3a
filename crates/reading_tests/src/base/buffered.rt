//! Tests of a buffered sink: what reaches an inner sink that accepts few bytes per call, or that
//! fails.
//! The tests check the result, the bytes and the number of calls.
ghost use Rattle.std.specs.Prelude.{◌≡◌, ◌++◌, ◌<◌, decimal, []};
ghost use Rattle.outside.specs.Outside.{HasCause};
ghost use Rattle.outside.specs.Calls.{PutsAll};

use outside::{BufferedSink, Pending, Sink, WriteFailed, put_all, put_number};
use outside_fakes::MemSink;
use std::alloc::Global;
use std::process::Abort;
use test_support::assert_equal;

// Writes bytes and a number through a buffer.
fn put_buffered<K: Sink>(
    out: &mut K,
    pending: &mut Pending,
    bytes: &[u8],
    n: u64,
) -> Result<(), WriteFailed>
    requires { pending.old ≡ [] }
    ensures bytes { PutsAll (K.has out.old) (K.has out.new) result (bytes.now ++ decimal n) }
    ensures cause { HasCause (K.faults out.old) (K.faults out.new) result }
{
    let mut buffered = BufferedSink::new(out, pending);
    put_all(&mut buffered, bytes)?;
    put_number(&mut buffered, n)?;
    buffered.flush()
}

// The result of a write through a buffer: the returned value, and the numbers of bytes and calls
// that reached the inner sink.
type Taken = (Result<(), WriteFailed>, usize, u64);

// Writes bytes and the number 12 through a buffer to a sink that accepts at most `most` bytes per
// call and fails at one call. Checks the result.
fn assert_taken(
    rt: &impl Abort,
    alloc: Global,
    bytes: &[u8],
    most: usize,
    fails: u64,
    wanted: Taken,
)
    requires { 0 < most }
{
    let fails = vec![in alloc; fails].expect(rt, "memory");
    let mut sink = MemSink::new(alloc, 70000, most, fails).expect(rt, "memory");
    let mut pending = Pending::new(alloc).expect(rt, "memory");
    let answer = put_buffered(&mut sink, &mut pending, bytes, 12);
    let taken = (answer, sink.bytes.len(), sink.calls);
    assert_equal!(rt; taken, wanted, "a sink with a buffer");
    assert_equal!(rt; sink.faults == 0, answer.is_ok(), "whether it failed");
}

#[test]
fn buffers_send_on_in_large_writes(rt: HostRuntime) {
    let alloc = rt.alloc();
    assert_taken(&rt, alloc, b"abc", 1, u64::MAX, (Ok(()), 5, 5));
    assert_taken(&rt, alloc, b"abc", 9, u64::MAX, (Ok(()), 5, 1));
    assert_taken(&rt, alloc, b"abc", 1, 2, (Err(WriteFailed), 2, 3));
    // The bytes exceed the capacity of the buffer.
    let long = vec![in alloc; b'x'; 65537].expect(&rt, "memory");
    assert_taken(&rt, alloc, &long, 65536, u64::MAX, (Ok(()), 65539, 2));
    assert_taken(&rt, alloc, &long, 65536, 0, (Err(WriteFailed), 0, 1));
    assert_taken(&rt, alloc, &long, 65536, 1, (Err(WriteFailed), 65536, 2));
}

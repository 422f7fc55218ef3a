//! Tests of a replay whose trace is read, and whose output is written, byte by byte. Each call
//! fails in turn.

use crate::runs::{ONE_WAIT, assert_prints, assert_prints_nothing, assert_prints_prefix};
use replay_core::Status;

/// The output of a replay of `ONE_WAIT`, whose only tick is at its end.
pub const REPLAYED: &str = "report 2000000000 / io\n\
    some avg10=18.11 avg60=3.27 avg300=0.68 total=2000000\n\
    full avg10=18.11 avg60=3.27 avg300=0.68 total=2000000\n\
    report 2000000000 / memory\n\
    some avg10=0.00 avg60=0.00 avg300=0.00 total=0\n\
    full avg10=0.00 avg60=0.00 avg300=0.00 total=0\n\
    report 2000000000 / cpu\n\
    some avg10=0.00 avg60=0.00 avg300=0.00 total=0\n\
    full avg10=0.00 avg60=0.00 avg300=0.00 total=0\n\
    end 2000000000 ticks=1 events=0 kills=0\n";

/// The number of reads: one for each byte of the trace, and one after the end.
const READS: u64 = 85;

/// The number of writes: one for each byte of the output.
const WRITES: u64 = 410;

#[test]
fn replays_byte_by_byte(rt: HostRuntime) {
    let line = "replay t";
    for most in &[1, 7, 65536] {
        assert_prints(&rt, line, ONE_WAIT, *most, REPLAYED);
    }
    let fault = Status::ReadFault;
    for read in 0..READS {
        assert_prints_nothing(&rt, line, ONE_WAIT, 1, read, fault, "read fault\n");
    }
    for write in 0..WRITES {
        assert_prints_prefix(&rt, line, ONE_WAIT, 1, write, REPLAYED);
    }
}

//! Tests that each observer takes one sample on each processor at each tick. The samples of several
//! observers are found by their numbers.

use crate::runs::{Ran, assert_ends, run_open};
use test_support::{ONE_PROCESSOR, line_of};

/// The possible texts of a sample of `ONE_PROCESSOR` after the observer's number, in the order of
/// the number of changes.
const LOOKS: [&str; 5] = [
    " cpu=0 count=0 at=0 0 0 0 0 0 0 0",
    " cpu=0 count=1 at=0 0 0 0 0 0 0 0",
    " cpu=0 count=2 at=0 0 0 0 0 0 0 0",
    " cpu=0 count=3 at=500000000 0 0 0 0 0 0 500000000",
    " cpu=0 count=4 at=1500000000 1000000000 1000000000 0 0 0 0 1500000000",
];

/// A trace of two processors with three ticks. All changes are before the first tick.
const THREE_TICKS: &str = "psitrace 1 cpus=2\n\
    0 fork 1 / 0\n\
    0 switch 0 1 idle\n\
    500000000 switch 0 0 sleep\n\
    1500000000 wake 1 1\n\
    6000000000 end\n";

/// The texts of the samples of `THREE_TICKS` at the second and third tick, after the observer's
/// number, one for each processor.
const SETTLED: [&str; 2] = [
    " cpu=0 count=4 at=1500000000 0 0 0 0 0 0 500000000",
    " cpu=1 count=1 at=1500000000 0 0 0 0 0 0 0",
];

/// The number of observers.
const OBSERVERS: usize = 8;

/// Returns the text of a sample of this observer after the observer's number, or `None` for any
/// other line.
fn look_of(line: &[u8], observer: u8) -> Option<&[u8]> {
    let rest = line.strip_prefix(b"sample observer=")?;
    let (digit, look) = rest.split_first()?;
    if digit.checked_sub(b'0') == Some(observer) {
        Some(look)
    } else {
        None
    }
}

/// Returns the number of samples of an observer whose text is among `looks`.
fn looks_among(output: &[u8], observer: u8, looks: &[&str]) -> usize {
    output
        .split(|byte| *byte == b'\n')
        .filter_map(|line| look_of(line, observer))
        .filter(|look| looks.iter().any(|text| text.as_bytes() == *look))
        .count()
}

/// Returns whether each observer has exactly one sample, after any number of changes.
fn is_shared(ran: &Ran) -> bool {
    (0..8u8).all(|observer| looks_among(&ran.output, observer, &LOOKS) == 1)
        && line_of(&ran.output, OBSERVERS) == b"board observer=0 tick=1 events=0 kills=0".as_slice()
}

#[test]
fn a_sample_of_each_observer(rt: HostRuntime) {
    let ran = run_open(&rt, "t 8 /", ONE_PROCESSOR);
    assert_ends(&rt, "t 8 /", &ran, "\nend 2000000000 samples=8\n");
    assert!(rt;
        is_shared(&ran),
        "expected: a sample of each observer, actual: {ran}"
    );
}

/// Returns whether an observer has one sample per processor and tick, for three ticks, and its last
/// four samples include all changes.
fn is_settled(output: &[u8], observer: u8) -> bool {
    let lines = output.split(|byte| *byte == b'\n');
    let count = lines.filter_map(|line| look_of(line, observer)).count();
    let lines = output.split(|byte| *byte == b'\n');
    let looks = lines.filter_map(|line| look_of(line, observer)).enumerate();
    count == 6
        && looks
            .skip(2)
            .all(|(place, look)| look == SETTLED[place % 2].as_bytes())
}

#[test]
fn processors_tick_by_tick(rt: HostRuntime) {
    let ran = run_open(&rt, "t 8 /", THREE_TICKS);
    assert_ends(&rt, "t 8 /", &ran, "\nend 6000000000 samples=48\n");
    for observer in 0..8u8 {
        let is_settled = is_settled(&ran.output, observer);
        assert!(rt;
            is_settled,
            "expected: six samples of observer {observer}, actual: {ran}"
        );
    }
}

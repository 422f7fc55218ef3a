//! Helpers for the tests: compare the totals, the averages and the triggers of a machine with
//! expected texts of numbers.
use crate::engine::machine::Machine;
use pressure_spec::AverageRows;
use std::process::Abort;

/// Returns whether `text` has exactly these numbers, separated by spaces.
fn are(numbers: &[u64], text: &str) -> bool {
    let mut words = text.split(' ');
    for number in numbers {
        let Some(word) = words.next() else {
            return false;
        };
        if word.parse::<u64>().ok() != Some(*number) {
            return false;
        }
    }
    words.next().is_none()
}

/// Checks that the totals of the group in `slot` are the numbers in `text`.
pub fn assert_totals(rt: &impl Abort, machine: &Machine, slot: u32, text: &str) {
    let totals = machine.totals(rt, slot);
    let at = machine.at();
    assert!(rt;
        are(&totals, text),
        "group {slot} at {at} ns, expected: {text}, actual: {totals:?}"
    );
}

/// Returns whether `text` has exactly these averages: each part has the three averages of a state
/// or of interrupts, and commas separate the parts.
fn are_averages(averages: &AverageRows, text: &str) -> bool {
    let mut parts = text.split(", ");
    for numbers in averages {
        let Some(part) = parts.next() else {
            return false;
        };
        if !are(numbers, part) {
            return false;
        }
    }
    parts.next().is_none()
}

/// Checks that the averages of the group in `slot` are the numbers in `text`.
pub fn assert_averages(rt: &impl Abort, machine: &Machine, slot: u32, text: &str) {
    let averages = machine.averages(rt, slot);
    let at = machine.at();
    let are_these = are_averages(&averages, text);
    assert!(rt;
        are_these,
        "group {slot} at {at} ns, expected: {text}, actual: {averages:?}"
    );
}

/// Returns whether the numbers are exactly the digits of `digits`, in order.
fn are_digits(numbers: &[u32], digits: &str) -> bool {
    for (number, digit) in numbers.iter().zip(digits.bytes()) {
        if *number != u32::from(digit.wrapping_sub(b'0')) {
            return false;
        }
    }
    numbers.len() == digits.len()
}

/// Checks that the numbers of the triggers that fired are the digits of `digits`.
pub fn assert_signalled(rt: &impl Abort, machine: &Machine, digits: &str) {
    let fired = machine.fired();
    let at = machine.at();
    assert!(rt;
        are_digits(fired, digits),
        "triggers at {at} ns, expected: {digits}, actual: {fired:?}"
    );
}

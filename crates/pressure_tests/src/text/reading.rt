//! Tests of parsing pressure files, of resources and of interrupts: valid files with values at
//! their limits, and malformed files.
use pressure_text::{PressureFile, PressureLine, read_file, read_irq};
use std::alloc::Global;
use std::process::Abort;
use test_support::assert_equal;

/// A `full` line in which all values are zero.
const FULL: &str = "full avg10=0.00 avg60=0.00 avg300=0.00 total=0\n";

/// The values of `FULL`.
const ZEROS: PressureLine = PressureLine {
    hundredths: [0; 3],
    total_us: 0,
};

/// Valid `some` lines, each with its values.
const LINES: [(&str, PressureLine); 2] = [
    (
        "some avg10=18.11 avg60=3.27 avg300=0.68 total=2000000\n",
        PressureLine {
            hundredths: [1811, 327, 68],
            total_us: 2_000_000,
        },
    ),
    (
        "some avg10=100.00 avg60=99.99 avg300=0.09 total=18446744073709551615\n",
        PressureLine {
            hundredths: [10_000, 9999, 9],
            total_us: u64::MAX,
        },
    ),
];

/// Malformed lines.
const WRONG_LINES: [&str; 17] = [
    "some avg10=100.01 avg60=0.00 avg300=0.00 total=0\n",
    "some avg10=0.00 avg60=0.00 avg300=101.00 total=0\n",
    "some avg10=18446744073709551615.00 avg60=0.00 avg300=0.00 total=0\n",
    "some avg10=0.00 avg60=0.00 avg300=0.00 total=18446744073709551616\n",
    "some avg10=0.0 avg60=0.00 avg300=0.00 total=0\n",
    "some avg10=0.000 avg60=0.00 avg300=0.00 total=0\n",
    "some avg10=00.00 avg60=0.00 avg300=0.00 total=0\n",
    "some avg10=.00 avg60=0.00 avg300=0.00 total=0\n",
    "some avg10=0,00 avg60=0.00 avg300=0.00 total=0\n",
    "some avg10=+1.00 avg60=0.00 avg300=0.00 total=0\n",
    "some avg10=18.11 .. avg60=0.00 avg300=0.00 total=0\n",
    "some avg10=0.00 avg60=0.00 avg300=0.00 total=007\n",
    "some avg10=0.00 avg60=0.00 avg300=0.00 total=\n",
    "some  avg10=0.00 avg60=0.00 avg300=0.00 total=0\n",
    "some avg60=0.00 avg10=0.00 avg300=0.00 total=0\n",
    "some avg10=0.00 avg60=0.00 avg300=0.00 total=0\r\n",
    "some avg10=0.00 avg60=0.00 avg300=0.00 total=0",
];

/// Malformed files. The first line of some of them is valid.
const WRONG_FILES: [&str; 6] = [
    "some avg10=0.00 avg60=0.00 avg300=0.00 total=0\n",
    "some avg10=0.00 avg60=0.00 avg300=0.00 total=0\nfull avg10=0.00 avg60=0.00 avg300=0.00 total=0",
    "some avg10=0.00 avg60=0.00 avg300=0.00 total=0\nfull avg10=0.00 avg60=0.00 avg300=0.00 total=0\n\n",
    "some avg10=0.00 avg60=0.00 avg300=0.00 total=0\nsome avg10=0.00 avg60=0.00 avg300=0.00 total=0\n",
    "full avg10=0.00 avg60=0.00 avg300=0.00 total=0\nsome avg10=0.00 avg60=0.00 avg300=0.00 total=0\n",
    "",
];

/// Checks that parsing a file with the two lines `line` and `FULL` returns `wanted`.
fn assert_read(rt: &impl Abort, alloc: Global, line: &str, wanted: Option<PressureFile>) {
    let text = format!(in alloc; "{line}{}", FULL).expect(rt, "memory");
    assert_equal!(rt; read_file(text.as_bytes()), wanted, text.as_str());
}

#[test]
fn files_at_their_borders(rt: HostRuntime) {
    for (line, known) in &LINES {
        let file = PressureFile {
            some_line: *known,
            full_line: ZEROS,
        };
        assert_read(&rt, rt.alloc(), line, Some(file));
    }
    for line in &WRONG_LINES {
        assert_read(&rt, rt.alloc(), line, None);
    }
    for text in &WRONG_FILES {
        assert_equal!(rt; read_file(text.as_bytes()), None, text);
    }
}

/// Valid pressure files of interrupts, each with its values.
const IRQ_FILES: [(&str, PressureLine); 3] = [
    (FULL, ZEROS),
    (
        "full avg10=9.05 avg60=1.63 avg300=0.34 total=1000000\n",
        PressureLine {
            hundredths: [905, 163, 34],
            total_us: 1_000_000,
        },
    ),
    (
        "full avg10=100.00 avg60=99.99 avg300=0.09 total=18446744073709551615\n",
        PressureLine {
            hundredths: [10_000, 9999, 9],
            total_us: u64::MAX,
        },
    ),
];

/// Malformed pressure files of interrupts.
const WRONG_IRQ_FILES: [&str; 10] = [
    "full avg10=100.01 avg60=0.00 avg300=0.00 total=0\n",
    "full avg10=0.00 avg60=0.00 avg300=0.00 total=18446744073709551616\n",
    "some avg10=0.00 avg60=0.00 avg300=0.00 total=0\n",
    "full avg10=0.00 avg60=0.00 avg300=0.00 total=0",
    "full avg10=0.00 avg60=0.00 avg300=0.00 total=0\n\n",
    "full avg10=0.00 avg60=0.00 avg300=0.00 total=0\nfull avg10=0.00 avg60=0.00 avg300=0.00 total=0\n",
    "some avg10=0.00 avg60=0.00 avg300=0.00 total=0\nfull avg10=0.00 avg60=0.00 avg300=0.00 total=0\n",
    "report 2000000000 / irq\nfull avg10=0.00 avg60=0.00 avg300=0.00 total=0\n",
    "full avg10=0.00 avg60=0.00 total=0\n",
    "",
];

#[test]
fn files_of_interrupts(rt: HostRuntime) {
    for (text, known) in &IRQ_FILES {
        assert_equal!(rt; read_irq(text.as_bytes()), Some(*known), text);
    }
    for text in &WRONG_IRQ_FILES {
        assert_equal!(rt; read_irq(text.as_bytes()), None, text);
    }
}

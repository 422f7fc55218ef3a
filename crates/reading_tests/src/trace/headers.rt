//! Tests of the header line of a trace: valid headers with their versions and numbers of
//! processors, and malformed headers.
use psi_base::Cause;
use psi_trace::{Header, read_header};
use test_support::assert_equal;

/// Valid headers, each with its version and its number of processors.
const HEADERS: [(&str, u32, u32); 6] = [
    ("psitrace 1 cpus=1", 1, 1),
    ("psitrace 1 cpus=9", 1, 9),
    ("psitrace 1 cpus=10", 1, 10),
    ("psitrace 1 cpus=64", 1, 64),
    ("psitrace 2 cpus=1", 2, 1),
    ("psitrace 2 cpus=64", 2, 64),
];

#[test]
fn reads_the_version_and_the_number_of_processors(rt: HostRuntime) {
    for (line, version, cpus) in &HEADERS {
        let head = Header {
            version: *version,
            cpus: *cpus,
        };
        assert_equal!(rt; read_header(line.as_bytes()), Ok(head), line);
    }
}

/// Malformed headers.
const OTHERS: [&str; 25] = [
    "",
    "psitrace",
    "psitrace 1 cpus=",
    "psitrace 1 cpus=0",
    "psitrace 1 cpus=65",
    "psitrace 1 cpus=08",
    "psitrace 1 cpus=1 ",
    "psitrace 1 cpus= 1",
    "psitrace 1  cpus=1",
    " psitrace 1 cpus=1",
    "psitrace 1 cpus=1\r",
    "psitrace 1 cpus=1\n",
    "psitrace 1 cpus=-1",
    "psitrace 1 cpus=4294967297",
    "psitrace 1 cpus=18446744073709551617",
    "psitrace 01 cpus=1",
    "psitrace 0 cpus=1",
    "psitrace 2",
    "psitrace 2 cpus=0",
    "psitrace 2 cpus=65",
    "psitrace 02 cpus=1",
    "psitrace 12 cpus=1",
    "psitrace 3 cpus=1",
    "Psitrace 1 cpus=1",
    "0 end",
];

#[test]
fn refuses_other_headers(rt: HostRuntime) {
    for line in &OTHERS {
        let refused = read_header(line.as_bytes());
        assert_equal!(rt; refused, Err(Cause::BadHeader), line);
    }
}

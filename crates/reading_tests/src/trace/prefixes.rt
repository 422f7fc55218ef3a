//! Tests of lines that are parsed and applied in place, without a copy, while further lines follow.
//! The results are compared with the results of `read_event`, the general parser.
use psi_base::{Cpu, Ns, Pid};
use psi_trace::{read_event, take_prefix};
use std::alloc::Global;
use std::process::Abort;
use task_table::Table;
use test_support::assert_equal;

/// Lines after which task 1 sleeps, task 2 runs on processor 0, and task 3 is ready on processor 1.
const FIRST: &str = "0 fork 1 / 0;0 fork 2 / 0;0 fork 3 / 1;0 switch 0 1 idle;1 switch 0 2 sleep";

/// Parses a line with `read_event`, and applies its event to the table. Returns whether the line is
/// accepted.
fn is_taken(alloc: Global, table: &mut Table, line: &str) -> bool {
    match read_event(alloc, 1, line.as_bytes()) {
        Ok(event) => table.play(&event).is_ok(),
        Err(_) => false,
    }
}

/// Returns a table of tasks after the lines `FIRST`.
fn started(rt: &impl Abort, alloc: Global) -> Table {
    let mut table = Table::new(alloc, 2, Ns::MAX).expect(rt, "memory");
    for line in FIRST.split(';') {
        assert!(rt; is_taken(alloc, &mut table, line), "{line} is rejected");
    }
    table
}

/// Returns whether two tables have the same numbers of lines, last times, tasks and running tasks.
fn are_same(one: &Table, other: &Table) -> bool {
    one.lines() == other.lines()
        && one.last() == other.last()
        && (1..4).all(|pid| one.task(Pid(pid)) == other.task(Pid(pid)))
        && (0..2).all(|cpu| one.running(Cpu(cpu)) == other.running(Cpu(cpu)))
}

/// Returns whether no proper prefix of a line is played. A line without its newline is incomplete.
fn leaves_prefixes(table: &mut Table, line: &[u8]) -> bool {
    let mut leaves = true;
    for held in 0..=line.len() {
        leaves = leaves && take_prefix(&line[..held], table).is_none();
    }
    leaves
}

/// Plays a line in place, with another line after it. Returns the number of bytes played, and
/// whether the line is accepted.
fn prefix(rt: &impl Abort, alloc: Global, table: &mut Table, line: &str) -> (usize, bool) {
    let bytes = format!(in alloc; "{line}\n5 end\n").expect(rt, "memory");
    let played = take_prefix(bytes.as_bytes(), table).expect(rt, line);
    (played.count, played.answer.is_ok())
}

/// Checks that a line is played in place with the same result as with `read_event`, and that no
/// prefix of the line is played.
fn assert_played_as_read(rt: &impl Abort, alloc: Global, line: &str) {
    let mut table = started(rt, alloc);
    let leaves = leaves_prefixes(&mut table, line.as_bytes());
    assert!(rt; leaves, "a prefix of {line} is played");
    let played = prefix(rt, alloc, &mut table, line);
    let mut other = started(rt, alloc);
    let taken = is_taken(alloc, &mut other, line);
    assert_equal!(rt; played, (line.len(), taken), line);
    assert!(rt; are_same(&table, &other), "the tables differ after {line}");
}

/// Lines that are played in place.
const PLAYED: [&str; 20] = [
    "0 wake 1 0",
    "1 wake 1 1",
    "5 wake 2 0",
    "5 wake 1 2",
    "5 wake 4294967295 0",
    "5 switch 0 0 idle",
    "5 switch 0 0 sleep",
    "5 switch 0 0 iowait",
    "5 switch 0 3 preempt",
    "5 switch 1 3 idle",
    "5 switch 1 2 sleep",
    "5 switch 4294967295 4294967295 preempt",
    "5 stall 2",
    "10 stall 3",
    "5 unstall 2",
    "5 unstall 4294967295",
    "5 migrate 3 0",
    "5 migrate 1 0",
    "1234567 migrate 3 1",
    "9999999999999999999 migrate 3 63",
];

#[test]
fn takes_whole_lines_as_any_line_is_read(rt: HostRuntime) {
    for line in &PLAYED {
        assert_played_as_read(&rt, rt.alloc(), line);
    }
}

/// Bytes that don't begin with a line that is played in place.
const OTHERS: [&str; 25] = [
    "",
    "\n5 wake 1 0\n",
    "5 end\n",
    "5 fork 4 / 0\n",
    "5 switch 0 1 exit\n",
    "5 switch 0 1 sleeps\n",
    "5 switch 0 00 idle\n",
    "05 wake 1 0\n",
    "00005 wake 1 0\n",
    " 5 wake 1 0\n",
    "18446744073709551616 wake 1 0\n",
    "5 wake 01 0\n",
    "5 wake 0 0\n",
    "5 wake 4294967296 0\n",
    "5 wake 1 4294967296\n",
    "5 wake  1 0\n",
    "5 wake 1 0 \n",
    "5 wake 1 0\r\n",
    "5 wake 1\n0\n",
    "5 wake 1 \n",
    "5 stall 2 1\n",
    "5 unstall 0\n",
    "5 migrate 3\n",
    "123: wake 1 0\n",
    "12/4 wake 1 0\n",
];

#[test]
fn leaves_other_lines(rt: HostRuntime) {
    let mut table = started(&rt, rt.alloc());
    for bytes in &OTHERS {
        let taken = take_prefix(bytes.as_bytes(), &mut table).is_some();
        assert_equal!(rt; (taken, table.lines()), (false, 5), bytes);
    }
}

//! Tests of the journal of observers: which entries it accepts, and in which order it returns them.
//! The entries are samples of a trace with one task.

ghost use Rattle.std.specs.Prelude.{◌≡◌, length};

use crate::events::{WAITS, plans_of};
use crate::observers::entries::{entry_after, one_look};
use crate::observers::journals::{add_both, ordered};
use observer_log::{AddFault, Entry, Own};
use proc_plan::Plans;
use psi_base::Cpu;
use std::alloc::Global;
use std::marker::Brand;
use std::process::Abort;
use std::sync::ledger::Blank;
use test_support::assert_equal;

// The journal rejects an entry with fewer changes than the last entry of the same observer and
// processor. The error has the number of changes of the last entry.
#[test]
fn counts_never_fall(rt: HostRuntime) {
    let plans = plans_of(&rt, rt.alloc(), 1, 2_000_000_000, &WAITS);
    assert_fall_refused(&rt, rt.alloc(), &plans);
}

// Returns whether `added` is the error of an entry that was rejected because the last entry has the
// greater count `last`.
fn is_fall_from(added: Result<(), AddFault>, last: u64) -> bool {
    match added {
        Err(AddFault::Falls(fall)) => fall.last() == last,
        _ => false,
    }
}

fn assert_fall_refused(rt: &impl Abort, alloc: Global, plans: &Plans)
    requires { length plans.now.plans ≡ 1 }
{
    let plan = plans.plan(Cpu(0));
    assert_equal!(rt; plans.lives().len(), 1, "groups");
    assert_equal!(rt; plan.len(), 4, "changes");
    let late = entry_after(rt, alloc, 0, plan, 3);
    let early = entry_after(rt, alloc, 0, plan, 2);
    assert_equal!(rt; late.at, 500_000_000, "the moment of the third change");
    let times = [0, 0, 0, 0, 0, 0, 500_000_000];
    assert_equal!(rt; late.seven, times, "times at the third change");
    let added = add_both::<Brand>(alloc, Blank::new(1), late, early);
    assert_equal!(rt; added.first, Ok(()), "the first entry");
    assert!(rt; is_fall_from(added.second, 3));
    assert_equal!(rt; added.entries, 1, "entries");
}

// The journal compares the counts of each observer separately: it accepts an entry with fewer
// changes than the last entry of another observer.
#[test]
fn counts_are_each_observers_own(rt: HostRuntime) {
    let plans = plans_of(&rt, rt.alloc(), 1, 2_000_000_000, &WAITS);
    assert_both_added(&rt, rt.alloc(), &plans);
}

fn assert_both_added(rt: &impl Abort, alloc: Global, plans: &Plans)
    requires { length plans.now.plans ≡ 1 }
{
    let plan = plans.plan(Cpu(0));
    assert_equal!(rt; plans.lives().len(), 1, "groups");
    assert_equal!(rt; plan.len(), 4, "changes");
    let late = entry_after(rt, alloc, 0, plan, 3);
    let early = entry_after(rt, alloc, 1, plan, 2);
    let added = add_both::<Brand>(alloc, Blank::new(1), late, early);
    assert_equal!(rt; added.first, Ok(()), "the first entry");
    assert_equal!(rt; added.second, Ok(()), "the second entry");
    assert_equal!(rt; added.entries, 2, "entries");
}

// If the journal has the same entries as the observers' lists, they are returned in the order of
// the journal. Otherwise the lists are returned one after another.
#[test]
fn entries_in_the_order_of_the_journal(rt: HostRuntime) {
    let plans = plans_of(&rt, rt.alloc(), 1, 2_000_000_000, &WAITS);
    assert_list_after_list(&rt, rt.alloc(), &plans);
    assert_journal_order(&rt, rt.alloc(), &plans);
}

// Returns the only entry of a list.
fn only_entry<'a>(rt: &impl Abort, own: &Own<'a>) -> Entry<'a> {
    assert_equal!(rt; own.entries().len(), 1, "entries");
    own.entries()[0]
}

// Checks that there are two entries, and that they are from `observers`, in this order.
fn assert_observers(rt: &impl Abort, entries: &[Entry<'_>], observers: [u32; 2]) {
    assert_equal!(rt; entries.len(), 2, "entries");
    let found = [entries[0].observer, entries[1].observer];
    assert_equal!(rt; found, observers, "observers");
}

fn assert_list_after_list(rt: &impl Abort, alloc: Global, plans: &Plans)
    requires { length plans.now.plans ≡ 1 }
{
    assert_equal!(rt; plans.lives().len(), 1, "groups");
    let first = one_look(rt, alloc, 0, plans);
    let second = one_look(rt, alloc, 1, plans);
    let entries = ordered::<Brand>(alloc, Blank::new(1), &[], first, second);
    assert_observers(rt, &entries.expect(rt, "memory"), [0, 1]);
}

fn assert_journal_order(rt: &impl Abort, alloc: Global, plans: &Plans)
    requires { length plans.now.plans ≡ 1 }
{
    assert_equal!(rt; plans.lives().len(), 1, "groups");
    let first = one_look(rt, alloc, 0, plans);
    let second = one_look(rt, alloc, 1, plans);
    let added = [only_entry(rt, &second), only_entry(rt, &first)];
    let entries = ordered::<Brand>(alloc, Blank::new(1), &added, first, second);
    assert_observers(rt, &entries.expect(rt, "memory"), [1, 0]);
}

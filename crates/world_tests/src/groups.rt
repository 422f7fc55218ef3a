//! Tests of the tree of groups: creation, removal, switches of accounting, and the orders in which
//! groups are listed. Tasks aren't involved.

use group_tree::Tree;
use psi_base::{Cause, Fault, Ns, Slot};
use psi_spec::GroupLife;
use std::alloc::Global;
use std::process::Abort;
use test_support::{assert_equal, path_of};

/// Creates a group with the path `text`. Returns its slot, or the cause if the tree rejects the
/// group. Checks that `add_cause` predicts the cause.
fn add(rt: &impl Abort, alloc: Global, tree: &mut Tree, text: &str, at: Ns) -> Result<Slot, Cause> {
    let path = path_of(alloc, text).expect(rt, text);
    let predicted = tree.add_cause(&path);
    let outcome = match tree.add(&path, at) {
        Ok(slot) => Ok(slot),
        Err(Fault::Refused(cause)) => Err(cause),
        Err(Fault::NoMemory(none)) => panic!(rt; "{none:?}"),
    };
    assert_equal!(rt; outcome.err(), predicted, text);
    outcome
}

/// Removes the group with the path `text`. Returns its slot, or the cause if the tree rejects the
/// removal. Checks that `remove_cause` predicts the cause.
fn remove(
    rt: &impl Abort,
    alloc: Global,
    tree: &mut Tree,
    text: &str,
    at: Ns,
) -> Result<Slot, Cause> {
    let path = path_of(alloc, text).expect(rt, text);
    let predicted = tree.remove_cause(&path);
    let outcome = tree.remove(&path, at);
    assert_equal!(rt; outcome.err(), predicted, text);
    outcome
}

/// Switches the pressure accounting of the group with the path `text` on or off. Returns the slot
/// of the group, or the cause if the tree rejects the switch. Checks that `pressure_cause` predicts
/// the cause.
fn switch(
    rt: &impl Abort,
    alloc: Global,
    tree: &mut Tree,
    text: &str,
    on: bool,
) -> Result<Slot, Cause> {
    let path = path_of(alloc, text).expect(rt, text);
    let predicted = tree.pressure_cause(&path);
    let outcome = tree.switch(&path, on);
    assert_equal!(rt; outcome.err(), predicted, text);
    outcome
}

/// Returns a tree in which some groups were removed and then created again with the same paths.
fn small_forest(rt: &impl Abort, alloc: Global) -> Tree {
    let mut tree = Tree::new(alloc).expect(rt, "memory");
    for text in &["/a", "/a/b", "/b"] {
        add(rt, alloc, &mut tree, text, 1).expect(rt, text);
    }
    for text in &["/a/b", "/a"] {
        remove(rt, alloc, &mut tree, text, 2).expect(rt, text);
    }
    for text in &["/a", "/a/b", "/a.b", "/a/b/c"] {
        add(rt, alloc, &mut tree, text, 3).expect(rt, text);
    }
    tree
}

/// The groups of `small_forest`, in the order of slots: path, parent, and the times (ns) of
/// creation and removal.
const LIVES: [(&str, Option<Slot>, Ns, Option<Ns>); 8] = [
    ("/", None, 0, None),
    ("/a", Some(Slot(0)), 1, Some(2)),
    ("/a/b", Some(Slot(1)), 1, Some(2)),
    ("/b", Some(Slot(0)), 1, None),
    ("/a", Some(Slot(0)), 3, None),
    ("/a/b", Some(Slot(4)), 3, None),
    ("/a.b", Some(Slot(0)), 3, None),
    ("/a/b/c", Some(Slot(5)), 3, None),
];

/// Checks that a group has the path, the parent, and the times (ns) of creation and removal in
/// `want`.
fn assert_life(rt: &impl Abort, life: &GroupLife, want: &(&str, Option<Slot>, Ns, Option<Ns>)) {
    let (path, parent, made, gone) = *want;
    assert_equal!(rt; life.path.text(), path, made);
    assert_equal!(rt; (life.parent, life.made, life.gone), (parent, made, gone), path);
}

// A group that is created with the path of a removed group gets a new slot. The slot of the removed
// group is unchanged.
#[test]
fn lives_of_groups(rt: HostRuntime) {
    let tree = small_forest(&rt, rt.alloc());
    assert_equal!(rt; tree.len(), LIVES.len(), "groups");
    for (life, want) in tree.lives().iter().zip(&LIVES) {
        assert_life(&rt, life, want);
    }
}

// A switch of accounting affects only the live group with the path. Removed groups with the same
// path, ancestors and descendants are unchanged. Accounting is on for a new group.
#[test]
fn accounts_of_groups(rt: HostRuntime) {
    let mut tree = small_forest(&rt, rt.alloc());
    for &(text, on, want) in &[
        ("/", false, Err(Cause::RootPressure)),
        ("/c", false, Err(Cause::UnknownGroup)),
        ("/a", false, Ok(Slot(4))),
        ("/a/b/c", false, Ok(Slot(7))),
        ("/b", false, Ok(Slot(3))),
        ("/b", true, Ok(Slot(3))),
        ("/b", true, Ok(Slot(3))),
    ] {
        let outcome = switch(&rt, rt.alloc(), &mut tree, text, on);
        assert_equal!(rt; outcome, want, text);
    }
    add(&rt, rt.alloc(), &mut tree, "/a/d", 4).expect(&rt, "/a/d");
    let on: Vec<bool> = tree
        .lives()
        .iter()
        .map(|life| life.on)
        .collect(rt.alloc())
        .expect(&rt, "memory");
    let want = [true, true, true, true, false, true, true, false, true];
    assert_equal!(rt; on.as_slice(), want.as_slice(), "accounting is on");
}

#[test]
fn refused_groups(rt: HostRuntime) {
    let mut tree = small_forest(&rt, rt.alloc());
    for &(text, want) in &[
        ("/a", Cause::GroupExists),
        ("/", Cause::GroupExists),
        ("/c/d", Cause::NoParent),
    ] {
        let outcome = add(&rt, rt.alloc(), &mut tree, text, 4);
        assert_equal!(rt; outcome, Err(want), text);
    }
    for &(text, want) in &[
        ("/", Err(Cause::GroupBusy)),
        ("/a", Err(Cause::GroupBusy)),
        ("/a/b", Err(Cause::GroupBusy)),
        ("/c", Err(Cause::UnknownGroup)),
        ("/a/b/c", Ok(Slot(7))),
        ("/a/b", Ok(Slot(5))),
    ] {
        let outcome = remove(&rt, rt.alloc(), &mut tree, text, 4);
        assert_equal!(rt; outcome, want, text);
    }
}

#[test]
fn found_groups(rt: HostRuntime) {
    let tree = small_forest(&rt, rt.alloc());
    for &(text, want) in &[
        ("/", Some(Slot(0))),
        ("/a", Some(Slot(4))),
        ("/a/b", Some(Slot(5))),
        ("/c", None),
    ] {
        let path = path_of(rt.alloc(), text).expect(&rt, text);
        assert_equal!(rt; tree.find(&path), want, text);
    }
}

/// Checks that `want` is the chain of slots from the group `slot` to the root.
fn assert_chain(rt: &impl Abort, alloc: Global, tree: &Tree, slot: Slot, want: &[Slot]) {
    assert!(rt; (slot.0 as usize) < tree.len());
    let up: Vec<Slot> = tree.chain(slot).collect(alloc).expect(rt, "memory");
    assert_equal!(rt; up.as_slice(), want, "above");
}

#[test]
fn groups_above(rt: HostRuntime) {
    let tree = small_forest(&rt, rt.alloc());
    let up = [Slot(7), Slot(5), Slot(4), Slot(0)];
    assert_chain(&rt, rt.alloc(), &tree, Slot(7), &up);
    assert_chain(&rt, rt.alloc(), &tree, Slot(0), &[Slot(0)]);
    for &(low, high, want) in &[
        (7, 4, true),
        (7, 7, true),
        (7, 1, false),
        (2, 1, true),
        (4, 7, false),
        (9, 9, true),
        (9, 0, false),
    ] {
        let is_under = tree.is_under(Slot(low), Slot(high));
        assert_equal!(rt; is_under, want, (low, high));
    }
}

// Live groups are listed in the byte order of their paths, in which `.` comes before `/`.
#[test]
fn live_groups_by_path(rt: HostRuntime) {
    let tree = small_forest(&rt, rt.alloc());
    let order = tree.live_order(rt.alloc()).expect(&rt, "memory");
    let want = [Slot(0), Slot(4), Slot(6), Slot(5), Slot(7), Slot(3)];
    assert_equal!(rt; order.as_slice(), want.as_slice(), "order");
}

/// Checks that the groups in `slots` have the paths `paths`, in order.
fn assert_paths(rt: &impl Abort, tree: &Tree, slots: &[Slot], paths: &[&str]) {
    assert_equal!(rt; slots.len(), paths.len(), "groups");
    for (slot, path) in slots.iter().zip(paths) {
        let life = tree.lives().get(slot.0 as usize).expect(rt, path);
        assert_equal!(rt; life.path.text(), *path, *slot);
    }
}

// In the order of paths, a removed group is next to the live group with the same path.
#[test]
fn all_groups_by_path(rt: HostRuntime) {
    let tree = small_forest(&rt, rt.alloc());
    let order = tree.path_order(rt.alloc()).expect(&rt, "memory");
    let want = ["/", "/a", "/a", "/a.b", "/a/b", "/a/b", "/a/b/c", "/b"];
    assert_paths(&rt, &tree, &order, &want);
}

/// Creates the group `/g` and removes it. Checks that both calls return `slot`.
fn assert_made_and_removed(rt: &impl Abort, alloc: Global, tree: &mut Tree, slot: Slot) {
    assert_equal!(rt; add(rt, alloc, tree, "/g", 1), Ok(slot), "made");
    assert_equal!(rt; remove(rt, alloc, tree, "/g", 1), Ok(slot), "gone");
}

// A trace may create at most 1,024 groups, including the root. This limit is checked before any
// other cause.
#[test]
fn at_most_1024_groups(rt: HostRuntime) {
    let mut tree = Tree::new(rt.alloc()).expect(&rt, "memory");
    for slot in 1..1024u32 {
        assert_made_and_removed(&rt, rt.alloc(), &mut tree, Slot(slot));
    }
    for text in &["/g", "/", "/x/y"] {
        let outcome = add(&rt, rt.alloc(), &mut tree, text, 2);
        assert_equal!(rt; outcome, Err(Cause::TooManyGroups), text);
    }
}

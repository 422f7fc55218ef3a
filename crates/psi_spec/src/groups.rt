//! Laws about groups and their ancestors. Each function has an empty body: its contract is the law.
ghost use Rattle.psi_spec.specs.Laws.{AncestorsAreOlder, AreGroupsFirst, AreGroupsKept, ClimbsKept, ParentsKept, RootIsAbove, UnderByStep};

/// The invariant of the groups holds at the start and after each legal event: there are at most
/// 1,024 groups; the first is the root, with its accounting on; each parent is older than its child
/// and has the child's path up to the last slash; and no two live groups have the same path.
pub fn law_legal_groups()
    ensures first { AreGroupsFirst }
    ensures unchanged { AreGroupsKept }
{}

/// The parent of a group never changes, and new groups don't change the ancestors of earlier
/// groups.
pub fn law_kept_parents()
    ensures parents { ParentsKept }
    ensures climbs { ClimbsKept }
{}

/// The ancestors of a group are its parent and the parent's ancestors. They are older than the
/// group, and the last one is the root.
pub fn law_ancestors()
    ensures step { UnderByStep }
    ensures older { AncestorsAreOlder }
    ensures root { RootIsAbove }
{}

//! Laws of the scheduler state (`World`) after legal events. Each function has an empty body: its
//! contract is the law.
ghost use Rattle.psi_counts.specs.Legal.{CountsAreFew, CountsAreSums, LegalFirst, LegalKept, SameTasksLater};

/// The scheduler state (`World`) before the first event satisfies its invariant, and each legal
/// event preserves the invariant.
pub fn law_legal_worlds()
    ensures first { LegalFirst }
    ensures unchanged { LegalKept }
{}

/// After legal events, creating more groups doesn't change which tasks are in a group or its
/// descendants. Each count of a group is at most the limit of live tasks. The counts of a group are
/// the counts that all changes added to it, minus the counts that all changes subtracted from it.
pub fn law_legal_counts()
    ensures later { SameTasksLater }
    ensures few { CountsAreFew }
    ensures sums { CountsAreSums }
{}

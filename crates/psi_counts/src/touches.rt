//! Laws of the changes that events cause on processors. Each function has an empty body: its
//! contract is the law.
ghost use Rattle.psi_counts.specs.Touch.{ChangeShows, ChangesAreWithin, CountsFollow, CurrentShows, OnByAccount, RunsOnceFirst, RunsOnceKept, StaysUntouched, TouchesItsOwn, WithinFirst, WithinKept};

/// The change that a legal event causes on a processor determines the new counts of each group
/// there. The change subtracts the counts of a task before the event from the task's group and its
/// ancestors. It adds the counts of the task after the event to the task's group and its ancestors.
/// The kernel's `psi_group_change` in psi.c does this for each group.
pub fn law_counts_follow()
    ensures { CountsFollow }
{}

/// At most one task runs on each processor, before the first event and after each legal event.
pub fn law_runs_once()
    ensures first { RunsOnceFirst }
    ensures unchanged { RunsOnceKept }
{}

/// The running task of a processor determines whether a task of a group is running there. So the
/// states of the group follow from its counts and the running task.
pub fn law_current_shows()
    ensures { CurrentShows }
{}

/// The change of a processor contains all values on which the times of each group there depend.
/// These are the changes of the counts, the running task, the interrupt time, and the group whose
/// accounting is turned on or off.
pub fn law_change_shows()
    ensures { ChangeShows }
{}

/// If a legal event doesn't affect a processor, it changes neither the counts nor the running task
/// there, reports no interrupt time there, and turns no accounting on or off. An event affects the
/// processor that it names. It also affects the processor of the task that it changes, both before
/// and after the event.
pub fn law_touched()
    ensures others { StaysUntouched }
    ensures own { TouchesItsOwn }
{}

/// Two facts determine whether a group's accounting is on after a legal event: whether it was on
/// before the event, and whether the event turns it on or off.
pub fn law_accounts()
    ensures { OnByAccount }
{}

/// Each task is on an existing processor and in an existing group, before the first event and after
/// each legal event.
pub fn law_within()
    ensures first { WithinFirst }
    ensures unchanged { WithinKept }
{}

/// Changes name existing processors and slots. A change has the counts of a single task, or only
/// interrupt time, or only a switch of a group's accounting. A switch of accounting is a change of
/// every processor.
pub fn law_changes_are_within()
    ensures { ChangesAreWithin }
{}

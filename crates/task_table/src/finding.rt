//! The result of checking a legal event. It contains the tasks and the group that were looked up
//! for the check, so that performing the event needs no further lookup.
ghost use Rattle.std.specs.Prelude.{◌≡◌};
ghost use Rattle.task_table.specs.Named.{slot_or_root};

use psi_base::Slot;
use psi_spec::Task;

/// The tasks and the group of a legal event, in their state before the event.
#[derive(Clone, Copy)]
pub struct Finding {
    /// The task with the pid that the event names. For a switch, this task is the next task to run.
    pub named: Option<Task>,
    /// The task whose counts the event changes.
    pub before: Option<Task>,
    /// The slot of the live group whose path the event names.
    pub group: Option<Slot>,
}

impl Finding {
    /// Returns the slot of the group that the event names, or the root's slot if the event names no
    /// group.
    pub fn slot(&self) -> Slot
        ensures { result ≡ slot_or_root self.now.group }
    {
        self.group.unwrap_or(Slot(0))
    }
}

//! The state of one group in a watch: its memory sample, its preference and its number of tasks.
//!
//! The module `steps` updates this state.

ghost use Rattle.std.specs.Prelude.{◌≡◌};
ghost use Rattle.side_watch.specs.Sides.{counted, zero_side_cell};

use psi_base::Preference;

/// A memory sample of a group.
#[derive(Clone, Copy, Debug, PartialEq, Eq)]
pub struct GroupMemory {
    /// The memory in use (bytes).
    pub current: u64,
    /// The swap in use (bytes).
    pub swap: u64,
    /// The number of pages that memory reclaim had scanned for the group before the sample.
    pub scan: u64,
}

/// The state of a group after the side events applied so far: memory samples, preferences, and
/// tasks that joined or left.
#[derive(Clone, Copy, Debug)]
pub(crate) struct SideCell {
    /// The latest memory sample of the group.
    pub(crate) memory: GroupMemory,
    /// The latest preference of the group.
    pub(crate) preference: Preference,
    /// The number of live tasks in the group and in its descendants.
    pub(crate) tasks: u32,
}

impl SideCell {
    /// Returns the state of a group before its first side event: a memory sample of zeros, the
    /// plain preference, and no tasks.
    pub(crate) fn zero() -> SideCell
        ensures { result ≡ zero_side_cell }
    {
        SideCell {
            memory: GroupMemory {
                current: 0,
                swap: 0,
                scan: 0,
            },
            preference: Preference::Plain,
            tasks: 0,
        }
    }

    /// Updates the number of tasks after a task joined the group or one of its descendants (if
    /// `came` is true), or left it.
    pub(crate) fn count(&mut self, came: bool)
        ensures { self.new ≡ counted came self.old }
    {
        self.tasks = if came {
            self.tasks.saturating_add(1)
        } else {
            self.tasks.saturating_sub(1)
        };
    }
}

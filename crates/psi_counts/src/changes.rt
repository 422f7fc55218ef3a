//! The change that an event causes on a processor: counts of tasks, the running task, interrupt
//! time and accounting. This module only defines types; task_table computes their values.

use psi_base::{Cpu, Ns, Slot};

/// The numbers of a group's tasks on a processor in each of four task states. The kernel keeps the
/// same four counts.
#[derive(Clone, Copy, Debug, PartialEq, Eq)]
pub struct Counts {
    /// The number of tasks that wait for IO.
    pub io: u32,
    /// The number of tasks in a memory stall, blocked or not.
    pub stalled: u32,
    /// The number of tasks that are ready or running.
    pub running: u32,
    /// The number of tasks that are ready or running, and in a memory stall.
    pub stalled_running: u32,
}

/// The change that an event causes on a processor. It subtracts the counts in `minus` from one
/// group and its ancestors, and adds the counts in `plus` to one group and its ancestors. `current`
/// is the processor's running task after the event: the slot of its group, and whether the task is
/// in a memory stall. If interrupts took time on the processor, no counts change, and `current` is
/// the interrupted task, if any. If the event turns a group's pressure accounting on or off, every
/// processor has a change. Such a change has no counts, and the running task stays the same.
#[derive(Clone, Copy, Debug, PartialEq, Eq)]
pub struct Change {
    pub at: Ns,
    pub minus: Option<(Slot, Counts)>,
    pub plus: Option<(Slot, Counts)>,
    pub current: Option<(Slot, bool)>,
    /// The time (ns) that interrupts took on the processor, at most one second. 0 if the event
    /// reports no interrupts.
    pub irq: u64,
    /// The slot of the group whose pressure accounting the event turns on or off, and whether it is
    /// on afterwards.
    pub account: Option<(Slot, bool)>,
}

/// The changes that an event causes, each with its processor. `second` is `Some` only if `first` is
/// a change of another processor. If the event turns a group's pressure accounting on or off,
/// `first` and `second` are `None`, and `account` is a change of every processor.
#[derive(Clone, Copy, Debug, PartialEq, Eq)]
pub struct Touch {
    pub first: Option<(Cpu, Change)>,
    pub second: Option<(Cpu, Change)>,
    /// The slot of the group whose pressure accounting the event turns on or off, and whether it is
    /// on afterwards.
    pub account: Option<(Slot, bool)>,
}

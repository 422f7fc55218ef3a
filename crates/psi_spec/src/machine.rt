//! The types for the state of the traced machine: groups and tasks. The effect of an event on them
//! is defined in `specs/World`.

use psi_base::{Cpu, Ns, Path, Slot};

/// A control group: its path, the slot of its parent, and the times (ns) at which it was created
/// and removed (`gone` is `None` while it is live).
#[derive(Drop)]
pub struct GroupLife {
    pub path: Path,
    pub parent: Option<Slot>,
    pub made: Ns,
    pub gone: Option<Ns>,
    /// Whether the group's accounting is on: stalls and interrupts are counted for it. Ancestors
    /// and children have their own setting.
    pub on: bool,
}

/// The scheduling state of a live task.
#[derive(Clone, Copy, Debug, PartialEq, Eq)]
pub enum Mode {
    /// The task is blocked, but not for IO.
    Blocked,
    /// The task is blocked until IO completes.
    Waiting,
    /// The task is ready to run, on the run queue of its processor.
    Ready,
    /// The task is running on its processor.
    Running,
}

/// A live task. `cpu` is the processor on which it runs or is ready, or the last such processor of
/// a blocked task.
#[derive(Clone, Copy, Debug, PartialEq, Eq)]
pub struct Task {
    pub slot: Slot,
    pub cpu: Cpu,
    pub mode: Mode,
    /// Whether the task is in a memory stall, which may continue while the task is blocked.
    pub stalled: bool,
}

//! The types for the content of the imported lines of an ftrace text. The crate ftrace_import
//! parses these lines.

use psi_base::{Cpu, How, Ns, Pid};

/// The kinds of lines that are imported, by their tracepoints.
#[derive(Clone, Copy, Debug, PartialEq, Eq)]
pub enum LineKind {
    /// `sched_switch`.
    Switch,
    /// `sched_wakeup`, or `sched_wakeup_new` for a new task.
    Wakeup,
    /// `sched_migrate_task`.
    Migration,
}

/// What an imported line reports.
#[derive(Clone, Copy, Debug, PartialEq, Eq)]
pub enum Seen {
    /// Processor `cpu` switched from task `previous`, which leaves in the way `how`, to task
    /// `next`. `None` means the idle task.
    Switch {
        cpu: Cpu,
        previous: Option<Pid>,
        next: Option<Pid>,
        how: How,
    },
    /// Task `pid` was woken on processor `cpu`.
    Wakeup {
        pid: Pid,
        cpu: Cpu,
    },
    /// Task `pid` migrated to processor `cpu`.
    Migration {
        pid: Pid,
        cpu: Cpu,
    },
}

/// An imported line: the time, and what the line reports.
#[derive(Clone, Copy, Debug, PartialEq, Eq)]
pub struct Sighting {
    /// The time (ns) of the line by the clock of ftrace.
    pub at: Ns,
    /// What the line reports.
    pub seen: Seen,
}

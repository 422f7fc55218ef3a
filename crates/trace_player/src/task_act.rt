//! Task events: events that a replay passes by value, which is its fast path.
//!
//! A task event is a wakeup, switch, stall, unstall or migration. It names no group and creates no
//! task. Most lines of a trace are task events. A [`TaskAct`] consists of a few numbers, so it is
//! parsed, checked and processed in registers, and no `Event` is stored for it. Functions for this
//! fast path have names that end with `_task`. Each has the contract of the corresponding function
//! for all events.
ghost use Rattle.std.specs.Prelude.{◌≡◌, IfNone, IfSome, false};
ghost use Rattle.psi_spec.specs.Names.{names};
ghost use Rattle.trace_player.specs.TaskActs.{as_act, as_event, exits, is_task_act, pid_of};

use psi_base::{Act, Cpu, Event, How, Ns, Pid};

/// A task event without its time. It names no group and creates no task.
#[derive(Clone, Copy)]
pub enum TaskAct {
    /// A blocked task becomes ready.
    Wake {
        pid: Pid,
        cpu: Cpu,
    },
    /// A context switch: the running task, if any, leaves its processor, and the next task, if any,
    /// starts to run there.
    Switch {
        cpu: Cpu,
        next: Option<Pid>,
        how: How,
    },
    /// The running task enters a memory stall.
    Stall {
        pid: Pid,
    },
    /// The running task leaves its memory stall.
    Unstall {
        pid: Pid,
    },
    /// A ready task migrates to a processor.
    Migrate {
        pid: Pid,
        cpu: Cpu,
    },
}

impl TaskAct {
    /// Converts what an event does (`Act`) to a `TaskAct`. Returns `None` if the event isn't a task
    /// event.
    #[inline(always)]
    pub fn of(act: &Act) -> Option<TaskAct>
        ensures same { IfSome result (λ found. as_act found ≡ act.now) }
        ensures other { IfNone result (is_task_act act.now ≡ false) }
    {
        match act {
            Act::Wake { pid, cpu } => Some(TaskAct::Wake {
                pid: *pid,
                cpu: *cpu,
            }),
            Act::Switch { cpu, next, how } => Some(TaskAct::Switch {
                cpu: *cpu,
                next: *next,
                how: *how,
            }),
            Act::Stall { pid } => Some(TaskAct::Stall { pid: *pid }),
            Act::Unstall { pid } => Some(TaskAct::Unstall { pid: *pid }),
            Act::Migrate { pid, cpu } => Some(TaskAct::Migrate {
                pid: *pid,
                cpu: *cpu,
            }),
            _ => None,
        }
    }

    /// Converts the task event to an `Event` at time `at` (ns).
    pub fn to_event(self, at: Ns) -> Event
        ensures { result ≡ as_event at self }
    {
        let act = match self {
            TaskAct::Wake { pid, cpu } => Act::Wake { pid, cpu },
            TaskAct::Switch { cpu, next, how } => Act::Switch { cpu, next, how },
            TaskAct::Stall { pid } => Act::Stall { pid },
            TaskAct::Unstall { pid } => Act::Unstall { pid },
            TaskAct::Migrate { pid, cpu } => Act::Migrate { pid, cpu },
        };
        Event { at, act }
    }

    /// Returns whether this event makes the running task exit.
    #[inline(always)]
    pub fn exits(self) -> bool
        ensures { result ≡ exits self }
    {
        matches!(self, TaskAct::Switch { how: How::Exit, .. })
    }

    /// Returns the pid of the task that this event names. For a switch, it is the pid of the next
    /// task, or `None` if the processor becomes idle.
    #[inline(always)]
    pub fn pid(self) -> Option<Pid>
        ensures { result ≡ pid_of self }
    {
        match self {
            TaskAct::Switch { next, .. } => next,
            TaskAct::Wake { pid, .. }
            | TaskAct::Stall { pid }
            | TaskAct::Unstall { pid }
            | TaskAct::Migrate { pid, .. } => Some(pid),
        }
    }

    /// Returns the number of the processor that this event names, or `None` for a stall or an
    /// unstall.
    #[inline(always)]
    pub fn cpu(self) -> Option<u32>
        ensures { result ≡ (names (as_act self)).cpu }
    {
        match self {
            TaskAct::Wake { cpu, .. }
            | TaskAct::Switch { cpu, .. }
            | TaskAct::Migrate { cpu, .. } => Some(cpu.0),
            TaskAct::Stall { .. } | TaskAct::Unstall { .. } => None,
        }
    }
}

//! The contents of a trace (times, tasks, processors, groups and events), and the reasons why a
//! line of a trace is rejected.
use crate::path::Path;
use crate::text::NoMemory;
use std::alloc::{AllocError, AllocFailed};

/// A time or a duration in nanoseconds (ns).
pub type Ns = u64;

/// The number of a task (PID). It is at least 1, and may be reused after the task has exited.
#[derive(Clone, Copy, Debug, PartialEq, Eq, PartialOrd, Ord)]
pub struct Pid(pub u32);

/// The number of a processor, from 0.
#[derive(Clone, Copy, Debug, PartialEq, Eq, PartialOrd, Ord)]
pub struct Cpu(pub u32);

/// The number of a group in the order of creation. The root has number 0, and no number is reused.
#[derive(Clone, Copy, Debug, PartialEq, Eq, PartialOrd, Ord)]
pub struct Slot(pub u32);

/// A state of a group on one processor. A group may be in several states at the same time, and the
/// time in each state is measured. The states are numbered from 0 in this order, which is the order
/// of the kernel's `enum psi_states` without irq pressure. In a state with `Some` in its name, at
/// least one task is stalled. In a state with `Full` in its name, no task makes progress.
#[derive(Clone, Copy, Debug, PartialEq, Eq)]
pub enum State {
    /// A task waits for IO.
    IoSome,
    /// A task waits for IO, and no task is ready or running.
    IoFull,
    /// A task is in a memory stall.
    MemSome,
    /// A task is in a memory stall. In addition, the running task is in a memory stall, or every
    /// task that is ready or running is in a memory stall.
    MemFull,
    /// A ready task waits for the processor.
    CpuSome,
    /// A ready task waits for the processor, and no task of the group is running.
    CpuFull,
    /// A task waits for IO, is in a memory stall, is ready or is running.
    Nonidle,
}

/// The resources that have a pressure file.
#[derive(Clone, Copy, Debug, PartialEq, Eq)]
pub enum Res {
    /// Input and output (`io.pressure`).
    Io,
    /// Memory (`memory.pressure`).
    Memory,
    /// Processor time (`cpu.pressure`).
    Cpu,
}

/// The two lines of a pressure file.
#[derive(Clone, Copy, Debug, PartialEq, Eq)]
pub enum Level {
    /// `some`: at least one task is stalled.
    SomeStalled,
    /// `full`: no task makes progress.
    FullStalled,
}

/// How a running task leaves its processor at a `switch`.
#[derive(Clone, Copy, Debug, PartialEq, Eq)]
pub enum How {
    /// `preempt`: the task stays ready.
    Preempt,
    /// `sleep`: the task blocks, but not for IO.
    Sleep,
    /// `iowait`: the task blocks until IO completes.
    IoWait,
    /// `exit`: the task exits.
    Exit,
    /// `idle`: no task was running.
    Idle,
}

/// The kill preference of a group: the group may be killed before or after other groups. oomd calls
/// the preferences `oomd_prefer` and `oomd_avoid`.
#[derive(Clone, Copy, Debug, PartialEq, Eq)]
pub enum Preference {
    /// The group is killed before groups without this preference.
    Prefer,
    /// The group is neither preferred nor avoided.
    Plain,
    /// The group is killed only after groups without this preference.
    Avoid,
}

/// What an event does. Each verb of the trace format has one variant.
#[derive(Drop)]
pub enum Act {
    /// `group`: a group is created.
    Group {
        path: Path,
    },
    /// `rmgroup`: a group is removed.
    Remove {
        path: Path,
    },
    /// `prefer`: a group's preference is set.
    Prefer {
        path: Path,
        preference: Preference,
    },
    /// `fork`: a ready task is created.
    Fork {
        pid: Pid,
        path: Path,
        cpu: Cpu,
    },
    /// `wake`: a blocked task becomes ready.
    Wake {
        pid: Pid,
        cpu: Cpu,
    },
    /// `switch`: the running task, if any, leaves its processor, and the next task, if any, runs
    /// there.
    Switch {
        cpu: Cpu,
        next: Option<Pid>,
        how: How,
    },
    /// `stall`: the running task enters a memory stall.
    Stall {
        pid: Pid,
    },
    /// `unstall`: the running task leaves its memory stall.
    Unstall {
        pid: Pid,
    },
    /// `migrate`: a ready task moves to another processor.
    Migrate {
        pid: Pid,
        cpu: Cpu,
    },
    /// `move`: a task moves to another group.
    Move {
        pid: Pid,
        path: Path,
    },
    /// `mem`: a sample of a group's memory: memory and swap in use (bytes), and the total number of
    /// pages scanned for reclaim.
    Mem {
        path: Path,
        current: u64,
        swap: u64,
        scan: u64,
    },
    /// `host`: a sample of the memory and swap of the whole machine, in bytes.
    Host {
        mem_total: u64,
        swap_total: u64,
        swap_free: u64,
    },
    /// `trigger`: a trigger is set on a group's pressure, with a threshold and a window in
    /// microseconds (us).
    Trigger {
        path: Path,
        res: Res,
        level: Level,
        threshold_us: u64,
        window_us: u64,
    },
    /// `irq`: interrupts took this time (ns) on a processor.
    Irq {
        cpu: Cpu,
        ns: u64,
    },
    /// `pressure`: the accounting of a group is switched on or off.
    Pressure {
        path: Path,
        on: bool,
    },
    /// `end`: the trace ends.
    End,
}

/// An event of a trace: its time, and what it does.
#[derive(Drop)]
pub struct Event {
    /// The time, in ns.
    pub at: Ns,
    /// What the event does at that time.
    pub act: Act,
}

/// A trigger that a trace sets on a group's pressure. The trigger fires if the stall time in a
/// window reaches the threshold.
#[derive(Clone, Copy, Debug, PartialEq, Eq)]
pub struct TriggerSpec {
    /// The time (ns) at which the trigger is set.
    pub at: Ns,
    /// The slot of the watched group.
    pub slot: Slot,
    /// The resource of the watched pressure file.
    pub res: Res,
    /// The watched line of the pressure file.
    pub level: Level,
    /// The threshold of the stall time, in us.
    pub threshold_us: u64,
    /// The length of the window, in us.
    pub window_us: u64,
}

/// The causes for which a line of a trace is rejected. If several causes apply, the first cause in
/// the order of precedence is reported. That order is defined in psi_spec, and differs from the
/// order of the variants.
#[derive(Clone, Copy, Debug, PartialEq, Eq)]
pub enum Cause {
    /// The first line isn't a header, or is incomplete.
    BadHeader,
    /// A line has more than 512 bytes before its newline.
    LineTooLong,
    /// The time, which is the first word of a line, isn't a number that fits in 64 bits.
    BadTime,
    /// The verb, which is the second word of a line, is missing or unknown.
    BadVerb,
    /// A field is missing, malformed or superfluous. The number is the position of the leftmost
    /// such field. Fields are numbered from 1 after the verb.
    BadField(u8),
    /// The time is before the time of the previous line.
    TimeBack,
    /// The time is later than a million ticks of the replay's tick length, which is the end of the
    /// longest trace.
    TimeTooLate,
    /// The trace already has 4,000,000 event lines.
    TooManyEvents,
    /// No live group has the path that the event names.
    UnknownGroup,
    /// A new group has the path of a live group.
    GroupExists,
    /// The parent of a new group isn't live.
    NoParent,
    /// A group to be removed is the root, or has a live child or a live task.
    GroupBusy,
    /// 1,024 groups were already created, including the root.
    TooManyGroups,
    /// No live task has the pid that the event names.
    UnknownTask,
    /// A new task has the pid of a live task.
    TaskExists,
    /// A task is created although 65,536 tasks are live, the maximum number.
    TooManyTasks,
    /// The event names a processor whose number is at least the number of processors in the header.
    BadCpu,
    /// The task that enters or leaves a memory stall isn't running.
    NotRunning,
    /// The next task of a switch isn't ready on that processor, or a task that migrates isn't
    /// ready.
    NotReady,
    /// The task that is woken isn't blocked: it is ready or running.
    NotBlocked,
    /// A switch says `idle` although a task is running, or says that the running task leaves
    /// although no task is running.
    WrongHow,
    /// The task that enters a memory stall is already in a memory stall, or the task that exits is
    /// in a memory stall.
    InStall,
    /// The task that leaves a memory stall isn't in a memory stall.
    NotInStall,
    /// 256 triggers were already set.
    TooManyTriggers,
    /// The threshold or the window of a trigger is out of range.
    BadWindow,
    /// Bytes follow the `end` line, which must be the last line.
    AfterEnd,
    /// The input ends before an `end` line.
    NoEnd,
    /// The interrupt time of an `irq` line is more than a second, or more than the time since the
    /// processor's previous `irq` line.
    IrqTooLong,
    /// The accounting of the root is switched on or off.
    RootPressure,
    /// The trace already has 65,536 `pressure` lines.
    TooManyPressures,
}

/// The first rejected line of a trace, and the cause.
#[derive(Clone, Copy, Debug, PartialEq, Eq)]
pub struct Refusal {
    /// The number of the line, from 1.
    pub line: u32,
    /// The cause for which the line is rejected.
    pub cause: Cause,
}

/// The failure of a function that parses or checks input.
#[derive(Clone, Copy, Debug, PartialEq, Eq)]
pub enum Fault<E> {
    /// The input is rejected, for this cause.
    Refused(E),
    /// Memory ran out.
    NoMemory(NoMemory),
}

impl From<Cause> for Fault<Cause> {
    ghost use Rattle.std.specs.Prelude.{◌≡◌};
    ghost use Rattle.psi_base.specs.declared.event.Fault.TheVariants as fault;

    ghost from_gives = { λ cause e. e ≡ fault.Refused cause };

    fn from(cause: Cause) -> Self {
        Fault::Refused(cause)
    }
}

impl<E> From<NoMemory> for Fault<E> {
    ghost use Rattle.std.specs.Prelude.{◌≡◌};
    ghost use Rattle.psi_base.specs.Gives.{out_of_memory};

    ghost from_gives = { λ _ e. e ≡ out_of_memory };

    fn from(none: NoMemory) -> Self {
        Fault::NoMemory(none)
    }
}

impl<E> From<AllocError> for Fault<E> {
    ghost use Rattle.std.specs.Prelude.{◌≡◌};
    ghost use Rattle.psi_base.specs.Gives.{out_of_memory};

    ghost from_gives = { λ _ e. e ≡ out_of_memory };

    fn from(refused: AllocError) -> Self {
        Fault::NoMemory(NoMemory::from(refused))
    }
}

/// Converts a failed allocation to [`Fault::NoMemory`]. Drops the value that could not be stored.
impl<E, T: Drop> From<AllocFailed<T>> for Fault<E> {
    ghost use Rattle.std.specs.Prelude.{◌≡◌};
    ghost use Rattle.psi_base.specs.Gives.{out_of_memory};

    ghost from_gives = { λ _ e. e ≡ out_of_memory };

    fn from(failed: AllocFailed<T>) -> Self {
        Fault::NoMemory(NoMemory::from(failed))
    }
}

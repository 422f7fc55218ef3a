//! The status with which a run of psi_observe ends, and its exit status. The message for a status
//! is defined in `specs/Status`.
ghost use Rattle.std.specs.Prelude.{◌≡◌};
ghost use Rattle.observe_spec.specs.Status.{code_of};

use psi_base::{Cause, NoMemory};

/// The result of a run of psi_observe.
#[derive(Clone, Copy, Debug, PartialEq, Eq)]
pub enum ObserveStatus {
    /// The whole output was written.
    Done,
    /// The words aren't the name of a trace, a number of observers and a path.
    Usage,
    /// The trace is rejected at this line (numbered from 1), for this cause.
    Trace { line: u32, cause: Cause },
    /// The trace's file doesn't exist.
    NoFile,
    /// A read failed.
    ReadFault,
    /// A write failed; a prefix of the output was written.
    WriteFault,
    /// Out of memory.
    NoMemory(NoMemory),
    /// The number of samples, if the group were live at each tick, would be `samples`, which is
    /// more than 1,000,000.
    TooManySamples { samples: u64 },
}

impl ObserveStatus {
    /// Returns the exit status of the program for this status.
    pub fn code(self) -> u8
        ensures { result ≡ code_of self }
    {
        match self {
            ObserveStatus::Done => 0,
            ObserveStatus::Usage => 1,
            ObserveStatus::Trace { .. } => 2,
            ObserveStatus::NoFile => 4,
            ObserveStatus::ReadFault => 5,
            ObserveStatus::WriteFault => 6,
            ObserveStatus::NoMemory(_) => 7,
            ObserveStatus::TooManySamples { .. } => 8,
        }
    }
}

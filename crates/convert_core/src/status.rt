//! The status of a run, and the exit code that reports it.
ghost use Rattle.std.specs.Prelude.{◌≡◌};
ghost use Rattle.convert_core.specs.Status.{code_of};

use convert_table::TableFault;
use page_spec::PageCause;
use psi_base::NoMemory;

/// The status of a run.
#[derive(Clone, Copy, Debug, PartialEq, Eq)]
pub enum Status {
    /// The whole output was written.
    Done,
    /// The words aren't a command.
    Usage,
    /// A page is invalid. `cpu` is the number of its file and `page` the number of the page in this
    /// file, both from 0. `byte` is the offset (bytes, from 0) of the error in the page. All events
    /// before the error were written.
    Page {
        cpu: u32,
        page: u64,
        byte: u64,
        cause: PageCause,
    },
    /// The table is invalid.
    Table(TableFault),
    /// A file doesn't exist: the table if `file` is 0, otherwise the file of pages with this number
    /// (from 1).
    NoFile {
        file: u32,
    },
    /// A read failed. A prefix of the output was written.
    ReadFault,
    /// A write failed. A prefix of the output was written.
    WriteFault,
    /// Memory ran out.
    NoMemory(NoMemory),
}

impl Status {
    /// Returns the exit code that reports the status.
    pub fn code(self) -> u8
        ensures { result ≡ code_of self }
    {
        match self {
            Status::Done => 0,
            Status::Usage => 1,
            Status::Page { .. } => 2,
            Status::Table(_) => 3,
            Status::NoFile { .. } => 4,
            Status::ReadFault => 5,
            Status::WriteFault => 6,
            Status::NoMemory(_) => 7,
        }
    }
}

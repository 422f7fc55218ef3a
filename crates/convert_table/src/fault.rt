//! The error of an invalid table: the number of the first invalid line, and why this line is
//! invalid.
use psi_base::Fault;

/// The reason why a line of a table is invalid.
#[derive(Clone, Copy, Debug, PartialEq, Eq)]
pub enum TableCause {
    /// The table has more than 65,536 bytes.
    TooLong,
    /// The first line isn't `psi_layout 1`.
    BadHeader,
    /// The second line isn't `page SIZE HEADER` with sizes in range.
    BadPage,
    /// The line's first word isn't `letter` or `kind`, or the line doesn't have the form that its
    /// first word requires.
    BadRow,
    /// The table ends without the line `end`.
    NoEnd,
    /// The line `end` has no newline.
    NoNewline,
    /// Text follows the line `end`.
    AfterEnd,
}

/// The first error of a table.
#[derive(Clone, Copy, Debug, PartialEq, Eq)]
pub struct TableFault {
    /// The number of the invalid line, from 1.
    pub line: u32,
    /// The reason why the line is invalid.
    pub cause: TableCause,
}

impl From<TableFault> for Fault<TableFault> {
    ghost use Rattle.std.specs.Prelude.{◌≡◌};
    ghost use Rattle.psi_base.specs.declared.event.Fault.TheVariants as fault;

    ghost from_gives = { λ why e. e ≡ fault.Refused why };

    fn from(why: TableFault) -> Self {
        Fault::Refused(why)
    }
}

//! The causes for which a line of an ftrace text is rejected. A rejection is printed as the number
//! of the line and the cause.

/// The cause for which a line is rejected. If several causes apply, `TooManyLines` is reported
/// first, and the other causes take precedence in the order of the variants.
#[derive(Clone, Copy, Debug, PartialEq, Eq)]
pub enum ImportCause {
    /// A line has more than 512 bytes before its newline.
    LineTooLong,
    /// The text ends inside a line: its last byte isn't a newline.
    Cut,
    /// A line with the name of an imported tracepoint is malformed.
    BadLine,
    /// The line names a processor that the machine doesn't have: the processor of a switch, or the
    /// target processor of a wakeup or migration.
    BadCpu,
    /// The trace time of the line is after the latest time that a trace may have.
    TooLate,
    /// The line would create a task, but 65,536 tasks are live.
    TooManyTasks,
    /// The imported trace would have more than 3,999,999 events before its `end`.
    TooManyEvents,
    /// The text has more than 16,000,000 lines.
    TooManyLines,
}

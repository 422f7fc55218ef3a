//! The laws of imports. The imported trace is accepted. After a switch, the processor runs the next
//! task. After a wakeup, the task isn't blocked. Each function has an empty body, because its
//! contract is the law.
ghost use Rattle.ftrace_import.specs.Laws.{ImportedIsTrace, LinesAreWritten, SwitchRunsNext, WakeupWakes};

/// If the import accepts a text for 1 to 64 processors, every program that accepts version 1
/// accepts the imported trace, with the default tick.
pub fn law_imported()
    ensures { ImportedIsTrace }
{}

/// The events of each complete line of an accepted text form one section of the written events. The
/// world (the state of all tasks and groups) after the line is the world after all events up to the
/// end of this section.
pub fn law_written()
    ensures { LinesAreWritten }
{}

/// After the line of a switch, its processor runs the next task that the line names, or no task.
/// After the line of a wakeup, its task isn't blocked.
pub fn law_lines()
    ensures switch { SwitchRunsNext }
    ensures wakeup { WakeupWakes }
{}

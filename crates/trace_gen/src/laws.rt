//! The law of generated traces: their texts are accepted and have the requested number of events.
//! The function has an empty body, because its contract is the law.
ghost use Rattle.trace_gen.specs.Generating.{GeneratedCount, GeneratedIsTrace};

/// The text of each generated trace is accepted with the default tick, and is the text of that
/// trace. The trace has one event for each group and each task, then the requested number of
/// further events, and the end.
pub fn law_generated()
    ensures trace { GeneratedIsTrace }
    ensures count { GeneratedCount }
{}

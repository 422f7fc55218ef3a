//! Laws about samples and runs. Each function has an empty body: its contract is the law.
ghost use Rattle.observe_spec.specs.Laws.{MissingTraceShows, ReplayHasThese, TracesAreThoseOfReplay, CountsAreOfChanges, EachTakesItsShare};

/// The number of changes in a sample is at most the number of changes of the sample's processor in
/// the whole trace. Each observer takes as many samples as are due.
pub fn law_observed()
    ensures counts { CountsAreOfChanges }
    ensures share { EachTakesItsShare }
{}

/// psi_observe replays a trace with the default options of `replay`. It accepts the traces that
/// `replay` accepts, and rejects all other traces with the status of `replay`.
pub fn law_as_replay()
    ensures options { ReplayHasThese }
    ensures traces { TracesAreThoseOfReplay }
{}

/// If the trace's file is known to be missing, a run reports the missing file, fails to read, or
/// runs out of memory.
pub fn law_missing_trace()
    ensures { MissingTraceShows }
{}

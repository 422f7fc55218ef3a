//! The law of whole traces: which bytes are accepted, and at which line other bytes are rejected.
//!
//! The function has an empty body: its contract is the law.

ghost use Rattle.psi_spec.specs.Laws.{Accepted, FirstRefused};

/// Bytes are accepted as a trace if and only if they are the text of a trace whose events are legal
/// in order. Any other bytes are rejected at the first line for which there is a cause of
/// rejection.
pub fn law_traces()
    ensures accepted { Accepted }
    ensures refused { FirstRefused }
{}

//! Parses the words of the command line of `psi_observe`. No file is opened here.
ghost use Rattle.std.specs.Prelude.{◌≡◌, IfOk, IfSome, MatchResult, Some, map, string_bytes};
ghost use Rattle.observe_spec.specs.Words.{is_trace_name, request_of};
ghost use Rattle.run_spec.specs.Words.{number_within};
ghost use Rattle.run_spec.specs.LegalCommand.{IsWithin};
ghost use Rattle.observe_core.specs.Requested.{RefusesWords, request_in};

use psi_base::{Fault, NoMemory, Path, read_number};
use std::alloc::Global;

/// The error for words that aren't the name of a trace, a number of observers and a path.
#[derive(Clone, Copy, Debug, PartialEq, Eq)]
pub(crate) struct BadWords;

/// The request that the command line forms: a trace to replay, and observers of one group.
#[derive(Drop)]
pub(crate) struct Request<'a> {
    /// The name of the trace's file, or `-` for standard input.
    pub(crate) trace: &'a str,
    /// The number of observers: 1 to 8.
    pub(crate) observers: u32,
    /// The path of the group that the observers sample.
    pub(crate) path: Path,
}

// Returns whether `name` can be the name of a trace file: it isn't empty, and doesn't begin with
// `-` unless it is `-` (standard input).
fn is_trace_name(name: &str) -> bool
    ensures { result ≡ is_trace_name name.now }
{
    let bytes = name.as_bytes();
    match bytes {
        [] => false,
        [_] => true,
        [first, _, ..] => *first != b'-',
    }
}

// Parses the number of observers. Returns `None` unless `word` is a number from 1 to 8.
fn observers_in(word: &str) -> Option<u32>
    ensures exact { result ≡ number_within 1 8 word.now }
    ensures within { IfSome result (IsWithin 1 8) }
{
    match read_number(word.as_bytes()) {
        Some(number) if 1 <= number && number <= 8 => Some(number as u32),
        _ => None,
    }
}

/// Parses a request from the words of the command line, without the program's name. Fails with
/// `BadWords` if and only if the words aren't a request. Only the path needs memory, so `NoMemory`
/// implies that the words are a request.
#[tactic(auto, unfolding(observe_spec::specs::Words::request_of))]
pub(crate) fn read_request(alloc: Global, words: &[String]) -> Result<Request<'_>, Fault<BadWords>>
    ensures exact { MatchResult result
        (λ request. request_of (map string_bytes words.now) ≡ Some (request_in request))
        (λ fault. RefusesWords fault (request_of (map string_bytes words.now))) }
    ensures within { IfOk result (λ request. IsWithin 1 8 request.observers) }
{
    let [trace, observers, path] = words else {
        return Err(Fault::Refused(BadWords));
    };
    let trace = trace.as_str();
    let Some(observers) = observers_in(observers.as_str()) else {
        return Err(Fault::Refused(BadWords));
    };
    if !is_trace_name(trace) {
        return Err(Fault::Refused(BadWords));
    }
    match Path::read(alloc, path.as_bytes())? {
        Some(path) => Ok(Request {
            trace,
            observers,
            path,
        }),
        None => Err(Fault::Refused(BadWords)),
    }
}

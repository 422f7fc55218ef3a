//! Writes the text of a generated trace to a sink. It also writes single lines of other traces,
//! without allocating.
ghost use Rattle.std.specs.Prelude.{◌≡◌, ◌≤◌, ◌++◌, ◌∷◌, [], vec_capacity};
ghost use Rattle.outside.specs.Outside.{HasCause, SameInner};
ghost use Rattle.outside.specs.Calls.{PutsAll};
ghost use Rattle.psi_spec.specs.Grammar.{Fits, header, spelling};
ghost use Rattle.psi_spec.specs.Trace.{AllFit, lines_of};
ghost use Rattle.run_spec.specs.Generated.{gen_text};
ghost use Rattle.run_spec.specs.LegalCommand.{IsShape};
ghost use Rattle.trace_gen.specs.Writing.{WritesWhole, shape_by};

use crate::generator::Generator;
use outside::{Sink, WriteFailed, put_all};
use psi_base::{Event, Fault};
use psi_trace::{write_event, write_header};
use run_spec::Shape;
use std::alloc::Global;

/// The maximum length (bytes) of an event's line, including its newline.
const ROOM: usize = 513;

/// Replaces the content of `line` with the header line for `cpus` processors. Doesn't allocate,
/// because the capacity of `line` is large enough.
#[tactic(auto, using(psi_trace::proofs::Headers::header_short))]
fn make_header(cpus: u32, line: &mut Vec<u8>)
    requires { 513 ≤ vec_capacity line.old }
    ensures bytes { line.new.items ≡ header 1 cpus ++ 10 ∷ [] }
    ensures room { 513 ≤ vec_capacity line.new }
{
    line.clear();
    match write_header(cpus, line) {
        Ok(()) => line.push_reserved(b'\n'),
        Err(_) => unreachable!(),
    }
}

/// Replaces the content of `line` with the line of an event. Doesn't allocate, because the capacity
/// of `line` is large enough.
#[tactic(auto, using(crate::proofs::Sending::line_short))]
fn make_line(event: &Event, line: &mut Vec<u8>)
    requires fits { Fits event.now }
    requires room { 513 ≤ vec_capacity line.old }
    ensures bytes { line.new.items ≡ spelling event.now ++ 10 ∷ [] }
    ensures room { 513 ≤ vec_capacity line.new }
{
    line.clear();
    match write_event(event, line) {
        Ok(()) => line.push_reserved(b'\n'),
        Err(_) => unreachable!(),
    }
}

/// Writes the header line for `cpus` processors to `out`. `line` is a buffer for the line. Doesn't
/// allocate, because the buffer's capacity is large enough.
pub fn put_header<K: Sink>(cpus: u32, line: &mut Vec<u8>, out: &mut K) -> Result<(), WriteFailed>
    requires room { 513 ≤ vec_capacity line.old }
    ensures room { 513 ≤ vec_capacity line.new }
    ensures bytes { PutsAll (K.has out.old) (K.has out.new) result (header 1 cpus ++ 10 ∷ []) }
    ensures cause { HasCause (K.faults out.old) (K.faults out.new) result }
    ensures below { SameInner (K.below out.old) (K.below out.new) }
{
    make_header(cpus, line);
    put_all(out, line)
}

/// Writes the line of an event to `out`. `line` is a buffer for the line. Doesn't allocate, because
/// the buffer's capacity is large enough.
pub fn put_event<K: Sink>(event: &Event, line: &mut Vec<u8>, out: &mut K) -> Result<(), WriteFailed>
    requires fits { Fits event.now }
    requires room { 513 ≤ vec_capacity line.old }
    ensures room { 513 ≤ vec_capacity line.new }
    ensures bytes { PutsAll (K.has out.old) (K.has out.new) result
        (spelling event.now ++ 10 ∷ []) }
    ensures cause { HasCause (K.faults out.old) (K.faults out.new) result }
    ensures below { SameInner (K.below out.old) (K.below out.new) }
{
    make_line(event, line);
    put_all(out, line)
}

/// Writes the line of an event to `out`, and drops the event. `line` is a buffer for the line.
fn put_owned<K: Sink>(event: Event, line: &mut Vec<u8>, out: &mut K) -> Result<(), WriteFailed>
    requires fits { Fits event }
    requires room { 513 ≤ vec_capacity line.old }
    ensures room { 513 ≤ vec_capacity line.new }
    ensures bytes { PutsAll (K.has out.old) (K.has out.new) result (spelling event ++ 10 ∷ []) }
    ensures cause { HasCause (K.faults out.old) (K.faults out.new) result }
    ensures below { SameInner (K.below out.old) (K.below out.new) }
{
    put_event(&event, line, out)
}

/// Writes the lines of a generator's remaining events to `out`. `line` is a buffer for one line.
fn put_events<K: Sink>(
    generator: &mut Generator,
    line: &mut Vec<u8>,
    out: &mut K,
) -> Result<(), WriteFailed>
    requires fit { AllFit generator.old }
    requires room { 513 ≤ vec_capacity line.old }
    ensures bytes { PutsAll (K.has out.old) (K.has out.new) result (lines_of generator.old) }
    ensures cause { HasCause (K.faults out.old) (K.faults out.new) result }
    ensures below { SameInner (K.below out.old) (K.below out.new) }
{
    'events: while let Some(event) = generator.next() {
        put_owned(event, line, out)?;
    }
    Ok(())
}

/// Writes the header line for `cpus` processors and the lines of a generator's remaining events to
/// `out`. `line` is a buffer for one line.
#[tactic(auto, using(outside::proofs::Grows::chain))]
fn put_trace<K: Sink>(
    cpus: u32,
    generator: &mut Generator,
    line: &mut Vec<u8>,
    out: &mut K,
) -> Result<(), WriteFailed>
    requires fit { AllFit generator.old }
    requires room { 513 ≤ vec_capacity line.old }
    ensures bytes { PutsAll (K.has out.old) (K.has out.new) result
        (header 1 cpus ++ 10 ∷ lines_of generator.old) }
    ensures cause { HasCause (K.faults out.old) (K.faults out.new) result }
    ensures below { SameInner (K.below out.old) (K.below out.new) }
{
    put_header(cpus, line, out)?;
    put_events(generator, line, out)
}

/// Writes the text of the trace that is generated from these numbers: any seed, 1 to 64 processors,
/// at most 1,000 groups besides the root, and at most 3,900,000 random events. Each line takes at
/// least one write.
///
/// Fails with `Refused` if a write failed; a prefix of the text was then written. Fails with
/// `NoMemory` only before anything is written.
pub fn generate<K: Sink>(
    alloc: Global,
    seed: u64,
    cpus: u32,
    groups: u32,
    events: u32,
    out: &mut K,
) -> Result<(), Fault<WriteFailed>>
    requires { IsShape (shape_by seed cpus groups events) }
    ensures writes { WritesWhole (gen_text (shape_by seed cpus groups events))
        (K.faults out.old) (K.faults out.new) (K.has out.old) (K.has out.new) result }
    ensures below { SameInner (K.below out.old) (K.below out.new) }
{
    let shape = Shape {
        seed,
        cpus,
        groups,
        events,
    };
    let mut line = Vec::with_capacity(alloc, ROOM)?;
    let mut generator = Generator::make(alloc, shape)?;
    match put_trace(cpus, &mut generator, &mut line, out) {
        Ok(()) => Ok(()),
        Err(failed) => Err(Fault::Refused(failed)),
    }
}

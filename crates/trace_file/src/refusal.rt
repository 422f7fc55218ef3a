//! Writes the message for a rejected line of a trace. The module doesn't decide which lines are
//! rejected.
ghost use Rattle.std.specs.Prelude.{◌≡◌};
ghost use Rattle.outside.specs.Outside.{HasCause};
ghost use Rattle.outside.specs.Calls.{PutsAll};
ghost use Rattle.run_spec.specs.Status.{refusal_text};
ghost use Rattle.run_spec.specs.Text.{cause_name, field_number};

use itoa::Buffer;
use outside::{Sink, WriteFailed, put_each};
use psi_base::Cause;

fn cause_name(cause: Cause) -> &'static [u8]
    ensures { result.now ≡ cause_name cause }
{
    match cause {
        Cause::BadHeader => b"BadHeader",
        Cause::LineTooLong => b"LineTooLong",
        Cause::BadTime => b"BadTime",
        Cause::BadVerb => b"BadVerb",
        Cause::BadField(_) => b"BadField",
        Cause::TimeBack => b"TimeBack",
        Cause::TimeTooLate => b"TimeTooLate",
        Cause::TooManyEvents => b"TooManyEvents",
        Cause::UnknownGroup => b"UnknownGroup",
        Cause::GroupExists => b"GroupExists",
        Cause::NoParent => b"NoParent",
        Cause::GroupBusy => b"GroupBusy",
        Cause::TooManyGroups => b"TooManyGroups",
        Cause::UnknownTask => b"UnknownTask",
        Cause::TaskExists => b"TaskExists",
        Cause::TooManyTasks => b"TooManyTasks",
        Cause::BadCpu => b"BadCpu",
        Cause::NotRunning => b"NotRunning",
        Cause::NotReady => b"NotReady",
        Cause::NotBlocked => b"NotBlocked",
        Cause::WrongHow => b"WrongHow",
        Cause::InStall => b"InStall",
        Cause::NotInStall => b"NotInStall",
        Cause::TooManyTriggers => b"TooManyTriggers",
        Cause::BadWindow => b"BadWindow",
        Cause::AfterEnd => b"AfterEnd",
        Cause::NoEnd => b"NoEnd",
        Cause::IrqTooLong => b"IrqTooLong",
        Cause::RootPressure => b"RootPressure",
        Cause::TooManyPressures => b"TooManyPressures",
    }
}

// Returns the number (from 1) of the malformed field if the cause is `BadField`, or `None` for any
// other cause.
fn field_of(cause: Cause) -> Option<u8>
    ensures { result ≡ field_number cause }
{
    match cause {
        Cause::BadField(field) => Some(field),
        _ => None,
    }
}

/// Writes the message for a rejected line of a trace. The message has the line's number (from 1)
/// and the cause. Doesn't allocate.
pub fn put_refusal<N: Sink>(note: &mut N, line: u32, cause: Cause) -> Result<(), WriteFailed>
    ensures bytes { PutsAll (N.has note.old) (N.has note.new) result (refusal_text line cause) }
    ensures cause { HasCause (N.faults note.old) (N.faults note.new) result }
{
    let mut line_digits = Buffer::new();
    let line = line_digits.format(line).as_bytes();
    let name = cause_name(cause);
    match field_of(cause) {
        Some(field) => {
            let mut field_digits = Buffer::new();
            let field = field_digits.format(field).as_bytes();
            put_each(
                note,
                &[
                    b"trace line ".as_slice(),
                    line,
                    b": ".as_slice(),
                    name,
                    b" ".as_slice(),
                    field,
                    b"\n".as_slice(),
                ],
            )
        }
        None => put_each(
            note,
            &[
                b"trace line ".as_slice(),
                line,
                b": ".as_slice(),
                name,
                b"\n".as_slice(),
            ],
        ),
    }
}

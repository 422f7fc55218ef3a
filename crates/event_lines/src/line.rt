//! Writes events and numbers of lost events as lines of text. In a text, a space, a backslash or a
//! byte that isn't printable is written as an escape: a backslash and three octal digits.
ghost use Rattle.std.specs.Prelude.{◌≡◌, ◌≤◌, ◌<◌, ◌++◌, true, codes, decimal, length};
ghost use Rattle.outside.specs.Outside.{HasCause, SameInner};
ghost use Rattle.outside.specs.Calls.{PutsAll};
ghost use Rattle.page_spec.specs.Fields.{end_of, has_fields, value_of, values_of};
ghost use Rattle.page_spec.specs.Items.Item.{Lost};
ghost use Rattle.page_spec.specs.Lines.{byte_text, bytes_text, count_text, is_plain, item_text, start_text, value_text, values_text};
ghost use Rattle.page_events.specs.Events.{item_of};
ghost use Rattle.page_events.specs.Parts.{seen_value};

use outside::{Sink, WriteFailed, put_all, put_number};
use page_events::{Event, FieldValue, value_of};
use page_spec::{Field, Layout, StateLetter};

fn is_plain(byte: u8) -> bool
    ensures { result ≡ is_plain byte }
{
    32 < byte && byte < 127 && byte != b'\\'
}

// Writes one byte of a text. A space, a backslash or a byte that isn't printable is written as a
// backslash and three octal digits, and any other byte unchanged.
fn put_byte<K: Sink>(out: &mut K, byte: u8) -> Result<(), WriteFailed>
    ensures bytes { PutsAll (K.has out.old) (K.has out.new) result (byte_text byte) }
    ensures cause { HasCause (K.faults out.old) (K.faults out.new) result }
    ensures below { SameInner (K.below out.old) (K.below out.new) }
{
    if is_plain(byte) {
        put_all(out, &[byte])
    } else {
        put_all(
            out,
            &[
                b'\\',
                b'0' + byte / 64,
                b'0' + byte / 8 % 8,
                b'0' + byte % 8,
            ],
        )
    }
}

fn put_bytes<K: Sink>(out: &mut K, bytes: &[u8]) -> Result<(), WriteFailed>
    ensures bytes { PutsAll (K.has out.old) (K.has out.new) result (bytes_text bytes.now) }
    ensures cause { HasCause (K.faults out.old) (K.faults out.new) result }
    ensures below { SameInner (K.below out.old) (K.below out.new) }
{
    'bytes: for byte in bytes {
        put_byte(out, *byte)?;
    }
    Ok(())
}

// Writes a minus sign and `number`, the absolute value of a negative number.
#[tactic(auto, using(outside::proofs::Grows::chain))]
fn put_minus<K: Sink>(out: &mut K, number: u64) -> Result<(), WriteFailed>
    ensures bytes { PutsAll (K.has out.old) (K.has out.new) result
        (codes "-" ++ decimal number) }
    ensures cause { HasCause (K.faults out.old) (K.faults out.new) result }
    ensures below { SameInner (K.below out.old) (K.below out.new) }
{
    put_all(out, b"-")?;
    put_number(out, number)
}

// Writes the value of a field: a number, the letter of a state, or a text with escapes.
fn put_value<K: Sink>(out: &mut K, value: FieldValue<'_>) -> Result<(), WriteFailed>
    ensures bytes { PutsAll (K.has out.old) (K.has out.new) result
        (value_text (seen_value value.entry)) }
    ensures cause { HasCause (K.faults out.old) (K.faults out.new) result }
    ensures below { SameInner (K.below out.old) (K.below out.new) }
{
    match value {
        FieldValue::Count(number) => put_number(out, number),
        FieldValue::Minus(number) => put_minus(out, number),
        FieldValue::Letter(letter) => put_all(out, &[letter]),
        FieldValue::Bytes(bytes) => put_bytes(out, bytes),
    }
}

// Writes a space and the value of a field. `bytes` are the bytes of the event's record, and
// `letters` the letters for the bits of a task's state.
#[tactic(auto, using(outside::proofs::Grows::chain))]
fn put_field<K: Sink>(
    out: &mut K,
    letters: &[StateLetter],
    bytes: &[u8],
    field: Field,
) -> Result<(), WriteFailed>
    requires { end_of field ≤ length bytes.now }
    ensures bytes { PutsAll (K.has out.old) (K.has out.new) result
        (codes " " ++ value_text (value_of letters.now bytes.now field)) }
    ensures cause { HasCause (K.faults out.old) (K.faults out.new) result }
    ensures below { SameInner (K.below out.old) (K.below out.new) }
{
    put_all(out, b" ")?;
    put_value(out, value_of(letters, bytes, field))
}

// Writes the values of all fields, each with a space before it. `bytes` are the bytes of the
// event's record.
fn put_values<K: Sink>(
    out: &mut K,
    letters: &[StateLetter],
    bytes: &[u8],
    fields: &[Field],
) -> Result<(), WriteFailed>
    requires { has_fields bytes.now fields.now ≡ true }
    ensures bytes { PutsAll (K.has out.old) (K.has out.new) result
        (values_text (values_of letters.now bytes.now fields.now)) }
    ensures cause { HasCause (K.faults out.old) (K.faults out.new) result }
    ensures below { SameInner (K.below out.old) (K.below out.new) }
{
    'fields: for field in fields {
        put_field(out, letters, bytes, *field)?;
    }
    Ok(())
}

// Writes the start of a line: the time (ns), the number of the processor, and `word`, which is the
// name of the event or `lost`.
#[tactic(auto, using(outside::proofs::Grows::chain))]
fn put_start<K: Sink>(out: &mut K, time: u64, cpu: u32, word: &[u8]) -> Result<(), WriteFailed>
    ensures bytes { PutsAll (K.has out.old) (K.has out.new) result
        (start_text time cpu word.now) }
    ensures cause { HasCause (K.faults out.old) (K.faults out.new) result }
    ensures below { SameInner (K.below out.old) (K.below out.new) }
{
    put_number(out, time)?;
    put_all(out, b" ")?;
    put_number(out, u64::from(cpu))?;
    put_all(out, b" ")?;
    put_all(out, word)
}

/// Writes the line of an event that happened on processor `cpu`.
#[tactic(auto, using(outside::proofs::Grows::chain))]
pub(crate) fn put_event<K: Sink>(
    out: &mut K,
    layout: &Layout,
    cpu: u32,
    event: Event<'_>,
) -> Result<(), WriteFailed>
    requires { has_fields event.bytes.now event.kind.now.fields ≡ true }
    ensures bytes { PutsAll (K.has out.old) (K.has out.new) result
        (item_text cpu (item_of layout.now event.entry)) }
    ensures cause { HasCause (K.faults out.old) (K.faults out.new) result }
    ensures below { SameInner (K.below out.old) (K.below out.new) }
{
    put_start(out, event.time, cpu, event.kind.name.bytes())?;
    put_values(
        out,
        layout.letters.items(),
        event.bytes,
        event.kind.fields.items(),
    )?;
    put_all(out, b"\n")
}

// Writes the end of a line: a space, the number `count` and a newline.
#[tactic(auto, using(outside::proofs::Grows::chain))]
fn put_count<K: Sink>(out: &mut K, count: u64) -> Result<(), WriteFailed>
    ensures bytes { PutsAll (K.has out.old) (K.has out.new) result (count_text count) }
    ensures cause { HasCause (K.faults out.old) (K.faults out.new) result }
    ensures below { SameInner (K.below out.old) (K.below out.new) }
{
    put_all(out, b" ")?;
    put_number(out, count)?;
    put_all(out, b"\n")
}

/// Writes the line that reports `count` lost events on processor `cpu`. `time` (ns) is the time of
/// the page before which the events were lost.
#[tactic(auto, using(outside::proofs::Grows::chain))]
pub(crate) fn put_lost<K: Sink>(
    out: &mut K,
    cpu: u32,
    time: u64,
    count: u64,
) -> Result<(), WriteFailed>
    ensures bytes { PutsAll (K.has out.old) (K.has out.new) result
        (item_text cpu (Lost time count)) }
    ensures cause { HasCause (K.faults out.old) (K.faults out.new) result }
    ensures below { SameInner (K.below out.old) (K.below out.new) }
{
    put_start(out, time, cpu, b"lost")?;
    put_count(out, count)
}

//! Searches for bytes and texts in a slice of bytes. The functions don't depend on the format of a
//! line.
ghost use Rattle.std.specs.Prelude.{◌≡◌, ◌+◌, ◌<◌, ◌≤◌, IfSome, length};
ghost use Rattle.std.specs.List.{position_or_len, prefix_len};
ghost use Rattle.std.specs.Char.{is_ascii_digit};
ghost use Rattle.import_spec.specs.Places.{begins_with, after_last, last_place};
ghost use Rattle.ftrace_import.specs.Bytes.{is_at, shown};

use memchr::memrchr;

/// Returns the index of the last occurrence of `text` in `bytes`, or `None`. Precondition: `text`
/// isn't empty.
#[inline(always)]
pub(crate) fn last_text(bytes: &[u8], text: &[u8]) -> Option<usize>
    requires some { 0 < length text.now }
    ensures last { result ≡ last_place (begins_with text.now) bytes.now }
    ensures inside { IfSome result (λ at. at + length text.now ≤ length bytes.now) }
{
    let mut end = bytes.len();
    'places: while let Some(at) = memrchr(text[0], &bytes[..end]) {
        if bytes[at..].starts_with(text) {
            return Some(at);
        }
        end = at;
    }
    None
}

/// Returns the bytes after the last occurrence of `text`, or `None` if `text` doesn't occur.
/// Precondition: `text` isn't empty.
#[inline(always)]
pub(crate) fn after_last<'a>(bytes: &'a [u8], text: &[u8]) -> Option<&'a [u8]>
    requires some { 0 < length text.now }
    ensures { shown result ≡ after_last text.now bytes.now }
{
    match last_text(bytes, text) {
        Some(at) => Some(&bytes[at + text.len()..]),
        None => None,
    }
}

/// Returns the number of bytes before the first byte that equals `byte`, or the number of all bytes
/// if `byte` doesn't occur.
#[inline(always)]
#[tactic(auto, using(crate::proofs::Bytes::runs))]
pub(crate) fn count_before(bytes: &[u8], byte: u8) -> usize
    ensures count { result ≡ position_or_len (is_at byte) bytes.now }
    ensures inside { result ≤ length bytes.now }
{
    let mut count = 0;
    'bytes: while count < bytes.len() {
        if bytes[count] == byte {
            return count;
        }
        count += 1;
    }
    count
}

/// Returns the number of digits at the start of the bytes.
#[inline(always)]
#[tactic(auto, using(crate::proofs::Bytes::runs))]
pub(crate) fn count_digits(bytes: &[u8]) -> usize
    ensures count { result ≡ prefix_len is_ascii_digit bytes.now }
    ensures inside { result ≤ length bytes.now }
{
    let mut count = 0;
    'digits: while count < bytes.len() {
        if !bytes[count].is_ascii_digit() {
            return count;
        }
        count += 1;
    }
    count
}

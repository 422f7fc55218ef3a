//! Tests whether a text has the syntax of a list of patterns.
//!
//! The test whether a pattern matches a path is in `component`.
ghost use Rattle.std.specs.Prelude.{◌≡◌, length, nat_le};
ghost use Rattle.std.specs.List.{list_all};
ghost use Rattle.psi_base.specs.Path.{parts_at};
ghost use Rattle.path_match.specs.Match.{after_slash, is_pattern, is_pattern_byte, is_pattern_component};

use psi_base::Parts;

/// The maximum number of patterns in a text.
const MOST_PATTERNS: u8 = 16;

// Returns whether a component of a pattern may contain the byte: a letter, a digit, one of
// `_.@:-\`, or a star.
fn is_pattern_byte(c: u8) -> bool
    ensures { result ≡ is_pattern_byte c }
{
    c.is_ascii_alphanumeric() || matches!(c, b'_' | b'.' | b'@' | b':' | b'-' | b'\\' | b'*')
}

fn are_pattern_bytes(part: &[u8]) -> bool
    ensures { result ≡ list_all is_pattern_byte part.now }
{
    part.iter().all(|c| is_pattern_byte(*c))
}

// Returns whether the bytes are a component of a pattern: one or more pattern bytes, except the
// components `.` and `..`.
fn is_component(part: &[u8]) -> bool
    ensures { result ≡ is_pattern_component part.now }
{
    if part.is_empty() || part == b".".as_slice() || part == b"..".as_slice() {
        return false;
    }
    are_pattern_bytes(part)
}

// Returns whether all parts of the text are components of a pattern. Slashes separate the parts.
fn are_components(text: &[u8]) -> bool
    ensures { result ≡ list_all is_pattern_component (parts_at 47 text.now) }
{
    let mut parts: Parts<'_, b'/'> = Parts::new(text);
    'parts: while let Some(part) = parts.next_part() {
        if !is_component(part) {
            return false;
        }
    }
    true
}

/// Removes a leading slash. Returns the text unchanged if it doesn't begin with a slash.
pub fn after_slash(text: &[u8]) -> &[u8]
    ensures { result.now ≡ after_slash text.now }
{
    match text {
        [b'/', rest @ ..] => rest,
        _ => text,
    }
}

// Returns whether the text is a pattern: the root `/`, or components separated by slashes, with or
// without a leading slash.
#[tactic(auto, unfolding(crate::specs::Match::components))]
fn is_pattern(text: &[u8]) -> bool
    ensures { result ≡ is_pattern text.now }
{
    if text == b"/".as_slice() {
        return true;
    }
    are_components(after_slash(text))
}

/// Returns whether all parts of the text are patterns. Commas separate the parts.
pub fn are_patterns(text: &[u8]) -> bool
    ensures { result ≡ list_all is_pattern (parts_at 44 text.now) }
{
    let mut parts: Parts<'_, b','> = Parts::new(text);
    'parts: while let Some(part) = parts.next_part() {
        if !is_pattern(part) {
            return false;
        }
    }
    true
}

/// Returns whether the text has at most 16 parts. Commas separate the parts.
pub fn are_few(text: &[u8]) -> bool
    ensures { result ≡ nat_le (length (parts_at 44 text.now)) 16 }
{
    let mut parts: Parts<'_, b','> = Parts::new(text);
    'parts: for _ in 0..MOST_PATTERNS {
        if parts.next_part().is_none() {
            return true;
        }
    }
    parts.next_part().is_none()
}

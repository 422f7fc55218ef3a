//! Iterates over the parts of a text between separators: words between spaces, or components
//! between slashes.
ghost use Rattle.std.specs.Prelude.{◌≡◌, ℕ, List, [], ◌∷◌, MatchOption};
ghost use Rattle.psi_base.specs.Path.{parts_at};

use std::marker::Model;

// Splits `bytes` at the first byte `at`, the separator. Returns the bytes before the separator, and
// the bytes after it. If there is no separator, returns all bytes and `None`.
#[tactic(auto, using(crate::proofs::PartLaws::parts))]
fn cut(bytes: &[u8], at: u8) -> (&[u8], Option<&[u8]>)
    ensures { MatchOption result.1 (parts_at at bytes.now ≡ result.0.now ∷ [])
        (λ rest. parts_at at bytes.now ≡ result.0.now ∷ parts_at at rest.now) }
{
    for (i, byte) in bytes.iter().enumerate() {
        if *byte == at {
            return (&bytes[..i], Some(&bytes[i + 1..]));
        }
    }
    (bytes, None)
}

/// An iterator over the parts of a text, in order. The parts are separated by the byte `AT`. There
/// is one more part than separators, and two adjacent separators have an empty part between them.
/// In contracts, the iterator is the list of the parts that it has not yet returned.
#[derive(Drop)]
pub struct Parts<'a, const AT: u8> {
    rest: &'a [u8],
    more: bool,
}

impl<'a, const AT: u8> Model for Parts<'a, AT> {
    ghost use Rattle.std.specs.Prelude.{List, ℕ, [], if◌then◌else◌};
    ghost use Rattle.psi_base.specs.Path.{parts_at};

    ghost Value = { List (List ℕ) };

    ghost view = { λ w. if w.more then parts_at AT w.rest.now else [] };
}

impl<'a, const AT: u8> Parts<'a, AT> {
    /// Creates an iterator over all parts of the text. An empty text has one empty part.
    pub fn new(text: &'a [u8]) -> Self
        ensures { result ≡ parts_at AT text.now }
    {
        Parts {
            rest: text,
            more: true,
        }
    }

    /// Removes and returns the first remaining part, or returns `None` if no part remains.
    pub fn next_part(&mut self) -> Option<&'a [u8]>
        ensures { MatchOption result ((self.old ≡ []) × (self.new ≡ []))
            (λ part. self.old ≡ part.now ∷ self.new) }
    {
        if !self.more {
            return None;
        }
        let (part, rest) = cut(self.rest, AT);
        match rest {
            Some(rest) => self.rest = rest,
            None => self.more = false,
        }
        Some(part)
    }
}

//! A list of patterns, which is the type of some arguments in a rules file.
//!
//! The syntax of patterns is in `form`, and the test for a single pattern is in `component`.
ghost use Rattle.std.specs.Prelude.{◌≡◌, ◌↔◌, ◌++◌, Err, IsTrue, IsOk, IfOk, OnErr, OnOk, map};
ghost use Rattle.psi_base.specs.Path.{parts_at};
ghost use Rattle.path_match.specs.Match.{components, is_match, patterns_of, patterns_text};
ghost use Rattle.path_match.specs.Answers.{ArePatterns, MatchesSome};
ghost use Rattle.psi_base.specs.Gives.{Gives, out_of_memory};

use crate::component::matches_pattern;
use crate::fault::PatternFault;
use crate::form::{are_few, are_patterns};
use crate::text::write_patterns;
use psi_base::{Fault, NoMemory, Parts, Path, Text};
use std::alloc::Global;
use std::marker::Model;

/// A list of 1 to 16 patterns of paths. Contracts see each pattern as a list of components. The
/// root's pattern has no components. A component consists of letters, digits, stars and `_.@:-\`,
/// and is neither `.` nor `..`. There is no limit on its length or on the number of components.
#[derive(Drop)]
pub struct Patterns {
    /// The parsed text of the patterns, which are separated by commas.
    text: Text,
}

impl Model for Patterns {
    ghost use Rattle.std.specs.Prelude.{◌≡◌, List, ℕ, Ok, map};
    ghost use Rattle.psi_base.specs.Path.{parts_at};
    ghost use Rattle.path_match.specs.Match.{components, patterns_of};

    ghost Value = { List (List (List ℕ)) };

    ghost view = { λ p. map components (parts_at 44 p.text) };

    ghost invariant = { λ p. patterns_of p.text ≡ Ok (map components (parts_at 44 p.text)) };
}

// Returns whether at least one pattern in `text` matches the path. Commas separate the patterns.
#[tactic(auto, unfolding(crate::specs::Match::is_match))]
fn some_matches(text: &[u8], path: &[u8]) -> bool
    ensures { result ≡ is_match (map components (parts_at 44 text.now)) path.now }
{
    let mut parts: Parts<'_, b','> = Parts::new(text);
    'parts: while let Some(pattern) = parts.next_part() {
        if matches_pattern(pattern, path) {
            return true;
        }
    }
    false
}

impl Patterns {
    /// Parses patterns, which are separated by commas. A pattern is `/` (the root), or components
    /// separated by `/`, with or without a leading `/`. Fails with `BadPattern` if a part isn't a
    /// pattern. Fails with `TooMany` if all parts are patterns but there are more than 16.
    /// `NoMemory` is possible only if the text is valid.
    #[tactic(auto, unfolding(crate::specs::Match::patterns_of))]
    pub fn read(alloc: Global, text: &str) -> Result<Patterns, Fault<PatternFault>>
        ensures exact { Gives result (patterns_of text.now) }
        ensures memory { result ≡ Err out_of_memory → IsOk (patterns_of text.now) }
    {
        let bytes = text.as_bytes();
        if !are_patterns(bytes) {
            return Err(Fault::Refused(PatternFault::BadPattern));
        }
        if !are_few(bytes) {
            return Err(Fault::Refused(PatternFault::TooMany));
        }
        let text = Text::make(alloc, bytes)?;
        Ok(Patterns { text })
    }

    /// Returns whether at least one of the patterns matches the path. A pattern matches if it has
    /// the same number of components as the path and each component matches. A star matches zero or
    /// more bytes within one component.
    pub fn matches(&self, path: &Path) -> bool
        ensures relation { IsTrue result ↔ MatchesSome self.now path.now }
        ensures test { result ≡ is_match self.now path.now }
        ensures patterns { ArePatterns self.now }
    {
        some_matches(self.text.bytes(), path.bytes())
    }

    /// Returns a copy of the patterns.
    pub fn copy(&self, alloc: Global) -> Result<Patterns, NoMemory>
        ensures { IfOk result (λ patterns. patterns ≡ self.now) }
    {
        let text = Text::make(alloc, self.text.bytes())?;
        Ok(Patterns { text })
    }

    /// Appends the text of the patterns, separated by commas. The root is written as `/`. Any other
    /// pattern has no slash before its first component. After `NoMemory` the bytes are unchanged.
    pub fn write(&self, to: &mut Vec<u8>) -> Result<(), NoMemory>
        ensures text { OnOk result (to.new.items ≡ to.old.items ++ patterns_text self.now) }
        ensures unchanged { OnErr result (to.new.items ≡ to.old.items) }
        ensures patterns { ArePatterns self.now }
    {
        write_patterns(self.text.bytes(), to)
    }
}

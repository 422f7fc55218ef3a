//! Tests whether a single pattern matches a path.
//!
//! Lists of patterns are in `patterns`.
ghost use Rattle.std.specs.Prelude.{◌≡◌, ◌==◌};
ghost use Rattle.std.specs.List.{list_all};
ghost use Rattle.psi_base.specs.Path.{parts_at};
ghost use Rattle.path_match.specs.Match.{are_matches, components, is_component_match};

use crate::form::after_slash;
use psi_base::Parts;

/// The last star of the pattern that the search has passed.
#[derive(Clone, Copy)]
struct LastStar {
    /// The index of the pattern's byte after the star.
    suffix: usize,
    /// The index of the component's byte after the bytes that the star matches.
    end: usize,
}

// Returns whether a component of a pattern matches a component of a path. A star matches zero or
// more bytes, and any other byte matches itself.
//
// If the pattern after the last star doesn't match, the search lets that star match one more byte.
// Earlier stars keep their shortest match, because a longer match would only leave fewer bytes to
// the last star. So the number of steps is at most about the product of the two lengths.
fn matches_component(pattern: &[u8], bytes: &[u8]) -> bool
    ensures { result ≡ is_component_match pattern.now bytes.now }
{
    let mut at = 0;
    let mut next = 0;
    let mut star: Option<LastStar> = None;
    'walk: while next < bytes.len() {
        if at < pattern.len() && pattern[at] == b'*' {
            at += 1;
            star = Some(LastStar {
                suffix: at,
                end: next,
            });
        } else if at < pattern.len() && pattern[at] == bytes[next] {
            at += 1;
            next += 1;
        } else if let Some(last) = star {
            at = last.suffix;
            next = last.end + 1;
            star = Some(LastStar {
                suffix: last.suffix,
                end: next,
            });
        } else {
            return false;
        }
    }
    are_stars(&pattern[at..])
}

// Returns whether the pattern consists of stars only. Only such a pattern matches the empty string.
fn are_stars(pattern: &[u8]) -> bool
    ensures { result ≡ list_all (λ c. c == 42) pattern.now }
{
    pattern.iter().all(|c| *c == b'*')
}

// Returns whether the pattern and the path have the same number of components, and each component
// of the pattern matches the path's component at its position.
fn matches_components(pattern: &[u8], path: &[u8]) -> bool
    ensures { result ≡ are_matches (parts_at 47 pattern.now) (parts_at 47 path.now) }
{
    let mut wanted: Parts<'_, b'/'> = Parts::new(pattern);
    let mut found: Parts<'_, b'/'> = Parts::new(path);
    'parts: while let Some(component) = wanted.next_part() {
        match found.next_part() {
            Some(part) => {
                if !matches_component(component, part) {
                    return false;
                }
            }
            None => return false,
        }
    }
    found.next_part().is_none()
}

/// Returns whether a single pattern matches a path. `pattern` is the text of a pattern, such as
/// `/system.slice/*`, and `path` is the text of a path.
#[tactic(auto, unfolding(crate::specs::Match::components))]
pub fn matches_pattern(pattern: &[u8], path: &[u8]) -> bool
    ensures { result ≡ are_matches (components pattern.now) (components path.now) }
{
    if pattern == b"/".as_slice() {
        return path == b"/".as_slice();
    }
    if path == b"/".as_slice() {
        return false;
    }
    matches_components(after_slash(pattern), after_slash(path))
}

//! Writes patterns as text.
//!
//! The text is normalised: it has no slash before the first component of a pattern.
ghost use Rattle.std.specs.Prelude.{◌≡◌, ◌++◌, length, map, take, OnErr, OnOk};
ghost use Rattle.psi_base.specs.Path.{parts_at};
ghost use Rattle.path_match.specs.Match.{components, pattern_text, patterns_text};

use crate::form::after_slash;
use psi_base::{NoMemory, Parts};

// Returns the text of a pattern without its leading slash. The root's pattern `/` is unchanged.
#[tactic(auto, using(crate::proofs::Texts::slashless))]
fn slashless(pattern: &[u8]) -> &[u8]
    ensures { result.now ≡ pattern_text (components pattern.now) }
{
    if pattern == b"/".as_slice() {
        return pattern;
    }
    after_slash(pattern)
}

// Appends the patterns of `text`, which are separated by commas. After `NoMemory` some of the
// patterns may be appended.
#[tactic(auto, using(crate::proofs::Texts::prefix_more))]
fn put_patterns(text: &[u8], to: &mut Vec<u8>) -> Result<(), NoMemory>
    ensures text { OnOk result (to.new.items
        ≡ to.old.items ++ patterns_text (map components (parts_at 44 text.now))) }
    ensures prefix { take (length to.old.items) to.new.items ≡ to.old.items }
{
    let mut parts: Parts<'_, b','> = Parts::new(text);
    let Some(first) = parts.next_part() else {
        return Ok(());
    };
    to.extend_from_slice(slashless(first))?;
    'parts: while let Some(pattern) = parts.next_part() {
        to.push(b',')?;
        to.extend_from_slice(slashless(pattern))?;
    }
    Ok(())
}

/// Appends the patterns of `text`, which are separated by commas. After `NoMemory` nothing is
/// appended.
pub fn write_patterns(text: &[u8], to: &mut Vec<u8>) -> Result<(), NoMemory>
    ensures text { OnOk result (to.new.items
        ≡ to.old.items ++ patterns_text (map components (parts_at 44 text.now))) }
    ensures unchanged { OnErr result (to.new.items ≡ to.old.items) }
{
    let held = to.len();
    let written = put_patterns(text, to);
    if written.is_err() {
        to.truncate(held);
    }
    written
}

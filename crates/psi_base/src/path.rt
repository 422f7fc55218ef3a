//! Paths of control groups: the syntax of a path, and a type for parsed paths.
ghost use Rattle.std.specs.Prelude.{◌≡◌, ℕ, List, IfOk, IsErr, true, ◌∷◌, [], ◌==◌};
ghost use Rattle.std.proofs.Common.{rules};
ghost use Rattle.std.specs.Cmp.{partial_order_from_own_ties};
ghost use Rattle.std.specs.Cmp.Rules.{comparing};
ghost use Rattle.std.specs.Ordering.{nat_cmp, as_partial_cmp};
ghost use Rattle.std.specs.Cmp.Lexicographic.{pointwise, slice_cmp};
ghost use Rattle.std.specs.Prelude.{false, ◌&&◌, ◌<◌, nat_le, length, MatchOption};
ghost use Rattle.std.specs.List.{list_all};
ghost use Rattle.std.specs.Str.{IsAscii};
ghost use Rattle.psi_base.specs.Path.{is_path, is_path_byte, is_component, parts_at};

use crate::parts::Parts;
use crate::text::NoMemory;
use std::alloc::Global;
use std::cmp::Ordering;
use std::marker::Model;

fn is_path_byte(c: u8) -> bool
    ensures { result ≡ is_path_byte c }
{
    c.is_ascii_alphanumeric() || matches!(c, b'_' | b'.' | b'@' | b':' | b'-' | b'\\')
}

fn are_path_bytes(part: &[u8]) -> bool
    ensures { result ≡ list_all is_path_byte part.now }
{
    part.iter().all(|c| is_path_byte(*c))
}

// Returns whether the bytes are a component: one or more path bytes, but neither `.` nor `..`.
fn is_component(part: &[u8]) -> bool
    ensures { result ≡ is_component part.now }
{
    if part.is_empty() || part == b".".as_slice() || part == b"..".as_slice() {
        return false;
    }
    are_path_bytes(part)
}

// Returns whether the text consists of 1 to 32 components that are separated by slashes.
fn are_components(text: &[u8]) -> bool
    ensures { result ≡ (nat_le (length (parts_at 47 text.now)) 32
        && list_all is_component (parts_at 47 text.now)) }
{
    let mut parts: Parts<'_, b'/'> = Parts::new(text);
    for _ in 0..32u8 {
        match parts.next_part() {
            Some(part) => {
                if !is_component(part) {
                    return false;
                }
            }
            None => return true,
        }
    }
    parts.next_part().is_none()
}

// Returns whether the bytes are a path: `/`, or at most 255 bytes with a slash before each
// component.
#[tactic(auto, unfolding(crate::specs::Path::is_path))]
fn is_path(bytes: &[u8]) -> bool
    ensures { result ≡ is_path bytes.now }
{
    if bytes == b"/".as_slice() {
        return true;
    }
    if bytes.len() > 255 || bytes.is_empty() || bytes[0] != b'/' {
        return false;
    }
    are_components(&bytes[1..])
}

/// The path of a control group, at most 255 bytes: `/`, or 1 to 32 components, each after a `/`. A
/// component is one or more letters, digits and characters of `_.@:-\`, but neither `.` nor `..`.
/// Paths are ordered by their bytes. In contracts, a path is the list of its bytes.
#[derive(Drop)]
pub struct Path {
    bytes: Vec<u8>,
}

impl Model for Path {
    ghost Value = { List ℕ };

    ghost view = { λ p. p.bytes.items };

    ghost invariant = { λ p. is_path p.bytes.items ≡ true };
}

impl Path {
    /// Makes the path of the root, `/`.
    #[tactic(auto, unfolding(crate::specs::Path::is_path))]
    pub fn root(alloc: Global) -> Result<Path, NoMemory>
        ensures { IfOk result (λ path. path ≡ 47 ∷ []) }
    {
        Ok(Path {
            bytes: Vec::from_slice(alloc, b"/")?,
        })
    }

    /// Parses a path, and copies it to newly allocated memory. Returns `None` if and only if the
    /// bytes aren't a path. No memory is allocated for `None`.
    pub fn read(alloc: Global, bytes: &[u8]) -> Result<Option<Path>, NoMemory>
        ensures read { IfOk result (λ read. MatchOption read (is_path bytes.now ≡ false)
            (λ path. (is_path bytes.now ≡ true) × (path ≡ bytes.now))) }
        ensures memory { IsErr result → is_path bytes.now ≡ true }
    {
        if !is_path(bytes) {
            return Ok(None);
        }
        Ok(Some(Path {
            bytes: Vec::from_slice(alloc, bytes)?,
        }))
    }

    /// Returns the path as text, which is ASCII.
    #[tactic(auto, using(crate::proofs::PathLaws::texts))]
    pub fn text(&self) -> &str
        ensures text { result.now ≡ self.now }
        ensures ascii { IsAscii result.now }
    {
        match str::from_utf8(&self.bytes) {
            Ok(text) => text,
            Err(_) => unreachable!(),
        }
    }

    /// Returns a copy of the path in newly allocated memory.
    pub fn copy(&self, alloc: Global) -> Result<Path, NoMemory>
        ensures { IfOk result (λ path. path ≡ self.now) }
    {
        Ok(Path {
            bytes: Vec::from_slice(alloc, &self.bytes)?,
        })
    }

    /// Returns the bytes of the path.
    pub fn bytes(&self) -> &[u8]
        ensures bytes { result.now ≡ self.now }
        ensures path { is_path result.now ≡ true }
    {
        &self.bytes
    }
}

impl PartialEq for Path {
    ghost eq = { pointwise ◌==◌ };

    ghost laws = { Prim.search (comparing, rules) };

    fn eq(&self, other: &Path) -> bool {
        self.bytes() == other.bytes()
    }
}

impl Eq for Path {
    ghost laws = { Prim.search (comparing, rules) };
}

impl Ord for Path {
    ghost cmp = { slice_cmp nat_cmp };

    ghost total = { Prim.search (comparing, rules) };

    ghost matches_partial_cmp = { Prim.search (comparing, rules) };

    ghost matches_eq = { Prim.search (comparing, rules) };

    fn cmp(&self, other: &Path) -> Ordering {
        self.bytes().cmp(other.bytes())
    }
}

impl PartialOrd for Path {
    ghost partial_cmp = { as_partial_cmp (slice_cmp nat_cmp) };

    ghost laws = { partial_order_from_own_ties (Prim.search (comparing, rules))
        (Prim.search (comparing, rules)) };

    fn partial_cmp(&self, other: &Path) -> Option<Ordering> {
        Some(self.cmp(other))
    }
}

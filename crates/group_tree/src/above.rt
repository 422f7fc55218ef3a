//! Computes the path of a group's parent from the path of the group, without looking up a group in
//! the tree.
ghost use Rattle.std.specs.Prelude.{◌≡◌};
ghost use Rattle.psi_spec.specs.World.{or_root, parent_path};

use psi_base::Path;

fn or_root(bytes: &[u8]) -> &[u8]
    ensures { result.now ≡ or_root bytes.now }
{
    if bytes.is_empty() {
        b"/".as_slice()
    } else {
        bytes
    }
}

// Returns the bytes of `path` before its last slash, or the root's path if no bytes precede that
// slash.
#[tactic(auto, using(crate::proofs::Slashes::slashes))]
fn parent_bytes(path: &[u8]) -> &[u8]
    ensures { result.now ≡ parent_path path.now }
{
    let mut end = path.len();
    'back: while end > 0 {
        end -= 1;
        if path[end] == b'/' {
            return or_root(&path[..end]);
        }
    }
    b"/".as_slice()
}

/// Returns the path of the parent of the group with this path. The root's path is its own parent
/// path.
#[tactic(auto, using(crate::proofs::Slashes::texts))]
pub(crate) fn path_above(path: &Path) -> &str
    ensures { result.now ≡ parent_path path.now }
{
    match str::from_utf8(parent_bytes(path.text().as_bytes())) {
        Ok(text) => text,
        Err(_) => unreachable!(),
    }
}

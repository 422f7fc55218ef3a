//! Converts the file names of a command, which are bytes, to strings.
//!
//! A shelf, the trait for access to files, takes names as strings.
ghost use Rattle.std.specs.Prelude.{◌≡◌, IsUtf8};

use psi_base::Text;

/// Returns a file name as a string. Precondition: the name is valid UTF-8.
pub fn name_of(text: &Text) -> &str
    requires { IsUtf8 text.now }
    ensures { result.now ≡ text.now }
{
    match str::from_utf8(text.bytes()) {
        Ok(name) => name,
        Err(_) => unreachable!(),
    }
}

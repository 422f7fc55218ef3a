//! Returns the command-line arguments without the name of the program. The programs parse the
//! arguments.
ghost use Rattle.std.specs.Prelude.{◌≡◌, ◌≢◌, [], IfErr, IfOk, IsErr, IsOk, drop};
ghost use Rattle.std.specs.IoError.{error_kind};
ghost use Rattle.std.specs.Vec.Iter.{into_iter_items};

use psi_base::NoMemory;
use std::alloc::{AllocError, Global};
use std::env::Args;
use std::io;
use std::io::ErrorKind;

// Collects all command-line arguments except the first, which is the name of the program.
fn after_the_name(alloc: Global, words: Args) -> Result<Vec<String>, AllocError>
    ensures { IfOk result (λ kept. kept.items ≡ drop 1 (into_iter_items words)) }
{
    words.skip(1).collect(alloc)
}

/// Returns the command-line arguments without the name of the program. If an argument isn't UTF-8,
/// the result is empty, which isn't a valid command.
pub fn words_of(alloc: Global, arguments: io::Result<Args>) -> Result<Vec<String>, NoMemory>
    ensures words { IfOk arguments
        (λ args. IfOk result (λ words. words.items ≡ drop 1 (into_iter_items args))) }
    ensures none { IfErr arguments (λ error. IfOk result (λ words. words.items ≡ [])) }
    ensures memory { IfErr arguments (λ error.
        error_kind error ≡ ErrorKind.OutOfMemory → IsErr result) }
    ensures other { IfErr arguments (λ error. error_kind error ≢ ErrorKind.OutOfMemory →
        IsOk result) }
{
    match arguments {
        Ok(words) => Ok(after_the_name(alloc, words)?),
        Err(error) if error.kind() == ErrorKind::OutOfMemory => Err(AllocError.into()),
        Err(_) => Ok(Vec::new(alloc)),
    }
}

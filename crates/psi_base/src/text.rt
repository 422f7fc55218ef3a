//! A type for texts of arbitrary bytes, and the out-of-memory error.
ghost use Rattle.std.specs.Prelude.{◌≡◌, ℕ, List, IfOk};

use std::alloc::{AllocError, AllocFailed, Global};
use std::marker::Model;

/// The out-of-memory error. Its field is private, so only a failed allocation creates it.
#[derive(Clone, Copy, Debug, PartialEq, Eq)]
pub struct NoMemory {
    refused: (),
}

impl From<AllocError> for NoMemory {
    fn from(_: AllocError) -> Self {
        NoMemory { refused: () }
    }
}

/// Converts a failed allocation to [`NoMemory`]. Drops the value that could not be stored.
impl<T: Drop> From<AllocFailed<T>> for NoMemory {
    fn from(_failed: AllocFailed<T>) -> Self {
        NoMemory { refused: () }
    }
}

/// A text: arbitrary bytes. In contracts, a text is the list of its bytes.
#[derive(Drop)]
pub struct Text {
    bytes: Vec<u8>,
}

impl Model for Text {
    ghost Value = { List ℕ };

    ghost view = { λ t. t.bytes.items };
}

impl Text {
    /// Creates a text from a copy of the bytes in newly allocated memory.
    pub fn make(alloc: Global, bytes: &[u8]) -> Result<Text, NoMemory>
        ensures { IfOk result (λ t. t ≡ bytes.now) }
    {
        Ok(Text {
            bytes: Vec::from_slice(alloc, bytes)?,
        })
    }

    /// Returns the bytes of the text.
    pub fn bytes(&self) -> &[u8]
        ensures { result.now ≡ self.now }
    {
        &self.bytes
    }
}

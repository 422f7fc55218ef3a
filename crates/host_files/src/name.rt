//! File names that are stored without allocation, in an array that fits the longest name that the
//! system can open.
ghost use Rattle.std.specs.Prelude.{◌≡◌, ◌<◌, ◌↔◌, IsTrue, MatchOption, length};

use std::marker::Model;

/// The length (bytes) of the longest name that the system can open.
const LONGEST: usize = 4095;

/// A file name that isn't too long for the system. It is stored in place, without allocation.
#[derive(Drop)]
pub(crate) struct Name {
    bytes: [u8; LONGEST],
    length: usize,
}

impl Model for Name {
    ghost use Rattle.std.specs.Prelude.{ℕ, List, take, ◌≤◌};

    ghost Value = { List ℕ };

    ghost view = { λ name. take name.length name.bytes };

    ghost invariant = { λ name. name.length ≤ 4095 };
}

impl Name {
    /// Copies a file name. Returns `None` if the name is longer than the system allows.
    pub(crate) fn new(name: &str) -> Option<Name>
        ensures { MatchOption result (4095 < length name.now) (λ kept. kept ≡ name.now) }
    {
        let length = name.len();
        if length > LONGEST {
            return None;
        }
        let mut bytes = [0; LONGEST];
        bytes[..length].copy_from_slice(name.as_bytes());
        Some(Name { bytes, length })
    }

    /// Returns whether this file name equals `name`.
    pub(crate) fn is(&self, name: &str) -> bool
        ensures { IsTrue result ↔ (self.now ≡ name.now) }
    {
        &self.bytes[..self.length] == name.as_bytes()
    }
}

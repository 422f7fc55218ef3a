//! An observer's own list of entries. The observer also adds each entry to the journal that all
//! observers share.
ghost use Rattle.std.specs.Prelude.{◌≡◌, []};

use crate::entry::Entry;
use std::alloc::Global;
use std::marker::Model;

/// An observer's own entries, in the order in which it took them. Contracts see them as a list.
#[derive(Drop)]
pub struct Own<'a> {
    pub(crate) entries: Vec<Entry<'a>>,
}

impl<'a> Model for Own<'a> {
    ghost use Rattle.std.specs.Prelude.{List};
    ghost use Rattle.observer_log.specs.declared.entry.Entry.{Entry};

    ghost Value = { List Entry };

    ghost view = { λ own. own.entries.items };
}

impl<'a> Own<'a> {
    /// Returns an empty list. Does not allocate.
    pub(crate) fn new(alloc: Global) -> Own<'a>
        ensures { result ≡ [] }
    {
        Own {
            entries: Vec::new(alloc),
        }
    }

    /// Returns the entries, in the order in which the observer took them.
    pub fn entries(&self) -> &[Entry<'a>]
        ensures { result.now ≡ self.now }
    {
        &self.entries
    }
}

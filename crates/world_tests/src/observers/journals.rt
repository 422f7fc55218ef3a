//! Helpers for tests of journals: they add entries to a new journal, and return the results or the
//! entries in order.

ghost use Rattle.std.specs.Prelude.{◌≡◌};
ghost use Rattle.observer_log.specs.Entries.{AreBy};

use observer_log::{AddFault, Entry, Journal, Own};
use psi_base::NoMemory;
use std::alloc::Global;
use std::sync::ledger::{Blank, Ledger};

/// The results of adding two entries to a new journal, and the number of entries afterwards.
#[derive(Clone, Copy, Debug)]
pub struct Added {
    pub first: Result<(), AddFault>,
    pub second: Result<(), AddFault>,
    pub entries: usize,
}

/// Adds two entries to a new journal, and returns the results.
pub fn add_both<L: Ledger>(
    alloc: Global,
    blank: Blank,
    first: Entry<'_>,
    second: Entry<'_>,
) -> Added
    requires name { blank.name ≡ L.name }
    requires parts { (blank.parts ≡ L.parts) × (L.parts ≡ 1) }
{
    let (book, mut share) = blank.open::<L>();
    let mut journal = Journal::make(alloc, book);
    Added {
        first: journal.add(first, &mut share),
        second: journal.add(second, &mut share),
        entries: journal.entries().len(),
    }
}

/// Adds the entries `added` to a new journal, and returns the entries of two observers' lists in
/// the journal's order. `first` is the list of observer 0, and `second` is the list of observer 1.
pub fn ordered<'a, L: Ledger>(
    alloc: Global,
    blank: Blank,
    added: &[Entry<'a>],
    first: Own<'a>,
    second: Own<'a>,
) -> Result<Vec<Entry<'a>>, NoMemory>
    requires name { blank.name ≡ L.name }
    requires parts { (blank.parts ≡ L.parts) × (L.parts ≡ 1) }
    requires first { AreBy 0 first }
    requires second { AreBy 1 second }
{
    let (book, mut share) = blank.open::<L>();
    let mut journal = Journal::make(alloc, book);
    'entries: for entry in added {
        // A rejected entry isn't in the journal.
        let _ = journal.add(*entry, &mut share);
    }
    journal.order(&[first, second])
}

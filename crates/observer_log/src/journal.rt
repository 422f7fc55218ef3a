//! The journal: the entries of all observers, in the order in which they were added. The journal
//! has no lock; callers that share it must use one.
ghost use Rattle.std.specs.Prelude.{◌≡◌, ◌↔◌, ◌+◌, ◌<◌, [], ◌∷◌, ◌++◌, ℕ, length, IfErr, IfOk, Err, Ok, None, Some};
ghost use Rattle.observer_log.specs.Entries.{AreOwn, by, counts_of, list_of};
ghost use Rattle.observer_log.specs.Journal.{Agrees, AreInOrder, IsBefore, IsGood, IsNotBefore, joined, last_of};
ghost use Rattle.observer_log.specs.declared.journal.AddFault.TheVariants.{Falls};

use crate::entry::Entry;
use crate::order::{in_order, joined};
use crate::own::Own;
use psi_base::{Cpu, NoMemory};
use std::alloc::Global;
use std::marker::Model;
use std::sync::ledger::{Book, Ledger, Share};

/// The reason why the journal rejected an entry: the last entry of the same observer and processor
/// has a greater number of changes. The field is private, so that only a journal can create this
/// value.
#[derive(Clone, Copy, Debug, PartialEq, Eq)]
pub struct Fall {
    last: u64,
}

impl Fall {
    /// Returns the number of changes in the last entry, which is greater than the number in the
    /// rejected entry.
    pub fn last(self) -> u64
        ensures { result ≡ self.last }
    {
        self.last
    }
}

/// The reason why an entry wasn't added to the journal.
#[derive(Clone, Copy, Debug, PartialEq, Eq)]
pub enum AddFault {
    Falls(Fall),
    NoMemory(NoMemory),
}

impl From<NoMemory> for AddFault {
    fn from(none: NoMemory) -> AddFault {
        AddFault::NoMemory(none)
    }
}

/// The entries of all observers, in the order in which they were added, with a ledger that counts
/// them. For each observer and processor, the numbers of changes in the entries never decrease.
/// Contracts see the list of entries.
#[derive(Drop)]
pub struct Journal<'a, L: Ledger> {
    entries: Vec<Entry<'a>>,
    book: Book<L>,
}

impl<'a, L: Ledger> Model for Journal<'a, L> {
    ghost use Rattle.std.specs.Prelude.{◌≡◌, List, vec_len};
    ghost use Rattle.observer_log.specs.declared.entry.Entry.{Entry};
    ghost use Rattle.observer_log.specs.Journal.{IsGood};

    ghost Value = { List Entry };

    ghost view = { λ journal. journal.entries.items };

    ghost invariant = { λ journal. IsGood journal.entries.items
        × (vec_len journal.entries ≡ journal.book.total) };
}

// Returns the number of changes in the last entry of an observer on a processor, or `None` if there
// is no such entry.
fn last_count(entries: &[Entry<'_>], observer: u32, cpu: Cpu) -> Option<u64>
    ensures { result ≡ last_of (counts_of observer cpu.0 entries.now) }
{
    let mut left = entries.len();
    'back: while left > 0 {
        left -= 1;
        let entry = &entries[left];
        if entry.observer == observer && entry.cpu.0 == cpu.0 {
            return Some(entry.count);
        }
    }
    None
}

// If the last entry of the same observer and processor as `entry` has more changes than `entry`,
// returns its number of changes. If not, returns `None`.
fn greater_last(entries: &[Entry<'_>], entry: &Entry<'_>) -> Option<u64>
    ensures falls { (last : ℕ) →
        (result ≡ Some last) ↔ IsBefore entries.now entry.now last }
    ensures none { result ≡ None → IsNotBefore entries.now entry.now }
{
    let last = last_count(entries, entry.observer, entry.cpu)?;
    if entry.count < last {
        return Some(last);
    }
    None
}

impl<'a, L: Ledger> Journal<'a, L> {
    /// Creates an empty journal. The ledger `book` counts the journal's entries. Does not allocate.
    pub fn make(alloc: Global, book: Book<L>) -> Journal<'a, L>
        requires { book.total ≡ 0 }
        ensures { result ≡ [] }
    {
        Journal {
            entries: Vec::new(alloc),
            book,
        }
    }

    /// Appends an entry, and counts it in the caller's share of the ledger. Fails with `Falls` if
    /// and only if the last entry of the same observer and processor has a greater number of
    /// changes. A failed call changes nothing.
    pub fn add(&mut self, entry: Entry<'a>, share: &mut Share<L>) -> Result<(), AddFault>
        requires { 0 < share.old.parts }
        ensures added { IfOk result (λ _. self.new ≡ self.old ++ entry.entry ∷ []) }
        ensures counted { IfOk result (λ _. share.new.amount ≡ share.old.amount + 1) }
        ensures unchanged { IfErr result (λ _.
            (self.new ≡ self.old) × (share.new.amount ≡ share.old.amount)) }
        ensures parts { share.new.parts ≡ share.old.parts }
        ensures falls { (last : ℕ) →
            (result ≡ Err (Falls (record { last = last }))) ↔ IsBefore self.old entry.entry last }
    {
        match greater_last(&self.entries, &entry) {
            Some(last) => Err(AddFault::Falls(Fall { last })),
            None => match self.entries.push(entry) {
                Ok(()) => {
                    self.book.add(share, 1);
                    Ok(())
                }
                Err(failed) => Err(AddFault::NoMemory(failed.into())),
            },
        }
    }

    /// Returns the entries, in the order in which they were added. For each observer and processor
    /// the numbers of changes never decrease.
    pub fn entries(&self) -> &[Entry<'a>]
        ensures entries { result.now ≡ self.now }
        ensures good { IsGood self.now }
    {
        &self.entries
    }

    /// Merges the entries of the observers' own lists into the journal's order. If the journal
    /// doesn't agree with the lists, the result is one list after another. `own` has the list of
    /// observer `i` at index `i`.
    pub fn order(&self, own: &[Own<'a>]) -> Result<Vec<Entry<'a>>, NoMemory>
        requires { AreOwn own.now }
        ensures agrees { Agrees self.now own.now →
            IfOk result (λ entries. AreInOrder self.now own.now entries.items) }
        ensures otherwise { (Agrees self.now own.now → ⊥) →
            IfOk result (λ entries. entries.items ≡ joined own.now) }
        ensures own { IfOk result (λ entries. (observer : ℕ) →
            by observer entries.items ≡ list_of own.now observer) }
    {
        let alloc = *self.entries.allocator();
        match in_order(alloc, &self.entries, own)? {
            Some(entries) => Ok(entries),
            None => joined(alloc, own),
        }
    }

    /// Proves that the journal has as many entries as were counted in all shares of the ledger
    /// together. Requires that all shares were merged into `all`. Changes nothing.
    pub fn audit(&mut self, all: &mut Share<L>)
        requires { all.old.parts ≡ L.parts }
        ensures same { self.new ≡ self.old }
        ensures parts { all.new.parts ≡ all.old.parts }
        ensures amount { all.new.amount ≡ all.old.amount }
        ensures many { length self.old ≡ all.old.amount }
    {
        self.book.audit(all);
    }
}

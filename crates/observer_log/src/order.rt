//! Merges the entries of the observers' own lists into the order of the journal. The result has the
//! entries of the lists and not the journal's, because the comparison with the journal ignores the
//! plans.
ghost use Rattle.std.specs.Prelude.{◌≡◌, ◌↔◌, ℕ, true, IfOk, None, Ok, Some};
ghost use Rattle.observer_log.specs.Entries.{AreOwn, by, list_of, entry_content};
ghost use Rattle.observer_log.specs.Journal.{Agrees, AreInOrder, joined};

use crate::entry::Entry;
use crate::own::Own;
use psi_base::NoMemory;
use std::alloc::Global;

// Returns whether two entries are equal, apart from their plans.
fn say_same(one: &Entry<'_>, other: &Entry<'_>) -> bool
    ensures { (result ≡ true) ↔ (entry_content one.now ≡ entry_content other.now) }
{
    one.observer == other.observer
        && one.cpu.0 == other.cpu.0
        && one.slot.0 == other.slot.0
        && one.count == other.count
        && one.at == other.at
        && one.seven == other.seven
}

/// Returns the entries of the lists in the order of the journal, or `None` if the journal doesn't
/// agree with the lists.
pub(crate) fn in_order<'a>(
    alloc: Global,
    journal: &[Entry<'_>],
    own: &[Own<'a>],
) -> Result<Option<Vec<Entry<'a>>>, NoMemory>
    requires { AreOwn own.now }
    ensures some { (entries : _) → result ≡ Ok (Some entries) →
        AreInOrder journal.now own.now entries.items }
    ensures none { result ≡ Ok None → Agrees journal.now own.now → ⊥ }
{
    let mut places = vec![in alloc; 0usize; own.len()]?;
    let mut taken = Vec::new(alloc);
    'entries: for entry in journal {
        let observer = entry.observer as usize;
        if observer >= own.len() {
            return Ok(None);
        }
        let list = own[observer].entries();
        let place = places[observer];
        if place >= list.len() {
            return Ok(None);
        }
        let next = list[place];
        if !say_same(entry, &next) {
            return Ok(None);
        }
        taken.push(next)?;
        places[observer] = place + 1;
    }
    'lists: for observer in 0..own.len() {
        if places[observer] != own[observer].entries().len() {
            return Ok(None);
        }
    }
    Ok(Some(taken))
}

/// Returns the entries of all lists, one list after another.
pub(crate) fn joined<'a>(alloc: Global, own: &[Own<'a>]) -> Result<Vec<Entry<'a>>, NoMemory>
    requires { AreOwn own.now }
    ensures joined { IfOk result (λ entries. entries.items ≡ joined own.now) }
    ensures own { IfOk result (λ entries. (observer : ℕ) →
        by observer entries.items ≡ list_of own.now observer) }
{
    let mut entries = Vec::new(alloc);
    'lists: for list in own {
        entries.extend_from_slice(list.entries())?;
    }
    Ok(entries)
}

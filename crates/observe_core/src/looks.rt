//! Takes a sample on each processor for one observer, in the order of processors. Each sample is
//! added to the journal before the next sample is taken.
ghost use Rattle.std.specs.Prelude.{◌≡◌, ◌+◌, ◌<◌, None, length, IfOk};
ghost use Rattle.observe_core.specs.Observing.{CanLook, HaveLooked};

use clock_row::Sample;
use observer_log::{AddFault, Entry, Fall, Journal, Watcher};
use outside::Gate;
use psi_base::{Cpu, NoMemory, Slot};
use std::sync::ledger::{Ledger, Share};
use std::sync::{Mutex, Wait};

// Adds an entry to the journal. Returns the reason if the journal rejects the entry, and `None` if
// the entry was added. Fails with `NoMemory` if memory runs out.
fn enter<'a, L: Ledger, R: Wait>(
    rt: &R,
    journal: &Mutex<Journal<'a, L>>,
    entry: Entry<'a>,
    share: &mut Share<L>,
) -> Result<Option<Fall>, NoMemory>
    requires { 0 < share.old.parts }
    ensures counted { IfOk result (λ fell. fell ≡ None →
        share.new.amount ≡ share.old.amount + 1) }
    ensures parts { share.new.parts ≡ share.old.parts }
{
    match journal.lock(rt).add(entry, share) {
        Ok(()) => Ok(None),
        Err(AddFault::Falls(fall)) => Ok(Some(fall)),
        Err(AddFault::NoMemory(none)) => Err(none),
    }
}

/// Samples `slot` once on each processor, and adds each sample to the journal. A sample includes at
/// least the changes of the processor's last sample in `lasts`. Returns the journal's last
/// rejection of an entry, or `None` if the journal accepted all entries. Fails with `NoMemory` if
/// memory runs out. Calls the gate (a hook for tests) before and after each sample.
pub(crate) fn look_at_all<'a, L: Ledger, R: Wait, G: Gate>(
    rt: &R,
    journal: &Mutex<Journal<'a, L>>,
    watcher: &mut Watcher<'a>,
    share: &mut Share<L>,
    lasts: &[Sample],
    slot: Slot,
    gate: &G,
) -> Result<Option<Fall>, NoMemory>
    requires can { CanLook slot.0 lasts.now watcher.old }
    requires backed { 0 < share.old.parts }
    ensures looked { IfOk result (λ _.
        HaveLooked slot.0 lasts.now (length lasts.now) watcher.old watcher.new) }
    ensures counted { IfOk result (λ fell. fell ≡ None →
        share.new.amount ≡ share.old.amount + length lasts.now) }
    ensures parts { share.new.parts ≡ share.old.parts }
{
    let mut fell = None;
    'cpus: for place in 0..lasts.len() {
        let cpu = Cpu(place as u32);
        watcher.look(cpu, slot, &lasts[place], gate)?;
        let entries = watcher.own().entries();
        let entry = entries[entries.len() - 1];
        fell = enter(rt, journal, entry, share)?.or(fell);
        gate.sampled(cpu, entry.count);
    }
    Ok(fell)
}

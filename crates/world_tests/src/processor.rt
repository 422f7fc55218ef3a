//! A simulated processor for the tests: tasks in groups, and the clocks of the groups. The counts
//! of the clocks always match the tasks.

ghost use Rattle.std.specs.Prelude.{length, IsTrue};
ghost use Rattle.std.proofs.Props.{props};
ghost use Rattle.psi_spec.specs.LegalGroups.{AreOlder};
ghost use Rattle.slot_clocks.specs.Clocks.{parent_numbers};
ghost use Rattle.world_tests.specs.Processor.{IsProcessor, IsSlot, IsTask};

use cpu_clock::Clock;
use psi_base::{Ns, Slot};
use psi_counts::{Change, Counts};
use slot_clocks::{PackedChange, SlotClocks};
use std::alloc::Global;
use std::test::Fail;
use test_support::LAST_MOMENT;

/// A processor with tasks in groups. `tasks` has the group and the counts of each task, or `None`
/// for a task that isn't live.
#[derive(Drop)]
pub struct Processor {
    parents: Vec<Option<Slot>>,
    tasks: Vec<Option<(Slot, Counts)>>,
    clocks: SlotClocks,
    last: Ns,
    ghost kept: { IsProcessor (parent_numbers parents.items)
        (length parents.items) tasks.items clocks last } by { Prim.hlevel props },
}

// Returns whether each parent has a smaller slot than its child.
fn are_older(parents: &[Option<Slot>]) -> bool
    ensures { IsTrue result → AreOlder (parent_numbers parents.now) }
{
    'slots: for (slot, parent) in parents.iter().enumerate() {
        if let Some(parent) = parent {
            if parent.0 as usize >= slot {
                return false;
            }
        }
    }
    true
}

// Returns whether the task isn't live, or its group is one of the first `groups` groups and each of
// its counts is at most 1.
fn is_task(task: Option<(Slot, Counts)>, groups: usize) -> bool
    ensures { IsTrue result → IsTask groups task }
{
    match task {
        Some((slot, counts)) => {
            (slot.0 as usize) < groups
                && counts.io <= 1
                && counts.stalled <= 1
                && counts.running <= 1
                && counts.stalled_running <= 1
        }
        None => true,
    }
}

// Returns whether no task runs, or the group of the running task is one of the first `groups`
// groups.
fn is_slot(current: Option<(Slot, bool)>, groups: usize) -> bool
    ensures { IsTrue result → IsSlot groups current }
{
    match current {
        Some((slot, _)) => (slot.0 as usize) < groups,
        None => true,
    }
}

impl Processor {
    /// Creates a processor with `tasks` tasks, none of them live, and groups with these parents.
    /// Fails if there are more than 1,000 tasks or 1,024 groups, if a parent's slot isn't smaller
    /// than the slot of its child, or if memory runs out.
    pub fn new(alloc: Global, parents: Vec<Option<Slot>>, tasks: usize) -> Result<Processor, Fail> {
        if tasks > 1000 || parents.len() > 1024 || !are_older(&parents) {
            return Err(Fail::new("there are too many tasks or groups, or a parent comes late"));
        }
        let Ok(slots) = u32::try_from(parents.len()) else {
            return Err(Fail::new("there are too many groups"));
        };
        let mut none = Vec::new(alloc);
        none.resize(tasks, None)?;
        let clocks = SlotClocks::make(alloc, slots)?;
        Ok(Processor {
            parents,
            tasks: none,
            clocks,
            last: 0,
        })
    }

    /// Makes a change at time `at` (ns): sets the group and the counts of one task, and the running
    /// task. Returns false, without a change, if the task or a group doesn't exist, if a count is
    /// above 1, or if `at` is before the last change or beyond the limit of clocks.
    pub fn change(
        &mut self,
        at: Ns,
        task: usize,
        now: Option<(Slot, Counts)>,
        current: Option<(Slot, bool)>,
    ) -> bool {
        let groups = self.parents.len();
        let in_time = self.last <= at && at <= LAST_MOMENT;
        if task >= self.tasks.len()
            || !in_time
            || !is_task(now, groups)
            || !is_slot(current, groups)
        {
            return false;
        }
        let change = Change {
            at,
            minus: self.tasks[task],
            plus: now,
            current,
            irq: 0,
            account: None,
        };
        self.clocks.apply(&self.parents, &PackedChange::new(change));
        self.tasks[task] = now;
        self.last = at;
        true
    }

    /// Returns the time (ns) that a group was in each state up to `at` (ns), or `None` if `at` is
    /// before the last change or beyond the limit of clocks.
    pub fn opened(&self, slot: Slot, at: Ns) -> Option<[u64; 7]> {
        if at < self.last || at > LAST_MOMENT {
            return None;
        }
        Some(self.clocks.clock(slot).opened(at))
    }

    /// Returns the clock of a group.
    pub fn clock(&self, slot: Slot) -> Clock {
        self.clocks.clock(slot)
    }
}

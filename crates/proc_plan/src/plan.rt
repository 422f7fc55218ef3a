//! The plan of one processor: the list of the processor's changes in a trace. Changes are looked up
//! by number or by time.

ghost use Rattle.std.specs.Prelude.{◌≡◌, ◌+◌, ◌-◌, ◌<◌, ◌≤◌, ◌↔◌, length, nat_le, slice_get, slice_index_or, None, Some};
ghost use Rattle.psi_counts.specs.Touch.{IsOfOne};
ghost use Rattle.psi_spec.specs.Stall.{number_of_slot};
ghost use Rattle.plan_laws.specs.Plan.{IsPlan, changes_up_to, current_after, last_change};
ghost use Rattle.slot_clocks.specs.Clocks.{parent_numbers};
ghost use Rattle.slot_clocks.specs.Walk.{slot_in};
ghost use Rattle.proc_plan.specs.Plans.{AreConcerned, OthersAreAside, plan_view};

use crate::changes::Changes;
use psi_base::{Ns, Slot};
use psi_counts::{Change, Counts};
use slot_clocks::PackedChange;
use std::marker::Model;

/// The changes of one processor in a trace, and the parent of each slot. A change also affects the
/// ancestors of its slots, which are found through the parents. In contracts both are lists.
///
/// There are at most 4,000,000 changes. Their times never decrease and are at most 60,000,000 s.
/// Each change subtracts the counts of at most one task and adds the counts of at most one task.
/// All slots in a change exist. A parent has a smaller slot than its child. After any number of the
/// changes, each count of each slot is from 0 to 65,536, and the total interrupt time is at most
/// the time of the last change.
#[derive(Drop)]
pub struct Plan {
    changes: Changes,
    /// The parent of each slot, or `None` for the root.
    parents: Vec<Option<Slot>>,
}

impl Model for Plan {
    ghost use Rattle.plan_laws.specs.Plan.{IsPlan, PlanView};
    ghost use Rattle.proc_plan.specs.Plans.{plan_view};

    ghost Value = { PlanView };

    ghost view = { λ plan. plan_view plan.changes.list plan.parents.items };

    ghost invariant = { λ plan. IsPlan (plan_view plan.changes.list plan.parents.items) };
}

fn part_slot(part: Option<(Slot, Counts)>) -> Option<Slot>
    ensures { result ≡ slot_in part }
{
    part.map(|(slot, _)| slot)
}

/// Returns the slot in a pair, or `None` if there is no pair. The pair describes either the running
/// task or a group whose accounting is turned on or off.
pub(crate) fn current_slot(current: Option<(Slot, bool)>) -> Option<Slot>
    ensures { result ≡ slot_in current }
{
    current.map(|(slot, _)| slot)
}

impl Plan {
    /// Creates the plan with these changes and parents. Precondition: the changes and the parents
    /// satisfy the invariant of plans (`IsPlan`).
    pub(crate) fn new(changes: Changes, parents: Vec<Option<Slot>>) -> Plan
        requires { IsPlan (plan_view changes.list parents.items) }
        ensures { result ≡ plan_view changes.list parents.items }
    {
        Plan { changes, parents }
    }

    /// Returns the number of changes in the plan.
    pub fn len(&self) -> u64
        ensures len { result ≡ length self.now.changes }
        ensures whole { IsPlan self.now }
    {
        self.changes.all().len() as u64
    }

    /// Returns change `k`, numbered from 1. A change subtracts the counts of at most one task and
    /// adds the counts of at most one task. A change that turns accounting on or off has no counts.
    pub fn change(&self, k: u64) -> Change
        requires from { 1 ≤ k }
        requires to { k ≤ length self.now.changes }
        ensures change { slice_get self.now.changes (k - 1) ≡ Some result }
        ensures one { IsOfOne result }
    {
        self.packed(k).change()
    }

    /// Returns change `k`, numbered from 1, as it is packed into 16 bytes.
    #[inline(always)]
    pub(crate) fn packed(&self, k: u64) -> &PackedChange
        requires from { 1 ≤ k }
        requires to { k ≤ length self.now.changes }
        ensures change { slice_get self.now.changes (k - 1) ≡ Some result.now }
        ensures one { IsOfOne result.now }
    {
        &self.changes.all()[k as usize - 1]
    }

    /// Returns the time (ns) of change `k`, numbered from 1.
    pub fn moment(&self, k: u64) -> Ns
        requires from { 1 ≤ k }
        requires to { k ≤ length self.now.changes }
        ensures { result ≡ last_change self.now k }
    {
        self.packed(k).at()
    }

    /// Returns the slots that change `k` (numbered from 1) affects directly. These are the slots of
    /// the subtracted counts, of the added counts, and of the tasks that run before and after the
    /// change. If the change turns a group's accounting on or off, it subtracts no counts, and the
    /// group's slot is returned instead. The change also affects the ancestors of these slots, but
    /// no other slot.
    pub fn concerned(&self, k: u64) -> [Option<Slot>; 4]
        requires from { 1 ≤ k }
        requires to { k ≤ length self.now.changes }
        ensures slots { AreConcerned self.now (k - 1) result }
        ensures aside { OthersAreAside self.now (k - 1) result }
    {
        let change = self.packed(k);
        [
            current_slot(change.account()).or(part_slot(change.minus())),
            part_slot(change.plus()),
            current_slot(self.current_before(k)),
            current_slot(change.current()),
        ]
    }

    // Returns the slot of the task that runs before change `k` (numbered from 1), and whether the
    // task is in a memory stall. Returns `None` if no task runs.
    fn current_before(&self, k: u64) -> Option<(Slot, bool)>
        requires from { 1 ≤ k }
        requires to { k ≤ length self.now.changes }
        ensures { result ≡ current_after self.now (k - 1) }
    {
        if k == 1 {
            return None;
        }
        self.packed(k - 1).current()
    }

    /// Returns the number of changes at or before the time `at` (ns), found by binary search.
    pub fn until(&self, at: Ns) -> u64
        ensures until { result ≡ changes_up_to self.now at }
        ensures within { result ≤ length self.now.changes }
        ensures past { last_change self.now result ≤ at }
        ensures next { result < length self.now.changes → at < last_change self.now (result + 1) }
    {
        self.changes.all().partition_point(
            |change: &PackedChange| -> bool
                ensures { result ≡ nat_le change.now.at at }
            { change.at() <= at },
        ) as u64
    }

    /// Returns the parent of a slot, or `None` for the root.
    pub fn parent(&self, slot: Slot) -> Option<Slot>
        requires made { slot.0 < length self.now.parents }
        ensures parent { number_of_slot result ≡ slice_index_or self.now.parents slot.0 None }
        ensures root { (result ≡ None) ↔ (slot.0 ≡ 0) }
    {
        self.parents[slot.0 as usize]
    }

    /// Returns the parent of each slot.
    pub(crate) fn parents(&self) -> &[Option<Slot>]
        ensures parents { parent_numbers result.now ≡ self.now.parents }
        ensures whole { IsPlan self.now }
    {
        &self.parents
    }
}

//! The state of one group, and the function that updates all groups at a tick.
//!
//! The crate `aggregate` computes the times that are added to a group's totals in an interval.

ghost use Rattle.std.specs.Prelude.{◌≡◌, ℕ, ◌≤◌, ◌<◌, ◌&&◌, length, nat_le, not};
ghost use Rattle.aggregate.specs.Table.{HaveSameSizes};
ghost use Rattle.pressure_spec.specs.Samples.{row_at};
ghost use Rattle.pressure_spec.specs.Share.{plus};
ghost use Rattle.pressure_spec.specs.Within.{AreAmountsWithin, most_irq_total};
ghost use Rattle.pressure_spec.specs.NextTick.{IsNextTick};
ghost use Rattle.psi_spec.specs.Groups.{is_gone_by, is_live_at};
ghost use Rattle.psi_spec.specs.Within.{last_moment};
ghost use Rattle.psi_spec.specs.World.{most_groups};
ghost use Rattle.tick_engine.specs.Step.{AreGroupsWithin, AreStepped, AreTotalsWithin, group_step, is_live_group, sampled, unsampled_group};
ghost use Rattle.tick_engine.specs.Tables.{tick_at};

use crate::last::LastTick;
use aggregate::{Rows, Totals, share_since};
use fixed_average::Averages;
use pressure_spec::Amounts;
use psi_base::{Ns, Slot};
use psi_spec::GroupLife;

/// Returns whether a group that is created at time `made` and removed at time `gone` exists at time
/// `at` (all in ns). `gone` is `None` if the group is never removed.
fn is_live(made: Ns, gone: Option<Ns>, at: Ns) -> bool
    ensures { result ≡ nat_le made at && not (is_gone_by gone at) }
{
    let is_gone = match gone {
        Some(gone) => gone <= at,
        None => false,
    };
    made <= at && !is_gone
}

/// Returns whether the group is live at time `at` (ns): it was created at or before `at`, and not
/// removed at or before `at`.
pub fn is_live_at(life: &GroupLife, at: Ns) -> bool
    ensures { result ≡ is_live_at life.now at }
{
    is_live(life.made, life.gone, at)
}

/// A group: the times (ns) of its creation and removal, its totals, and its averages.
#[derive(Drop)]
pub(crate) struct Group {
    pub(crate) made: Ns,
    pub(crate) gone: Option<Ns>,
    pub(crate) totals: Totals,
    pub(crate) averages: Averages,
}

impl Group {
    /// Returns the state of a group before its first sample.
    pub(crate) fn of(life: &GroupLife) -> Group
        requires { life.now.made ≤ last_moment }
        ensures { result ≡ unsampled_group life.now }
    {
        Group {
            made: life.made,
            gone: life.gone,
            totals: Totals::zero(),
            averages: Averages::new(life.made),
        }
    }

    /// Returns whether the group is live at time `at` (ns).
    pub(crate) fn is_live(&self, at: Ns) -> bool
        ensures { result ≡ is_live_group self.now at }
    {
        is_live(self.made, self.gone, at)
    }

    /// Adds the shares (ns) of an interval to the totals, and updates the averages. The interval
    /// ends at time `now` (ns).
    fn sample(&mut self, now: Ns, shares: Amounts)
        requires early { now ≤ last_moment }
        requires fits { AreAmountsWithin last_moment most_irq_total (plus self.old.totals shares) }
        ensures { self.new ≡ sampled self.old now shares }
    {
        self.totals.add(shares);
        self.averages.update(now, self.totals.get());
    }

    /// Samples the group at the tick at time `now` (ns) if the group is live. The sample is
    /// computed from the increase of the group's times since the last tick. If the group isn't
    /// live, its state doesn't change.
    fn tick(&mut self, slot: Slot, last: &LastTick, now: Ns, rows: &Rows)
        requires few { length (row_at (tick_at now rows.now) slot.0) ≤ 64 }
        requires each { length (row_at last.now slot.0)
            ≡ length (row_at (tick_at now rows.now) slot.0) }
        requires last_slot { slot.0 < length last.now.table }
        requires slot { slot.0 < length rows.now }
        requires next { IsNextTick last.now (tick_at now rows.now) }
        requires totals { AreTotalsWithin last.now slot.0 self.old }
        ensures stepped { self.new ≡ group_step last.now (tick_at now rows.now) slot.0 self.old }
        ensures totals { AreTotalsWithin (tick_at now rows.now) slot.0 self.new }
    {
        if !self.is_live(now) {
            return;
        }
        let shares = share_since(rows.row(slot), last.rows.row(slot));
        self.sample(now, shares);
    }
}

/// Samples all live groups at the tick at time `now` (ns). Afterwards `last` has the times of this
/// tick. Each group is sampled before its times in `last` are overwritten.
pub(crate) fn tick_all(groups: &mut [Group], last: &mut LastTick, now: Ns, rows: &Rows)
    requires few { (slot : ℕ) → length (row_at (tick_at now rows.now) slot) ≤ 64 }
    requires slots { length groups.old ≤ most_groups }
    requires rows { length rows.now ≡ length groups.old }
    requires sizes { HaveSameSizes last.old.table rows.now }
    requires next { IsNextTick last.old (tick_at now rows.now) }
    requires totals { AreGroupsWithin last.old groups.old }
    ensures last { last.new ≡ tick_at now rows.now }
    ensures stepped { AreStepped last.old (tick_at now rows.now) groups.old groups.new }
    ensures totals { AreGroupsWithin (tick_at now rows.now) groups.new }
{
    'groups: for (slot, group) in groups.iter_mut().enumerate() {
        let slot = Slot(slot as u32);
        group.tick(slot, last, now, rows);
        last.rows.set_row(slot, rows.row(slot));
    }
    last.at = now;
}

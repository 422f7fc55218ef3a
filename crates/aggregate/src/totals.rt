//! The totals of a group: the sums of its shares of the pressure quantities over all intervals
//! since its creation.
//!
//! The module `weighted` computes the shares.
ghost use Rattle.std.specs.Prelude.{◌≡◌};
ghost use Rattle.psi_spec.specs.Within.{last_moment};
ghost use Rattle.pressure_spec.specs.Share as model;
ghost use Rattle.pressure_spec.specs.Within.{AreAmountsWithin, most_irq_total};

use pressure_spec::{Amounts, QUANTITIES};
use std::marker::Model;

/// The time (ns) that a group has spent in each state except nonidle since its creation, and the
/// time that interrupts took from it. Each total is the sum of the group's shares over all
/// intervals.
#[derive(Drop)]
pub struct Totals {
    sums: Amounts,
}

impl Model for Totals {
    ghost use Rattle.std.specs.Prelude.{List, ℕ};

    ghost Value = { List ℕ };

    ghost view = { λ t. t.sums };
}

impl Totals {
    /// Returns the totals of a new group, which are all 0.
    pub fn zero() -> Totals
        ensures { result ≡ model.no_totals }
    {
        Totals {
            sums: [0; QUANTITIES],
        }
    }

    /// Adds the group's shares (ns) of an interval to the totals.
    pub fn add(&mut self, shares: Amounts)
        requires { AreAmountsWithin last_moment most_irq_total (model.plus self.old shares) }
        ensures { self.new ≡ model.plus self.old shares }
    {
        add_each(&mut self.sums, &shares);
    }

    /// Returns the totals (ns): one for each state except nonidle, ordered by state, and then the
    /// total of interrupt time.
    pub fn get(&self) -> Amounts
        ensures { result ≡ self.now }
    {
        self.sums
    }
}

fn add_each(sums: &mut Amounts, shares: &Amounts)
    requires { AreAmountsWithin last_moment most_irq_total (model.plus sums.old shares.now) }
    ensures { sums.new ≡ model.plus sums.old shares.now }
{
    'each: for i in 0..QUANTITIES {
        sums[i] += shares[i];
    }
}

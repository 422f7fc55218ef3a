//! Stores the last tick. The increase of a group's times at the next tick is computed from it.
//!
//! Triggers don't use this module: they store their own totals.

use aggregate::Rows;
use psi_base::Ns;
use std::marker::Model;

/// The last tick: its time (ns), and the times (ns) of all groups on all processors up to it.
/// Before the first tick, all values are 0.
#[derive(Drop)]
pub(crate) struct LastTick {
    pub(crate) at: Ns,
    pub(crate) rows: Rows,
}

impl Model for LastTick {
    ghost use Rattle.pressure_spec.specs.Ticks.{Tick};

    ghost Value = { Tick };

    ghost view = { λ last. record { at = last.at; table = last.rows } };
}

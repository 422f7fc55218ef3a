//! A table of the groups that an action's patterns match.
//!
//! The table is computed once, before the first evaluation, and not at each evaluation.
ghost use Rattle.std.specs.Prelude.{◌≡◌, IfOk};
ghost use Rattle.detectors.specs.Tables.{match_table};
ghost use Rattle.kill_spec.specs.Victims.{action_patterns};

use crate::scope::patterns;
use psi_base::NoMemory;
use psi_spec::GroupLife;
use ruleset_json::Action;
use std::alloc::Global;
use std::marker::Model;

/// For each slot, whether the patterns of an action match the path of its group. The table has an
/// entry for every group that the trace ever creates.
#[derive(Drop)]
pub struct MatchTable {
    slots: Vec<bool>,
}

impl Model for MatchTable {
    ghost use Rattle.std.specs.Prelude.{Bool, List};

    ghost Value = { List Bool };

    ghost view = { λ t. t.slots.items };
}

impl MatchTable {
    /// Returns the table of an action for the groups `lives`, all groups of the trace.
    pub fn of(alloc: Global, action: &Action, lives: &[GroupLife]) -> Result<MatchTable, NoMemory>
        ensures { IfOk result (λ table.
            table ≡ match_table lives.now (action_patterns action.now)) }
    {
        let patterns = patterns(action);
        let mut slots = Vec::with_capacity(alloc, lives.len())?;
        'lives: for life in lives {
            slots.push(patterns.matches(&life.path))?;
        }
        Ok(MatchTable { slots })
    }

    /// Returns the entries of the table, indexed by slot.
    pub(crate) fn slots(&self) -> &[bool]
        ensures { result.now ≡ self.now }
    {
        &self.slots
    }
}

//! The scope of a choice: the groups that an action may choose from.
//!
//! The module `choice` makes the choice.
ghost use Rattle.std.specs.Prelude.{◌≡◌, ◌<◌, ◌≤◌, None, Some, filter, length};
ghost use Rattle.kill_spec.specs.Victims.{action_patterns, after_of};
ghost use Rattle.detectors.specs.Inner.{AreAmong, groups_at};
ghost use Rattle.detectors.specs.Tables.{match_table};
ghost use Rattle.psi_spec.specs.World.{most_groups};
ghost use Rattle.kill_spec.specs.LegalReadings.{IsReading};
ghost use Rattle.victim_rank.specs.Scopes.{is_in_view};

use detectors::Reading;
use kill_spec::GroupReading;
use path_match::Patterns;
use psi_base::Slot;
use psi_spec::GroupLife;
use ruleset_json::{Action, After};
use std::marker::Model;

/// The groups that an action chooses from: either the action's candidates (the groups that its
/// patterns match), or the children of one group. Only populated groups are in the scope: groups
/// that have a live task in them or in a descendant.
#[derive(Drop)]
pub(crate) struct Scope<'a> {
    lives: &'a [GroupLife],
    action: &'a Action,
    /// For each slot, whether the action's patterns match its group.
    matched: &'a [bool],
    /// The group whose children are the scope, or `None` if the scope is the action's candidates.
    above: Option<Slot>,
}

impl<'a> Model for Scope<'a> {
    ghost use Rattle.std.specs.Prelude.{◌≡◌};
    ghost use Rattle.detectors.specs.Tables.{match_table};
    ghost use Rattle.kill_spec.specs.Victims.{action_patterns};
    ghost use Rattle.victim_rank.specs.Scopes.{ScopeView};

    ghost Value = { ScopeView };

    ghost view = { λ s. record { lives = s.lives.now; act = s.action.now; above = s.above } };

    ghost invariant = { λ s.
        s.matched.now ≡ match_table s.lives.now (action_patterns s.action.now) };
}

/// Returns the patterns of the action.
pub(crate) fn patterns(action: &Action) -> &Patterns
    ensures { result.now ≡ action_patterns action.now }
{
    match action {
        Action::SizeOrGrowth { cgroup, .. } => cgroup,
        Action::SwapUsage { cgroup, .. } => cgroup,
        Action::Pressure { cgroup, .. } => cgroup,
        Action::PgScan { cgroup, .. } => cgroup,
    }
}

/// Returns the settings of the action that apply after a kill: delay, recursive, always_continue.
pub fn after_of(action: &Action) -> After
    ensures { result ≡ after_of action.now }
{
    match action {
        Action::SizeOrGrowth { after, .. } => *after,
        Action::SwapUsage { after, .. } => *after,
        Action::Pressure { after, .. } => *after,
        Action::PgScan { after, .. } => *after,
    }
}

impl<'a> Scope<'a> {
    /// Returns the scope of the action's candidates. For each slot, `matched` is true if the
    /// action's patterns match its group.
    pub(crate) fn candidates(
        lives: &'a [GroupLife],
        action: &'a Action,
        matched: &'a [bool],
    ) -> Scope<'a>
        requires { matched.now ≡ match_table lives.now (action_patterns action.now) }
        ensures { result ≡ record { lives = lives.now; act = action.now; above = None } }
    {
        Scope {
            lives,
            action,
            matched,
            above: None,
        }
    }

    /// Returns the scope of the children of the group in slot `above`, for the same action.
    pub(crate) fn below(&self, above: Slot) -> Scope<'a>
        ensures { result ≡ record {
          lives = self.now.lives;
          act = self.now.act;
          above = Some above;
        } }
    {
        Scope {
            lives: self.lives,
            action: self.action,
            matched: self.matched,
            above: Some(above),
        }
    }

    /// Returns the action that chooses from this scope.
    pub(crate) fn action(&self) -> &'a Action
        ensures { result.now ≡ self.now.act }
    {
        self.action
    }

    /// Returns all groups that the trace ever creates, indexed by slot.
    pub(crate) fn lives(&self) -> &'a [GroupLife]
        ensures { result.now ≡ self.now.lives }
    {
        self.lives
    }

    /// Returns the places (indexes in the reading) to search for groups of the scope, in ascending
    /// order: the places of the children of the group `above`, or all places if there is no such
    /// group.
    pub(crate) fn places<'r>(&self, reading: &'r Reading) -> &'r [u32]
        requires { reading.now.lives ≡ self.now.lives }
        ensures groups { filter (is_in_view self.now)
            (groups_at reading.now.seen.groups result.now)
            ≡ filter (is_in_view self.now) reading.now.seen.groups }
        ensures within { AreAmong reading.now.seen.groups result.now }
        ensures few { length result.now ≤ most_groups }
        ensures all { length reading.now.seen.groups ≤ most_groups }
        ensures read { IsReading reading.now.lives reading.now.seen }
    {
        // `above` is always the slot of a group. The comparison makes the index safe; if it failed,
        // searching all places would still be correct.
        match self.above {
            Some(above) if (above.0 as usize) < self.lives.len() => reading.below(above),
            _ => reading.places(),
        }
    }

    /// Returns whether a group of the reading is in the scope.
    pub(crate) fn has(&self, group: &GroupReading) -> bool
        requires { group.now.slot.0 < length self.now.lives }
        ensures { result ≡ is_in_view self.now group.now }
    {
        if !group.populated {
            return false;
        }
        let slot = group.slot.0 as usize;
        match self.above {
            Some(above) => self.lives[slot].parent == Some(above),
            None => self.matched[slot],
        }
    }
}

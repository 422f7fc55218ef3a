//! A ruleset with its state. A ruleset *rests* during the delay after a kill that ended its chain
//! of actions: then it runs no actions.
//!
//! The module `chain` runs the actions.
ghost use Rattle.std.specs.Prelude.{◌≡◌, ◌≤◌, ◌+◌, ℕ, [], IfOk, Some, length, nat_lt, vec_capacity, vec_len};
ghost use Rattle.psi_spec.specs.World.{most_groups};
ghost use Rattle.kill_engine.specs.Rulesets.{EachDetector, GroupsRepresent, GroupsTake, HasKills, IsAt, IsStateReady, match_tables};
ghost use Rattle.kill_engine.specs.Rulesets.{IsRulesetAt, IsRulesetReady, IsStanding, RulesetRepresents, RulesetTakes, SomeAnswers};

use crate::chain::take_chain;
use crate::group::GroupState;
use detectors::Reading;
use kill_spec::Kill;
use psi_base::{NoMemory, Ns};
use psi_spec::GroupLife;
use ruleset_json::{Action, ActionList, DetectorGroup, Rule};
use std::alloc::Global;
use std::marker::Model;
use victim_rank::{MatchTable, Past};

/// A ruleset, with its state after the readings evaluated so far.
#[derive(Drop)]
pub(crate) struct RuleState {
    groups: Vec<GroupState>,
    actions: ActionList,
    /// For each action, a table that says which groups the action's patterns match.
    tables: Vec<MatchTable>,
    /// The end (ns) of the delay after the last kill that ended the chain of actions, or 0 if no
    /// kill has ended it. The end may exceed 64 bits.
    rests_until: u128,
}

impl Model for RuleState {
    ghost use Rattle.kill_engine.specs.Rulesets.{RulesetView, ruleset_of};

    ghost Value = { RulesetView };

    ghost view = { λ r. ruleset_of r.groups.items r.actions r.tables.items r.rests_until };
}

/// Returns the groups of detectors with the arguments `specs`, before the first reading.
fn groups_of(
    alloc: Global,
    specs: &[DetectorGroup],
    lives: &[GroupLife],
) -> Result<Vec<GroupState>, NoMemory>
    requires { length lives.now ≤ most_groups }
    ensures { IfOk result (λ groups. GroupsRepresent lives.now [] groups.items specs.now) }
{
    let mut groups = Vec::with_capacity(alloc, specs.len())?;
    'specs: for spec in specs {
        let group = GroupState::of(alloc, spec.detectors.items(), lives)?;
        groups.push(group)?;
    }
    Ok(groups)
}

/// Returns, for each action, the table of the groups that its patterns match. The patterns are
/// matched here once, and not at each evaluation.
fn tables_of(
    alloc: Global,
    actions: &[Action],
    lives: &[GroupLife],
) -> Result<Vec<MatchTable>, NoMemory>
    ensures { IfOk result (λ tables. tables.items ≡ match_tables lives.now actions.now) }
{
    let mut tables = Vec::with_capacity(alloc, actions.len())?;
    'actions: for action in actions {
        let table = MatchTable::of(alloc, action, lives)?;
        tables.push(table)?;
    }
    Ok(tables)
}

/// Passes a reading to every detector of every group, and returns whether at least one group holds.
/// A group that holds doesn't end the loop, because every detector must see every reading.
fn step_groups(groups: &mut [GroupState], reading: &Reading) -> bool
    requires ready { EachDetector (IsStateReady reading.now) groups.old }
    ensures answer { SomeAnswers groups.old reading.now result }
    ensures take { GroupsTake groups.old reading.now groups.new }
    ensures at { EachDetector (IsAt (Some reading.now.seen.at) (length reading.now.lives))
        groups.new }
{
    let mut fires = false;
    'groups: for group in groups.iter_mut() {
        fires |= group.step(reading);
    }
    fires
}

impl RuleState {
    /// Returns the state of a ruleset before the first reading.
    pub(crate) fn of(alloc: Global, rule: Rule, lives: &[GroupLife]) -> Result<RuleState, NoMemory>
        requires { length lives.now ≤ most_groups }
        ensures { IfOk result (λ state. (number : ℕ) →
            RulesetRepresents lives.now [] number state rule) }
    {
        let groups = groups_of(alloc, rule.groups.items(), lives)?;
        let tables = tables_of(alloc, rule.actions.items(), lives)?;
        Ok(RuleState {
            groups,
            actions: rule.actions,
            tables,
            rests_until: 0,
        })
    }

    /// Passes a reading to all detectors, and returns whether the ruleset fires: whether at least
    /// one of its groups holds.
    fn fires(&mut self, reading: &Reading) -> bool
        requires ready { IsRulesetReady reading.now self.old }
        ensures answer { SomeAnswers self.old.groups reading.now result }
        ensures take { GroupsTake self.old.groups reading.now self.new.groups }
        ensures at { IsRulesetAt (Some reading.now.seen.at) (length reading.now.lives) self.new }
        ensures actions { self.new.actions ≡ self.old.actions }
        ensures tables { self.new.tables ≡ self.old.tables }
        ensures rests { self.new.rests_until ≡ self.old.rests_until }
    {
        step_groups(&mut self.groups, reading)
    }

    /// Returns whether the ruleset rests at time `at` (ns): whether its delay after a kill hasn't
    /// ended.
    fn is_resting(&self, at: Ns) -> bool
        ensures { result ≡ nat_lt at self.now.rests_until }
    {
        u128::from(at) < self.rests_until
    }

    /// Evaluates the ruleset at the next reading, and appends its kills to `found`. `number` is the
    /// index of the ruleset. Doesn't allocate.
    pub(crate) fn evaluate(
        &mut self,
        number: u32,
        reading: &Reading,
        past: &Past,
        found: &mut Vec<Kill>,
    )
        requires ready { IsRulesetReady reading.now self.old }
        requires stands { IsStanding reading.now.lives number self.old }
        requires slots { length past.now.sizes ≡ length reading.now.lives }
        requires room { vec_len found.old + 16 ≤ vec_capacity found.old }
        ensures kills { HasKills number self.old reading.now past.now
            found.old.items found.new.items }
        ensures take { RulesetTakes number self.old reading.now past.now self.new }
        ensures at { IsRulesetAt (Some reading.now.seen.at) (length reading.now.lives) self.new }
        ensures few { vec_len found.new ≤ vec_len found.old + 16 }
        ensures room { vec_capacity found.old ≤ vec_capacity found.new }
    {
        let fires = self.fires(reading);
        if !fires || self.is_resting(reading.at()) {
            return;
        }
        let rest = take_chain(
            self.actions.items(),
            &self.tables,
            number,
            reading,
            past,
            found,
        );
        if let Some(until) = rest {
            self.rests_until = until;
        }
    }
}

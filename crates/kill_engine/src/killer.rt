//! The killer: all rulesets of a rules file, with their state.
//!
//! The killer decides which groups to kill. It doesn't kill them.
ghost use Rattle.std.specs.Prelude.{◌≡◌, ◌≤◌, [], IfOk, All, Some, length, vec_capacity};
ghost use Rattle.psi_spec.specs.World.{most_groups};
ghost use Rattle.detectors.specs.Views.{IsAfter};
ghost use Rattle.kill_engine.specs.Killers.{Decides, KillerTakes, RulesetsRepresent, Represents, killer_slots};
ghost use Rattle.kill_engine.specs.Killers.{AllDecide, AreStanding, IsStanding, RulesetsTake};
ghost use Rattle.kill_engine.specs.Rulesets.{IsRulesetAt, IsRulesetReady};

use crate::ruleset::RuleState;
use detectors::Reading;
use kill_spec::Kill;
use psi_base::{NoMemory, Ns};
use psi_spec::GroupLife;
use ruleset_json::{Rule, Rules};
use std::alloc::Global;
use std::marker::Model;
use victim_rank::Past;

/// The greatest number of kills at one evaluation: 64 rulesets with 16 actions each.
const MOST_KILLS: usize = 1024;

/// All rulesets with their state after the readings evaluated so far, and the kills at the last
/// reading.
#[derive(Drop)]
pub struct Killer {
    rulesets: Vec<RuleState>,
    past: Past,
    /// The time of the last reading (ns), or `None` before the first reading.
    last: Option<Ns>,
    /// The kills at the last reading, with capacity for `MOST_KILLS` kills.
    found: Vec<Kill>,
}

impl Model for Killer {
    ghost use Rattle.std.specs.Prelude.{vec_capacity};
    ghost use Rattle.detectors.specs.Views.{IsRoom};
    ghost use Rattle.kill_engine.specs.Killers.{IsKiller, KillerView, killer_of};

    ghost Value = { KillerView };

    ghost view = { λ k. killer_of k.rulesets.items k.past k.last k.found.items };

    ghost invariant = { λ k. IsRoom 1024 (vec_capacity k.found)
        × IsKiller (killer_of k.rulesets.items k.past k.last k.found.items) };
}

/// Returns the state of all rulesets before the first reading, in the order of `rules`.
fn rulesets_of(
    alloc: Global,
    rules: Vec<Rule>,
    lives: &[GroupLife],
) -> Result<Vec<RuleState>, NoMemory>
    requires { length lives.now ≤ most_groups }
    ensures { IfOk result (λ states. RulesetsRepresent lives.now [] 0 states.items rules.items) }
{
    let mut rulesets = Vec::with_capacity(alloc, rules.len())?;
    'rules: for rule in rules {
        let ruleset = RuleState::of(alloc, rule, lives)?;
        rulesets.push(ruleset)?;
    }
    Ok(rulesets)
}

/// Passes a reading to all rulesets in order, and appends their kills to `found` in that order.
fn evaluate_all(rulesets: &mut [RuleState], reading: &Reading, past: &Past, found: &mut Vec<Kill>)
    requires few { length rulesets.old ≤ 64 }
    requires ready { All (IsRulesetReady reading.now) rulesets.old }
    requires represents { AreStanding reading.now.lives rulesets.old }
    requires slots { length past.now.sizes ≡ length reading.now.lives }
    requires empty { found.old.items ≡ [] }
    requires room { MOST_KILLS ≤ vec_capacity found.old }
    ensures kills { AllDecide rulesets.old reading.now past.now found.new.items }
    ensures take { RulesetsTake rulesets.old reading.now past.now rulesets.new }
    ensures at { All (IsRulesetAt (Some reading.now.seen.at) (length reading.now.lives))
        rulesets.new }
    ensures count { length rulesets.new ≡ length rulesets.old }
    ensures room { vec_capacity found.old ≤ vec_capacity found.new }
{
    'rulesets: for (number, ruleset) in rulesets.iter_mut().enumerate() {
        ruleset.evaluate(number as u32, reading, past, found);
    }
}

impl Killer {
    /// Returns a killer with the rules `rules` for the groups `lives`, before the first reading.
    /// Allocates all memory that the killer ever needs.
    pub fn make(alloc: Global, rules: Rules, lives: &[GroupLife]) -> Result<Killer, NoMemory>
        requires { length lives.now ≤ most_groups }
        ensures { IfOk result (λ killer. Represents killer lives.now rules.rules []) }
    {
        Ok(Killer {
            rulesets: rulesets_of(alloc, rules.rules.into_items(), lives)?,
            past: Past::make(alloc, lives.len() as u32)?,
            last: None,
            found: Vec::with_capacity(alloc, MOST_KILLS)?,
        })
    }

    /// Evaluates all rulesets at the next reading. A ruleset that fires runs its actions in order,
    /// unless it is in its delay after a kill. Afterwards [`Killer::kills`] returns the kills.
    /// Doesn't allocate. Precondition: `reading` is later than the previous reading.
    pub fn evaluate(&mut self, reading: &Reading)
        requires later { IsAfter self.old.last reading.now.seen.at }
        requires stands { IsStanding self.old reading.now.lives }
        ensures kills { Decides self.old reading.now self.new.found }
        ensures stands { KillerTakes self.old reading.now self.new }
        ensures last { self.new.last ≡ Some reading.now.seen.at }
        ensures slots { killer_slots self.new ≡ killer_slots self.old }
    {
        self.found.clear();
        evaluate_all(&mut self.rulesets, reading, &self.past, &mut self.found);
        self.past.push(reading);
        self.last = Some(reading.at());
    }

    /// Returns the kills at the last reading, ordered by ruleset and then by action. Empty before
    /// the first reading.
    pub fn kills(&self) -> &[Kill]
        ensures { result.now ≡ self.now.found }
    {
        &self.found
    }
}

//! Decides at each tick of a replay which groups the rules kill.
//!
//! This module prints nothing and kills nothing.
ghost use Rattle.std.specs.Prelude.{◌≡◌, ◌+◌, ◌<◌, ℕ, List, IfOk, None, false};
ghost use Rattle.psi_spec.specs.Trace.{Trace};
ghost use Rattle.pressure_spec.specs.Ticks.{is_evaluation, tick_moment};
ghost use Rattle.ruleset_json.specs.declared.types.Rule.{Rule};
ghost use Rattle.run_spec.specs.Replay.{Timing};
ghost use Rattle.replay_rules.specs.Judged.{HasJudged, IsToBegin, IsToJudge, Rests};
ghost use Rattle.replay_rules.specs.Judged.{rules_of_options, judge_kills};

use crate::evaluator::Evaluator;
use crate::schedule::is_due;
use kill_spec::Kill;
use proc_plan::Plans;
use psi_base::{NoMemory, Ns, Slot};
use ruleset_json::Rules;
use std::alloc::Global;
use std::marker::Model;
use tick_engine::Engine;

/// Decides at each tick of a replay which groups the rules kill. The ticks are taken in order.
/// Contracts refer to all fields.
#[derive(Drop)]
pub struct Judge {
    /// The time between evaluations (ns).
    interval: Ns,
    /// The evaluator of the rules, or `None` for a replay without rules.
    evaluator: Option<Evaluator>,
    /// Whether the rules were evaluated at the last tick.
    evaluated: bool,
}

impl Model for Judge {
    ghost use Rattle.replay_rules.specs.Judged.{JudgeView, judge_of};

    ghost Value = { JudgeView };

    ghost view = { λ j. judge_of j.interval j.evaluator j.evaluated };
}

impl Judge {
    /// Returns a judge with these rules for the trace of `plans`, before the first tick. `interval`
    /// is the time between evaluations (ns). Allocates all memory that the judge ever needs, and
    /// none if there are no rules.
    pub fn make(
        alloc: Global,
        plans: &Plans,
        rules: Option<Rules>,
        interval: Ns,
    ) -> Result<Judge, NoMemory>
        ensures judged { IfOk result (λ judge. (trace : Trace) (timing : Timing) →
            IsToBegin plans.now trace timing interval →
            HasJudged judge trace timing (rules_of_options rules) 0) }
        ensures bare { IfOk result (λ judge. rules ≡ None → judge.evaluator ≡ None) }
    {
        let evaluator = match rules {
            Some(rules) => Some(Evaluator::make(alloc, plans, rules)?),
            None => None,
        };
        Ok(Judge {
            interval,
            evaluator,
            evaluated: false,
        })
    }

    /// Takes the engine's last tick, whose time is `at` (ns). `length` is the length of a tick
    /// (ns), and `order` has all slots, sorted by the paths of their groups. If an evaluation is
    /// due, evaluates the rules for all live groups; [`Judge::kills`] then returns the kills.
    /// Doesn't allocate.
    pub fn tick(&mut self, plans: &Plans, engine: &Engine, order: &[Slot], at: Ns, length: Ns)
        requires { (trace : Trace) × (timing : Timing) × (rules : List Rule) × (i : ℕ) ×
            IsToJudge self.old plans.now engine.now order.now trace timing rules i at length }
        ensures judged { (trace : Trace) (timing : Timing) (rules : List Rule) (i : ℕ) →
            IsToJudge self.old plans.now engine.now order.now trace timing rules i at length →
            HasJudged self.new trace timing rules (i + 1) }
        ensures rests { (number : ℕ) → 0 < number → at ≡ tick_moment length number →
            is_evaluation self.old.interval length number ≡ false → Rests self.old self.new }
    {
        let Some(evaluator) = &mut self.evaluator else {
            return;
        };
        self.evaluated = is_due(self.interval, length, at);
        if self.evaluated {
            evaluator.evaluate(plans, engine, order, at);
        }
    }

    /// Returns the kills at the last tick, ordered by ruleset and then by action. Empty before the
    /// first tick, and if the rules weren't evaluated at the last tick.
    pub fn kills(&self) -> &[Kill]
        ensures { result.now ≡ judge_kills self.now }
    {
        match &self.evaluator {
            Some(evaluator) if self.evaluated => evaluator.kills(),
            _ => &[],
        }
    }
}

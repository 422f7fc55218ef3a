//! One evaluation of the rules: collects the values of all live groups, and passes them to the
//! rules.
//!
//! The module `judge` decides when an evaluation is due.
ghost use Rattle.std.specs.Prelude.{◌≡◌, ◌∷◌, ◌+◌, ◌<◌, [], ℕ, List, IfOk};
ghost use Rattle.psi_spec.specs.Trace.{Trace};
ghost use Rattle.ruleset_json.specs.declared.types.Rule.{Rule};
ghost use Rattle.run_spec.specs.Replay.{Timing};
ghost use Rattle.replay_rules.specs.Planned.{IsPlanned};
ghost use Rattle.replay_rules.specs.Judged.{HasRead, IsToEvaluate, read_at, readings_of};

use crate::seen::fill_reading;
use detectors::Reading;
use kill_engine::Killer;
use kill_spec::Kill;
use proc_plan::Plans;
use psi_base::{NoMemory, Ns, Slot};
use ruleset_json::Rules;
use side_watch::SideWatch;
use std::alloc::Global;
use std::marker::Model;
use tick_engine::Engine;

/// The state that the rules need between evaluations.
#[derive(Drop)]
pub(crate) struct Evaluator {
    killer: Killer,
    watch: SideWatch,
    /// The reading of the current evaluation. Its memory is reused for the next evaluation.
    reading: Reading,
}

impl Model for Evaluator {
    ghost use Rattle.replay_rules.specs.Judged.{EvaluatorView};

    ghost Value = { EvaluatorView };

    ghost view = { λ e. record { killer = e.killer; watch = e.watch; reading = e.reading } };
}

impl Evaluator {
    /// Returns an evaluator of these rules for the trace of `plans`, before the first evaluation.
    /// Allocates all memory that the evaluator ever needs.
    pub(crate) fn make(alloc: Global, plans: &Plans, rules: Rules) -> Result<Evaluator, NoMemory>
        ensures { IfOk result (λ evaluator. (trace : Trace) (timing : Timing) →
            IsPlanned plans.now trace timing → HasRead evaluator trace rules.rules []) }
    {
        let lives = plans.lives();
        Ok(Evaluator {
            killer: Killer::make(alloc, rules, lives)?,
            watch: SideWatch::make(alloc, lives)?,
            reading: Reading::make(alloc, lives)?,
        })
    }

    /// Evaluates the rules at the engine's last tick, whose time is `at` (ns). `order` has all
    /// slots, sorted by the paths of their groups. Doesn't allocate.
    pub(crate) fn evaluate(&mut self, plans: &Plans, engine: &Engine, order: &[Slot], at: Ns)
        requires { (trace : Trace) × (timing : Timing) × (rules : List Rule) × (i : ℕ) ×
            IsToEvaluate self.old plans.now engine.now order.now trace timing rules i at }
        ensures { (trace : Trace) (timing : Timing) (rules : List Rule) (i : ℕ) →
            IsToEvaluate self.old plans.now engine.now order.now trace timing rules i at →
            HasRead self.new trace rules (read_at trace timing (i + 1) ∷ readings_of trace timing i) }
    {
        self.watch.advance(plans.sides(), at);
        fill_reading(&mut self.reading, engine, &self.watch, order, at);
        self.killer.evaluate(&self.reading);
    }

    /// Returns the kills at the last evaluation.
    pub(crate) fn kills(&self) -> &[Kill]
        ensures { result.now ≡ self.now.killer.found }
    {
        self.killer.kills()
    }
}

//! A group of detectors in a ruleset. The group *holds* if all its detectors are true.
//!
//! The crate `detectors` implements the detectors themselves.
ghost use Rattle.std.specs.Prelude.{◌≤◌, [], IfOk, All, Some, length};
ghost use Rattle.psi_spec.specs.World.{most_groups};
ghost use Rattle.kill_engine.specs.Rulesets.{AllAnswer, AllTake, DetectorsRepresent, IsAt, IsStateReady};

use detectors::{Detector, Reading};
use psi_base::NoMemory;
use psi_spec::GroupLife;
use ruleset_json::DetectorSpec;
use std::alloc::Global;
use std::marker::Model;

/// The detectors of a group, with their state. The group holds if all its detectors are true.
#[derive(Drop)]
pub(crate) struct GroupState {
    detectors: Vec<Detector>,
}

impl Model for GroupState {
    ghost use Rattle.std.specs.Prelude.{List};
    ghost use Rattle.detectors.specs.Views.{DetectorView};

    ghost Value = { List DetectorView };

    ghost view = { λ g. g.detectors.items };
}

/// Passes a reading to every detector, and returns whether all are true. A false detector doesn't
/// end the loop, because every detector must see every reading.
fn step_all(detectors: &mut [Detector], reading: &Reading) -> bool
    requires ready { All (IsStateReady reading.now) detectors.old }
    ensures answer { AllAnswer detectors.old reading.now result }
    ensures take { AllTake detectors.old reading.now detectors.new }
    ensures at { All (IsAt (Some reading.now.seen.at) (length reading.now.lives)) detectors.new }
{
    let mut hold = true;
    'detectors: for detector in detectors.iter_mut() {
        hold &= detector.step(reading);
    }
    hold
}

impl GroupState {
    /// Returns a group of detectors with the arguments `specs`, before the first reading.
    pub(crate) fn of(
        alloc: Global,
        specs: &[DetectorSpec],
        lives: &[GroupLife],
    ) -> Result<GroupState, NoMemory>
        requires { length lives.now ≤ most_groups }
        ensures { IfOk result (λ group. DetectorsRepresent lives.now [] group specs.now) }
    {
        let mut detectors = Vec::with_capacity(alloc, specs.len())?;
        'specs: for spec in specs {
            let detector = Detector::new(alloc, spec, lives.len() as u32)?;
            detectors.push(detector)?;
        }
        Ok(GroupState { detectors })
    }

    /// Passes the next reading to every detector, and returns whether the group holds at that
    /// reading. Doesn't allocate.
    pub(crate) fn step(&mut self, reading: &Reading) -> bool
        requires ready { All (IsStateReady reading.now) self.old }
        ensures answer { AllAnswer self.old reading.now result }
        ensures take { AllTake self.old reading.now self.new }
        ensures at { All (IsAt (Some reading.now.seen.at) (length reading.now.lives)) self.new }
    {
        step_all(&mut self.detectors, reading)
    }
}

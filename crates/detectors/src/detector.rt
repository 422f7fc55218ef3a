//! An oomd detector with its state. The detector processes readings one by one, and reports after
//! each reading whether it is true.
//!
//! The module `conditions` evaluates the condition at a single reading.
ghost use Rattle.std.specs.Prelude.{◌≡◌, ◌≤◌, List, [], None, Some, IfOk, length};
ghost use Rattle.psi_spec.specs.declared.machine.GroupLife.{GroupLife};
ghost use Rattle.detectors.specs.Views.{IsAfter, slots_of};
ghost use Rattle.detectors.specs.Tables.{IsTaken, answer_of, begun, scan_slots};
ghost use Rattle.kill_spec.specs.LegalReadings.{IsReading};
ghost use Rattle.detectors.specs.Stands.{Answers, DetectorTakes, Represents};

use crate::conditions::{find_matches, greatest_of, has_condition, has_match, is_swap_short};
use crate::moments::{is_long, is_recent, of_seconds, run_after};
use crate::reading::Reading;
use crate::scans::take_rise;
use psi_base::{NoMemory, Ns};
use ruleset_json::DetectorSpec;
use std::alloc::Global;
use std::marker::Model;

/// An oomd detector, with its state after the readings that it has processed. The readings
/// themselves aren't stored.
#[derive(Drop)]
pub struct Detector {
    spec: DetectorSpec,
    /// The time of the last reading (ns), or `None` before the first reading.
    last: Option<Ns>,
    /// For each slot, whether a pattern matches the path of its group. Computed at the first
    /// reading.
    matched: Vec<bool>,
    /// The time (ns) since which the detector's condition has held without interruption. `None` if
    /// the condition didn't hold at the last reading.
    run: Option<Ns>,
    /// For a detector of rising pressure, the greatest `full` average over 10 s at the last
    /// reading, among the groups that its patterns match. 0 for any other detector.
    greatest: u64,
    /// For each slot, the scan count of its group at the last reading, or `None` if the group
    /// wasn't live then. Empty unless this is a detector of memory reclaim.
    scans: Vec<Option<u64>>,
    /// The time (ns) of the last reading at which the scan count of a matched group was greater
    /// than at the reading before. `None` if there was no such reading.
    increased: Option<Ns>,
}

impl Model for Detector {
    ghost use Rattle.detectors.specs.Views.{DetectorView, detector_with};
    ghost use Rattle.detectors.specs.Stands.{IsDetector};

    ghost Value = { DetectorView };

    ghost view = { λ d. detector_with d.spec d.last d.matched.items
        d.run d.greatest d.scans.items d.increased };

    ghost invariant = { λ d. IsDetector (detector_with d.spec d.last d.matched.items
        d.run d.greatest d.scans.items d.increased) };
}

/// Returns the number of slots for which a detector stores scan counts: all `slots` for a detector
/// of memory reclaim, 0 for any other detector.
fn scan_slots(spec: &DetectorSpec, slots: u32) -> u32
    ensures { result ≡ scan_slots spec.now slots }
{
    match spec {
        DetectorSpec::MemoryReclaim { .. } => slots,
        _ => 0,
    }
}

impl Detector {
    /// Returns a detector with the arguments `spec` for a trace with `slots` groups, before the
    /// first reading. Allocates all memory that the detector ever needs.
    pub fn new(alloc: Global, spec: &DetectorSpec, slots: u32) -> Result<Detector, NoMemory>
        ensures { IfOk result (λ detector. (lives : List GroupLife) → length lives ≡ slots →
            Represents detector lives spec.now []) }
    {
        Ok(Detector {
            spec: spec.copy(alloc)?,
            last: None,
            matched: vec![in alloc; false; slots as usize]?,
            run: None,
            greatest: 0,
            scans: vec![in alloc; None; scan_slots(spec, slots) as usize]?,
            increased: None,
        })
    }

    /// Updates the state for the next reading, and returns whether the detector is true at that
    /// reading. Doesn't allocate. Precondition: `reading` is later than the previous reading.
    pub fn step(&mut self, reading: &Reading) -> bool
        requires later { IsAfter self.old.last reading.now.seen.at }
        requires slots { length reading.now.lives ≡ slots_of self.old }
        ensures answer { Answers self.old reading.now result }
        ensures stands { DetectorTakes self.old reading.now self.new }

        // The next three clauses hold for every state, even for a state that no list of readings
        // can produce.
        ensures last { self.new.last ≡ Some reading.now.seen.at }
        ensures slots { slots_of self.new ≡ slots_of self.old }
        ensures spec { self.new.spec ≡ self.old.spec }
    {
        self.begin(reading);
        let before = self.greatest;
        self.take(reading);
        self.answer(before, reading)
    }

    /// If this is the first reading, computes the table that says which groups the detector's
    /// patterns match.
    fn begin(&mut self, reading: &Reading)
        requires { length reading.now.lives ≡ slots_of self.old }
        ensures { self.new ≡ begun self.old reading.now.lives }
    {
        if self.last.is_none() {
            find_matches(&mut self.matched, &self.spec, reading.lives());
        }
    }

    /// Updates the state for a reading. Precondition: the table of matches has been computed.
    fn take(&mut self, reading: &Reading)
        requires later { IsAfter self.old.last reading.now.seen.at }
        requires slots { length reading.now.lives ≡ slots_of self.old }
        ensures taken { IsTaken self.old reading.now self.new }
        ensures reading { IsReading reading.now.lives reading.now.seen }
    {
        let groups = reading.groups();
        let now = reading.at();
        let holds = has_condition(&self.spec, &self.matched, &reading.host(), groups);
        self.run = run_after(self.run, holds, now);
        self.greatest = greatest_of(&self.spec, &self.matched, groups);
        self.increased = take_rise(
            &self.spec,
            &mut self.scans,
            self.increased,
            &self.matched,
            groups,
            now,
        );
        self.last = Some(now);
    }

    /// Returns whether the detector is true at `reading`. Precondition: the state has been updated
    /// for this reading. `before` is the value of `greatest` before that update.
    fn answer(&self, before: u64, reading: &Reading) -> bool
        requires last { self.now.last ≡ Some reading.now.seen.at }
        requires before { before ≤ 204800 }
        ensures { result ≡ answer_of self.now before reading.now.seen }
    {
        let now = reading.at();
        match &self.spec {
            DetectorSpec::PressureAbove { duration_s, .. } => {
                is_long(self.run, of_seconds(*duration_s), now)
            }
            DetectorSpec::PressureRisingBeyond {
                threshold,
                duration_s,
                ratio,
                ..
            } => {
                is_long(self.run, of_seconds(*duration_s), now)
                    && self.greatest > u64::from(*threshold) * 2048
                    && self.greatest * 1000 >= u64::from(*ratio) * before
            }
            DetectorSpec::MemoryAbove { duration_s, .. } => {
                is_long(self.run, of_seconds(*duration_s), now)
            }
            DetectorSpec::MemoryReclaim { duration_s, .. } => {
                is_recent(self.increased, of_seconds(*duration_s), now)
            }
            DetectorSpec::SwapFree { threshold_pct } => {
                is_swap_short(*threshold_pct, &reading.host())
            }
            DetectorSpec::Exists { negate, .. } => {
                has_match(&self.matched, reading.groups()) != *negate
            }
        }
    }
}

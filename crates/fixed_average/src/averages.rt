//! The pressure averages of one group, and the function that updates them at a tick.
//!
//! The module `fixed_point` implements the arithmetic.
ghost use Rattle.std.specs.Prelude.{◌≡◌, ◌≢◌, ◌≤◌, ◌<◌, ◌+◌, ◌^◌, ℕ, All, [], map, slice_index, slice_index_or};
ghost use Rattle.psi_spec.specs.Within.{last_moment};
ghost use Rattle.pressure_spec.specs.Share.{irq_quantity, zip_with};
ghost use Rattle.psi_spec.specs.Stall.{state_number};
ghost use Rattle.pressure_spec.specs.Average as model;
ghost use Rattle.pressure_spec.specs.Within.{IsRow};
ghost use Rattle.psi_base.specs.declared.event.State.TheVariants as state_of;

use crate::fixed_point::{load, power};
use pressure_spec::{Amounts, AverageRows, QUANTITIES};
use psi_base::{Ns, State};
use std::marker::Model;

/// The length of a period (ns). An update of the averages is due at the first tick at or after the
/// end of a period.
const PERIOD: Ns = 2_000_000_000;

/// The index of interrupt time among the quantities that have averages.
const IRQ: usize = QUANTITIES - 1;

/// The decay factors of the averages over 10, 60 and 300 seconds, in units of 1/2048. A decay
/// factor is the part of an average that remains after a period without pressure.
const FACTORS: [u64; 3] = [1677, 1981, 2034];

/// The averages of a group's pressure over 10, 60 and 300 seconds. There are three averages for
/// each state except nonidle, and three for interrupt time. They correspond to the kernel's `avg`
/// of a `psi_group`. Each average is a fixed-point number of at most 204,800, which is 100 percent.
#[derive(Drop)]
pub struct Averages {
    /// The time of the last update (ns).
    last: Ns,
    /// The time at or after which the next update happens (ns).
    next: Ns,
    /// The part of each total (ns) that the averages already include.
    sampled: Amounts,
    /// The three averages of each quantity, as fixed-point numbers.
    averages: AverageRows,
}

impl Model for Averages {
    ghost use Rattle.pressure_spec.specs.Average.{AverageState};
    ghost use Rattle.pressure_spec.specs.Within.{IsAverageState};

    ghost Value = { AverageState };

    ghost view = { λ a.
        record { last = a.last; next = a.next; sampled = a.sampled; averages = a.averages } };

    ghost invariant = { λ a. IsAverageState
        (record { last = a.last; next = a.next; sampled = a.sampled; averages = a.averages }) };
}

/// Returns the sample (ns) of each total for an update over `time` (ns). A sample is the part of
/// the total that the averages don't include yet, but at most `time`.
fn samples_of(time: Ns, sampled: &Amounts, totals: &Amounts) -> Amounts
    ensures value { result ≡ model.samples_of time sampled.now totals.now }
    ensures fits { (k : ℕ) → k < 7 →
        slice_index sampled.now k + slice_index result k < 2 ^ 64 }
{
    let mut samples = [0u64; QUANTITIES];
    'each: for i in 0..QUANTITIES {
        samples[i] = totals[i].saturating_sub(sampled[i]).min(time);
    }
    samples
}

/// Adds each sample (ns) to the part of its total that the averages include.
fn add_samples(sampled: &mut Amounts, samples: &Amounts)
    requires { (k : ℕ) → k < 7 →
        slice_index sampled.old k + slice_index samples.now k < 2 ^ 64 }
    ensures { sampled.new ≡
        zip_with (λ sampled sample. sampled + sample) sampled.old samples.now }
{
    'each: for i in 0..QUANTITIES {
        sampled[i] += samples[i];
    }
}

/// Returns each decay factor to the power `missed`, the number of missed periods.
fn decays_of(missed: u64) -> [u64; 3]
    ensures { result ≡ map (λ factor. model.power factor missed) model.factors }
{
    [
        power(FACTORS[0], missed),
        power(FACTORS[1], missed),
        power(FACTORS[2], missed),
    ]
}

/// Returns an average after an update. The average first decays over the missed periods, if any,
/// and is then updated with the sample `percent`. `decay` is `factor` to the power `missed`.
#[tactic(auto, using(pressure_spec::proofs::AverageLaws::power_most))]
fn average_after(missed: u64, decay: u64, average: u64, factor: u64, percent: u64) -> u64
    requires decay { decay ≡ model.power factor missed }
    requires average { average ≤ 204800 }
    requires factor { factor ≤ 2048 }
    requires percent { percent ≤ 100 }
    ensures value { result ≡ model.average_after missed percent average factor }
    ensures most { result ≤ 204800 }
{
    let decayed = if missed > 0 {
        load(average, decay, 0)
    } else {
        average
    };
    load(decayed, factor, percent * 2048)
}

/// Returns the three averages of a quantity after an update with the sample `percent`.
fn row_after(missed: u64, decays: &[u64; 3], row: &[u64; 3], percent: u64) -> [u64; 3]
    requires decays { decays.now ≡ map (λ factor. model.power factor missed) model.factors }
    requires row { IsRow row.now }
    requires percent { percent ≤ 100 }
    ensures value { result ≡ zip_with (model.average_after missed percent) row.now model.factors }
    ensures row { IsRow result }
{
    let mut after = [0u64; 3];
    'each: for j in 0..3 {
        after[j] = average_after(missed, decays[j], row[j], FACTORS[j], percent);
    }
    after
}

/// Updates the averages of all quantities. `samples` has one sample (ns) for each quantity, from an
/// interval of `time` ns. `missed` is the number of missed periods.
fn update_rows(rows: &mut AverageRows, missed: u64, time: Ns, samples: &Amounts)
    requires time { 0 < time }
    requires short { time ≤ 4000000000 }
    requires samples { All (λ sample. sample ≤ time) samples.now }
    requires rows { All (λ row. IsRow row) rows.old }
    ensures value { rows.new ≡ zip_with (model.row_after missed time) rows.old samples.now }
    ensures rows { All (λ row. IsRow row) rows.new }
{
    let decays = decays_of(missed);
    'each: for i in 0..QUANTITIES {
        rows[i] = row_after(missed, &decays, &rows[i], samples[i] * 100 / time);
    }
}

impl Averages {
    /// Returns the averages of a group that is created at time `at` (ns). All averages are 0, and
    /// the first update is due two seconds later.
    pub fn new(at: Ns) -> Averages
        requires { at ≤ last_moment }
        ensures { result ≡ model.new_averages at }
    {
        Averages {
            last: at,
            next: at + PERIOD,
            sampled: [0; QUANTITIES],
            averages: [[0; 3]; QUANTITIES],
        }
    }

    /// Updates the averages at the tick at time `now` (ns), if an update is due. This function
    /// corresponds to the kernel's `update_averages`. `totals` has the totals of the group (ns):
    /// one for each state except nonidle, ordered by state, and one for interrupt time.
    ///
    /// Each average first decays over the missed periods. Then it is updated with a sample: the
    /// part of its total that it doesn't include yet, but at most the time since the last update
    /// minus the missed periods. The remaining part is left for the next update.
    pub fn update(&mut self, now: Ns, totals: Amounts)
        requires { now ≤ last_moment }
        ensures { self.new ≡ model.average_step self.old now totals }
    {
        if now < self.next {
            return;
        }
        let missed = (now - self.next) / PERIOD;
        let time = now - (self.last + missed * PERIOD);
        let samples = samples_of(time, &self.sampled, &totals);
        add_samples(&mut self.sampled, &samples);
        update_rows(&mut self.averages, missed, time, &samples);
        self.next += (1 + missed) * PERIOD;
        self.last = now;
    }

    /// Returns the averages of a state over 10, 60 and 300 seconds, as fixed-point numbers.
    /// Precondition: the state isn't nonidle.
    pub fn get(&self, state: State) -> [u64; 3]
        requires { state ≢ state_of.Nonidle }
        ensures value { result ≡ slice_index_or self.now.averages (state_number state) [] }
        ensures most { All (λ average. average ≤ 204800) result }
    {
        self.averages[state as usize]
    }

    /// Returns the averages of interrupt time over 10, 60 and 300 seconds, as fixed-point numbers.
    pub fn irq(&self) -> [u64; 3]
        ensures value { result ≡ slice_index_or self.now.averages irq_quantity [] }
        ensures most { All (λ average. average ≤ 204800) result }
    {
        self.averages[IRQ]
    }
}

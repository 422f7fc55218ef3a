//! Computes a group's share of each pressure quantity in an interval. A share is a weighted mean
//! over processors.
//!
//! The weight of a processor is the time that the group wasn't idle on it, in whole milliseconds.
ghost use Rattle.std.specs.Prelude.{◌≡◌, ◌≤◌, ◌<◌, ◌+◌, ◌*◌, ◌/◌, ℕ, All, length, map, slice_index};
ghost use Rattle.psi_spec.specs.Within.{longest_tick};
ghost use Rattle.aggregate.specs.Since.{NoneFell, growth};
ghost use Rattle.pressure_spec.specs.Samples.{growths};
ghost use Rattle.pressure_spec.specs.Share as model;
ghost use Rattle.pressure_spec.specs.Share.{pressure_places};
ghost use Rattle.pressure_spec.specs.Within.{AreTimesWithin};
ghost use Rattle.psi_spec.specs.World.{longest_irq};

use pressure_spec::{Amounts, QUANTITIES, TIMES, Times};

/// The unit (ns) in which weights are measured: one millisecond. The kernel uses jiffies instead.
const TICK: u64 = 1_000_000;

/// The index of the nonidle state in a group's times on a processor.
const NONIDLE: usize = 6;

/// The indexes of the pressure quantities in a group's times on a processor. These are all times
/// except nonidle.
const PLACES: [usize; QUANTITIES] = [0, 1, 2, 3, 4, 5, 7];

/// Returns a group's shares (ns) in an interval: one for each state except nonidle, and one for
/// interrupt time. A share is the weighted mean, over all processors, of the group's time in the
/// interval. `deltas` has these times (ns) for each processor. The weight of a processor is the
/// group's nonidle time on it in whole milliseconds. If all weights are 0, all shares are 0.
pub fn share(deltas: &[Times]) -> Amounts
    requires few { length deltas.now ≤ 64 }
    requires short { All (AreTimesWithin longest_tick (longest_tick + longest_irq)) deltas.now }
    ensures { result ≡ model.shares deltas.now }
{
    let mut sums = [0u64; QUANTITIES];
    let mut weights = 0u64;
    'rows: for times in deltas {
        let weight = times[NONIDLE] / TICK;
        weights += weight;
        add_weighted(&mut sums, times, weight);
    }
    let divisor = weights.max(1);
    divide(&mut sums, divisor);
    sums
}

/// Returns a group's shares (ns) in an interval: the result of `share` for the increases from
/// `before` to `now`. These arguments have the group's times (ns) on each processor at the start
/// and at the end of the interval. If the group was nonidle on a processor for less than a
/// millisecond, the weight of the processor is 0, and its other times aren't read.
pub fn share_since(now: &[Times], before: &[Times]) -> Amounts
    requires few { length now.now ≤ 64 }
    requires each { length before.now ≡ length now.now }
    requires unchanged { NoneFell before.now now.now }
    requires short { All (AreTimesWithin longest_tick (longest_tick + longest_irq))
        (growths before.now now.now) }
    ensures { result ≡ model.shares (growths before.now now.now) }
{
    let mut sums = [0u64; QUANTITIES];
    let mut total = 0u64;
    'rows: for cpu in 0..now.len() {
        let weight = weight_since(&now[cpu], &before[cpu]);
        if weight == 0 {
            continue 'rows;
        }
        total += weight;
        add_weighted(&mut sums, &growth(&now[cpu], &before[cpu]), weight);
    }
    let by = total.max(1);
    divide(&mut sums, by);
    sums
}

/// Returns the weight of a processor: the increase of the group's nonidle time, in whole
/// milliseconds.
#[inline(always)]
fn weight_since(now: &Times, before: &Times) -> u64
    requires { (place : ℕ) → slice_index before.now place ≤ slice_index now.now place }
    ensures { result ≡ model.weight (growth now.now before.now) }
{
    (now[NONIDLE] - before[NONIDLE]) / TICK
}

/// Returns the increase of each time (ns) of a group on a processor.
#[inline(always)]
fn growth(now: &Times, before: &Times) -> Times
    requires { (place : ℕ) → slice_index before.now place ≤ slice_index now.now place }
    ensures { result ≡ growth now.now before.now }
{
    let mut growth = [0u64; TIMES];
    'each: for i in 0..TIMES {
        growth[i] = now[i] - before[i];
    }
    growth
}

/// For each pressure quantity, adds the group's time (ns) on a processor, multiplied by the
/// processor's `weight`, to the sum of the quantity.
fn add_weighted(sums: &mut Amounts, times: &Times, weight: u64)
    requires weight { weight ≤ 60000 }
    requires times { AreTimesWithin longest_tick (longest_tick + longest_irq) times.now }
    requires sums { All (λ sum. sum ≤ 63 * (longest_tick + longest_irq) * 60000) sums.old }
    ensures { (k : ℕ) → k < 7 →
        slice_index sums.new k
        ≡ slice_index sums.old k + slice_index times.now (slice_index pressure_places k) * weight }
{
    'each: for i in 0..QUANTITIES {
        sums[i] += times[PLACES[i]] * weight;
    }
}

fn divide(sums: &mut Amounts, divisor: u64)
    requires { 0 < divisor }
    ensures { sums.new ≡ map (λ sum. sum / divisor) sums.old }
{
    'each: for i in 0..QUANTITIES {
        sums[i] /= divisor;
    }
}

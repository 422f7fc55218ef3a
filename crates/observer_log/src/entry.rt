//! An entry of the journal: one sample that an observer took of a group on one processor. The
//! type's invariant excludes wrong samples.
ghost use Rattle.std.specs.Prelude.{◌≡◌, ◌≤◌, length};
ghost use Rattle.plan_laws.specs.Plan.{IsClock, last_change, planned};

use clock_row::Sample;
use proc_plan::Plan;
use psi_base::{Cpu, Ns, Slot};

/// One sample of a group on processor `cpu`: the time (ns) that the group in `slot` spent in each
/// state, up to the last of the first `count` changes of the processor's plan. Ghost fields prove
/// that the numbers are correct.
#[derive(Clone, Copy)]
pub struct Entry<'a> {
    /// The number of the observer, from 0.
    pub observer: u32,
    /// The plan of the processor.
    pub plan: &'a Plan,
    pub cpu: Cpu,
    pub slot: Slot,
    /// The number of changes that the sample includes: at most all changes of the plan.
    pub count: u64,
    /// The time (ns) of the last of the `count` changes, or 0 if `count` is 0.
    pub at: Ns,
    /// The time (ns) that the group was in each of the seven states, in the order of states.
    pub seven: [u64; 7],
    pub ghost within: { count ≤ length plan.now.changes },
    pub ghost moment: { at ≡ last_change plan.now count },
    pub ghost times: { seven ≡ planned plan.now slot.0 count at },
}

// Returns the time (ns) of change number `count` of the plan, counted from 1. Returns 0 if `count`
// is 0.
fn moment_of(plan: &Plan, count: u64) -> Ns
    requires { count ≤ length plan.now.changes }
    ensures { result ≡ last_change plan.now count }
{
    if count == 0 {
        return 0;
    }
    plan.moment(count)
}

impl<'a> Entry<'a> {
    /// Returns the entry of a sample. Requires that `sample` has the clock of `slot` after the
    /// first `sample.count` changes of the plan.
    pub fn take(observer: u32, plan: &'a Plan, cpu: Cpu, slot: Slot, sample: &Sample) -> Entry<'a>
        requires { IsClock sample.now.clock plan.now slot.0 sample.now.count }
        ensures observer { result.observer ≡ observer }
        ensures plan { result.plan.now ≡ plan.now }
        ensures cpu { result.cpu ≡ cpu }
        ensures slot { result.slot ≡ slot }
        ensures count { result.count ≡ sample.now.count }
    {
        // `len` also proves that the plan is well-formed, which the next lines require.
        plan.len();
        let at = moment_of(plan, sample.count);
        Entry {
            observer,
            plan,
            cpu,
            slot,
            count: sample.count,
            at,
            seven: sample.clock.opened(at),
        }
    }
}

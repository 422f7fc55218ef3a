//! A helper for the tests that computes the clocks of a processor in a single thread.

ghost use Rattle.std.specs.Prelude.{◌≡◌, ◌≤◌, length, IfOk};

use proc_plan::{PlainClocks, Plan, ProcClocks};
use psi_base::NoMemory;
use std::alloc::Global;

/// Returns clocks of the first `slots` slots after `changes` changes of a plan. The clocks aren't
/// shared with other threads.
pub fn clocks_after<'a>(
    alloc: Global,
    plan: &'a Plan,
    slots: u32,
    changes: u64,
) -> Result<PlainClocks<'a>, NoMemory>
    requires slots { slots ≡ length plan.now.parents }
    requires changes { changes ≤ length plan.now.changes }
    ensures plan { IfOk result (λ clocks. clocks.plan ≡ plan.now) }
    ensures made { IfOk result (λ clocks. clocks.made ≡ changes) }
{
    let mut clocks = PlainClocks::make(alloc, plan, slots)?;
    'changes: while clocks.count() < changes {
        clocks.apply();
    }
    Ok(clocks)
}

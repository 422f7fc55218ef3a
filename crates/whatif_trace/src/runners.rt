//! The list of the running tasks, indexed by processor.
//!
//! The list follows the original trace, in which the killed tasks still run. It is needed because
//! the task table doesn't follow the events after the kill.
ghost use Rattle.std.specs.Prelude.{◌≡◌, ◌<◌, IfOk, None, replicate, slice_set};
ghost use Rattle.whatif_trace.specs.Left.{runner_at, turned};

use psi_base::{Act, Cpu, NoMemory, Pid};
use std::alloc::Global;

/// Returns a list for `cpus` idle processors.
pub(crate) fn no_runners(alloc: Global, cpus: u32) -> Result<Vec<Option<Pid>>, NoMemory>
    ensures { IfOk result (λ runners. runners.items ≡ replicate cpus None) }
{
    Ok(vec![in alloc; None; cpus as usize]?)
}

/// Returns the pid of the task that runs on processor `cpu`, or `None` if the processor is idle.
pub(crate) fn runner_at(runners: &[Option<Pid>], cpu: Cpu) -> Option<Pid>
    ensures { result ≡ runner_at runners.now cpu.0 }
{
    match runners.get(cpu.0 as usize) {
        Some(runner) => *runner,
        None => None,
    }
}

/// Sets the task that runs on processor `cpu`. `None` means that the processor is idle.
pub(crate) fn set_runner(runners: &mut Vec<Option<Pid>>, cpu: Cpu, runner: Option<Pid>)
    ensures { runners.new.items ≡ slice_set runners.old.items cpu.0 runner }
{
    let place = cpu.0 as usize;
    if place < runners.len() {
        runners[place] = runner;
    }
}

/// Updates the running tasks after an event. Only a switch changes them.
pub(crate) fn turn(runners: &mut Vec<Option<Pid>>, act: &Act)
    ensures { runners.new.items ≡ turned runners.old.items act.now }
{
    if let Act::Switch { cpu, next, .. } = act {
        set_runner(runners, *cpu, *next);
    }
}

//! The running task of each processor. The table of tasks stores them in a list, so that it needn't
//! search all tasks for a running task.
ghost use Rattle.std.specs.Prelude.{◌≡◌, None, Some, if◌then◌else◌, slice_index_or, slice_set, length, ◌<◌, true};
ghost use Rattle.psi_spec.specs.World.{is_running};

use psi_spec::{Mode, Task};

/// The pid and the state of a processor's running task, or `None` if the processor idles.
pub(crate) type Running = Option<(u32, Task)>;

/// Returns the running task of processor `cpu`, or `None` if it idles or doesn't exist.
pub(crate) fn running_at(running: &[Running], cpu: u32) -> Running
    ensures { result ≡ slice_index_or running.now cpu None }
{
    running.get(cpu as usize).copied().unwrap_or(None)
}

/// Stores `task` as the running task of its processor. Does nothing if the task isn't running.
pub(crate) fn set_running(running: &mut [Running], pid: u32, task: Task)
    requires { is_running task.mode ≡ true → task.cpu.0 < length running.old }
    ensures { running.new
        ≡ (if is_running task.mode then slice_set running.old task.cpu.0 (Some (pid, task))
        else running.old) }
{
    if task.mode == Mode::Running {
        running[task.cpu.0 as usize] = Some((pid, task));
    }
}

//! Appends the events by which killed tasks exit.
//!
//! Up to four events make a task exit: the task wakes up, is switched in, ends its memory stall,
//! and is switched out.
ghost use Rattle.std.specs.Prelude.{◌≡◌};
ghost use Rattle.psi_spec.specs.World.{is_active, events_at};
ghost use Rattle.whatif_spec.specs.Without.{exit_acts, making_room};
ghost use Rattle.whatif_trace.specs.Left.{Adds, exit_left, exited, exits_left};

use crate::copies::{keep, keep_if};
use crate::runners::{runner_at, set_runner};
use psi_base::{Act, Event, How, NoMemory, Ns, Pid};
use psi_spec::{Mode, Task};
use task_table::Table;

fn is_active(mode: Mode) -> bool
    ensures { result ≡ is_active mode }
{
    match mode {
        Mode::Ready | Mode::Running => true,
        Mode::Blocked | Mode::Waiting => false,
    }
}

/// Returns how a processor leaves its running task or its idle state when a killed task is switched
/// in: `Preempt` if a task is running, and `Idle` otherwise.
fn making_room(running: Option<Pid>) -> How
    ensures { result ≡ making_room running }
{
    match running {
        Some(_) => How::Preempt,
        None => How::Idle,
    }
}

/// Appends to `kept` the events by which the task `pid` exits at time `at` (ns). `task` is its
/// state before the exit, and `running` is the task that runs on the same processor, or `None` if
/// the processor is idle.
#[tactic(auto, using(crate::proofs::Kept::four_kept))]
fn keep_exit(
    kept: &mut Vec<Event>,
    at: Ns,
    pid: Pid,
    task: Task,
    running: Option<Pid>,
) -> Result<(), NoMemory>
    ensures { Adds kept.old.items kept.new.items result
        (events_at at (exit_acts pid.0 task running)) }
{
    let cpu = task.cpu;
    let runs = task.mode == Mode::Running;
    keep_if(kept, !is_active(task.mode), at, Act::Wake { pid, cpu })?;
    let comes = Act::Switch {
        cpu,
        next: Some(pid),
        how: making_room(running),
    };
    keep_if(kept, !runs, at, comes)?;
    keep_if(kept, task.stalled, at, Act::Unstall { pid })?;
    let next = if runs { None } else { running };
    let leaves = Act::Switch {
        cpu,
        next,
        how: How::Exit,
    };
    keep(kept, at, leaves)
}

/// Appends to `kept` the events by which the task `pid` exits at time `at` (ns), and updates
/// `runners`, the list of running tasks. Does nothing if `task` is `None`, because the task isn't
/// live.
#[tactic(auto, using(crate::proofs::Kept::none_kept))]
fn keep_one(
    kept: &mut Vec<Event>,
    at: Ns,
    pid: Pid,
    task: Option<Task>,
    runners: &mut Vec<Option<Pid>>,
) -> Result<(), NoMemory>
    ensures unchanged { Adds kept.old.items kept.new.items result
        (events_at at (exit_left runners.old.items pid.0 task)) }
    ensures runners { runners.new.items ≡ exited runners.old.items task }
{
    let Some(task) = task else {
        return Ok(());
    };
    let running = runner_at(runners, task.cpu);
    if task.mode == Mode::Running {
        set_runner(runners, task.cpu, None);
    }
    keep_exit(kept, at, pid, task, running)
}

/// Appends to `kept` the events by which the tasks `pids` exit at time `at` (ns), in order.
/// `runners` has the running task of each processor before the exits.
#[tactic(auto, using(crate::proofs::Kept::none_kept, crate::proofs::Kept::part_kept))]
pub(crate) fn keep_exits(
    kept: &mut Vec<Event>,
    at: Ns,
    table: &Table,
    mut runners: Vec<Option<Pid>>,
    pids: &[u32],
) -> Result<(), NoMemory>
    ensures { Adds kept.old.items kept.new.items result
        (exits_left at table.now.world.tasks runners.items pids.now) }
{
    let mut next = 0;
    'pids: while next < pids.len() {
        let pid = Pid(pids[next]);
        keep_one(kept, at, pid, table.task(pid), &mut runners)?;
        next += 1;
    }
    Ok(())
}

//! A map from pids to tasks. Lookups of small pids are fast, because tasks with small pids are
//! stored in a list. The other tasks are stored in a hash map.
ghost use Rattle.std.specs.Prelude.{◌≡◌, ◌≤◌, IfOk, OnOk, OnErr, IsSome, None, length, replicate};
ghost use Rattle.psi_spec.specs.World.{no_tasks, task_of, put, remove, most_tasks};
ghost use Rattle.std.specs.FinMap as tasks_by;
ghost use Rattle.task_table.specs.Listed.{listed_tasks};

use psi_base::NoMemory;
use psi_spec::Task;
use std::alloc::Global;
use std::collections::HashMap;
use std::marker::Model;

/// The length of the list of tasks with small pids. It equals the maximum number of live tasks.
const PLACES: usize = 65_536;

/// The live tasks by pid. Finding a task with a small pid takes one load from a list, while a hash
/// map needs three or four loads.
#[derive(Drop)]
pub(crate) struct TaskMap {
    /// The tasks with pids below `PLACES`, indexed by pid.
    listed: Vec<Option<Task>>,
    /// The tasks with pids of at least `PLACES`.
    others: HashMap<u32, Task>,
    /// The number of tasks in `listed` and `others` together.
    count: usize,
}

impl Model for TaskMap {
    ghost use Rattle.std.specs.Prelude.{◌≡◌};
    ghost use Rattle.std.specs.FinMap as tasks_by;
    ghost use Rattle.std.specs.Coded.{coded_ℕ};
    ghost use Rattle.psi_spec.specs.World.{Tasks};
    ghost use Rattle.psi_spec.specs.contracts.machine.Task as task_row;
    ghost use Rattle.task_table.specs.Listed.{listed_tasks};

    ghost Value = { Tasks };

    ghost coded = { tasks_by.code coded_ℕ task_row.the_row.coded };

    ghost view = { λ m. listed_tasks m.listed.items m.others.entries };

    ghost invariant = { λ m.
        m.count ≡ tasks_by.len (listed_tasks m.listed.items m.others.entries) };
}

impl TaskMap {
    /// Creates a map without tasks.
    pub(crate) fn new(alloc: Global) -> Result<TaskMap, NoMemory>
        ensures { IfOk result (λ tasks. tasks ≡ no_tasks) }
    {
        Ok(TaskMap {
            listed: empty_places(alloc, PLACES)?,
            others: HashMap::new(alloc),
            count: 0,
        })
    }

    /// Returns the number of tasks.
    pub(crate) fn len(&self) -> usize
        ensures { result ≡ tasks_by.len self.now }
    {
        self.count
    }

    /// Returns the task with this pid, or `None`.
    #[inline(always)]
    pub(crate) fn get(&self, pid: u32) -> Option<Task>
        ensures { result ≡ task_of self.now pid }
    {
        match self.listed.get(pid as usize) {
            Some(place) => *place,
            None => self.others.get(&pid).copied(),
        }
    }

    /// Adds `task` under the pid `pid`. If memory runs out, the map is unchanged.
    pub(crate) fn add(&mut self, pid: u32, task: Task) -> Result<(), NoMemory>
        requires few { tasks_by.len self.old ≤ most_tasks }
        ensures ok { OnOk result (self.new ≡ put self.old pid task) }
        ensures err { OnErr result (self.new ≡ self.old) }
    {
        let old = put(&mut self.listed, &mut self.others, pid, task)?;
        if old.is_none() {
            self.count += 1;
        }
        Ok(())
    }

    /// Replaces the task with this pid. Precondition: the map has a task with this pid. Does not
    /// allocate.
    #[inline(always)]
    pub(crate) fn set(&mut self, pid: u32, task: Task)
        requires { IsSome (task_of self.old pid) }
        ensures { self.new ≡ put self.old pid task }
    {
        let place = pid as usize;
        if place < self.listed.len() {
            self.listed[place] = Some(task);
            return;
        }
        let Some(other) = self.others.get_mut(&pid) else {
            return;
        };
        *other = task;
    }

    /// Removes the task with this pid. Does nothing if the map has no such task.
    pub(crate) fn remove(&mut self, pid: u32)
        ensures { self.new ≡ remove self.old pid }
    {
        let old = take(&mut self.listed, &mut self.others, pid);
        if old.is_some() {
            self.count -= 1;
        }
    }
}

/// Creates a list of `count` entries, all of them `None`.
fn empty_places(alloc: Global, count: usize) -> Result<Vec<Option<Task>>, NoMemory>
    ensures { IfOk result (λ places. places.items ≡ replicate count None) }
{
    Ok(vec![in alloc; None; count]?)
}

/// Stores `task` under the pid `pid`, and returns the previous task with this pid, or `None`. If
/// memory runs out, both containers are unchanged.
fn put(
    listed: &mut [Option<Task>],
    others: &mut HashMap<u32, Task>,
    pid: u32,
    task: Task,
) -> Result<Option<Task>, NoMemory>
    ensures old { IfOk result (λ old.
        old ≡ task_of (listed_tasks listed.old others.old.entries) pid) }
    ensures ok { OnOk result
        (listed_tasks listed.new others.new.entries
        ≡ put (listed_tasks listed.old others.old.entries) pid task) }
    ensures err { OnErr result
        ((listed.new ≡ listed.old) × (others.new.entries ≡ others.old.entries)) }
    ensures length { length listed.new ≡ length listed.old }
{
    let place = pid as usize;
    if place < listed.len() {
        let old = listed[place];
        listed[place] = Some(task);
        return Ok(old);
    }
    Ok(others.insert(pid, task)?)
}

/// Removes the task with this pid and returns it, or returns `None` if there is no such task.
fn take(listed: &mut [Option<Task>], others: &mut HashMap<u32, Task>, pid: u32) -> Option<Task>
    ensures old { result ≡ task_of (listed_tasks listed.old others.old.entries) pid }
    ensures tasks { listed_tasks listed.new others.new.entries
        ≡ remove (listed_tasks listed.old others.old.entries) pid }
    ensures length { length listed.new ≡ length listed.old }
{
    let place = pid as usize;
    if place < listed.len() {
        let old = listed[place];
        listed[place] = None;
        return old;
    }
    others.remove(&pid)
}

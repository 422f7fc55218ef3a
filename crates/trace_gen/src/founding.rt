//! The events at the start of a generated trace, which create its groups and tasks. The module
//! `generator` generates the random events after them.
ghost use Rattle.std.specs.Prelude.{◌≡◌, ◌≤◌, ◌<◌, ◌++◌, ◌∷◌, [], None, IfOk, OnOk, map};
ghost use Rattle.std.specs.List.{range_with_len};
ghost use Rattle.psi_spec.specs.Refusal.{cause_of};
ghost use Rattle.psi_spec.specs.World.{after};
ghost use Rattle.run_spec.specs.Generated.{at_start, first_events, home_of, made_group, made_task};
ghost use Rattle.run_spec.specs.Generated.{numbered_path, task_count};
ghost use Rattle.run_spec.specs.LegalCommand.{IsShape};
ghost use Rattle.trace_gen.specs.Generating.{limits_in, made_groups};

use psi_base::{Act, Cpu, Event, Fault, NoMemory, Path, Pid};
use run_spec::Shape;
use std::alloc::Global;
use std::collections::VecDeque;
use task_table::Table;

/// The number of tasks for each processor.
pub(crate) const TASKS_EACH: u32 = 4;

/// Returns the path of the group with the number `number`, counted from 0.
#[tactic(auto, using(crate::proofs::Naming::numbered_is_path))]
fn numbered_path(alloc: Global, number: u32) -> Result<Path, NoMemory>
    ensures { IfOk result (λ path. path ≡ numbered_path number) }
{
    let mut buffer = itoa::Buffer::new();
    let mut bytes: Vec<u8> = Vec::from_slice(alloc, b"/g")?;
    bytes.extend_from_slice(buffer.format(number).as_bytes())?;
    match Path::read(alloc, &bytes)? {
        Some(path) => Ok(path),
        None => unreachable!(),
    }
}

/// Returns the path of the group of the task `pid`. It is the root if the shape has no groups.
fn home_of(alloc: Global, shape: Shape, pid: u32) -> Result<Path, NoMemory>
    requires { 1 ≤ pid }
    ensures { IfOk result (λ path. path ≡ home_of shape pid) }
{
    if shape.groups == 0 {
        Path::root(alloc)
    } else {
        numbered_path(alloc, (pid - 1) % shape.groups)
    }
}

/// Returns the event that creates the group with the number `number`, counted from 0.
fn made_group(alloc: Global, number: u32) -> Result<Event, NoMemory>
    ensures { IfOk result (λ event. event ≡ at_start (made_group number)) }
{
    let path = numbered_path(alloc, number)?;
    Ok(Event {
        at: 0,
        act: Act::Group { path },
    })
}

/// Returns the event that creates the task with this pid.
fn made_task(alloc: Global, shape: Shape, pid: u32) -> Result<Event, NoMemory>
    requires { 1 ≤ pid }
    ensures { IfOk result (λ event. event ≡ at_start (made_task shape pid)) }
{
    let path = home_of(alloc, shape, pid)?;
    Ok(Event {
        at: 0,
        act: Act::Fork {
            pid: Pid(pid),
            path,
            cpu: Cpu((pid - 1) / TASKS_EACH),
        },
    })
}

/// Applies an event to the table, and appends it to `events`. Preconditions: the table is in the
/// state after exactly `events`, and the event is legal in that state.
#[tactic(auto, using(crate::proofs::Drawing::one_after))]
fn play(events: &mut VecDeque<Event>, table: &mut Table, event: Event) -> Result<(), NoMemory>
    requires world { table.old.world ≡ after events.old.items }
    requires legal { cause_of table.old.limits table.old.world event ≡ None }
    ensures items { OnOk result (events.new.items ≡ events.old.items ++ event ∷ []) }
    ensures world { OnOk result (table.new.world ≡ after events.new.items) }
    ensures limits { OnOk result (table.new.limits ≡ table.old.limits) }
{
    match table.play(&event) {
        Ok(()) => {}
        Err(Fault::NoMemory(none)) => return Err(none),
        Err(Fault::Refused(_)) => unreachable!(),
    }
    events.push_back(event)?;
    Ok(())
}

/// Creates all groups of a shape: applies their events to the table, and appends them to `events`.
/// Precondition: no event was applied to the table before.
fn make_groups(
    alloc: Global,
    shape: Shape,
    events: &mut VecDeque<Event>,
    table: &mut Table,
) -> Result<(), NoMemory>
    requires shaped { IsShape shape }
    requires limits { table.old.limits ≡ limits_in shape }
    requires first { events.old.items ≡ [] }
    requires world { table.old.world ≡ after events.old.items }
    ensures items { OnOk result (events.new.items ≡ made_groups shape shape.groups) }
    ensures world { OnOk result (table.new.world ≡ after events.new.items) }
    ensures limits { OnOk result (table.new.limits ≡ table.old.limits) }
{
    'groups: for number in 0..shape.groups {
        play(events, table, made_group(alloc, number)?)?;
    }
    Ok(())
}

/// Creates all tasks of a shape: applies their events to the table, and appends them to `events`.
/// Precondition: only the events that create the shape's groups were applied before.
fn make_tasks(
    alloc: Global,
    shape: Shape,
    events: &mut VecDeque<Event>,
    table: &mut Table,
) -> Result<(), NoMemory>
    requires shaped { IsShape shape }
    requires limits { table.old.limits ≡ limits_in shape }
    requires groups { events.old.items ≡ made_groups shape shape.groups }
    requires world { table.old.world ≡ after events.old.items }
    ensures items { OnOk result (events.new.items ≡ events.old.items
        ++ map (λ pid. at_start (made_task shape pid)) (range_with_len 1 (task_count shape))) }
    ensures world { OnOk result (table.new.world ≡ after events.new.items) }
    ensures limits { OnOk result (table.new.limits ≡ table.old.limits) }
{
    'tasks: for index in 0..TASKS_EACH * shape.cpus {
        play(events, table, made_task(alloc, shape, index + 1)?)?;
    }
    Ok(())
}

/// Returns the events that create all groups and tasks of a shape, in order. Applies the events to
/// `table`, which must be new.
pub(crate) fn found(
    alloc: Global,
    shape: Shape,
    table: &mut Table,
) -> Result<VecDeque<Event>, NoMemory>
    requires shaped { IsShape shape }
    requires limits { table.old.limits ≡ limits_in shape }
    requires first { table.old.world ≡ after [] }
    ensures items { IfOk result (λ events. events.items ≡ first_events shape) }
    ensures world { OnOk result (table.new.world ≡ after (first_events shape)) }
    ensures limits { OnOk result (table.new.limits ≡ table.old.limits) }
{
    let mut events = VecDeque::new(alloc);
    make_groups(alloc, shape, &mut events, table)?;
    make_tasks(alloc, shape, &mut events, table)?;
    Ok(events)
}

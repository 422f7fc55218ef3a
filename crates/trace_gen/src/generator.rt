//! Generates the events of a trace, one by one: first the groups and tasks, then random events,
//! then the end. The module `text` writes the events.
ghost use Rattle.std.specs.Prelude.{◌≡◌, ◌<◌, ◌≤◌, ◌^◌, IfOk, MatchOption, [], ◌∷◌};
ghost use Rattle.run_spec.specs.Generated.{random_events, generated, next_random, next_event, next_of, running_act};
ghost use Rattle.run_spec.specs.Generated.{random_event, next_state, stall_turn, started, way_of, woken};
ghost use Rattle.run_spec.specs.LegalCommand.{IsShape};
ghost use Rattle.trace_gen.specs.Left.{IsGenerator, random_act};

use crate::draws::Draws;
use crate::founding::{TASKS_EACH, found};
use psi_base::{Act, Cpu, Event, How, LATEST, NoMemory, Pid};
use psi_spec::{Mode, Task};
use run_spec::Shape;
use std::alloc::Global;
use std::collections::VecDeque;
use std::marker::Model;
use task_table::Table;

/// The time (ns) between two successive random events is less than `LONGEST_WAIT`.
const LONGEST_WAIT: u32 = 2_000_000;

/// Generates the events of a trace. In contracts, the value of a generator is the list of the
/// remaining events.
#[derive(Drop)]
pub struct Generator {
    shape: Shape,
    /// The events that create groups and tasks and haven't been returned yet.
    first: VecDeque<Event>,
    /// The table of tasks after all returned events and the events in `first`.
    table: Table,
    draws: Draws,
    /// The number of random events that follow the events in `first`.
    left: u32,
    /// Whether the event that ends the trace has been returned.
    ended: bool,
}

impl Model for Generator {
    ghost use Rattle.std.specs.Prelude.{List};
    ghost use Rattle.std.specs.Coded.{coded_list};
    ghost use Rattle.psi_base.specs.declared.event.Event.{Event};
    ghost use Rattle.psi_base.specs.contracts.event.Event as event_row;
    ghost use Rattle.trace_gen.specs.Left.{IsGenerator, events_left};

    ghost Value = { List Event };

    ghost coded = { coded_list event_row.the_row.coded };

    ghost view = { λ g. events_left g.shape g.first.items g.table.world g.draws g.left g.ended };

    ghost invariant = { λ g. IsGenerator g.shape g.table g.left };
}

impl Generator {
    /// Creates a generator of the events of a shape. Precondition: the numbers of the shape are in
    /// range. No later call allocates memory.
    pub fn make(alloc: Global, shape: Shape) -> Result<Generator, NoMemory>
        requires { IsShape shape }
        ensures { IfOk result (λ g. g ≡ (generated shape).events) }
    {
        let mut table = Table::new(alloc, shape.cpus, LATEST)?;
        let first = found(alloc, shape, &mut table)?;
        Ok(Generator {
            shape,
            first,
            table,
            draws: Draws::new(shape.seed),
            left: shape.events,
            ended: false,
        })
    }

    /// Returns the next event, or `None` after the end of the trace. Doesn't allocate.
    pub fn next(&mut self) -> Option<Event>
        ensures { MatchOption result ((self.old ≡ []) × (self.new ≡ []))
            (λ event. self.old ≡ event ∷ self.new) }
    {
        if let Some(event) = next_first(&mut self.first) {
            return Some(event);
        }
        if self.ended {
            return None;
        }
        if self.left == 0 {
            self.ended = true;
            return Some(Event {
                at: self.table.last(),
                act: Act::End,
            });
        }
        Some(play_next(self.shape, &mut self.table, &mut self.draws, &mut self.left))
    }
}

/// Removes and returns the first event, or returns `None` if the list is empty.
fn next_first(events: &mut VecDeque<Event>) -> Option<Event>
    ensures { MatchOption result ((events.old.items ≡ []) × (events.new.items ≡ []))
        (λ event. events.old.items ≡ event ∷ events.new.items) }
{
    events.pop_front()
}

/// Returns the next random event, which is always legal, and applies it to the table. Subtracts 1
/// from `left`, the number of remaining random events. Doesn't allocate.
fn play_next(shape: Shape, table: &mut Table, draws: &mut Draws, left: &mut u32) -> Event
    requires some { 0 < left.old }
    requires so { IsGenerator shape table.old left.old }
    ensures so { IsGenerator shape table.new left.new }
    ensures event { random_events shape left.old table.old.world draws.old
        ≡ result ∷ random_events shape left.new table.new.world draws.new }
{
    let event = next_event(shape, table, draws);
    match table.play(&event) {
        Ok(()) => {
            *left -= 1;
            event
        }
        Err(_) => unreachable!(),
    }
}

/// Returns the next random event. `table` is the table before the event.
#[tactic(auto, unfolding(run_spec::specs::Generated::next_random))]
fn next_event(shape: Shape, table: &Table, draws: &mut Draws) -> Event
    requires shaped { IsShape shape }
    requires early { table.now.world.last ≤ 2 ^ 60 }
    ensures event { result ≡ next_event shape table.now.world draws.old }
    ensures state { draws.new ≡ (next_random shape table.now.world.tasks draws.old).state }
{
    let at = table.last() + u64::from(draws.draw(LONGEST_WAIT));
    let pid = Pid(1 + draws.draw(TASKS_EACH * shape.cpus));
    let act = match table.task(pid) {
        Some(task) => act_of(shape, table, draws, pid, task),
        None => woken(shape, draws, pid),
    };
    Event { at, act }
}

/// Returns a random act for the task `pid`, whose state is `task`. An act is an event without its
/// time.
fn act_of(shape: Shape, table: &Table, draws: &mut Draws, pid: Pid, task: Task) -> Act
    requires { IsShape shape }
    ensures { random_act result draws.new
        ≡ next_of shape table.now.world.tasks draws.old pid.0 task task.mode }
{
    match task.mode {
        Mode::Blocked | Mode::Waiting => woken(shape, draws, pid),
        Mode::Ready => started(table, draws, pid, task),
        Mode::Running => running_act(draws, pid, task),
    }
}

/// Returns an act that wakes the blocked task `pid` on a random processor.
fn woken(shape: Shape, draws: &mut Draws, pid: Pid) -> Act
    requires { IsShape shape }
    ensures { random_act result draws.new ≡ woken shape draws.old pid.0 }
{
    Act::Wake {
        pid,
        cpu: Cpu(draws.draw(shape.cpus)),
    }
}

/// Returns the act that switches the processor of the ready task `pid` to this task. Draws a random
/// number only if another task is running on that processor.
#[tactic(auto, using(crate::proofs::Drawing::some_part))]
fn started(table: &Table, draws: &mut Draws, pid: Pid, task: Task) -> Act
    ensures { random_act result draws.new
        ≡ started table.now.world.tasks draws.old pid.0 task }
{
    let how = match table.running(task.cpu) {
        None => How::Idle,
        Some(_) => way_of(draws.draw(4)),
    };
    Act::Switch {
        cpu: task.cpu,
        next: Some(pid),
        how,
    }
}

/// Returns how the running task leaves its processor, for a random number below 4. The number 0
/// means preemption, 1 means sleeping, and 2 and 3 mean waiting for IO.
fn way_of(number: u32) -> How
    ensures { result ≡ way_of number }
{
    match number {
        0 => How::Preempt,
        1 => How::Sleep,
        _ => How::IoWait,
    }
}

/// Returns a random act of the running task `pid`: the task sleeps, waits for IO, or begins or ends
/// a memory stall.
fn running_act(draws: &mut Draws, pid: Pid, task: Task) -> Act
    ensures { (draws.new ≡ next_state draws.old)
        × (result ≡ running_act pid.0 task (random_event (next_state draws.old) 4)) }
{
    let number = draws.draw(4);
    leaving(number, pid, task)
}

/// Returns the act of the running task `pid` for a random number below 4. The number 0 means that
/// it sleeps, 1 that it waits for IO, and 2 and 3 that it begins or ends a memory stall.
fn leaving(number: u32, pid: Pid, task: Task) -> Act
    ensures { result ≡ running_act pid.0 task number }
{
    let how = match number {
        0 => How::Sleep,
        1 => How::IoWait,
        _ => return stall_turn(pid, task),
    };
    Act::Switch {
        cpu: task.cpu,
        next: None,
        how,
    }
}

/// Returns the act that ends the memory stall of the task `pid`, or that begins one if the task
/// isn't in a memory stall.
fn stall_turn(pid: Pid, task: Task) -> Act
    ensures { result ≡ stall_turn pid.0 task }
{
    if task.stalled {
        Act::Unstall { pid }
    } else {
        Act::Stall { pid }
    }
}

//! Copies events of a trace, and appends the copies to `kept`, the list of events that remain when
//! killed tasks are removed.
//!
//! The callers decide which events remain.
ghost use Rattle.std.specs.Prelude.{◌≡◌, ◌∷◌, [], IfOk, true};
ghost use Rattle.whatif_spec.specs.Without.{acts_if};
ghost use Rattle.psi_spec.specs.World.{events_at};
ghost use Rattle.whatif_trace.specs.Left.{Adds, shows_of_group};

use psi_base::{Act, Event, NoMemory, Ns};
use std::alloc::Global;

// Copies `act`, which is what an event does. Precondition: `act` is a memory sample of a group, or
// sets a trigger.
fn copy_known(alloc: Global, act: &Act) -> Result<Act, NoMemory>
    requires { shows_of_group act.now ≡ true }
    ensures { IfOk result (λ copy. copy ≡ act.now) }
{
    Ok(match *act {
        Act::Mem {
            ref path,
            current,
            swap,
            scan,
        } => Act::Mem {
            path: path.copy(alloc)?,
            current,
            swap,
            scan,
        },
        Act::Trigger {
            ref path,
            res,
            level,
            threshold_us,
            window_us,
        } => Act::Trigger {
            path: path.copy(alloc)?,
            res,
            level,
            threshold_us,
            window_us,
        },
        _ => unreachable!(),
    })
}

fn copy_act(alloc: Global, act: &Act) -> Result<Act, NoMemory>
    ensures { IfOk result (λ copy. copy ≡ act.now) }
{
    Ok(match *act {
        Act::Group { ref path } => Act::Group {
            path: path.copy(alloc)?,
        },
        Act::Remove { ref path } => Act::Remove {
            path: path.copy(alloc)?,
        },
        Act::Prefer {
            ref path,
            preference,
        } => Act::Prefer {
            path: path.copy(alloc)?,
            preference,
        },
        Act::Fork { pid, ref path, cpu } => Act::Fork {
            pid,
            path: path.copy(alloc)?,
            cpu,
        },
        Act::Move { pid, ref path } => Act::Move {
            pid,
            path: path.copy(alloc)?,
        },
        Act::Mem { .. } | Act::Trigger { .. } => copy_known(alloc, act)?,
        Act::Host {
            mem_total,
            swap_total,
            swap_free,
        } => Act::Host {
            mem_total,
            swap_total,
            swap_free,
        },
        Act::Wake { pid, cpu } => Act::Wake { pid, cpu },
        Act::Switch { cpu, next, how } => Act::Switch { cpu, next, how },
        Act::Stall { pid } => Act::Stall { pid },
        Act::Unstall { pid } => Act::Unstall { pid },
        Act::Migrate { pid, cpu } => Act::Migrate { pid, cpu },
        Act::Irq { cpu, ns } => Act::Irq { cpu, ns },
        Act::Pressure { ref path, on } => Act::Pressure {
            path: path.copy(alloc)?,
            on,
        },
        Act::End => Act::End,
    })
}

/// Returns a copy of an event. The copy owns its memory.
pub fn copy_event(alloc: Global, event: &Event) -> Result<Event, NoMemory>
    ensures { IfOk result (λ copy. copy ≡ event.now) }
{
    Ok(Event {
        at: event.at,
        act: copy_act(alloc, &event.act)?,
    })
}

/// Appends to `kept` the event with the time `at` (ns) that does `act`.
pub(crate) fn keep(kept: &mut Vec<Event>, at: Ns, act: Act) -> Result<(), NoMemory>
    ensures { Adds kept.old.items kept.new.items result (events_at at (act ∷ [])) }
{
    kept.push(Event { at, act })?;
    Ok(())
}

/// Appends to `kept` the event with the time `at` (ns) that does `act`, if `test` is true.
#[tactic(auto, using(crate::proofs::Kept::none_kept))]
pub(crate) fn keep_if(kept: &mut Vec<Event>, test: bool, at: Ns, act: Act) -> Result<(), NoMemory>
    ensures { Adds kept.old.items kept.new.items result
        (events_at at (acts_if test (act ∷ []))) }
{
    if test { keep(kept, at, act) } else { Ok(()) }
}

/// Appends a copy of `event` to `kept`.
pub(crate) fn keep_copy(alloc: Global, kept: &mut Vec<Event>, event: &Event) -> Result<(), NoMemory>
    ensures { Adds kept.old.items kept.new.items result (event.now ∷ []) }
{
    kept.push(copy_event(alloc, event)?)?;
    Ok(())
}

/// Appends copies of `events` to `kept`, in order.
#[tactic(auto, using(crate::proofs::Kept::none_kept, crate::proofs::Kept::part_kept))]
pub(crate) fn keep_copies(
    alloc: Global,
    kept: &mut Vec<Event>,
    events: &[Event],
) -> Result<(), NoMemory>
    ensures { Adds kept.old.items kept.new.items result events.now }
{
    let mut at = 0;
    'events: while at < events.len() {
        keep_copy(alloc, kept, &events[at])?;
        at += 1;
    }
    Ok(())
}

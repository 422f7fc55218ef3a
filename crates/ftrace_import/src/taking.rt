//! Collects the events of an ftrace text, line by line. The module `text` reads the lines from a
//! file.
ghost use Rattle.std.specs.Prelude.{◌≡◌, ◌-◌, ◌≤◌, [], IfOk, OnOk, None, drop, is_some, length, max, unwrap_or};
ghost use Rattle.psi_spec.specs.Names.{names};
ghost use Rattle.psi_spec.specs.Refusal.{AreLegal, cause_of};
ghost use Rattle.psi_spec.specs.Trace.{IsCpuCount};
ghost use Rattle.psi_spec.specs.World.{after_event, after_from};
ghost use Rattle.import_spec.specs.Events.{acts_cause, line_events_at, events_of_line, make_task, needed_cpu, unreached};
ghost use Rattle.ftrace_import.specs.Deeds.{act_by, acts_in, event_by, events_by};
ghost use Rattle.ftrace_import.specs.Gathers.{IsGathered, TakesLine, reached_in};
ghost use Rattle.ftrace_import.specs.Stands.{IsSeen};

use crate::deeds::{Deed, Kept, event_of, keep_seen};
use crate::marked::read_line;
use import_spec::{ImportCause, Seen, Sighting};
use psi_base::{Cpu, Fault, LATEST, MOST_EVENTS, NoMemory, Ns};
use std::alloc::Global;
use task_table::Table;

/// The state of an import after some lines of the text were parsed.
#[derive(Drop)]
pub struct Gathering {
    alloc: Global,
    /// The number of processors.
    pub(crate) cpus: u32,
    /// The table of tasks after all stored events.
    table: Table,
    /// The stored events, without the end of the trace.
    pub(crate) kept: Vec<Kept>,
    /// The time (ns) of the first marked line, or `None` if no marked line was parsed yet.
    first: Option<Ns>,
    /// The trace time (ns) of the last marked line. The trace time of a line is its time since the
    /// first marked line, but never less than the trace time of an earlier line.
    pub(crate) moment: Ns,
}

/// Returns the state of an import before the first line of the text.
pub(crate) fn start(alloc: Global, cpus: u32) -> Result<Gathering, NoMemory>
    requires { IsCpuCount cpus }
    ensures so { IfOk result (λ g. IsGathered g) }
    ensures cpus { IfOk result (λ g. g.cpus ≡ cpus) }
    ensures none { IfOk result (λ g. (g.kept.items ≡ []) × (reached_in g ≡ unreached)) }
{
    Ok(Gathering {
        alloc,
        cpus,
        table: Table::new(alloc, cpus, LATEST)?,
        kept: Vec::new(alloc),
        first: None,
        moment: 0,
    })
}

/// Returns whether an act in compact form creates a task.
fn makes(deed: Deed) -> bool
    ensures { result ≡ is_some (names (act_by deed)).new_task }
{
    match deed {
        Deed::Fork { .. } => true,
        Deed::Wake { .. } | Deed::Switch { .. } | Deed::Migrate { .. } => false,
    }
}

/// Returns whether at least one of the acts in `kept` creates a task.
fn make_task(kept: &[Kept]) -> bool
    ensures { result ≡ make_task (acts_in kept.now) }
{
    let mut at = 0;
    'kept: while at < kept.len() {
        if makes(kept[at].deed) {
            return true;
        }
        at += 1;
    }
    false
}

/// Returns the first reason why a line is rejected, or `None` if the line is accepted. The line has
/// the acts `kept` and the trace time `moment` (ns), and names processor `cpu`. `table` is the
/// table of tasks before the line, and `cpus` is the number of processors.
fn acts_cause(table: &Table, cpus: u32, moment: Ns, cpu: Cpu, kept: &[Kept]) -> Option<ImportCause>
    ensures { result ≡ acts_cause cpus table.now.world moment cpu (acts_in kept.now) }
{
    if cpu.0 >= cpus {
        Some(ImportCause::BadCpu)
    } else if moment > LATEST {
        Some(ImportCause::TooLate)
    } else if make_task(kept) && table.is_full() {
        Some(ImportCause::TooManyTasks)
    } else if table.lines() as usize + kept.len() >= MOST_EVENTS as usize {
        Some(ImportCause::TooManyEvents)
    } else {
        None
    }
}

fn play_one(alloc: Global, table: &mut Table, kept: Kept) -> Result<(), NoMemory>
    requires { cause_of table.old.limits table.old.world (event_by kept) ≡ None }
    ensures limits { OnOk result (table.new.limits ≡ table.old.limits) }
    ensures world { OnOk result (table.new.world
        ≡ after_event table.old.world (event_by kept)) }
{
    let event = event_of(alloc, kept)?;
    match table.play(&event) {
        Ok(()) => Ok(()),
        Err(Fault::NoMemory(none)) => Err(none),
        Err(Fault::Refused(_)) => unreachable!(),
    }
}

/// Applies the events in `kept` to the table of tasks. Precondition: they are legal in this order.
fn play_all(alloc: Global, table: &mut Table, kept: &[Kept]) -> Result<(), NoMemory>
    requires { AreLegal table.old.limits table.old.world (events_by kept.now) }
    ensures limits { OnOk result (table.new.limits ≡ table.old.limits) }
    ensures world { OnOk result (table.new.world
        ≡ after_from table.old.world (events_by kept.now)) }
{
    let mut at = 0;
    'kept: while at < kept.len() {
        play_one(alloc, table, kept[at])?;
        at += 1;
    }
    Ok(())
}

/// Returns the processor of a line: the processor of a switch, or the target processor of a wakeup
/// or a migration. A line whose processor doesn't exist is rejected.
fn needed_cpu(seen: Seen) -> Cpu
    ensures { result ≡ needed_cpu seen }
{
    match seen {
        Seen::Switch { cpu, .. } | Seen::Wakeup { cpu, .. } | Seen::Migration { cpu, .. } => cpu,
    }
}

fn time_or(first: Option<Ns>, at: Ns) -> Ns
    ensures { result ≡ unwrap_or first at }
{
    match first {
        Some(time) => time,
        None => at,
    }
}

/// Returns the trace time (ns) of a line: the line's time `at` minus the time `first` of the first
/// marked line, but at least `moment`, the trace time of the last marked line.
fn moment_of(first: Ns, moment: Ns, at: Ns) -> Ns
    ensures { result ≡ max moment (at - first) }
{
    moment.max(at.saturating_sub(first))
}

fn kept_from(kept: &Vec<Kept>, before: usize) -> &[Kept]
    requires { before ≤ length kept.now.items }
    ensures { result.now ≡ drop before kept.now.items }
{
    &kept[before..]
}

/// Stores the events of a line with the content `sighting`, and applies them to the table of tasks.
fn take_sighting(g: &mut Gathering, sighting: Sighting) -> Result<(), Fault<ImportCause>>
    requires so { IsGathered g.old }
    requires seen { IsSeen sighting.seen }
    ensures { TakesLine (line_events_at g.old.cpus (reached_in g.old) sighting.at sighting.seen)
        g.old g.new result }
{
    let first = time_or(g.first, sighting.at);
    let moment = moment_of(first, g.moment, sighting.at);
    let before = g.kept.len();
    keep_seen(&g.table, &mut g.kept, moment, sighting.seen)?;
    let new = kept_from(&g.kept, before);
    let cpu = needed_cpu(sighting.seen);
    if let Some(cause) = acts_cause(&g.table, g.cpus, moment, cpu, new) {
        return Err(Fault::Refused(cause));
    }
    play_all(g.alloc, &mut g.table, new)?;
    g.first = Some(first);
    g.moment = moment;
    Ok(())
}

/// Stores the events of a line, and applies them to the table of tasks. A line that isn't marked
/// has no events. After an error, the import must not be continued.
pub(crate) fn take_line(g: &mut Gathering, line: &[u8]) -> Result<(), Fault<ImportCause>>
    requires { IsGathered g.old }
    ensures { TakesLine (events_of_line g.old.cpus (reached_in g.old) line.now) g.old g.new result }
{
    match read_line(line) {
        Ok(Some(sighting)) => take_sighting(g, sighting),
        Ok(None) => Ok(()),
        Err(cause) => Err(Fault::Refused(cause)),
    }
}

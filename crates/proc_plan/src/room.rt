//! Adds the parts of an event to a planner: changes, a trigger and side events. Memory for all
//! parts is reserved first, so that adding them can't fail.

ghost use Rattle.std.specs.Prelude.{◌≡◌, ◌++◌, ◌+◌, ◌<◌, ◌≤◌, ℕ, [], ◌∷◌, length, IfSome, IsSome, None, OnOk, vec_capacity, vec_len};
ghost use Rattle.psi_counts.specs.Legal.{with_change};
ghost use Rattle.psi_spec.specs.Names.{names};
ghost use Rattle.psi_spec.specs.Within.{listed};
ghost use Rattle.psi_spec.specs.World.{is_pressure, most_groups, running_on};
ghost use Rattle.psi_counts.specs.Touch.{AllTouched, HasSlotsBelow, IsBeside, IsOfOne, change_known, account_change, shown, known_first, change_by_cpu};
ghost use Rattle.proc_plan.specs.Plans.{AreSmall};
ghost use Rattle.proc_plan.specs.Room.{AddsKnown, HasRoom, HasRoomFor, HasRoomWithin, changes_in, cpu_number, lists_of};
ghost use Rattle.proc_plan.specs.Sides.{IsSmall};
ghost use Rattle.trace_player.specs.TaskActs.{as_act};

use crate::changes::Changes;
use crate::side::Side;
use crate::sides::SideValues;
use psi_base::{Act, Cpu, NoMemory, Ns, Slot, TriggerSpec};
use psi_counts::{Change, Touch};
use psi_spec::Task;
use task_table::Table;
use trace_player::TaskAct;

// Returns the number of the processor that an event names, or `None` if it names no processor.
#[inline(always)]
fn named_cpu(act: &Act) -> Option<u32>
    ensures { result ≡ (names act.now).cpu }
{
    if let Some(act) = TaskAct::of(act) {
        return act.cpu();
    }
    match act {
        Act::Fork { cpu, .. } | Act::Irq { cpu, .. } => Some(cpu.0),
        _ => None,
    }
}

// Reserves memory for one more change in the list with the index `place`.
#[inline(always)]
fn reserve_place(changes: &mut [Changes], place: usize) -> Result<(), NoMemory>
    requires { place < length changes.old }
    ensures same { lists_of changes.new ≡ lists_of changes.old }
    ensures each { length changes.new ≡ length changes.old }
    ensures unchanged { (cpu : ℕ) → HasRoom changes.old cpu → HasRoom changes.new cpu }
    ensures room { OnOk result (HasRoom changes.new place) }
{
    changes[place].reserve()
}

// Reserves memory for one more change of processor `cpu`. Does nothing if `cpu` is `None` or the
// processor doesn't exist.
#[inline(always)]
fn reserve_at(changes: &mut [Changes], cpu: Option<u32>) -> Result<(), NoMemory>
    ensures same { lists_of changes.new ≡ lists_of changes.old }
    ensures each { length changes.new ≡ length changes.old }
    ensures unchanged { (cpu : ℕ) → HasRoom changes.old cpu → HasRoom changes.new cpu }
    ensures room { OnOk result (IfSome cpu (HasRoomWithin changes.new)) }
{
    let Some(cpu) = cpu else {
        return Ok(());
    };
    let place = cpu as usize;
    if place >= changes.len() {
        return Ok(());
    }
    reserve_place(changes, place)
}

fn reserve_all(changes: &mut [Changes]) -> Result<(), NoMemory>
    ensures same { lists_of changes.new ≡ lists_of changes.old }
    ensures each { length changes.new ≡ length changes.old }
    ensures room { OnOk result ((cpu : ℕ) → HasRoomWithin changes.new cpu) }
{
    'cpus: for place in 0..changes.len() {
        reserve_place(changes, place)?;
    }
    Ok(())
}

#[inline(always)]
fn is_pressure(act: &Act) -> bool
    ensures { result ≡ is_pressure act.now }
{
    matches!(act, Act::Pressure { .. })
}

#[inline(always)]
fn task_cpu(task: Option<Task>) -> Option<u32>
    ensures { result ≡ cpu_number task }
{
    match task {
        Some(task) => Some(task.cpu.0),
        None => None,
    }
}

// Reserves memory for two changes: a change of processor `named`, which an event names, and a
// change of the processor of `task`, which the event changes.
#[inline(always)]
fn reserve_two(
    changes: &mut [Changes],
    named: Option<u32>,
    task: Option<Task>,
) -> Result<(), NoMemory>
    ensures same { lists_of changes.new ≡ lists_of changes.old }
    ensures each { length changes.new ≡ length changes.old }
    ensures named { OnOk result (IfSome named (HasRoomWithin changes.new)) }
    ensures task { OnOk result (IfSome (cpu_number task) (HasRoomWithin changes.new)) }
{
    reserve_at(changes, named)?;
    reserve_at(changes, task_cpu(task))
}

/// Reserves memory for the changes of a task event (`TaskAct`). `task` is the task that the event
/// changes.
#[inline(always)]
pub(crate) fn reserve_task(
    changes: &mut [Changes],
    act: TaskAct,
    task: Option<Task>,
) -> Result<(), NoMemory>
    ensures changes { lists_of changes.new ≡ lists_of changes.old }
    ensures each { length changes.new ≡ length changes.old }
    ensures room { OnOk result (HasRoomFor (as_act act) task changes.new) }
{
    reserve_two(changes, act.cpu(), task)
}

// Reserves memory for a change of each processor that an event affects. These are the processor
// that the event names and the processor of `task`. An event that turns a group's accounting on or
// off affects all processors.
#[inline(always)]
fn reserve_changes(changes: &mut [Changes], act: &Act, task: Option<Task>) -> Result<(), NoMemory>
    ensures same { lists_of changes.new ≡ lists_of changes.old }
    ensures each { length changes.new ≡ length changes.old }
    ensures room { OnOk result (HasRoomFor act.now task changes.new) }
{
    if is_pressure(act) {
        return reserve_all(changes);
    }
    reserve_two(changes, named_cpu(act), task)
}

/// Reserves memory for everything that an event adds to the plans: changes, a trigger and side
/// events. `task` is the task that the event changes.
#[inline(always)]
pub(crate) fn make_room(
    changes: &mut [Changes],
    triggers: &mut Vec<TriggerSpec>,
    sides: &mut Vec<Side>,
    act: &Act,
    task: Option<Task>,
    known: &SideValues,
) -> Result<(), NoMemory>
    ensures changes { lists_of changes.new ≡ lists_of changes.old }
    ensures each { length changes.new ≡ length changes.old }
    ensures triggers { triggers.new.items ≡ triggers.old.items }
    ensures sides { sides.new.items ≡ sides.old.items }
    ensures room { OnOk result (HasRoomFor act.now task changes.new) }
    ensures for_trigger { OnOk result
        (vec_len triggers.new + length (listed known.now.trigger) ≤ vec_capacity triggers.new) }
    ensures for_sides { OnOk result
        (vec_len sides.new + length (listed known.now.first ++ listed known.now.second)
        ≤ vec_capacity sides.new) }
{
    reserve_changes(changes, act, task)?;
    triggers.reserve(usize::from(known.trigger.is_some()))?;
    sides.reserve(usize::from(known.first.is_some()) + usize::from(known.second.is_some()))?;
    Ok(())
}

// Returns the change of a processor for an event at the time `at` (ns) that turns a group's
// accounting on or off. `current` is the running task of the processor. `account` is the slot of
// the group, and whether its accounting is on afterwards.
fn account_change(at: Ns, current: Option<(Slot, bool)>, account: (Slot, bool)) -> Change
    ensures change { result ≡ account_change at current account }
    ensures one { IsOfOne result }
{
    Change {
        at,
        minus: None,
        plus: None,
        current,
        irq: 0,
        account: Some(account),
    }
}

// Appends to the plan of every processor a change at the time `at` (ns) that turns a group's
// accounting on or off. The running tasks stay the same.
fn add_account(changes: &mut [Changes], at: Ns, account: (Slot, bool), table: &Table)
    requires each { length changes.old ≡ table.now.limits.cpus }
    requires room { (cpu : ℕ) → HasRoomWithin changes.old cpu }
    requires slots { (cpu : ℕ) → cpu < table.now.limits.cpus →
        HasSlotsBelow most_groups
        (account_change at (shown (running_on table.now.world.tasks cpu)) account) }
    ensures each { length changes.new ≡ length changes.old }
    ensures added { (cpu : ℕ) → cpu < length changes.old →
        changes_in changes.new cpu ≡ changes_in changes.old cpu
        ++ account_change at (shown (running_on table.now.world.tasks cpu)) account ∷ [] }
{
    'cpus: for cpu in 0..table.cpus() {
        let change = account_change(at, table.current(Cpu(cpu)), account);
        changes[cpu as usize].push(change);
    }
}

// Appends a change to the list of the change's processor. Does nothing for `None`.
#[inline(always)]
fn add_change(changes: &mut [Changes], touched: Option<(Cpu, Change)>)
    requires room { IfSome touched (λ touched. HasRoom changes.old touched.0.0) }
    requires one { IfSome touched (λ touched. IsOfOne touched.1) }
    requires slots { IfSome touched (λ touched. HasSlotsBelow most_groups touched.1) }
    ensures each { length changes.new ≡ length changes.old }
    ensures added { AddsKnown changes.old changes.new (λ cpu. known_first cpu touched None) }
    ensures others { (cpu : ℕ) → known_first cpu touched None ≡ None →
        HasRoom changes.old cpu →
        HasRoom changes.new cpu }
{
    let Some((cpu, change)) = touched else {
        return;
    };
    changes[cpu.0 as usize].push(change);
}

/// Appends the changes of an event that doesn't turn accounting on or off. Preconditions: memory
/// for the changes is reserved, and each change concerns one task or only interrupt time.
#[inline(always)]
pub(crate) fn add_touched(changes: &mut [Changes], touch: &Touch)
    requires room { (cpu : ℕ) → IsSome (change_by_cpu touch.now cpu) → HasRoom changes.old cpu }
    requires beside { IsBeside touch.now.first touch.now.second }
    requires ones { AllTouched (λ cpu change. IsOfOne change) touch.now }
    requires slots { AllTouched (λ cpu change. HasSlotsBelow most_groups change) touch.now }
    ensures each { length changes.new ≡ length changes.old }
    ensures added { AddsKnown changes.old changes.new (change_by_cpu touch.now) }
{
    add_change(changes, touch.first);
    add_change(changes, touch.second);
}

/// Appends the changes of an event at the time `at` (ns). Preconditions: memory for the changes is
/// reserved, each change concerns one task or only interrupt time, and `table` is the table of
/// tasks after the event.
#[inline(always)]
pub(crate) fn add_changes(changes: &mut [Changes], at: Ns, touch: &Touch, table: &Table)
    requires each { length changes.old ≡ table.now.limits.cpus }
    requires room { (cpu : ℕ) → IsSome (change_by_cpu touch.now cpu) → HasRoom changes.old cpu }
    requires all { IsSome touch.now.account → (cpu : ℕ) → HasRoomWithin changes.old cpu }
    requires beside { IsBeside touch.now.first touch.now.second }
    requires ones { AllTouched (λ cpu change. IsOfOne change) touch.now }
    requires slots { AllTouched (λ cpu change. HasSlotsBelow most_groups change) touch.now }
    requires account_slots { IfSome touch.now.account (λ account.
        (cpu : ℕ) → cpu < table.now.limits.cpus →
        HasSlotsBelow most_groups
        (account_change at (shown (running_on table.now.world.tasks cpu)) account)) }
    ensures each { length changes.new ≡ length changes.old }
    ensures added { (cpu : ℕ) → cpu < length changes.old →
        changes_in changes.new cpu ≡ changes_in changes.old cpu ++ with_change
        (change_known at (shown (running_on table.now.world.tasks cpu)) touch.now cpu) [] }
{
    match touch.account {
        Some(account) => add_account(changes, at, account, table),
        None => add_touched(changes, touch),
    }
}

/// Appends a trigger to the list, or does nothing for `None`. Precondition: memory for the trigger
/// is reserved.
#[inline(always)]
pub(crate) fn add_trigger(triggers: &mut Vec<TriggerSpec>, trigger: Option<TriggerSpec>)
    requires { vec_len triggers.old + length (listed trigger) ≤ vec_capacity triggers.old }
    ensures { triggers.new.items ≡ triggers.old.items ++ listed trigger }
{
    if let Some(trigger) = trigger {
        triggers.push_reserved(trigger);
    }
}

/// Appends a side event to the list, or does nothing for `None`. Precondition: memory for the side
/// event is reserved.
#[inline(always)]
pub(crate) fn add_side(sides: &mut Vec<Side>, side: Option<Side>)
    requires room { vec_len sides.old + length (listed side) ≤ vec_capacity sides.old }
    requires few { AreSmall sides.old.items }
    requires one { IfSome side (λ side. IsSmall side.what) }
    ensures sides { sides.new.items ≡ sides.old.items ++ listed side }
    ensures small { AreSmall sides.new.items }
    ensures capacity { vec_capacity sides.new ≡ vec_capacity sides.old }
{
    if let Some(side) = side {
        sides.push_reserved(side);
    }
}

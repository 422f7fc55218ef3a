//! Fills the reading of an evaluation with the values of all live groups.
//!
//! The pressure averages come from the engine. All other values come from the side watch, which
//! follows memory, preferences and tasks.
ghost use Rattle.std.specs.Prelude.{◌≡◌, ◌<◌, ℕ, All, length, take};
ghost use Rattle.pressure_spec.specs.Within.{IsRow};
ghost use Rattle.pressure_spec.specs.Share.{irq_quantity};
ghost use Rattle.kill_spec.specs.LegalReadings.{IsGroupReading};
ghost use Rattle.tick_engine.specs.Engine.{averages_in};
ghost use Rattle.group_tree.specs.Tree.{numbers_of};
ghost use Rattle.replay_rules.specs.Seen.{HasRows, LiveAscend, group_by, read_by};

use detectors::Reading;
use kill_spec::GroupReading;
use pressure_spec::QUANTITIES;
use psi_base::{Ns, Slot, State};
use side_watch::SideWatch;
use tick_engine::{Engine, is_live_at};

/// Returns the averages of a group over 10, 60 and 300 seconds. The rows are `some` and `full` of
/// IO, memory and CPU, in this order.
fn averages_of(engine: &Engine, slot: Slot) -> [[u64; 3]; QUANTITIES - 1]
    requires made { slot.0 < length engine.now.groups }
    requires rows { HasRows engine.now slot.0 }
    ensures averages { result ≡ take irq_quantity (averages_in engine.now slot.0).averages }
    ensures each { All IsRow result }
{
    let averages = engine.averages(slot);
    [
        averages.get(State::IoSome),
        averages.get(State::IoFull),
        averages.get(State::MemSome),
        averages.get(State::MemFull),
        averages.get(State::CpuSome),
        averages.get(State::CpuFull),
    ]
}

/// Returns the values of a group for a reading: its averages after the engine's last tick, and the
/// latest values that the trace reports for the group.
fn read_group(engine: &Engine, watch: &SideWatch, slot: Slot) -> GroupReading
    requires made { slot.0 < length engine.now.groups }
    requires rows { HasRows engine.now slot.0 }
    ensures group { result ≡ group_by engine.now watch.now slot.0 }
    ensures within { IsGroupReading (length engine.now.groups) result }
{
    let memory = watch.memory(slot);
    GroupReading {
        slot,
        averages: averages_of(engine, slot),
        current: memory.current,
        swap: memory.swap,
        scan: memory.scan,
        preference: watch.preference(slot),
        populated: watch.is_populated(slot),
    }
}

/// Starts a new reading at time `at` (ns), and adds the groups that are live at `at`, in the order
/// of `order`. Precondition: `order` has the slots sorted by the paths of their groups. Doesn't
/// allocate.
pub(crate) fn fill_reading(
    reading: &mut Reading,
    engine: &Engine,
    watch: &SideWatch,
    order: &[Slot],
    at: Ns,
)
    requires made { All (λ (slot : Slot). slot.0 < length reading.old.lives) order.now }
    requires unchanged { length engine.now.groups ≡ length reading.old.lives }
    requires rows { (slot : ℕ) → slot < length engine.now.groups → HasRows engine.now slot }
    requires ascend { LiveAscend reading.old.lives at (numbers_of order.now) }
    ensures { reading.new ≡
        read_by engine.now watch.now reading.old.lives at (numbers_of order.now) }
{
    reading.start(at, watch.host());
    'slots: for slot in order {
        if !is_live_at(&reading.lives()[slot.0 as usize], at) {
            continue;
        }
        reading.push(read_group(engine, watch, *slot));
    }
}

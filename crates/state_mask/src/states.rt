//! The list of states, and a table with the mask of states for each combination of conditions on
//! task counts.

ghost use Rattle.std.specs.Prelude.{◌≡◌, ◌<◌};
ghost use Rattle.psi_base.specs.declared.event.State.{State};
ghost use Rattle.psi_counts.specs.Counts.{IsMask, mask_holds, shows};
ghost use Rattle.state_mask.specs.Signs.{place_by};

use crate::mask::Mask;
use psi_base::State;
use psi_counts::Counts;

/// The seven states, ordered by number.
pub const STATES: [State; 7] = [
    State::IoSome,
    State::IoFull,
    State::MemSome,
    State::MemFull,
    State::CpuSome,
    State::CpuFull,
    State::Nonidle,
];

// The mask of states for each index that the function `place` returns. The masks are stored as
// bytes, because a table of `Mask` values would be rebuilt at each use.
const MASKS: [u8; 128] = [
    0, 67, 68, 71, 96, 97, 100, 101, 0, 67, 76, 79, 96, 97, 108, 109, 0, 67, 68, 71, 64, 65, 68,
    69, 0, 67, 76, 79, 64, 65, 76, 77, 0, 67, 68, 71, 96, 97, 100, 101, 0, 67, 76, 79, 96, 97, 108,
    109, 8, 75, 76, 79, 72, 73, 76, 77, 8, 75, 76, 79, 72, 73, 76, 77, 16, 83, 84, 87, 112, 113,
    116, 117, 16, 83, 92, 95, 112, 113, 124, 125, 16, 83, 84, 87, 80, 81, 84, 85, 16, 83, 92, 95,
    80, 81, 92, 93, 16, 83, 84, 87, 112, 113, 116, 117, 16, 83, 92, 95, 112, 113, 124, 125, 24, 91,
    92, 95, 88, 89, 92, 93, 24, 91, 92, 95, 88, 89, 92, 93,
];

// Returns the index in `MASKS` for the task counts of a group. `on_cpu` is whether the processor's
// running task is in the group, and `current_stalled` is whether this task is in a memory stall.
// The index is computed without branches, because a processor would often mispredict them.
fn place(counts: &Counts, on_cpu: bool, current_stalled: bool) -> usize
    ensures place { result ≡ place_by counts.now on_cpu current_stalled }
    ensures within { result < 128 }
{
    let waits = counts.io > 0;
    let stalls = counts.stalled > 0;
    let ready = counts.running > 0;
    let all_stalled = counts.running == counts.stalled_running;
    let beside = counts.running > u32::from(on_cpu);
    usize::from(waits)
        + 2 * usize::from(stalls)
        + 4 * usize::from(ready)
        + 8 * usize::from(all_stalled)
        + 16 * usize::from(on_cpu)
        + 32 * usize::from(current_stalled)
        + 64 * usize::from(beside)
}

/// Returns the states of a group on a processor, from the counts of the group's tasks there.
/// `on_cpu` is whether the processor's running task is in the group, and `current_stalled` is
/// whether the running task is in a memory stall. If both are true, the group is in the state
/// memory full, even if the counts alone don't imply this state.
pub fn mask_of(counts: &Counts, on_cpu: bool, current_stalled: bool) -> Mask
    ensures few { IsMask result }
    ensures states { (state : State) →
        mask_holds result state ≡ shows state counts.now on_cpu current_stalled }
{
    Mask::from_bits(MASKS[place(counts, on_cpu, current_stalled)])
}

//! Finds the position of a processor in the batches of the workers. The processors are distributed
//! over the workers in round-robin order.
ghost use Rattle.std.specs.Prelude.{◌≡◌, ◌+◌, ◌*◌, ◌<◌, ◌/◌, ◌%◌, length};
ghost use Rattle.replay_workers.specs.Lanes.{batch_at, lane_at, lane_of};

use crate::batch::Batch;
use crate::lane::Lane;
use psi_base::Cpu;

/// The position of a processor: the index of its worker's batch, and its index within the batch.
#[derive(Clone, Copy, Debug)]
pub(crate) struct LanePlace {
    pub(crate) worker: usize,
    pub(crate) place: usize,
}

impl LanePlace {
    /// Returns the position of processor `cpu`, if the processors are distributed over `workers`
    /// workers.
    pub(crate) fn of(cpu: Cpu, workers: usize) -> LanePlace
        requires { 0 < workers }
        ensures worker { result.worker ≡ cpu.0 % workers }
        ensures place { result.place ≡ cpu.0 / workers }
    {
        LanePlace {
            worker: cpu.0 as usize % workers,
            place: cpu.0 as usize / workers,
        }
    }

    /// Returns the position of processor 0, which is the same for any number of workers.
    pub(crate) fn first() -> LanePlace
        ensures worker { result.worker ≡ 0 }
        ensures place { result.place ≡ 0 }
    {
        LanePlace {
            worker: 0,
            place: 0,
        }
    }

    /// Returns the position of the next processor. Unlike `of`, this function needs no division.
    pub(crate) fn next(self, workers: usize) -> LanePlace
        requires worker { self.worker < workers }
        requires few { self.place < 64 }
        ensures worker { result.worker < workers }
        ensures next { result.place * workers + result.worker
            ≡ self.place * workers + self.worker + 1 }
    {
        if self.worker + 1 < workers {
            return LanePlace {
                worker: self.worker + 1,
                place: self.place,
            };
        }
        LanePlace {
            worker: 0,
            place: self.place + 1,
        }
    }

    /// Returns the lane (clocks and stored times) at this position.
    pub(crate) fn lane<'b, 'a>(self, batches: &'b [Batch<'a>]) -> &'b Lane<'a>
        requires worker { self.worker < length batches.now }
        requires place { self.place < length (batch_at batches.now self.worker) }
        ensures { result.now ≡ lane_at (batch_at batches.now self.worker) self.place }
    {
        let batch = &batches[self.worker];
        &batch.lanes[self.place]
    }
}

/// Returns the lane (clocks and stored times) of processor `cpu`.
pub(crate) fn lane_in<'b, 'a>(batches: &'b [Batch<'a>], cpu: Cpu) -> &'b Lane<'a>
    requires some { 0 < length batches.now }
    requires place { cpu.0 / length batches.now
        < length (batch_at batches.now (cpu.0 % length batches.now)) }
    ensures { result.now ≡ lane_of batches.now cpu.0 }
{
    LanePlace::of(cpu, batches.len()).lane(batches)
}

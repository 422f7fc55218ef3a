//! A gate that forces the order of a change and a sample.

ghost use Rattle.std.specs.Prelude.{◌≡◌};

use crate::signal::Signal;
use outside::Gate;
use psi_base::Cpu;

/// A gate that forces an order on processor `cpu`: its first sample is taken after change number
/// `count`, counted from 1, and its next change is made after that sample.
#[derive(Drop)]
pub struct SampleBetween {
    cpu: Cpu,
    count: u64,
    moved: Signal,
    sampled: Signal,
}

impl SampleBetween {
    /// Creates the gate for processor `cpu` and change number `count`, before any change or sample.
    pub fn new(cpu: Cpu, count: u64) -> SampleBetween
        ensures { (result.cpu ≡ cpu) × (result.count ≡ count) }
    {
        SampleBetween {
            cpu,
            count,
            moved: Signal::new(),
            sampled: Signal::new(),
        }
    }

    /// Returns whether the change and the sample both happened, and no thread gave up waiting.
    pub fn is_met(&self) -> bool {
        self.moved.is_met() && self.sampled.is_met()
    }
}

impl Gate for SampleBetween {
    fn moved(&self, cpu: Cpu, count: u64) {
        if cpu == self.cpu && count == self.count {
            self.moved.send();
            self.sampled.wait();
        }
    }

    fn before_sample(&self, cpu: Cpu, index: u32) {
        if cpu == self.cpu && index == 0 {
            self.moved.wait();
        }
    }

    fn sampled(&self, cpu: Cpu, _count: u64) {
        if cpu == self.cpu {
            self.sampled.send();
        }
    }
}

//! Points at which tests can pause a thread. The programs use a gate that never pauses.
use psi_base::Cpu;

/// Synchronization points at which a test may make one thread wait for another thread. The calls
/// never change a result.
pub trait Gate: Sync {
    /// Called after a worker has written a change of processor `cpu`. `count` is the number of
    /// changes of the processor that have been written so far.
    fn moved(&self, cpu: Cpu, count: u64);

    /// Called before a live sample of processor `cpu`. `index` is the number (from 0) of the sample
    /// within the interval.
    fn before_sample(&self, cpu: Cpu, index: u32);

    /// Called after a live sample of processor `cpu` that included the first `count` changes of the
    /// processor.
    fn sampled(&self, cpu: Cpu, count: u64);
}

/// A gate that never makes a thread wait. The programs use this gate.
#[derive(Clone, Copy, Debug)]
pub struct OpenGate;

impl Gate for OpenGate {
    fn moved(&self, _cpu: Cpu, _count: u64) {}

    fn before_sample(&self, _cpu: Cpu, _index: u32) {}

    fn sampled(&self, _cpu: Cpu, _count: u64) {}
}

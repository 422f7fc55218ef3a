//! Counts the changes for which a gate is called.

use psi_base::Cpu;
use std::sync::atomic::Ordering::SeqCst;
use std::sync::atomic::{AtomicBool, AtomicU64};

/// The number of calls of a gate for a change of each of two processors, and whether a call of the
/// gate was unexpected.
#[derive(Drop)]
pub struct ChangeCounts {
    counts: [AtomicU64; 2],
    is_wrong: AtomicBool,
}

impl ChangeCounts {
    /// Creates the counts, all of them 0.
    pub fn new() -> ChangeCounts {
        ChangeCounts {
            counts: [AtomicU64::new(0), AtomicU64::new(0)],
            is_wrong: AtomicBool::new(false),
        }
    }

    /// Records an unexpected call, unless `is_right` is `Some(true)`.
    pub fn record(&self, is_right: Option<bool>) {
        if is_right != Some(true) {
            self.is_wrong.store(true, SeqCst);
        }
    }

    /// Counts a call for change number `count` of a processor, counted from 1. Records an
    /// unexpected call if the change doesn't follow the previous change of this processor.
    pub fn add(&self, cpu: Cpu, count: u64) {
        self.record(self.is_next(cpu, count));
    }

    // Counts a call, and returns whether the change follows the previous change, or `None` if there
    // is no such processor.
    fn is_next(&self, cpu: Cpu, count: u64) -> Option<bool> {
        let before = self.counts.get(cpu.0 as usize)?.fetch_add(1, SeqCst);
        Some(before < count && count - before == 1)
    }

    /// Returns the number of changes of each processor.
    pub fn counts(&self) -> [u64; 2] {
        [self.counts[0].load(SeqCst), self.counts[1].load(SeqCst)]
    }

    /// Returns whether no call was unexpected.
    pub fn are_right(&self) -> bool {
        !self.is_wrong.load(SeqCst)
    }
}

//! A signal from one thread of a test to another.

use std::sync::atomic::AtomicBool;
use std::sync::atomic::Ordering::SeqCst;

/// The number of times that a thread checks a signal before it gives up.
const TURNS: u32 = 200_000_000;

/// A signal that one thread sends and other threads wait for. It also records whether a thread gave
/// up waiting.
#[derive(Drop)]
pub struct Signal {
    is_sent: AtomicBool,
    is_missed: AtomicBool,
}

impl Signal {
    /// Makes a signal that hasn't been sent.
    pub fn new() -> Signal {
        Signal {
            is_sent: AtomicBool::new(false),
            is_missed: AtomicBool::new(false),
        }
    }

    /// Sends the signal.
    pub fn send(&self) {
        self.is_sent.store(true, SeqCst);
    }

    /// Waits until the signal is sent, and gives up after `TURNS` checks (a few seconds).
    pub fn wait(&self) {
        for _ in 0..TURNS {
            if self.is_sent.load(SeqCst) {
                return;
            }
        }
        self.is_missed.store(true, SeqCst);
    }

    /// Returns whether the signal was sent, and no thread gave up waiting for it.
    pub fn is_met(&self) -> bool {
        self.is_sent.load(SeqCst) && !self.is_missed.load(SeqCst)
    }
}

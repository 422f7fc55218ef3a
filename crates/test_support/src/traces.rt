//! Traces and times that several test crates use.

use psi_base::Ns;

/// One second (ns).
pub const SECOND: Ns = 1_000_000_000;

/// The last time (ns) that clocks and the engine of ticks support.
pub const LAST_MOMENT: Ns = 60_000_000_000_000_000;

/// A trace of one processor. Its task runs, waits for IO for a second, and is ready until the end.
pub const ONE_PROCESSOR: &str = "psitrace 1 cpus=1\n\
    0 fork 1 / 0\n\
    0 switch 0 1 idle\n\
    500000000 switch 0 0 iowait\n\
    1500000000 wake 1 0\n\
    2000000000 end\n";

/// A trace of two processors and three ticks. The root group is live at each tick, and nothing
/// changes in the second interval.
pub const THREE_TICKS: &str = "psitrace 1 cpus=2\n\
    0 fork 1 / 0\n\
    0 fork 2 / 1\n\
    0 switch 0 1 idle\n\
    500000000 switch 0 0 iowait\n\
    1000000000 switch 1 2 idle\n\
    1500000000 wake 1 0\n\
    4500000000 switch 0 1 idle\n\
    5000000000 switch 1 0 sleep\n\
    6000000000 end\n";

/// The number of changes of each processor in `THREE_TICKS`.
pub const CHANGES: [u64; 2] = [5, 3];

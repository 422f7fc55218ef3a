//! The limits of a trace, and the durations (ns) from which they are computed.
use crate::event::Ns;

/// The maximum number of event lines of a trace, including its last line `end`.
pub const MOST_EVENTS: u32 = 4_000_000;

/// The maximum number of ticks of a trace.
pub const MOST_TICKS: u64 = 1_000_000;

/// One millisecond (ns), which is the minimum length of a tick.
pub const MILLISECOND: Ns = 1_000_000;

/// The default length of a tick (ns): 2 s, as in the kernel.
pub const DEFAULT_TICK: Ns = 2_000_000_000;

/// The latest time (ns) that an event may have with the default tick length: a million ticks.
pub const LATEST: Ns = MOST_TICKS * DEFAULT_TICK;

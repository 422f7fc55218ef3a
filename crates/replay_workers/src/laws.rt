//! Laws of the tables that a worker pool computes, and of their size in memory. Each function has
//! an empty body: its contract is the law.
ghost use Rattle.replay_workers.specs.Crew.{RoomIsSmall, TableIsOfEvents};

/// The table that a worker pool computes for a tick has the stall times and interrupt times that
/// follow from the trace's events up to that tick.
pub fn law_tables()
    ensures { TableIsOfEvents }
{}

/// A worker pool stores at most 64 MB of times for later ticks, unless a single tick needs more.
pub fn law_room()
    ensures { RoomIsSmall }
{}

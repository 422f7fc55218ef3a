//! The worker threads of a replay, which advance the clocks of all processors tick by tick.
//!
//! A `Crew` is the pool of workers. It assigns processor c to worker c % workers. The processors of
//! a worker form its *batch*, and each processor in the batch is a *lane*. An interval is the time
//! from one tick to the next. In each interval, every worker thread applies the changes of its
//! processors up to the tick, and stores the times of every group. The caller then gets the table
//! of times for each tick from `fill`. Starting a thread costs about as much as a busy tick. So the
//! threads usually apply several intervals at once: as many as fit into 64 MB, but at most 256.
//!
//! If a group is watched (`--live`, psi_observe), the pool advances by one interval at a time, and
//! an extra thread samples the clocks at the same time. The clocks are then in seqlocks (the crate
//! clock_row).
//!
//! `make` allocates all memory, so an interval can't fail. The contracts state that the table
//! doesn't depend on the number of workers. They can't state that threads start, or when: tests
//! check this.
#![tactic(auto)]

mod batch;
mod beside;
mod clocks;
mod crew;
mod deal;
mod fill;
mod lane;
mod lane_clocks;
mod laws;
mod place;
mod ticks;
mod watch;

pub use clock_row::{ClockReader, Sample};
pub use clocks::{first_clocks, make_until, own_times};
pub use crew::Crew;
pub use laws::{law_room, law_tables};
pub use ticks::Ticks;

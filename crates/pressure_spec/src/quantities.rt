//! The pressure quantities and the types for their values. A quantity is identified by its index.

/// The length of a list of times of a group on a processor: the times in the seven states, and the
/// interrupt time.
pub const TIMES: usize = 8;

/// The number of pressure quantities: the six states other than nonidle, plus interrupt time.
pub const QUANTITIES: usize = 7;

/// The times (ns) of a group on a processor: one for each state, in the order of the states,
/// followed by interrupt time.
pub type Times = [u64; TIMES];

/// A number for each pressure quantity, such as its share of an interval or its total (ns): the
/// states except nonidle, in their order, followed by interrupt time.
pub type Amounts = [u64; QUANTITIES];

/// The averages of each quantity over 10, 60 and 300 s, as fixed-point numbers.
pub type AverageRows = [[u64; 3]; QUANTITIES];

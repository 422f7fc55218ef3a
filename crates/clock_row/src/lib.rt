//! A sequence lock (seqlock) over the clocks of one processor: one writer, any number of readers.
//!
//! With `--live`, and in psi_observe, other threads sample the clocks of a processor while the
//! writer applies changes. The clocks are in a `Row`, a table of shared 64-bit words. Nothing is
//! locked, and no thread waits for another. Without readers, plain clocks are used instead
//! (proc_plan), because storing a change in a seqlock takes twice as long as in plain clocks. The
//! crate starts no threads, and doesn't decide when samples are taken.
//!
//!     word 0     the sequence number: 2k after k changes, 2k + 1 while the next one is written
//!     word 1..   nine words for each group (slot), which are its clock:
//!                seven times (ns), the mask, the start (ns)
//!
//! The start is the time of the change that last changed the mask. The seven times are how long the
//! group was in each of its seven states up to the start. The mask has a bit for each state that
//! the group has been in since the start. So the nine words determine how long the group has been
//! in a state up to any later time.
//!
//! `Row::make` creates a seqlock and returns its `ClockWriter`. `ClockWriter::reader` creates a
//! `ClockReader`, which may be sent to another thread; any number of readers can be created.
//! `Row::make` fails only if memory runs out, and `reader` only if the seqlock's reference count
//! would overflow.
//!
//! - The writer's `apply` applies the next change of the processor's plan, which is the list of the
//!   changes that a trace makes on the processor. It updates the writer's own clocks, and stores
//!   the nine words of each group whose mask changed. A plan has at most 4,000,000 changes, so the
//!   sequence number doesn't overflow.
//! - A reader's `try_sample` (one group) and `try_sample_all` (all groups) make one attempt. If the
//!   attempt succeeds, they return the clock or clocks, and a number k: each clock is the group's
//!   clock after the first k changes. They return `Busy` if a change was in progress at the first
//!   load of the sequence number, or if one began before the second load.
//! - A reader's `sample_or` makes up to eight attempts to sample one group. If each attempt fails
//!   because of a change, it returns the earlier sample that the caller passed.
//! - The writer's `meet` sends a reader the number of changes applied so far. All later samples of
//!   this reader include at least that many changes.
//! - The writer's `settle` sends the writer the number of changes that a reader has seen: the
//!   greatest number that came with a sample, with `meet` or with the reader's creation. This
//!   number is at most the number of changes applied.
//!
//! `meet` and `settle` synchronise a reader with the writer. Both borrow the writer and the reader
//! exclusively, so the caller must have both during the call. Even without them, the number of
//! changes in a reader's samples never decreases.
//!
//! As in any seqlock, an attempt fails if the sequence number is odd or has changed. This seqlock
//! differs from the kernel's `seqcount` in three ways. A reader gives up after a bounded number of
//! attempts, so it never blocks. Every load and store is sequentially consistent, so no barriers
//! are needed. Each sample says how many changes it includes.
//!
//! For each change, the writer stores only words that differ, and only for groups whose mask
//! changes. It counts tasks and interrupt time in plain clocks of its own.
//!
//! The proof is over atomic steps: each step loads or stores one word, and the steps of all threads
//! are interleaved in any order. There are nine kinds of step:
//!
//!     writer     1 store 2k + 1      2 store words     3 store 2k + 2      (4 load a word)
//!     word 0   ----- 2k ------------------ 2k + 1 --------------- 2k + 2 -----
//!     reader     5 load n     6 load nine words     7 load again: still n, and even? then a sample
//!
//!     8 a reader or a message is created     9 a reader or the writer receives a message
//!
//! A message (`Note`) contains a number of changes. `meet` and `settle` pass messages between the
//! writer and a reader. Steps 8 and 9 load word 0 and ignore its value. The writer, each reader and
//! each message have a handle (`Seat`) for performing steps. A handle has a *view*: ghost state (it
//! exists in contracts only) that says what the handle's owner knows about the seqlock.
//!
//! The invariant is `HoldsRule` (specs/Row); the type `RowRule` attaches it to the table. It says:
//!
//! - The sequence number is twice the writer's number of changes, plus one while a change is in
//!   progress.
//! - If no change is in progress, each group's nine words are its clock after the writer's changes.
//! - The number of changes in each view is at most the number of changes in the writer's view.
//! - If the sequence number is still the even number with which an attempt began, each word that
//!   the attempt loaded is still in the seqlock.
//!
//! There are ten laws. `law_start` says that the invariant holds before the first change. One law
//! for each of the steps 1 to 9 says that the step preserves the invariant, in this order:
//! `law_open`, `law_put`, `law_close`, `law_own`, `law_begin`, `law_load`, `law_end`, `law_split`,
//! `law_take_note`. It follows that the words loaded between two equal, even loads of the sequence
//! number are clocks after a prefix of the changes.
#![tactic(auto)]

mod change;
mod laws;
mod plays;
mod reader;
mod steps;
mod view;
mod words;
mod writer;

pub use laws::{
    law_begin, law_close, law_end, law_load, law_open, law_own, law_put, law_split, law_start,
    law_take_note,
};
pub use reader::{Busy, ClockReader, Sample};
pub use view::{Attempt, Note, ReaderView, RowRule, View, WriterView};
pub use writer::{ClockWriter, Row};

//! The meaning of a trace: the definitions that the contracts of other crates use, their types, and
//! laws about them. No code runs here: other crates compute what these definitions specify.
//!
//! Read the files of `specs/` in this order: `Fields` and `Grammar` (which bytes spell an event),
//! `Header` (the header line), `Names` (the groups, tasks and processors that an act names; an
//! *act* is what an event does), `World` (tasks and groups, and what an event does to them),
//! `Refusal` (which events are legal, and the first cause against an illegal event), `Groups`
//! (which groups are live), `LegalGroups` (the invariant of groups), `Stall` (when a group is in a
//! state, and for how long; how much time interrupts took from it), `Changes` (which events change
//! a processor), `Trace` (which bytes are a trace), `Within` (upper bounds), `Collected` (the
//! triggers that a trace sets). The laws are in `LineLaws` (the grammar) and `Laws` (groups, times
//! and traces).
#![tactic(auto)]

mod groups;
mod laws;
mod machine;

pub use groups::{law_ancestors, law_kept_parents, law_legal_groups};
pub use laws::{law_irq_time, law_stall_time};
pub use machine::{GroupLife, Mode, Task};

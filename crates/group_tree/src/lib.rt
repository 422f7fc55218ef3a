//! The tree of control groups: which groups were created, which of them are live, and the parent of
//! each group.
//!
//! The tree rejects illegal changes and returns the cause. It doesn't contain tasks: task_table
//! checks whether a group still has tasks.
#![tactic(auto)]

mod above;
mod chain;
mod grow;
mod order;
mod tree;

pub use chain::Chain;
pub use tree::Tree;

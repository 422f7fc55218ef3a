//! Tests of observers: the entries that a journal accepts, the order of its entries, gates, and a
//! board with two threads.
mod added;
mod boards;
mod entries;
mod gated;
mod journals;
mod shown;

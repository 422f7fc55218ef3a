//! Tests of basic calls: buffered sinks, the fake files and sinks in memory, lines of files, and
//! numbers and paths at their limits.
mod buffered;
mod fakes;
mod lines;
mod texts;

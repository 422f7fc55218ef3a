//! Tests of the lines of a trace: header lines and event lines, which are parsed, written again, or
//! played in place.
mod events;
mod headers;
mod prefixes;

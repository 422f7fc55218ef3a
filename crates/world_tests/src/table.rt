//! Tests of the table of tasks: which lines of a trace the table rejects, and which changes of
//! processors the accepted lines cause.
mod causes;
mod touches;

//! Tests of rules files: their JSON, the arguments of plugins, path patterns, errors, and rules
//! that are printed as text.
mod faults;
mod forms;
mod json;
mod patterns;
pub mod shown;
mod usual;
mod written;

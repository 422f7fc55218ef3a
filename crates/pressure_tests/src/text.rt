//! Tests of text: the lines that commands print, and the pressure files of groups, which are
//! written and parsed.
mod reading;
mod writing;

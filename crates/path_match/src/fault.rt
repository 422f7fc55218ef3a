//! The reasons why a text isn't a list of patterns.
//!
//! The syntax of patterns is defined in `form`.

/// The reason why a text isn't a list of patterns.
#[derive(Clone, Copy, Debug, PartialEq, Eq)]
pub enum PatternFault {
    /// At least one part isn't a pattern. Commas separate the parts.
    BadPattern,
    /// There are more than 16 patterns.
    TooMany,
}

//! Laws of the grammar of traces, which psi_spec defines in `specs/Grammar`.
//!
//! Each function has an empty body: its contract is the law.
ghost use Rattle.psi_spec.specs.LineLaws.{FindsCauses, HeadedByLine, HeadersSpelled, ReadsSpelled, SpelledApart, SpelledInLine};

/// Laws of event lines. A line is accepted if and only if it is the text of an event whose values
/// are in range. Any other line is rejected with the cause of its leftmost error. The text of an
/// event has at most 512 bytes and no newline, and different events have different texts.
pub fn law_event_lines()
    ensures reads { ReadsSpelled }
    ensures refuses { FindsCauses }
    ensures in_line { SpelledInLine }
    ensures apart { SpelledApart }
{}

/// Laws of header lines. A line is accepted if and only if it is the header of an allowed version
/// of the trace format with 1 to 64 processors. The text of a header is a valid line.
pub fn law_header_lines()
    ensures reads { HeadersSpelled }
    ensures in_line { HeadedByLine }
{}

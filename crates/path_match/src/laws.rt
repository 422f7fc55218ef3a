//! Laws of patterns: how they match paths, and how they are parsed.
//!
//! Each function has an empty body: its contract is the law.
ghost use Rattle.path_match.specs.Laws.{PathMatchesItself, ReadAgain, ReadsPatterns, RootAlone, SlashIsFree, StarMatchesAny, TestShows};

/// Laws of matching. The Boolean test agrees with the relation. The pattern of the root matches
/// only the root, a path as a pattern matches itself and no other path, and a star matches every
/// component.
pub fn law_matching()
    ensures shows { TestShows }
    ensures root { RootAlone }
    ensures itself { PathMatchesItself }
    ensures star { StarMatchesAny }
{}

/// Laws of parsing patterns. A text is accepted if and only if it spells 1 to 16 well-formed
/// patterns. Parsing the text of a list of patterns returns this list (a round trip). A slash
/// before the first component doesn't change a pattern.
pub fn law_reading_patterns()
    ensures spelled { ReadsPatterns }
    ensures again { ReadAgain }
    ensures slash { SlashIsFree }
{}

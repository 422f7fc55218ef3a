//! Laws about rules that are written as text.
//!
//! The function has an empty body, because its contract is the law.
ghost use Rattle.dropin_rules.specs.Laws.{ReadAgain, SameText};

/// Round trip: if rules are in range and their text isn't too long for a rules file, parsing the
/// text returns the same rules. Writing the parsed rules again returns the same text.
pub fn law_text_is_read_again()
    ensures again { ReadAgain }
    ensures same { SameText }
{}

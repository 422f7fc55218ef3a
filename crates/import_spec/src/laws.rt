//! Laws about the searches for positions. Each function has an empty body: its contract is the law.
ghost use Rattle.import_spec.specs.Laws.{FindsFirst, FindsLast, FindsNone};

/// A search returns the first or the last position that passes a test. It returns no position if
/// and only if no position passes.
pub fn law_places()
    ensures first { FindsFirst }
    ensures last { FindsLast }
    ensures none { FindsNone }
{}

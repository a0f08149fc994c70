//! Laws of lines as contracts: each function does nothing, and its clauses are the law.
ghost use Rattle.zst_line.specs.Line.{OneAnswer};

/// Words have one answer, memory aside: one line with all that it says, or one fault at one place.
pub fn line_has_one_answer()
    ensures { OneAnswer }
{}

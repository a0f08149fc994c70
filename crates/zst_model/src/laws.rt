ghost use Rattle.zst_model.specs.fields.RunsOf.{MoreRuns, OneList, RunsArePairs};

/// The runs of a set of pairs are a list that has exactly these pairs.
pub fn runs_are_pairs()
    ensures { RunsArePairs }
{}

/// A set of pairs has one list.
pub fn one_list()
    ensures { OneList }
{}

/// A pair that touches no run before it makes one run more.
pub fn more_runs()
    ensures { MoreRuns }
{}

ghost use Rattle.std.specs.Prelude.{◌≡◌, ◌↔◌, ◌≤◌, ◌<◌, [], true, not, find, length, IsSome, IsNone, IfSome, IfOk};
ghost use Rattle.zst_model.specs.fields.Lists.{Runs, IsRunList, IsLeastFrom, HasNoneFrom, ends_by, has_pair, is_run, is_run_list, stands_before};
ghost use Rattle.zst_model.specs.fields.PushedRuns.{PushesRun, ends_at, last_ends_at};
ghost use Rattle.zst_model.specs.pools.Limits.{most_runs};

use crate::limits::{INDEX_BOUND, MOST_RUNS, NUMBER_BOUND};
use crate::states::cell::Run;
use std::alloc::{AllocError, Global};
use std::marker::Model;

/// The redacted blocks of a redaction bookmark (zfs-redact(8)): pairs of an object's number and an index, in blocks.
/// Its runs rise, and no two of them touch.
#[derive(Drop)]
pub struct List {
    runs: Vec<Run>,
}

impl Model for List {
    ghost Value = { Runs };

    ghost view = { λ l. l.runs.items };

    ghost invariant = { λ l. IsRunList l.runs.items };
}

impl List {
    /// The list of these runs: none where one is empty or out of bounds, or where they fall, overlap or touch.
    pub fn new(runs: Vec<Run>) -> Option<List>
        ensures lawful { IsSome result ↔ IsRunList runs.items }
        ensures same { IfSome result (λ list. list ≡ runs.items) }
    {
        if is_run_list(runs.as_slice()) {
            Some(List { runs })
        } else {
            None
        }
    }

    /// The list of no pairs.
    pub fn empty(alloc: Global) -> List
        ensures { result ≡ [] }
    {
        List {
            runs: Vec::new(alloc),
        }
    }

    /// Its runs, rising.
    pub fn runs(&self) -> &[Run]
        ensures same { result.now ≡ self.now }
        ensures lawful { IsRunList self.now }
    {
        self.runs.as_slice()
    }

    /// Its runs, rising.
    pub fn into_vec(self) -> Vec<Run>
        ensures same { result.items ≡ self }
        ensures lawful { IsRunList self }
    {
        self.runs
    }

    /// Puts in a run that stands behind all pairs: into the last run where that ends at it, and else as
    /// a run of its own, unless the list has as many as it may. Tells whether it did.
    #[tactic(auto, using(std::proofs::lemmas::Bool::Decides::nat_tests), unfolding(crate::specs::pools::Limits::most_runs))]
    pub fn push_run(&mut self, run: Run) -> Result<bool, AllocError>
        requires run { is_run run ≡ true }
        requires behind { HasNoneFrom (has_pair self.old) run.object run.first }
        ensures pushed { IfOk result (PushesRun self.old self.new run) }
        ensures short { length self.old ≤ most_runs → length self.new ≤ most_runs }
        ensures lawful { IsRunList self.new }
    {
        let count = self.runs.len();
        if last_ends_at(self.runs.as_slice(), run.object, run.first) {
            let last = self.runs[count - 1];
            self.runs[count - 1] = Run {
                count: last.count + run.count,
                ..last
            };
            return Ok(true);
        }
        if count >= MOST_RUNS {
            return Ok(false);
        }
        self.runs.push(run)?;
        Ok(true)
    }

    /// Whether this pair is in the list.
    pub fn has(&self, object: u64, block: u64) -> bool
        ensures { result ≡ has_pair self.now object block }
    {
        match self.first_behind(object, block) {
            Some(run) => run.object == object && run.first <= block,
            None => false,
        }
    }

    /// The least pair at or after this one, by object, then by index.
    pub fn next_from(&self, object: u64, block: u64) -> Option<(u64, u64)>
        ensures least { IfSome result (λ pair.
            IsLeastFrom (has_pair self.now) object block pair.0 pair.1) }
        ensures none { IsNone result ↔ HasNoneFrom (has_pair self.now) object block }
    {
        let run = self.first_behind(object, block)?;
        let index = if run.object == object {
            run.first.max(block)
        } else {
            run.first
        };
        Some((run.object, index))
    }

    /// The first run that doesn't end by this pair: of all runs it alone may have the pair.
    pub fn first_behind(&self, object: u64, block: u64) -> Option<Run>
        ensures first { result ≡ find (λ run. not (ends_by run object block)) self.now }
        ensures lawful { IsRunList self.now }
    {
        let runs = self.runs.as_slice();
        let place = runs.partition_point(|run| ends_by(run, object, block));
        runs.get(place).copied()
    }
}

/// Whether each pair of a run stands before this one.
fn ends_by(run: &Run, object: u64, block: u64) -> bool
    ensures { result ≡ ends_by run.now object block }
{
    // A difference, since the sum of the run's numbers may not fit.
    run.object < object
        || run.object == object && run.first <= block && run.count <= block - run.first
}

/// Whether a pair stands at the end of a run, behind its last.
fn ends_at(run: &Run, object: u64, block: u64) -> bool
    ensures { result ≡ ends_at run.now object block }
{
    run.object == object && run.first <= block && run.count == block - run.first
}

/// Whether the last of some runs ends at a pair.
fn last_ends_at(runs: &[Run], object: u64, block: u64) -> bool
    ensures { result ≡ last_ends_at runs.now object block }
{
    match runs.split_last() {
        Some((last, _)) => ends_at(last, object, block),
        None => false,
    }
}

/// Whether a list may have this run.
#[tactic(auto, using(std::proofs::lemmas::Bool::Decides::nat_tests), unfolding(crate::specs::states::State::index_bound, crate::specs::states::State::number_bound))]
fn is_run(run: &Run) -> bool
    ensures { result ≡ is_run run.now }
{
    0 < run.object
        && run.object < NUMBER_BOUND
        && 0 < run.count
        && run.count <= INDEX_BOUND
        && run.first <= INDEX_BOUND - run.count
}

/// Whether a run stands before another without touching it.
#[tactic(auto, using(std::proofs::lemmas::Bool::Decides::nat_tests), unfolding(crate::specs::states::State::index_bound))]
fn stands_before(run: &Run, next: &Run) -> bool
    requires { is_run run.now ≡ true }
    ensures { result ≡ stands_before run.now next.now }
{
    run.object < next.object || run.object == next.object && run.first + run.count < next.first
}

/// Whether these are the runs of a list.
fn is_run_list(runs: &[Run]) -> bool
    ensures { result ≡ is_run_list runs.now }
{
    let Some((first, rest)) = runs.split_first() else {
        return true;
    };
    let mut last = first;
    for run in rest {
        if !is_run(last) || !stands_before(last, run) {
            return false;
        }
        last = run;
    }
    is_run(last)
}

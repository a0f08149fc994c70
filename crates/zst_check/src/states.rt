// The dated states of a directory, in the order of a pool's rows: the snapshots' objects, the heads, and the partial states' objects.
ghost use Rattle.std.specs.Prelude.{◌≡◌, ◌<◌, ◌^◌, ℕ, IfSome, List, None};
ghost use Rattle.zst_block.specs.Blocks.{Has};
ghost use Rattle.zst_image.specs.Reads.{RunsBy};
ghost use Rattle.zst_model.specs.pools.Pool.{Pool};
ghost use Rattle.zst_space.specs.FreeSectors.{FreeSectors};
ghost use Rattle.zst_check.specs.Findings.{IsStateOf, StateAt, name_of, number_of, set_of, state_count};

use zst_dir::{Dataset, Dir, Partial, Snapshot};
use zst_model::NameText;
use zst_tree::ObjSet;

/// A dated state of a directory.
#[derive(Clone, Copy)]
pub(crate) enum State<'a> {
    /// The objects of a snapshot.
    Snapshot { row: &'a Snapshot },
    /// The head of a dataset.
    Head { row: &'a Dataset },
    /// What a partial state has so far.
    Partial { row: &'a Partial },
}

impl State<'_> {
    /// The set that holds it.
    pub(crate) fn set(&self) -> ObjSet
        ensures { result ≡ set_of self.now }
    {
        match self {
            State::Snapshot { row } => row.objects,
            State::Head { row } => row.head,
            State::Partial { row } => row.objects,
        }
    }

    /// The number that none of its dates exceeds: a snapshot's own, and else the pool's.
    pub(crate) fn number(&self, pool: u64) -> u64
        ensures { result ≡ number_of pool self.now }
    {
        match self {
            State::Snapshot { row } => row.number,
            State::Head { .. } | State::Partial { .. } => pool,
        }
    }

    /// The name that a report has for it.
    pub(crate) fn name(&self) -> NameText
        ensures { result ≡ name_of self.now }
    {
        match self {
            State::Snapshot { row } => NameText::new(row.name.text().as_bytes()),
            State::Head { row } => NameText::new(row.name.text().as_bytes()),
            State::Partial { row } => NameText::new(row.target.text().as_bytes()),
        }
    }
}

/// The state at a place of all of them.
pub(crate) fn state_at(dir: &Dir, place: usize) -> Option<State<'_>>
    ensures at { (image : List ℕ) (space : FreeSectors) (pool : Pool) → RunsBy None (Has image space) dir.now pool → StateAt (Has image space) pool place result }
    // Whatever the rows hold, it is one of them, and its place is one of theirs.
    ensures own { IfSome result (IsStateOf dir.now) }
    ensures under { IfSome result (λ state. (place < state_count dir.now) × (place < 2 ^ 62)) }
{
    let snapshots = dir.snapshots();
    if let Some(row) = snapshots.get(place) {
        return Some(State::Snapshot { row });
    }
    let behind = place - snapshots.len();
    let datasets = dir.datasets();
    if let Some(row) = datasets.get(behind) {
        return Some(State::Head { row });
    }
    match dir.partials().get(behind - datasets.len()) {
        Some(row) => Some(State::Partial { row }),
        None => None,
    }
}

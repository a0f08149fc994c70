ghost use Rattle.std.specs.Prelude.{◌≡◌};
ghost use Rattle.zst_dir.specs.RowNames.{NamesSnapshot};
ghost use Rattle.zst_model.specs.pools.Ancestry as plain;
ghost use Rattle.zst_model.specs.pools.Ancestry.{dataset_of_source, number_of_source};
ghost use Rattle.zst_model.specs.pools.Pool as pools;
ghost use Rattle.zst_model.specs.sends.Headers.{guid_of_source, is_elsewhere};
ghost use Rattle.zst_model.specs.sends.SendPlan.{is_earlier, marks, name_of_source};
ghost use Rattle.zst_plan.specs.ResumePlan.{guids_of_source};
ghost use Rattle.zst_plan.specs.Sources.{NamesSource};

use zst_dir::{Bookmark, Snapshot};
use zst_model::{GuidSet, Name};
use zst_names::DatasetName;

/// What an increment is sent from: the row of a snapshot or of a bookmark, and its place in the
/// directory.
#[derive(Clone, Copy)]
pub enum Source<'a> {
    Snapshot { place: usize, row: &'a Snapshot },
    Bookmark { place: usize, row: &'a Bookmark },
}

impl Source<'_> {
    /// The dataset that it is of.
    pub fn dataset(&self) -> DatasetName
        ensures { (source : plain.Source) → NamesSource self.now source → result ≡ dataset_of_source source }
    {
        match self {
            Source::Snapshot { row, .. } => row.name.dataset(),
            Source::Bookmark { row, .. } => row.name.dataset(),
        }
    }

    /// The number of the commit that made its snapshot.
    pub fn number(&self) -> u64
        ensures { (source : plain.Source) → NamesSource self.now source → result ≡ number_of_source source }
    {
        match self {
            Source::Snapshot { row, .. } => row.number,
            Source::Bookmark { row, .. } => row.number,
        }
    }

    /// The guid of its snapshot.
    pub fn guid(&self) -> u64
        ensures { (source : plain.Source) → NamesSource self.now source → result ≡ guid_of_source source }
    {
        match self {
            Source::Snapshot { row, .. } => row.guid,
            Source::Bookmark { row, .. } => row.guid,
        }
    }

    /// Its redaction guids.
    pub fn redact(&self) -> &GuidSet
        ensures { (source : plain.Source) → NamesSource self.now source → result.now ≡ guids_of_source source }
    {
        match self {
            Source::Snapshot { row, .. } => &row.redact,
            Source::Bookmark { row, .. } => &row.redact,
        }
    }

    /// Its name.
    pub fn name(&self) -> Name
        ensures { (source : plain.Source) → NamesSource self.now source → result ≡ name_of_source source }
    {
        match self {
            Source::Snapshot { row, .. } => Name::Snapshot(row.name.duplicate()),
            Source::Bookmark { row, .. } => Name::Bookmark(row.name.duplicate()),
        }
    }

    /// Whether it is of the snapshot's dataset, with a lesser number.
    pub fn is_earlier(&self, later: &Snapshot) -> bool
        ensures { (source : plain.Source) (snapshot : pools.Snapshot) → NamesSource self.now source → NamesSnapshot later.now snapshot → result ≡ is_earlier source snapshot }
    {
        self.dataset() == later.name.dataset() && self.number() < later.number
    }

    /// Whether it is of another dataset than the snapshot.
    pub fn is_elsewhere(&self, to: &Snapshot) -> bool
        ensures { (source : plain.Source) (snapshot : pools.Snapshot) → NamesSource self.now source → NamesSnapshot to.now snapshot → result ≡ is_elsewhere snapshot source }
    {
        self.dataset() != to.name.dataset()
    }

    /// Whether it is this snapshot, or was made of it.
    pub fn marks(&self, marked: &Snapshot) -> bool
        ensures { (source : plain.Source) (snapshot : pools.Snapshot) → NamesSource self.now source → NamesSnapshot marked.now snapshot → result ≡ marks source snapshot }
    {
        match self {
            Source::Snapshot { row, .. } => row.name == marked.name,
            Source::Bookmark { row, .. } => {
                row.name.dataset() == marked.name.dataset()
                    && row.guid == marked.guid
                    && row.number == marked.number
            }
        }
    }
}

ghost use Rattle.std.specs.Prelude.{◌≡◌, ◌+◌, ◌<◌, Option, length, IfSome};
ghost use Rattle.zst_dir.specs.RowNames.{AreNamed, NamesSnapshot};
ghost use Rattle.zst_model.specs.pools.Ancestry as plain;
ghost use Rattle.zst_model.specs.pools.Pool.{Pool, Bookmark as PlainBookmark, Snapshot as PlainSnapshot};
ghost use Rattle.zst_model.specs.sends.Features.{sa_spill};
ghost use Rattle.zst_model.specs.sends.Headers.{Sent, clone_part, free_records, header_of, redacted_part, redaction_guids, source_guids, spill_block};
ghost use Rattle.zst_model.specs.sends.SendPlan.{kind_of};
ghost use Rattle.zst_plan.specs.Places.{FindAlike, StandsAt};
ghost use Rattle.zst_plan.specs.Plans.{IsInside, IsPlanOf, bookmark_source, mark_guids, snapshot_source};
ghost use Rattle.zst_plan.specs.Sources.{NamesSource};

use crate::checks::has_guids;
use crate::flags::{CLONE, FREE_RECORDS, SA_SPILL, SPILL_BLOCK};
use crate::lookups::{bookmark_at, dataset_of};
use crate::source::Source;
use zst_dir::{Dir, Snapshot};
use zst_model::features::REDACTED;
use zst_model::{GuidSet, Header, NameText};

/// What a send is to give, by places in the directory.
#[derive(Clone, Copy)]
pub struct SendPlan {
    /// The place of the snapshot that is sent.
    pub snap: usize,
    /// The number of what it is sent from; a full send has none.
    pub from_number: Option<u64>,
    /// The guid of what it is sent from; a full send states 0.
    pub from_guid: u64,
    /// The place of what it is sent from, where that is a snapshot.
    pub from_snap: Option<usize>,
    /// The place of what it is sent from, where that is a bookmark.
    pub book_f: Option<usize>,
    /// The place of the bookmark of `--redact`.
    pub book_t: Option<usize>,
    /// The flags of BEGIN.
    pub flags: u32,
}

/// The flags of BEGIN: CLONE only where the source is of another dataset.
pub fn flags_of(snapshot: &Snapshot, source: &Option<Source<'_>>) -> u32
    ensures { (to : PlainSnapshot) (from : Option plain.Source) → NamesSnapshot snapshot.now to → FindAlike NamesSource source.now from
        → result ≡ clone_part to from + (free_records + spill_block) }
{
    match source {
        Some(source) => if source.is_elsewhere(snapshot) {
            CLONE | FREE_RECORDS | SPILL_BLOCK
        } else {
            FREE_RECORDS | SPILL_BLOCK
        },
        None => FREE_RECORDS | SPILL_BLOCK,
    }
}

/// The kind of the snapshot's dataset, which is there in each lawful pool.
pub fn kind_of(dir: &Dir, snapshot: &Snapshot) -> u32
    ensures { (pool : Pool) (to : PlainSnapshot) → AreNamed dir.now pool → NamesSnapshot snapshot.now to → result ≡ kind_of pool to }
{
    dataset_of(dir, snapshot).map_or(0, |dataset| dataset.kind)
}

// The redaction guids of the bookmark at this place.
fn guids_at(dir: &Dir, place: Option<usize>) -> GuidSet
    requires { IfSome place (λ p. p < length dir.now.bookmarks) }
    ensures { (pool : Pool) (bookmark : Option PlainBookmark) → AreNamed dir.now pool → FindAlike (StandsAt dir.now.bookmarks pool.bookmarks) place bookmark
        → result ≡ mark_guids bookmark }
{
    bookmark_at(dir, place).map_or_else(GuidSet::empty, |bookmark| bookmark.redact.duplicate())
}

// The redaction guids of the bookmark at this place, or else the snapshot's own.
fn stated_guids(dir: &Dir, snapshot: &Snapshot, place: Option<usize>) -> GuidSet
    requires { IfSome place (λ p. p < length dir.now.bookmarks) }
    ensures { (pool : Pool) (to : PlainSnapshot) (bookmark : Option PlainBookmark) → AreNamed dir.now pool → NamesSnapshot snapshot.now to
        → FindAlike (StandsAt dir.now.bookmarks pool.bookmarks) place bookmark → result ≡ redaction_guids to bookmark }
{
    match bookmark_at(dir, place) {
        Some(bookmark) => bookmark.redact.duplicate(),
        None => snapshot.redact.duplicate(),
    }
}

// The redaction guids of the snapshot at the first place, or else of the bookmark at the other.
fn source_guids(dir: &Dir, from_snap: Option<usize>, book_f: Option<usize>) -> GuidSet
    requires snapshot { IfSome from_snap (λ p. p < length dir.now.snapshots) }
    requires bookmark { IfSome book_f (λ p. p < length dir.now.bookmarks) }
    ensures { (pool : Pool) (source : Option plain.Source) → AreNamed dir.now pool → FindAlike (StandsAt dir.now.snapshots pool.snapshots) from_snap (snapshot_source source)
        → FindAlike (StandsAt dir.now.bookmarks pool.bookmarks) book_f (bookmark_source source) → result ≡ source_guids source }
{
    match from_snap {
        Some(place) => dir.snapshots()[place].redact.duplicate(),
        None => guids_at(dir, book_f),
    }
}

// The features of BEGIN: REDACTED where it states redaction guids.
fn features_of(guids: &GuidSet) -> u32
    ensures { result ≡ redacted_part guids.now + sa_spill }
{
    if has_guids(guids) {
        REDACTED | SA_SPILL
    } else {
        SA_SPILL
    }
}

impl SendPlan {
    /// What BEGIN says of the send.
    pub fn header(&self, dir: &Dir) -> Header
        requires { IsInside dir.now self.now }
        ensures { (pool : Pool) (sent : Sent) → AreNamed dir.now pool → IsPlanOf dir.now pool self.now sent → result ≡ header_of sent }
    {
        let snapshot = &dir.snapshots()[self.snap];
        let redact = stated_guids(dir, snapshot, self.book_t);
        Header {
            kind: kind_of(dir, snapshot),
            flags: self.flags,
            features: features_of(&redact),
            time: snapshot.time,
            to: snapshot.guid,
            from: self.from_guid,
            name: NameText::new(snapshot.name.text().as_bytes()),
            resume: None,
            redact,
            from_redact: source_guids(dir, self.from_snap, self.book_f),
        }
    }
}

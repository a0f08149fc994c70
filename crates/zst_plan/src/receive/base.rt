// What a fresh receive starts from.
ghost use Rattle.std.specs.Prelude.{◌≡◌, false, ◌<◌, ◌&&◌, length, Option, Result, Some, IfOk, IfSome, bytes_eq, find, is_none, nat_lt, option_map};
ghost use Rattle.zst_dir.specs.RowNames.{AreNamed, NamesDataset, NamesSnapshot};
ghost use Rattle.zst_model.specs.declared.refusals.plan_fault.PlanFault.{PlanFault as Fault};
ghost use Rattle.zst_model.specs.pools.Pool.{Pool, Dataset as PlainDataset, Snapshot as PlainSnapshot};
ghost use Rattle.zst_names.specs.Names.{dataset_of};
ghost use Rattle.zst_plan.specs.Places.{AnswerAlike, AnswersSnapshot, FindAlike, Judges, StandsAt};
ghost use Rattle.zst_plan.specs.Receipts.{IsBaseInside, IsBaseOf, TellsHead, TellsNeeded, latest_date};
ghost use Rattle.zst_plan.specs.RecvPlan.{base_by_head, base_for, base_onto, if_increment, if_kind, if_source, is_full, latest_of};
ghost use Rattle.zst_plan.specs.RecvPlan as plain;

use crate::receive::RecvAsk;
use crate::receive::new_dataset::base_anew;
use zst_dir::{Dataset, Dir, Snapshot};
use zst_model::{Header, Holder, Lack, Name, PlanFault, PresentSubject};
use zst_names::{BookName, DatasetName};
use zst_tree::ObjSet;

/// What a fresh receive takes.
#[derive(Clone, Copy)]
pub struct Base {
    /// The place of the snapshot that it starts from.
    pub snapshot: Option<usize>,
    /// Whether the target's head is rolled back to it.
    pub rolls: bool,
}

/// Whether a stream is from nothing.
pub fn is_full(header: &Header) -> bool
    ensures { result ≡ is_full header.now }
{
    header.from == 0
}

/// E19 where the stream is of another kind.
pub fn check_kind(kind: u32, header: &Header) -> Result<(), PlanFault>
    ensures { (rest : Result plain.Base Fault) → Judges (if_kind kind header.now rest) rest result }
{
    if kind != header.kind {
        return Err(PlanFault::Unsupported(Lack::Kind));
    }
    Ok(())
}

/// E10 where the stream is from another guid.
pub fn check_source(guid: u64, header: &Header) -> Result<(), PlanFault>
    ensures { (rest : Result plain.Base Fault) → Judges (if_source guid header.now rest) rest result }
{
    if guid != header.from {
        return Err(PlanFault::NotLatest {
            have: guid,
            want: header.from,
        });
    }
    Ok(())
}

// E4 where the stream or the ask is for a dataset that isn't there yet.
fn check_increment(ask: &RecvAsk, header: &Header, name: &DatasetName) -> Result<(), PlanFault>
    ensures { (rest : Result plain.Base Fault) → Judges (if_increment ask.now header.now name.now rest) rest result }
{
    if is_full(header) || ask.origin.is_some() {
        return Err(PlanFault::Exists(PresentSubject::Named(Name::Dataset(name.duplicate()))));
    }
    Ok(())
}

// The place of the latest snapshot of a dataset.
fn latest_of(dir: &Dir, name: &DatasetName) -> Option<usize>
    ensures inside { IfSome result (λ place. place < length dir.now.snapshots) }
    ensures latest { (pool : Pool) → AreNamed dir.now pool → FindAlike (StandsAt dir.now.snapshots pool.snapshots) result (latest_of name.now pool) }
{
    let mut latest = None;
    for place in 0..dir.snapshots().len() {
        if dir.snapshots()[place].name.dataset() == *name {
            latest = Some(place);
        }
    }
    latest
}

// The latest snapshot of a dataset: E10 where it has none.
fn find_latest(dir: &Dir, name: &DatasetName, header: &Header) -> Result<usize, PlanFault>
    ensures { AnswersSnapshot dir.now (plain.find_latest name.now header.now) result }
{
    latest_of(dir, name).ok_or(PlanFault::NotLatest {
        have: 0,
        want: header.from,
    })
}

// The latest date that a set tells.
fn latest_date(set: &ObjSet) -> u64
    ensures { result ≡ latest_date set.now }
{
    set.tree.past.max(set.tree.root.number)
}

// The first bookmark of a dataset that is later than a number.
fn later_bookmark(dir: &Dir, name: &DatasetName, number: u64) -> Option<BookName>
    ensures { result ≡ option_map (λ bookmark. bookmark.name) (find (λ bookmark. bytes_eq (dataset_of 35 bookmark.name) name.now && nat_lt number bookmark.number) dir.now.bookmarks) }
{
    dir.bookmarks()
        .iter()
        .find(|bookmark| bookmark.name.dataset() == *name && number < bookmark.number)
        .map(|bookmark| bookmark.name.duplicate())
}

// Whether the head goes back to the latest snapshot, which it must with a later date: E9 without
// `-F`, and E5 where a later bookmark would be lost.
fn goes_back(
    dir: &Dir,
    force: bool,
    dataset: &Dataset,
    latest: &Snapshot,
) -> Result<bool, PlanFault>
    ensures { (pool : Pool) (target : PlainDataset) (snapshot : PlainSnapshot) → AreNamed dir.now pool → NamesDataset dataset.now target → TellsHead dataset.now target → NamesSnapshot latest.now snapshot
        → AnswerAlike (λ rolls base. base ≡ record { snapshot = Some snapshot; rolls = rolls }) result (base_by_head force target snapshot pool) }
{
    if latest_date(&dataset.head) <= latest.number {
        return Ok(false);
    }
    if !force {
        return Err(PlanFault::Modified(dataset.name.duplicate()));
    }
    match later_bookmark(dir, &dataset.name, latest.number) {
        Some(name) => Err(PlanFault::Busy(Holder::Bookmark(name))),
        None => Ok(true),
    }
}

// A dataset that is there takes an increment from its latest snapshot: E4, E10, E19, E9, E5.
fn base_onto(
    dir: &Dir,
    ask: &RecvAsk,
    header: &Header,
    dataset: &Dataset,
) -> Result<Base, PlanFault>
    ensures inside { IfOk result (IsBaseInside dir.now) }
    ensures exact { (pool : Pool) (target : PlainDataset) → AreNamed dir.now pool → NamesDataset dataset.now target → (is_full header.now ≡ false → TellsHead dataset.now target)
        → AnswerAlike (IsBaseOf dir.now pool) result (base_onto ask.now header.now pool target) }
{
    check_increment(ask, header, &dataset.name)?;
    let place = find_latest(dir, &dataset.name, header)?;
    let latest = &dir.snapshots()[place];
    check_source(latest.guid, header)?;
    check_kind(dataset.kind, header)?;
    let rolls = goes_back(dir, ask.force, dataset, latest)?;
    Ok(Base {
        snapshot: Some(place),
        rolls,
    })
}

/// What a fresh receive into the target starts from.
pub fn base_for(dir: &Dir, ask: &RecvAsk, header: &Header) -> Result<Base, PlanFault>
    ensures inside { IfOk result (IsBaseInside dir.now) }
    ensures exact { (pool : Pool) → AreNamed dir.now pool → TellsNeeded dir.now pool ask.now header.now → AnswerAlike (IsBaseOf dir.now pool) result (base_for ask.now header.now pool) }
{
    match dir.dataset(&ask.target) {
        Some(place) => base_onto(dir, ask, header, &dir.datasets()[place]),
        None => base_anew(dir, ask, header),
    }
}

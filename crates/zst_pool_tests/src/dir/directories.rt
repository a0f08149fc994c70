// Directories of a few rows.
ghost use Rattle.std.specs.Prelude.{◌≡◌, ◌<◌, None};
ghost use Rattle.zst_dir.specs.Rows.{IsDatasetRow, IsSnapshotRow};

use std::alloc::Global;
use std::test::Fail;
use zst_dir::{Dataset, Dir, Snapshot};
use zst_model::GuidSet;
use zst_names::{DatasetName, SnapName};
use zst_tree::ObjSet;

/// A file system that has nothing.
fn file_system(name: DatasetName) -> Dataset
    ensures row { IsDatasetRow result }
    ensures name { result.name ≡ name }
    ensures origin { result.origin ≡ None }
{
    let _ = name.text();
    Dataset {
        name,
        kind: 2,
        origin: None,
        head: ObjSet::empty(),
        redact: GuidSet::empty(),
    }
}

/// A snapshot that has nothing.
fn snapshot(name: SnapName, guid: u64, number: u64) -> Snapshot
    requires guid { 0 < guid }
    ensures row { IsSnapshotRow result }
    ensures name { result.name ≡ name }
{
    let _ = name.text();
    Snapshot {
        name,
        guid,
        time: 8,
        number,
        objects: ObjSet::empty(),
        redact: GuidSet::empty(),
    }
}

pub(super) fn add_dataset(dir: &mut Dir, text: &str) -> Result<(), Fail> {
    let name = DatasetName::parse(text)?;
    if dir.dataset(&name).is_some() {
        return Err(Fail::new("the dataset is there"));
    }
    dir.add_dataset(file_system(name))?;
    Ok(())
}

pub(super) fn add_snapshot(dir: &mut Dir, text: &str, guid: u64, number: u64) -> Result<(), Fail> {
    let name = SnapName::parse(text)?;
    if dir.dataset(&name.dataset()).is_none() {
        return Err(Fail::new("no such dataset"));
    }
    if dir.snapshot(&name).is_some() {
        return Err(Fail::new("the snapshot is there"));
    }
    if !dir.partials().is_empty() {
        return Err(Fail::new("a partial state is there"));
    }
    if guid == 0 {
        return Err(Fail::new("no snapshot has this guid"));
    }
    dir.add_snapshot(snapshot(name, guid, number))?;
    Ok(())
}

/// The words of an encoding, each in 8 bytes, the lowest first.
pub(super) fn bytes_of(alloc: Global, words: &[u64]) -> Result<Vec<u8>, Fail> {
    let mut bytes = Vec::new(alloc);
    for word in words {
        bytes.extend_from_slice(&word.to_le_bytes())?;
    }
    Ok(bytes)
}

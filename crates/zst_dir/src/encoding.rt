ghost use Rattle.std.specs.Prelude.{◌≡◌, ◌++◌, List, bytes_eq, IfOk, OnOk};
ghost use Rattle.std.specs.List.{prefix_len};
ghost use Rattle.zst_names.specs.Names.{dataset_of};
ghost use Rattle.zst_dir.specs.Spelling.{IsDir, name_bytes, snapshot_bytes, snapshots_of, rows_bytes, dataset_bytes, bookmark_bytes, header_bytes, partial_bytes};
ghost use Rattle.zst_dir.specs.declared.rows.Snapshot.{Snapshot};

use crate::dir::Dir;
use crate::rows::{Bookmark, Dataset, Partial, Snapshot};
use std::alloc::{AllocError, Global};
use zst_bytes::{push_text, push_word, push_words};
use zst_model::Header;
use zst_names::{DatasetName, SnapName};
use zst_tree::{push_ptr, push_set};

impl Dir {
    /// The bytes of the directory: its datasets, each with its snapshots behind it, its bookmarks
    /// and its partial states, each list behind its count.
    pub fn encode(&self, alloc: Global) -> Result<Vec<u8>, AllocError>
        ensures { IfOk result (λ bytes. IsDir self.now bytes.items) }
    {
        let mut out = Vec::new(alloc);
        self.push_datasets(&mut out)?;
        push_bookmarks(&mut out, self.bookmarks.as_slice())?;
        push_partials(&mut out, self.partials.as_slice())?;
        Ok(out)
    }

    // Appends the datasets. Snapshots stand in the order of their datasets, so those of a dataset
    // are the next of all.
    fn push_datasets(&self, out: &mut Vec<u8>) -> Result<(), AllocError>
        ensures { OnOk result (out.new.items ≡ out.old.items ++ rows_bytes (dataset_bytes self.now.snapshots) self.now.datasets) }
    {
        push_word(out, self.datasets.len() as u64)?;
        let mut rest = self.snapshots.as_slice();
        for dataset in &self.datasets {
            let (own, later) = rest.split_at(count_in_front(&dataset.name, rest));
            push_dataset(out, dataset, own)?;
            rest = later;
        }
        Ok(())
    }
}

// How many snapshots of the dataset stand in front.
fn count_in_front(dataset: &DatasetName, snapshots: &[Snapshot]) -> usize
    ensures { result ≡ prefix_len (λ snapshot. bytes_eq (dataset_of 64 snapshot.name) dataset.now) snapshots.now }
{
    snapshots
        .iter()
        .take_while(|snapshot| snapshot.name.dataset() == *dataset)
        .count()
}

// Appends a dataset and behind it its snapshots, which are those of it among all.
fn push_dataset(out: &mut Vec<u8>, dataset: &Dataset, own: &[Snapshot]) -> Result<(), AllocError>
    ensures { (all : List Snapshot) → own.now ≡ snapshots_of dataset.now.name all → OnOk result (out.new.items ≡ out.old.items ++ dataset_bytes all dataset.now) }
{
    push_text(out, dataset.name.text().as_bytes())?;
    push_word(out, u64::from(dataset.kind))?;
    push_name(out, &dataset.origin)?;
    push_set(out, &dataset.head)?;
    push_words(out, dataset.redact.as_slice())?;
    push_snapshots(out, own)
}

fn push_snapshots(out: &mut Vec<u8>, snapshots: &[Snapshot]) -> Result<(), AllocError>
    ensures { OnOk result (out.new.items ≡ out.old.items ++ rows_bytes snapshot_bytes snapshots.now) }
{
    push_word(out, snapshots.len() as u64)?;
    for snapshot in snapshots {
        push_snapshot(out, snapshot)?;
    }
    Ok(())
}

fn push_bookmarks(out: &mut Vec<u8>, bookmarks: &[Bookmark]) -> Result<(), AllocError>
    ensures { OnOk result (out.new.items ≡ out.old.items ++ rows_bytes bookmark_bytes bookmarks.now) }
{
    push_word(out, bookmarks.len() as u64)?;
    for bookmark in bookmarks {
        push_bookmark(out, bookmark)?;
    }
    Ok(())
}

fn push_partials(out: &mut Vec<u8>, partials: &[Partial]) -> Result<(), AllocError>
    ensures { OnOk result (out.new.items ≡ out.old.items ++ rows_bytes partial_bytes partials.now) }
{
    push_word(out, partials.len() as u64)?;
    for partial in partials {
        push_partial(out, partial)?;
    }
    Ok(())
}

// Appends a snapshot by its component, since it stands behind its dataset.
fn push_snapshot(out: &mut Vec<u8>, snapshot: &Snapshot) -> Result<(), AllocError>
    ensures { OnOk result (out.new.items ≡ out.old.items ++ snapshot_bytes snapshot.now) }
{
    push_text(out, snapshot.name.component().as_bytes())?;
    push_word(out, snapshot.guid)?;
    push_word(out, snapshot.time)?;
    push_word(out, snapshot.number)?;
    push_set(out, &snapshot.objects)?;
    push_words(out, snapshot.redact.as_slice())
}

fn push_bookmark(out: &mut Vec<u8>, bookmark: &Bookmark) -> Result<(), AllocError>
    ensures { OnOk result (out.new.items ≡ out.old.items ++ bookmark_bytes bookmark.now) }
{
    push_text(out, bookmark.name.text().as_bytes())?;
    push_word(out, bookmark.guid)?;
    push_word(out, bookmark.time)?;
    push_word(out, bookmark.number)?;
    push_words(out, bookmark.redact.as_slice())?;
    push_word(out, bookmark.runs)?;
    push_word(out, u64::from(bookmark.levels))?;
    push_ptr(out, &bookmark.root)
}

fn push_partial(out: &mut Vec<u8>, partial: &Partial) -> Result<(), AllocError>
    ensures { OnOk result (out.new.items ≡ out.old.items ++ partial_bytes partial.now) }
{
    push_text(out, partial.target.text().as_bytes())?;
    push_text(out, partial.snapshot.as_bytes())?;
    push_word(out, u64::from(partial.keep))?;
    push_header(out, &partial.header)?;
    push_name(out, &partial.base)?;
    push_set(out, &partial.objects)?;
    push_word(out, partial.point.object)?;
    push_word(out, partial.point.offset)
}

// Appends a header, which has no resume point here.
fn push_header(out: &mut Vec<u8>, header: &Header) -> Result<(), AllocError>
    ensures { OnOk result (out.new.items ≡ out.old.items ++ header_bytes header.now) }
{
    push_word(out, u64::from(header.kind))?;
    push_word(out, u64::from(header.flags))?;
    push_word(out, u64::from(header.features))?;
    push_word(out, header.time)?;
    push_word(out, header.to)?;
    push_word(out, header.from)?;
    push_text(out, header.name.as_bytes())?;
    push_words(out, header.redact.as_slice())?;
    push_words(out, header.from_redact.as_slice())
}

// Appends a name, or an empty text where there is none.
fn push_name(out: &mut Vec<u8>, name: &Option<SnapName>) -> Result<(), AllocError>
    ensures { OnOk result (out.new.items ≡ out.old.items ++ name_bytes name.now) }
{
    match name {
        Some(name) => push_text(out, name.text().as_bytes()),
        None => push_text(out, &[]),
    }
}

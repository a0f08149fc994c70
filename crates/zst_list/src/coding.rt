// A list and its bytes.
ghost use Rattle.std.specs.Prelude.{◌≡◌, ◌==◌, ◌%◌, ◌<◌, ◌^◌, ◌++◌, [], ℕ, List, length, Some, IfOk, IfSome, OnOk};
ghost use Rattle.std.specs.Bool.{OnTrue};
ghost use Rattle.zst_model.specs.declared.states.cell.Run.{Run};
ghost use Rattle.zst_model.specs.fields.Lists.{Runs};
ghost use Rattle.zst_list.specs.RunReads.{FitsWords, ReadsRun, ReadsRuns};
ghost use Rattle.zst_list.specs.Spelling.{IsList, list_bytes, placed_bytes};

use std::alloc::{AllocError, Global};
use zst_bytes::{Cursor, push_word};
use zst_model::{List, Run};

/// A leaf of 8,192 bytes has so many runs of 24 bytes, and 8 zeros behind them.
pub(crate) const RUNS_IN_LEAF: u64 = 341;

// Whether the run at this place is the last of its leaf.
fn is_last_of_leaf(place: u64) -> bool
    ensures { result ≡ (place % 341 == 340) }
{
    place % RUNS_IN_LEAF == RUNS_IN_LEAF - 1
}

// Appends a run at this place of a list, and what stands behind it.
#[tactic(auto, unfolding(crate::specs::Spelling::run_bytes, zst_bytes::specs::Fields::zeros))]
fn push_run(out: &mut Vec<u8>, place: u64, run: &Run) -> Result<(), AllocError>
    ensures { OnOk result (out.new.items ≡ out.old.items ++ placed_bytes place run.now) }
{
    push_word(out, run.object)?;
    push_word(out, run.first)?;
    push_word(out, run.count)?;
    if is_last_of_leaf(place) {
        out.extend_from_slice(&[0; 8])?;
    }
    Ok(())
}

/// The bytes of a list.
pub fn encode_list(alloc: Global, runs: &[Run]) -> Result<Vec<u8>, AllocError>
    ensures { IfOk result (λ bytes. bytes.items ≡ list_bytes runs.now) }
{
    let mut bytes = Vec::new(alloc);
    for (place, run) in runs.iter().enumerate() {
        push_run(&mut bytes, place as u64, run)?;
    }
    Ok(bytes)
}

// The next run, at this place of a list.
#[tactic(auto, unfolding(crate::specs::Spelling::run_bytes, zst_bytes::specs::Fields::zeros))]
fn read_run(cursor: &mut Cursor<'_>, place: u64) -> Option<Run>
    ensures { ReadsRun place cursor.old cursor.new result }
{
    let object = cursor.word()?;
    let first = cursor.word()?;
    let count = cursor.word()?;
    if is_last_of_leaf(place) {
        cursor.bytes(8)?;
    }
    Some(Run {
        object,
        first,
        count,
    })
}

// Reads so many runs, and puts them behind none. Tells whether they stand there.
fn read_runs(bytes: &[u8], count: u64, runs: &mut Vec<Run>) -> Result<bool, AllocError>
    requires { runs.old.items ≡ [] }
    ensures long { IfOk result (λ read. OnTrue read (length runs.new.items ≡ count)) }
    ensures exact { ReadsRuns count bytes.now runs.new.items result }
{
    let mut cursor = Cursor::new(bytes);
    for place in 0..count {
        match read_run(&mut cursor, place) {
            Some(run) => runs.push(run)?,
            None => return Ok(false),
        }
    }
    Ok(true)
}

/// The list of so many runs that has these bytes, and none where no list has them.
pub fn decode_list(alloc: Global, bytes: &[u8], count: u64) -> Result<Option<List>, AllocError>
    ensures only { IfOk result (λ list. IfSome list (λ runs. IsList count runs bytes.now)) }
    ensures found { (runs : Runs) → IsList count runs bytes.now → IfOk result (λ list. list ≡ Some runs) }
{
    let mut runs = Vec::new(alloc);
    if !read_runs(bytes, count, &mut runs)? {
        return Ok(None);
    }
    let Some(list) = List::new(runs) else {
        return Ok(None);
    };
    // Bytes behind a leaf's last run, and behind the last of all, make it another text.
    if encode_list(alloc, list.runs())?.as_slice() == bytes {
        Ok(Some(list))
    } else {
        Ok(None)
    }
}

ghost use Rattle.std.specs.Prelude.{◌≡◌, IfOk, IfSome, Some};
ghost use Rattle.zst_dir.specs.Rows.{Rows};
ghost use Rattle.zst_dir.specs.Spelling.{IsDir};

use crate::dir::Dir;
use crate::lists::{read_bookmarks, read_datasets, read_partials};
use crate::row_checks::is_lawful;
use std::alloc::{AllocError, Global};
use zst_bytes::Cursor;

impl Dir {
    /// The directory that has these bytes, and none where no lawful directory has them.
    pub fn decode(alloc: Global, bytes: &[u8]) -> Result<Option<Dir>, AllocError>
        ensures only { IfOk result (λ dir. IfSome dir (λ rows. IsDir rows bytes.now)) }
        ensures found { (rows : Rows) → IsDir rows bytes.now → IfOk result (λ dir. dir ≡ Some rows) }
    {
        let Some(dir) = read_dir(alloc, bytes)? else {
            return Ok(None);
        };
        // Bytes that no field names, and bytes behind the last row, make it another text.
        if dir.encode(alloc)?.as_slice() == bytes {
            Ok(Some(dir))
        } else {
            Ok(None)
        }
    }
}

// The directory of the rows in front, where they are lawful.
fn read_dir(alloc: Global, bytes: &[u8]) -> Result<Option<Dir>, AllocError>
    ensures { (rows : Rows) → IsDir rows bytes.now → IfOk result (λ dir. dir ≡ Some rows) }
{
    let mut cursor = Cursor::new(bytes);
    let mut datasets = Vec::new(alloc);
    let mut snapshots = Vec::new(alloc);
    if !read_datasets(&mut cursor, &mut datasets, &mut snapshots)? {
        return Ok(None);
    }
    let mut bookmarks = Vec::new(alloc);
    if !read_bookmarks(&mut cursor, &mut bookmarks)? {
        return Ok(None);
    }
    let mut partials = Vec::new(alloc);
    if !read_partials(&mut cursor, &mut partials)? {
        return Ok(None);
    }
    if !is_lawful(alloc, &datasets, &snapshots, &bookmarks, &partials)? {
        return Ok(None);
    }
    Ok(Some(Dir {
        datasets,
        snapshots,
        bookmarks,
        partials,
    }))
}

ghost use Rattle.std.specs.Prelude.{◌≡◌, ◌≤◌, ◌++◌, List, ℕ, OnOk, IfSome, Some};
ghost use Rattle.zst_block.specs.Ptr.{ptr_bytes, PtrFits};
ghost use Rattle.zst_block.specs.declared.ptr.Ptr.{Ptr};
ghost use Rattle.zst_tree.specs.Sets.{set_bytes, SetFits};
ghost use Rattle.zst_tree.specs.declared.tree.ObjSet.{ObjSet};

use crate::tree::{ObjSet, Tree};
use std::alloc::AllocError;
use zst_block::Ptr;
use zst_bytes::{Cursor, push_word};

/// Appends the 64 bytes of a pointer.
pub fn push_ptr(out: &mut Vec<u8>, ptr: &Ptr) -> Result<(), AllocError>
    ensures bytes { OnOk result (out.new.items ≡ out.old.items ++ ptr_bytes ptr.now) }
    ensures fits { PtrFits ptr.now }
{
    let mut bytes = [0; 64];
    ptr.put(&mut bytes, 0);
    out.extend_from_slice(&bytes)
}

/// Appends the 80 bytes of an object set.
pub fn push_set(out: &mut Vec<u8>, set: &ObjSet) -> Result<(), AllocError>
    ensures bytes { OnOk result (out.new.items ≡ out.old.items ++ set_bytes set.now) }
{
    push_word(out, u64::from(set.tree.levels))?;
    push_word(out, set.tree.past)?;
    push_ptr(out, &set.tree.root)
}

/// Reads the next pointer. Bytes that no field names are passed over.
pub fn read_ptr(cursor: &mut Cursor<'_>) -> Option<Ptr>
    ensures exact { (ptr : Ptr) (rest : List ℕ) → PtrFits ptr → cursor.old ≡ ptr_bytes ptr ++ rest → (result ≡ Some ptr) × (cursor.new ≡ rest) }
    ensures fits { IfSome result PtrFits }
{
    let bytes = cursor.bytes(64)?;
    Some(Ptr::get(bytes, 0))
}

/// Reads the next object set, where it has at most 7 levels.
pub fn read_set(cursor: &mut Cursor<'_>) -> Option<ObjSet>
    ensures exact { (set : ObjSet) (rest : List ℕ) → SetFits set → cursor.old ≡ set_bytes set ++ rest → (result ≡ Some set) × (cursor.new ≡ rest) }
    ensures fits { IfSome result SetFits }
{
    let levels = cursor.word()?;
    let past = cursor.word()?;
    let root = read_ptr(cursor)?;
    if levels > 7 {
        return None;
    }
    Some(ObjSet {
        tree: Tree {
            levels: levels as u8,
            past,
            root,
        },
    })
}

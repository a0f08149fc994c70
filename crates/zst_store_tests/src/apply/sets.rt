// Sets on disks in memory, and what records make of them.
ghost use Rattle.std.specs.Prelude.{◌≡◌};
ghost use Rattle.zst_apply.specs.AppliedRecords.{IsOfStream};

use std::process::Abort;
use zst_apply::apply;
use zst_block::Io;
use zst_model::Cell;
use zst_objset::{ObjFault, Objects};
use zst_outside::Disk;
use zst_record::{Head, Record};
use zst_tree::ObjSet;

// The flag of a stream that has a SPILL behind the OBJECT of each object with a spill block.
pub(super) const SPILL_BLOCK: u32 = 8;

// Applies a record with this head, and a payload of this byte alone, as record 3 in commit 7.
pub(super) fn give<D: Disk>(
    rt: &impl Abort,
    io: &mut Io<'_, D>,
    set: &mut ObjSet,
    head: &Head,
    byte: u8,
    flags: u32,
) -> Result<(), ObjFault>
    requires head { IsOfStream head.now }
    ensures same { io.new.disk.ghost_name ≡ io.old.disk.ghost_name }
{
    let bytes = [byte; 1536];
    let count = head.payload_len();
    assert!(rt; count <= 1536);
    let covered = Record {
        head,
        at: 936,
        index: 3,
        payload: &bytes[..count as usize],
    };
    apply(io, set, &covered, flags, 7)
}

// Applies one that is accepted.
pub(super) fn accept<D: Disk>(
    rt: &impl Abort,
    io: &mut Io<'_, D>,
    set: &mut ObjSet,
    head: &Head,
    byte: u8,
)
    requires head { IsOfStream head.now }
    ensures same { io.new.disk.ghost_name ≡ io.old.disk.ghost_name }
{
    let answer = give(rt, io, set, head, byte, SPILL_BLOCK);
    assert!(rt; answer == Ok(()), "{answer:?}");
}

// Applies one that is refused, and leaves the set.
pub(super) fn refuse<D: Disk>(
    rt: &impl Abort,
    io: &mut Io<'_, D>,
    set: &mut ObjSet,
    head: &Head,
    want: ObjFault,
)
    requires head { IsOfStream head.now }
    ensures same { io.new.disk.ghost_name ≡ io.old.disk.ghost_name }
{
    let old = *set;
    let answer = give(rt, io, set, head, 1, SPILL_BLOCK);
    assert!(rt; answer == Err(want) && *set == old, "{want:?}, {answer:?}");
}

// Checks what an index of an object is read as: data of this byte alone, or none.
pub(super) fn check_index<D: Disk>(
    rt: &impl Abort,
    io: &mut Io<'_, D>,
    set: &ObjSet,
    index: u64,
    want: Result<Cell, ObjFault>,
    byte: u8,
)
    ensures same { io.new.disk.ghost_name ≡ io.old.disk.ghost_name }
{
    let mut into = [0xee; 512];
    let answer = set.read_block(io, 1, index, &mut into);
    assert!(rt; answer == want, "index {index}: {answer:?}");
    if answer.is_ok() {
        assert!(rt; into.iter().all(|other| *other == byte), "index {index}");
    }
}

pub(super) fn hole<D: Disk>(rt: &impl Abort, io: &mut Io<'_, D>, set: &ObjSet, index: u64)
    ensures same { io.new.disk.ghost_name ≡ io.old.disk.ghost_name }
{
    check_index(rt, io, set, index, Ok(Cell::Hole), 0);
}

pub(super) fn data<D: Disk>(rt: &impl Abort, io: &mut Io<'_, D>, set: &ObjSet, index: u64, byte: u8)
    ensures same { io.new.disk.ghost_name ≡ io.old.disk.ghost_name }
{
    check_index(rt, io, set, index, Ok(Cell::Data), byte);
}

// What is told of object 1: its block size, the length of its bonus, the first byte of that, and
// whether it has a spill block.
pub(super) fn told<D: Disk>(io: &mut Io<'_, D>, set: &ObjSet) -> Option<(u32, u32, u8, bool)>
    ensures same { io.new.disk.ghost_name ≡ io.old.disk.ghost_name }
{
    match set.attr(io, 1) {
        Ok(Some(dnode)) => {
            let has_spill = dnode.spill.kind == 1;
            Some((dnode.block_size, dnode.bonus_len, dnode.bonus[0], has_spill))
        }
        _ => None,
    }
}

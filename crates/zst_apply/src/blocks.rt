//! The records that say what stands at indices of an object: WRITE, FREE and REDACT.
ghost use Rattle.std.specs.Prelude.{◌≡◌, ◌+◌, ◌/◌, ◌<◌, ℕ, IfErr, IfOk, length};
ghost use Rattle.zst_block.specs.IoCalls.{Looks};
ghost use Rattle.zst_block.specs.IoStates.{IsHonest, blocks_of, disk_of, io_of};
ghost use Rattle.zst_model.specs.declared.states.item.Change.TheVariants.{Write};
ghost use Rattle.zst_model.specs.declared.states.item.Item.TheVariants.{At};
ghost use Rattle.zst_model.specs.sends.ReceivedRecords.{received};
ghost use Rattle.zst_model.specs.states.DatedState.{DatedState};
ghost use Rattle.zst_tree.specs.Damage.{IsSeen};
ghost use Rattle.zst_objset.specs.Answers.{FindsThere, NotLimit, NotRedacted, stop_of};
ghost use Rattle.zst_objset.specs.Damage.{IfSetDamaged, IsDamagedSet};
ghost use Rattle.zst_objset.specs.Sets.{SetHolds};
ghost use Rattle.zst_apply.specs.Changed.{Changed};
ghost use Rattle.zst_apply.specs.Fills.{change_of, range_check};

use crate::checks::{check_free, check_redact, check_write};
use crate::cut_ranges::freed_indices;
use zst_block::Io;
use zst_dnode::Dnode;
use zst_model::ApplyFault;
use zst_objset::{ObjFault, Objects};
use zst_outside::Disk;
use zst_tree::ObjSet;

/// What a record fills a range of an object with.
#[derive(Clone, Copy)]
pub(crate) enum Fill {
    /// Holes, in a range or to the end.
    Holes,
    /// Redacted blocks, of user data alone.
    Redacted,
}

// The dnode of an object that has to be there.
fn object_there<D: Disk>(io: &mut Io<'_, D>, set: &ObjSet, object: u64) -> Result<Dnode, ObjFault>
    requires object { 0 < object }
    ensures found { (state : DatedState) → IsHonest io.new → SetHolds (blocks_of io.old) set.now state
        → FindsThere (blocks_of io.new) state object result }
    ensures size { IfOk result (λ dnode. 0 < dnode.block_size) }
    ensures limits { IfErr result NotLimit }
    ensures never_redacted { IfErr result NotRedacted }
    ensures damaged { IsHonest io.new → IfSetDamaged result (IsDamagedSet (IsSeen (disk_of io.old).seen) (disk_of io.old).size set.now) }
    ensures looks { Looks (io_of io.old) (io_of io.new) (stop_of result) }
{
    set.attr(io, object)?
        .ok_or(ObjFault::CannotApply(ApplyFault::NoObject))
}

// Whether a range of an object may be changed so.
fn check_range(dnode: &Dnode, fill: Fill, offset: u64, length: u64) -> Result<(), ApplyFault>
    requires { 0 < dnode.now.block_size }
    ensures { result ≡ range_check fill dnode.now offset length }
{
    match fill {
        Fill::Holes => check_free(dnode, offset, length),
        Fill::Redacted => check_redact(dnode, offset, length),
    }
}

/// WRITE: a block of an object.
pub(crate) fn write_block<D: Disk>(
    io: &mut Io<'_, D>,
    set: &mut ObjSet,
    object: u64,
    offset: u64,
    bytes: &[u8],
    number: u64,
) -> Result<(), ObjFault>
    requires object { 0 < object }
    // Nothing is made by the type that it states.
    ensures changed { (kind : ℕ) → Changed number (λ index. received number index (At object (Write offset kind bytes.now))) (640 + length bytes.now / 512) (length bytes.now / 512)
        (io_of io.old) (io_of io.new) set.old set.new result }
{
    let dnode = object_there(io, set, object)?;
    check_write(&dnode, offset, bytes.len())?;
    let index = offset / u64::from(dnode.block_size);
    set.write_block(io, object, index, bytes, number)
}

/// FREE or REDACT: what stands in a range of an object.
pub(crate) fn fill_range<D: Disk>(
    io: &mut Io<'_, D>,
    set: &mut ObjSet,
    object: u64,
    fill: Fill,
    offset: u64,
    length: u64,
    number: u64,
) -> Result<(), ObjFault>
    requires object { 0 < object }
    ensures changed { Changed number (λ index. received number index (At object (change_of fill offset length))) 1280 16
        (io_of io.old) (io_of io.new) set.old set.new result }
{
    let dnode = object_there(io, set, object)?;
    check_range(&dnode, fill, offset, length)?;
    let size = u64::from(dnode.block_size);
    match fill {
        Fill::Holes => {
            let indices = freed_indices(size, offset, length);
            set.punch(io, object, indices.first, indices.count, number)
        }
        Fill::Redacted => set.redact_range(io, object, offset / size, length / size, number),
    }
}

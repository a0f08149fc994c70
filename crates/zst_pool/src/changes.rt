// What a command makes of the object set of a head.
ghost use Rattle.std.specs.Prelude.{◌≡◌, ◌+◌, ◌/◌, ◌<◌, ◌≤◌, ℕ, Bool, true, length, Err, IfErr, IfOk, OnOk};
ghost use Rattle.zst_block.specs.IoCalls.{Looks};
ghost use Rattle.zst_block.specs.IoStates.{IsHonest, blocks_of, disk_of, io_of};
ghost use Rattle.zst_model.specs.declared.refusals.plan_fault.PlanFault.{PlanFault};
ghost use Rattle.zst_model.specs.states.DatedState.{DatedState, size_at};
ghost use Rattle.zst_model.specs.states.State.{is_block_size};
ghost use Rattle.zst_model.specs.pools.Pool.{Pool};
ghost use Rattle.zst_model.specs.pools.Step.{filled, punched, written};
ghost use Rattle.zst_objset.specs.Sets.{SetHolds};
ghost use Rattle.zst_image.specs.Reads.{SetIs, bound_of};
ghost use Rattle.zst_pool.specs.Checks.{freed, put_in};
ghost use Rattle.zst_pool.specs.Faults.{of_set, or_memory};
ghost use Rattle.zst_pool.specs.Heads.{ChangesHead, FindsSize, Works, of_call, of_change, CanPutObject};
ghost use Rattle.zst_objset.specs.OrMemory.{IfTold, stop_of};
ghost use Rattle.zst_pool.specs.Cost.{object_cells, spill_sectors};
ghost use Rattle.zst_pool.specs.Damage.{block_damage, range_damage, slots_damage};
ghost use Rattle.zst_objset.specs.Damage.{IsDamagedSet};
ghost use Rattle.zst_tree.specs.Damage.{IsSeen};
ghost use Rattle.zst_pool.specs.Plans.{IsPast};
ghost use Rattle.zst_pool.specs.declared.fault.PoolFault.{PoolFault};
ghost use Rattle.zst_tree.specs.Sets.{SetFits};

use std::alloc::{AllocError, Global};
use zst_block::Io;
use zst_model::{ApplyFault, Bytes, ObjectHead};
use zst_objset::{ObjFault, Objects, changes_are_commands};
use zst_outside::Disk;
use zst_tree::{ObjSet, OrMemory};

// What a call of an object set answers, as what a change of a head does.
fn answer(called: Result<(), ObjFault>) -> Result<(), OrMemory<ObjFault>>
    ensures { result ≡ of_call called }
{
    match called {
        Ok(()) => Ok(()),
        Err(fault) => Err(OrMemory::Fault(fault)),
    }
}

/// Puts an object into the set, and then its spill block.
pub fn change_object<D: Disk>(
    io: &mut Io<'_, D>,
    set: &mut ObjSet,
    number: u64,
    object: u64,
    head: ObjectHead,
    bonus: Bytes,
    spill: Option<Bytes>,
) -> Result<(), OrMemory<ObjFault>>
    requires can { CanPutObject object head bonus spill }
    ensures changed { (tight : Bool) (pool : Pool) (old : DatedState) → IsHonest io.new → pool.number + 1 ≡ number → SetIs (bound_of tight number) (blocks_of io.old) set.old old
        → ChangesHead (bound_of tight number) (blocks_of io.new) set.new (put_in pool object head bonus spill old) result }
    ensures works { Works (object_cells spill) (spill_sectors spill) (io_of io.old) (io_of io.new) (stop_of result) }
    ensures damaged { IsHonest io.new → IfTold result (slots_damage (disk_of io.old) io.old.space set.old) }
    ensures levels { OnOk result (SetFits set.new) }
    ensures limits { (fault : PlanFault) → of_change result ≡ Err (PoolFault.Plan fault) → IsPast (object + 1) 0 fault }
{
    changes_are_commands();
    answer(set.put_object(io, object, head, bonus.as_slice(), false, number))?;
    match spill {
        None => Ok(()),
        Some(block) => answer(set.put_spill(io, object, block.as_slice(), number)),
    }
}

// Finds the size of the blocks of the object whose block is written: E21 where it is absent, and
// where the bytes are more.
fn find_size<D: Disk>(
    io: &mut Io<'_, D>,
    set: &ObjSet,
    object: u64,
    bytes: &[u8],
) -> Result<u32, OrMemory<ObjFault>>
    requires object { 0 < object }
    ensures found { (pool : Pool) (index : ℕ) (head : DatedState) → IsHonest io.new → SetHolds (blocks_of io.old) set.now head
        → FindsSize (written pool object index bytes.now head) (size_at (head.state object)) result }
    ensures limits { IfErr result (λ fell. (fault : PlanFault) → or_memory of_set fell ≡ PoolFault.Plan fault → ⊥) }
    ensures size { IfOk result (λ size. is_block_size size ≡ true) }
    ensures room { IfOk result (λ size. length bytes.now ≤ size) }
    ensures looks { Looks (io_of io.old) (io_of io.new) (stop_of result) }
    ensures damaged { IsHonest io.new → IfTold result (IsDamagedSet (IsSeen (disk_of io.old).seen) (disk_of io.old).size set.now) }
{
    match set.attr(io, object) {
        Ok(None) => Err(OrMemory::Fault(ObjFault::CannotApply(ApplyFault::NoObject))),
        Ok(Some(dnode)) if bytes.len() > dnode.block_size as usize => {
            Err(OrMemory::Fault(ObjFault::CannotApply(ApplyFault::SizeDiffers)))
        }
        Ok(Some(dnode)) => Ok(dnode.block_size),
        Err(fault) => Err(OrMemory::Fault(fault)),
    }
}

// The bytes, with zeros up to this size.
fn filled(alloc: Global, bytes: &[u8], size: u32) -> Result<Vec<u8>, AllocError>
    requires { length bytes.now ≤ size }
    ensures { IfOk result (λ block. block.items ≡ filled size bytes.now) }
{
    let mut block = Vec::new(alloc);
    block.extend_from_slice(bytes)?;
    block.resize(size as usize, 0)?;
    Ok(block)
}

/// Writes one block of an object of the set; zeros fill it up.
pub fn change_block<D: Disk>(
    io: &mut Io<'_, D>,
    alloc: Global,
    set: &mut ObjSet,
    number: u64,
    object: u64,
    index: u64,
    bytes: &[u8],
) -> Result<(), OrMemory<ObjFault>>
    requires object { 0 < object }
    ensures changed { (tight : Bool) (pool : Pool) (head : DatedState) → IsHonest io.new → pool.number + 1 ≡ number → SetIs (bound_of tight number) (blocks_of io.old) set.old head
        → ChangesHead (bound_of tight number) (blocks_of io.new) set.new (written pool object index bytes.now head) result }
    ensures works { (block : ℕ) × (block ≤ 256) × Works 1 block (io_of io.old) (io_of io.new) (stop_of result) }
    ensures exact { (head : DatedState) → IsHonest io.new → SetHolds (blocks_of io.old) set.old head
        → Works 1 (size_at (head.state object) / 512) (io_of io.old) (io_of io.new) (stop_of result) }
    ensures damaged { IsHonest io.new → IfTold result (block_damage (disk_of io.old) io.old.space set.old) }
    ensures levels { OnOk result (SetFits set.new) }
    ensures limits { (fault : PlanFault) → of_change result ≡ Err (PoolFault.Plan fault) → IsPast 0 (index + 1) fault }
{
    changes_are_commands();
    let size = find_size(io, set, object, bytes)?;
    let block = filled(alloc, bytes, size)?;
    answer(set.write_block(io, object, index, &block, number))
}

/// Makes holes of `count` blocks of an object of the set.
pub fn change_holes<D: Disk>(
    io: &mut Io<'_, D>,
    set: &mut ObjSet,
    number: u64,
    object: u64,
    first: u64,
    count: u64,
) -> Result<(), OrMemory<ObjFault>>
    requires object { 0 < object }
    ensures changed { (tight : Bool) (pool : Pool) (head : DatedState) → IsHonest io.new → pool.number + 1 ≡ number → SetIs (bound_of tight number) (blocks_of io.old) set.old head
        → ChangesHead (bound_of tight number) (blocks_of io.new) set.new (punched pool object first count head) result }
    ensures works { Works 2 0 (io_of io.old) (io_of io.new) (stop_of result) }
    ensures damaged { IsHonest io.new → IfTold result (range_damage (disk_of io.old) io.old.space set.old) }
    ensures levels { OnOk result (SetFits set.new) }
    ensures limits { (fault : PlanFault) → of_change result ≡ Err (PoolFault.Plan fault) → IsPast 0 (first + count) fault }
{
    changes_are_commands();
    answer(set.punch(io, object, first, count, number))
}

/// Frees `count` object numbers of the set.
pub fn change_numbers<D: Disk>(
    io: &mut Io<'_, D>,
    set: &mut ObjSet,
    number: u64,
    first: u64,
    count: u64,
) -> Result<(), OrMemory<ObjFault>>
    requires first { 0 < first }
    ensures changed { (tight : Bool) (pool : Pool) (head : DatedState) → IsHonest io.new → pool.number + 1 ≡ number → SetIs (bound_of tight number) (blocks_of io.old) set.old head
        → ChangesHead (bound_of tight number) (blocks_of io.new) set.new (freed pool first count head) result }
    ensures works { Works 2 0 (io_of io.old) (io_of io.new) (stop_of result) }
    ensures damaged { IsHonest io.new → IfTold result (slots_damage (disk_of io.old) io.old.space set.old) }
    ensures levels { SetFits set.old → SetFits set.new }
    ensures limits { (fault : PlanFault) → of_change result ≡ Err (PoolFault.Plan fault) → IsPast (first + count) 0 fault }
{
    changes_are_commands();
    answer(set.free_objects(io, first, count, number))
}

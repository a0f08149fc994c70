//! The command that reads a block: it only answers.
ghost use Rattle.std.specs.Prelude.{◌≡◌, ◌+◌, ◌<◌, ℕ, List, [], Result, Ok, Err, IfErr, IfOk, OnOk, None, Some, is_some, true, false};
ghost use Rattle.zst_space.specs.FreeSectors.{FreeSectors};
ghost use Rattle.zst_block.specs.Blocks.{Has};
ghost use Rattle.zst_block.specs.IoStates.{IsHonest, blocks_of, disk_of, io_of};
ghost use Rattle.zst_block.specs.IoCalls.{Looks};
ghost use Rattle.zst_model.specs.declared.refusals.plan_fault.PlanFault.{PlanFault};
ghost use Rattle.zst_model.specs.declared.refusals.refusal.Refusal.{Refusal};
ghost use Rattle.zst_model.specs.declared.states.cell.Cell.{Cell};
ghost use Rattle.zst_model.specs.states.DatedState.{DatedState};
ghost use Rattle.zst_model.specs.states.State.{Block};
ghost use Rattle.zst_model.specs.pools.Pool.{Pool};
ghost use Rattle.zst_model.specs.pools.Step.{state_named, stepped};
ghost use Rattle.zst_objset.specs.Answers.{ReadsCell};
ghost use Rattle.zst_objset.specs.Changes.{block_lines, block_told, found_at};
ghost use Rattle.zst_objset.specs.Sets.{SetHolds};
ghost use Rattle.zst_dir.specs.RowNames.{AreNamed};
ghost use Rattle.zst_image.specs.Reads.{RunsBy};
ghost use Rattle.zst_pool.specs.Damage.{IsOf, OfSet, read_damage};
ghost use Rattle.zst_pool.specs.Lookups.{set_named};
ghost use Rattle.zst_pool.specs.Plans.{IsPast};
ghost use Rattle.zst_pool.specs.Queries.{HoldsNamed, TellsAnswer, stop_of, TellsByPlan};
ghost use Rattle.zst_pool.specs.declared.fault.PoolFault.{PoolFault};

use crate::fault::PoolFault;
use crate::lookups::set_of;
use std::alloc::{AllocError, Global};
use zst_block::Io;
use zst_dir::Dir;
use zst_image::PoolState;
use zst_model::{AbsentSubject, ApplyFault, Bytes, Cell, Command, Name, PlanFault, Reply};
use zst_objset::{Objects, reads_are_commands};
use zst_outside::Disk;
use zst_tree::ObjSet;

/// The object set of a dataset's head or of a snapshot; E3 where there is none of this name.
pub(crate) fn open_set(dir: &Dir, name: Name) -> Result<ObjSet, PlanFault>
    ensures set { IfOk result (λ set. set_named name dir.now ≡ Some set) }
    ensures holds { IfOk result (λ set. (image : List ℕ) (space : FreeSectors) (pool : Pool) → RunsBy None (Has image space) dir.now pool → HoldsNamed (Has image space) name pool set) }
    ensures missing { IfErr result (λ fault. fault ≡ PlanFault.NoSuch (AbsentSubject.Named name)) }
    ensures there { OnOk result ((pool : Pool) → AreNamed dir.now pool → is_some (state_named name pool) ≡ true) }
    ensures absent { (pool : Pool) → AreNamed dir.now pool → IfErr result (λ fault. state_named name pool ≡ None) }
{
    match set_of(dir, &name) {
        Some(set) => Ok(set),
        None => Err(PlanFault::NoSuch(AbsentSubject::Named(name))),
    }
}

// The answer of a read: a hole, or the block in hexadecimal digits.
fn told(alloc: Global, cell: Cell, bytes: &[u8]) -> Result<Reply, AllocError>
    ensures { IfOk result (λ reply. (definition : Result Block Refusal) → ReadsCell definition bytes.now cell → (block : Block) × (definition ≡ Ok block) × (reply ≡ block_lines block)) }
{
    let line = match cell {
        Cell::Data => {
            let digits = hex::encode(alloc, bytes)?;
            format!(in alloc; "data {digits}")?
        }
        Cell::Hole | Cell::Redacted => format!(in alloc; "hole")?,
    };
    let mut lines = Vec::new(alloc);
    lines.push(Bytes::new(line.into_bytes()))?;
    Ok(Reply::new(lines))
}

// Reads one index of an object of a set.
fn read_in<D: Disk>(
    io: &mut Io<'_, D>,
    alloc: Global,
    set: &ObjSet,
    object: u64,
    index: u64,
) -> Result<Reply, PoolFault>
    requires object { 0 < object }
    ensures told { (pool : Pool) (state : DatedState) → IsHonest io.new → SetHolds (blocks_of io.old) set.now state
        → TellsAnswer pool (block_told pool (found_at object index state)) result }
    ensures looks { Looks (io_of io.old) (io_of io.new) (stop_of result) }
    ensures open_still { ¬ (result ≡ Err PoolFault.Failed) }
    ensures damaged { IsHonest io.new → IfErr result (IsOf (read_damage (disk_of io.old) set.now)) }
    ensures limits { (fault : PlanFault) → result ≡ Err (PoolFault.Plan fault) → IsPast 0 (index + 1) fault }
{
    let Some(dnode) = set.attr(io, object)? else {
        return Err(PoolFault::CannotApply(ApplyFault::NoObject));
    };
    let mut bytes = vec![in alloc; 0; dnode.block_size as usize]?;
    let cell = set.read_block(io, object, index, bytes.as_mut_slice())?;
    Ok(told(alloc, cell, bytes.as_slice())?)
}

/// Reads one block of a dataset's head or of a snapshot.
#[tactic(auto, unfolding(zst_model::specs::pools::Step::stepped))]
pub fn read_block<D: Disk>(
    io: &mut Io<'_, D>,
    alloc: Global,
    kept: &PoolState,
    name: Name,
    object: u64,
    index: u64,
) -> Result<Reply, PoolFault>
    requires object { 0 < object }
    ensures does { (now : ℕ) → TellsByPlan (λ pool. stepped [] now (Command.Read name object index) pool) (OfSet kept.now.dir name (read_damage (disk_of io.old))) 0 (index + 1) false kept.now (io_of io.old) (io_of io.new) result }
{
    reads_are_commands();
    let set = open_set(&kept.dir, name)?;
    read_in(io, alloc, &set, object, index)
}

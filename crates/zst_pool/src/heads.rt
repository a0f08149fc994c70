// The commands on a dataset's head, each over the Io of a pool that hasn't failed.
ghost use Rattle.std.specs.Prelude.{◌≡◌, ◌+◌, ◌<◌, ◌≤◌, ◌^◌, ℕ, Bool, true, List, Option, Result, Err, length, IfErr, OnOk, IfOk, is_ok, false};
ghost use Rattle.zst_space.specs.FreeSectors.{FreeSectors};
ghost use Rattle.zst_block.specs.Blocks.{Has};
ghost use Rattle.zst_block.specs.IoStates.{IsHonest, disk_of, io_of};
ghost use Rattle.zst_names.specs.Names.{IsDataset};
ghost use Rattle.zst_model.specs.declared.refusals.plan_fault.PlanFault.{PlanFault};
ghost use Rattle.zst_model.specs.declared.refusals.refusal.Refusal.{Refusal};
ghost use Rattle.zst_model.specs.states.DatedState.{DatedState};
ghost use Rattle.zst_model.specs.pools.Pool.{Pool};
ghost use Rattle.zst_model.specs.pools.Step.{on_head, punched, written};
ghost use Rattle.zst_tree.specs.Sets.{SetFits};
ghost use Rattle.zst_tree.specs.declared.tree.ObjSet.{ObjSet as ObjectSet};
ghost use Rattle.zst_pool.specs.Checks.{FindsHead, freed, put_in, ChecksRows};
ghost use Rattle.zst_pool.specs.Heads.{ChangedHead, ChangesHead, JudgesHead, Stops, is_accepted, of_change, rested, RefusesHead, CanPutObject};
ghost use Rattle.zst_objset.specs.OrMemory.{stop_of};
ghost use Rattle.zst_image.specs.Bodies.{free_by};
ghost use Rattle.zst_pool.specs.Cost.{Cost, cells_only, object_cost, write_cost};
ghost use Rattle.zst_pool.specs.CommandRuns.{Ran, CanBegin, RunsByPlan};
ghost use Rattle.zst_pool.specs.PartialRows.{each_stays};
ghost use Rattle.zst_pool.specs.Damage.{HasHead, OfHead, block_damage, range_damage, slots_damage};
ghost use Rattle.zst_image.specs.Commits.{Ready};

use crate::changes::{change_block, change_holes, change_numbers, change_object};
use crate::checks::{check_number, open_dataset};
use crate::fault::{PoolFault, of_committed};
use std::alloc::Global;
use zst_block::{BlockFault, Io};
use zst_dir::Dir;
use zst_image::{Body, PoolState, commit_dir};
use zst_model::{Bytes, ObjectHead, PlanFault};
use zst_names::DatasetName;
use zst_objset::ObjFault;
use zst_outside::Disk;
use zst_tree::{ObjSet, OrMemory};

// The object set of the head of a dataset that has no partial state.
fn open_head(dir: &Dir, name: &DatasetName) -> Result<ObjSet, PlanFault>
    ensures named { OnOk result (IsDataset name.now) }
    ensures there { IfOk result (HasHead dir.now name.now) }
    ensures levels { IfOk result SetFits }
    ensures finds { ChecksRows dir.now (FindsHead dir.now name.now) result }
{
    match open_dataset(dir, name) {
        Ok(dataset) => Ok(dataset.head),
        Err(fault) => Err(fault),
    }
}

// The number of the next commit. Past the last number there is none, and any will do.
fn next_number(body: &Body) -> u64
    ensures { body.now.uber.number ≤ 2 ^ 63 → result ≡ body.now.uber.number + 1 }
{
    body.uber().number.saturating_add(1)
}

// Whether the definition accepts a change with this answer: also where no room was found.
fn is_accepted(changed: &Result<(), OrMemory<ObjFault>>) -> bool
    ensures { result ≡ is_accepted changed.now }
{
    matches!(
        changed,
        Ok(()) | Err(OrMemory::Fault(ObjFault::Block(BlockFault::Full { .. })))
    )
}

// What a change of a head answers, as a pool's answer.
fn answer(changed: Result<(), OrMemory<ObjFault>>) -> Result<(), PoolFault>
    ensures { result ≡ of_change changed }
{
    match changed {
        Ok(()) => Ok(()),
        Err(fault) => Err(PoolFault::from(fault)),
    }
}

// What a command answers whose change was answered so: E23 of the commit's number comes before E24.
fn judge(body: &Body, changed: Result<(), OrMemory<ObjFault>>) -> Result<(), PoolFault>
    ensures judged { (bound : Option ℕ) (image : List ℕ) (space : FreeSectors) (set : ObjectSet) (name : List ℕ) (pool : Pool) (change : Result DatedState Refusal) → pool.number ≡ body.now.uber.number
        → ChangesHead bound (Has image space) set change changed → JudgesHead bound (Has image space) set name pool change result }
    ensures below { OnOk result (body.now.uber.number < 2 ^ 63) }
    ensures went_well { OnOk result (stop_of changed ≡ None) }
    ensures well { OnOk result (is_ok changed ≡ true) }
    ensures stops { IfErr result (Stops (stop_of changed)) }
    ensures refuses { RefusesHead body.now.uber.number changed result }
{
    if !is_accepted(&changed) {
        return answer(changed);
    }
    check_number(body)?;
    answer(changed)
}

// Ends a command that changed the object set of a dataset's head, or couldn't: commits the head, or
// tells why it is refused.
fn commit_head<D: Disk>(
    io: &mut Io<'_, D>,
    alloc: Global,
    kept: &PoolState,
    name: &DatasetName,
    set: ObjSet,
    changed: Result<(), OrMemory<ObjFault>>,
) -> Result<PoolState, PoolFault>
    requires sectors { io.old.space.sectors ≡ kept.now.body.uber.sectors }
    requires ready { Ready (disk_of io.old) kept.now.body }
    requires levels { OnOk changed (SetFits set) }
    ensures ran { (start : D) (failed : Bool) (checksum_errors reference : ℕ) (make : Pool → DatedState → Result DatedState Refusal) (cost : Cost)
        → ChangedHead kept.now name.now make cost (rested (D.state start) failed checksum_errors reference kept.now) (io_of io.old) set changed
        → Ran (λ pool. on_head name.now pool (make pool)) cost kept.now (rested (D.state start) failed checksum_errors reference kept.now) (io_of io.new) result }
    ensures refuses { RefusesHead kept.now.body.uber.number changed result }
    ensures partials { IfOk result (λ next. next.dir.partials ≡ kept.now.dir.partials) }
    ensures honest { IsHonest io.new → IsHonest io.old }
    ensures same { io.new.disk.ghost_name ≡ io.old.disk.ghost_name }
{
    judge(&kept.body, changed)?;
    let mut dir = kept.dir.copy(alloc)?;
    dir.set_head(name, set);
    let _lawful = dir.datasets();
    of_committed(commit_dir(io, alloc, &kept.body, kept.body.uber().guids, dir))
}

/// Allocates an object, or gives it other attributes. Its spill block is this one, or none.
pub fn put_object<D: Disk>(
    io: &mut Io<'_, D>,
    alloc: Global,
    kept: &PoolState,
    name: &DatasetName,
    object: u64,
    head: ObjectHead,
    bonus: Bytes,
    spill: Option<Bytes>,
) -> Result<PoolState, PoolFault>
    requires can { CanPutObject object head bonus spill }
    requires begins { CanBegin (io_of io.old) kept.now }
    ensures does { RunsByPlan (λ pool. on_head name.now pool (put_in pool object head bonus spill)) (object_cost spill) (OfHead kept.now.dir name.now (slots_damage (disk_of io.old) (free_by kept.now.body))) (object + 1) 0 false each_stays kept.now (io_of io.old) (io_of io.new) result }
{
    let mut set = open_head(&kept.dir, name)?;
    let number = next_number(&kept.body);
    let changed = change_object(io, &mut set, number, object, head, bonus, spill);
    commit_head(io, alloc, kept, name, set, changed)
}

/// Writes one block of an object; zeros fill it up.
pub fn write_block<D: Disk>(
    io: &mut Io<'_, D>,
    alloc: Global,
    kept: &PoolState,
    name: &DatasetName,
    object: u64,
    index: u64,
    bytes: &[u8],
) -> Result<PoolState, PoolFault>
    requires object { 0 < object }
    requires some { 0 < length bytes.now }
    requires small { length bytes.now ≤ 2 ^ 20 }
    requires begins { CanBegin (io_of io.old) kept.now }
    ensures does { RunsByPlan (λ pool. on_head name.now pool (written pool object index bytes.now)) (write_cost name.now object) (OfHead kept.now.dir name.now (block_damage (disk_of io.old) (free_by kept.now.body))) 0 (index + 1) false each_stays kept.now (io_of io.old) (io_of io.new) result }
{
    let mut set = open_head(&kept.dir, name)?;
    let number = next_number(&kept.body);
    let changed = change_block(io, alloc, &mut set, number, object, index, bytes);
    commit_head(io, alloc, kept, name, set, changed)
}

/// Makes holes of `count` blocks of an object.
pub fn punch<D: Disk>(
    io: &mut Io<'_, D>,
    alloc: Global,
    kept: &PoolState,
    name: &DatasetName,
    object: u64,
    first: u64,
    count: u64,
) -> Result<PoolState, PoolFault>
    requires object { 0 < object }
    requires some { 0 < count }
    requires begins { CanBegin (io_of io.old) kept.now }
    ensures does { RunsByPlan (λ pool. on_head name.now pool (punched pool object first count)) (cells_only 2) (OfHead kept.now.dir name.now (range_damage (disk_of io.old) (free_by kept.now.body))) 0 (first + count) false each_stays kept.now (io_of io.old) (io_of io.new) result }
{
    let mut set = open_head(&kept.dir, name)?;
    let number = next_number(&kept.body);
    let changed = change_holes(io, &mut set, number, object, first, count);
    commit_head(io, alloc, kept, name, set, changed)
}

/// Frees `count` object numbers.
pub fn free_objects<D: Disk>(
    io: &mut Io<'_, D>,
    alloc: Global,
    kept: &PoolState,
    name: &DatasetName,
    first: u64,
    count: u64,
) -> Result<PoolState, PoolFault>
    requires first { 0 < first }
    requires some { 0 < count }
    requires begins { CanBegin (io_of io.old) kept.now }
    ensures does { RunsByPlan (λ pool. on_head name.now pool (freed pool first count)) (cells_only 2) (OfHead kept.now.dir name.now (slots_damage (disk_of io.old) (free_by kept.now.body))) (first + count) 0 false each_stays kept.now (io_of io.old) (io_of io.new) result }
{
    let mut set = open_head(&kept.dir, name)?;
    let number = next_number(&kept.body);
    let changed = change_numbers(io, &mut set, number, first, count);
    commit_head(io, alloc, kept, name, set, changed)
}

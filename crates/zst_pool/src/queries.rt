// The commands that only answer.
ghost use Rattle.std.specs.Prelude.{◌≡◌, ℕ, List, [], false};
ghost use Rattle.zst_block.specs.IoStates.{disk_of, io_of};
ghost use Rattle.zst_model.specs.pools.Step.{IsCommand, commits, stepped};
ghost use Rattle.zst_pool.specs.Damage.{OfSet, TellsDamage, look_damage};
ghost use Rattle.zst_pool.specs.Plans.{indices_end, makes_list, numbers_end};
ghost use Rattle.zst_pool.specs.Queries.{TellsByPlan};
ghost use Rattle.zst_roots.specs.declared.held.HeldBlocks.{HeldBlocks};

use crate::block_reads::{open_set, read_block};
use crate::fault::PoolFault;
use std::alloc::Global;
use zst_block::Io;
use zst_image::PoolState;
use zst_listing::{list_objects, list_rows};
use zst_model::{Command, Name, Reply};
use zst_outside::Disk;

/// Lists the objects of a dataset's head or of a snapshot.
#[tactic(auto, unfolding(zst_model::specs::pools::Step::stepped))]
fn list_named<D: Disk>(
    io: &mut Io<'_, D>,
    alloc: Global,
    kept: &PoolState,
    name: Name,
) -> Result<Reply, PoolFault>
    ensures does { (now : ℕ) → TellsByPlan (λ pool. stepped [] now (Command.ListObjects name) pool) (OfSet kept.now.dir name (look_damage (disk_of io.old))) 0 0 false kept.now (io_of io.old) (io_of io.new) result }
{
    let set = open_set(&kept.dir, name)?;
    Ok(list_objects(io, alloc, &set)?)
}

/// Answers a command that commits nothing.
#[tactic(auto, unfolding(zst_model::specs::pools::Step::stepped))]
pub fn tell<D: Disk>(
    io: &mut Io<'_, D>,
    alloc: Global,
    kept: &PoolState,
    command: Command,
) -> Result<Reply, PoolFault>
    requires command { IsCommand command }
    requires answers { commits command ≡ false }
    ensures does { (now : ℕ) (held : List HeldBlocks) → TellsByPlan (λ pool. stepped [] now command pool) (TellsDamage command held kept.now.body kept.now.dir (disk_of io.old)) (numbers_end command) (indices_end command) (makes_list command) kept.now (io_of io.old) (io_of io.new) result }
{
    match command {
        Command::Read {
            name,
            object,
            index,
        } => read_block(io, alloc, kept, name, object, index),
        Command::List => Ok(list_rows(alloc, &kept.dir)?),
        Command::ListObjects { name } => list_named(io, alloc, kept, name),
        Command::Fs { .. }
        | Command::Volume { .. }
        | Command::Object { .. }
        | Command::Write { .. }
        | Command::Punch { .. }
        | Command::Free { .. }
        | Command::Snapshot { .. }
        | Command::Clone { .. }
        | Command::Bookmark { .. }
        | Command::Redact { .. }
        | Command::Rollback { .. }
        | Command::Destroy { .. }
        | Command::Abort { .. }
        | Command::Reclaim => unreachable!(),
    }
}

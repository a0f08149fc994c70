ghost use Rattle.std.specs.Prelude.{◌≡◌, ◌≢◌, ℕ, ◌∷◌, List, [], false, true, IfOk, OnOk, Err};
ghost use Rattle.zst_block.specs.IoStates.{disk_of, io_of};
ghost use Rattle.zst_model.specs.pools.AnswerLines.{ok_line};
ghost use Rattle.zst_model.specs.pools.Pool.{Pool as Plain};
ghost use Rattle.zst_model.specs.pools.Soundness.{Sound};
ghost use Rattle.zst_model.specs.pools.Step.{Stepped, commits, stepped, IsCommand};
ghost use Rattle.zst_pool.specs.Plans.{Plans, indices_end, makes_list, numbers_end};
ghost use Rattle.zst_image.specs.Bodies.{behind_end};
ghost use Rattle.zst_pool.specs.Calls.{CanCommit, IsAtRest};
ghost use Rattle.zst_pool.specs.Cost.{cost_of};
ghost use Rattle.zst_pool.specs.Damage.{TellsDamage};
ghost use Rattle.zst_pool.specs.CommandRuns.{CanBegin, CarriesOut, RunsByPlan};
ghost use Rattle.zst_pool.specs.Events.{OnlyAnswers, Settles, StepDid};
ghost use Rattle.zst_pool.specs.PartialRows.{rows_after};
ghost use Rattle.zst_image.specs.Commits.{Ready};

use crate::aborts::abort;
use crate::commands::{make_dataset, take_snapshot};
use crate::fault::PoolFault;
use crate::heads::{free_objects, punch, put_object, write_block};
use crate::lineage_commands::{destroy, make_bookmark, make_clone, roll_back};
use crate::queries::tell;
use crate::reclaims::reclaim;
use crate::redacts::make_redaction;
use std::alloc::{AllocError, Global};
use zst_block::Io;
use zst_image::PoolState;
use zst_laws::steps_keep_sound;
use zst_model::{Bytes, Command, Reply};
use zst_outside::Disk;
use zst_roots::HeldBlocks;
use zst_space::Space;

/// A pool on a disk.
#[derive(Drop)]
pub struct Pool<'d, D: Disk> {
    /// The disk, and the sectors that are free.
    pub io: Io<'d, D>,
    /// The latest body, and the directory.
    pub kept: PoolState,
}

impl<'d, D: Disk> Pool<'d, D> {
    /// The pool of which this was kept when it was made or opened on this disk. Its Io has the sectors behind the
    /// end: the free extents are taken with them as an event begins, by `step` or by `renew`.
    pub fn new(alloc: Global, disk: &'d mut D, kept: PoolState) -> Pool<'d, D>
        requires ready { Ready (D.state disk.old) kept.body }
        ensures same { result.io.disk.ghost_name ≡ disk.entry.ghost_name }
        ensures disk { result.io.disk.now ≡ disk.old }
        ensures kept { result.kept ≡ kept }
        ensures space { result.io.space ≡ behind_end kept.body.uber }
        ensures works { CanCommit (disk_of result.io) result.io.space kept.body }
        ensures failed { result.io.failed ≡ false }
        ensures checksum_errors { result.io.checksum_errors ≡ 0 }
    {
        let uber = kept.body.uber();
        let space = Space::new(uber.end, uber.sectors, Vec::new(alloc));
        let io = Io::new(alloc, disk, space);
        Pool { io, kept }
    }

    /// Gives the disk back, so that it is known what stands on it.
    pub fn into_disk(self) -> &'d mut D
        ensures same { result.ghost_name ≡ self.entry.io.disk.ghost_name }
        ensures disk { result.now ≡ self.entry.io.disk.now }
    {
        let Pool { io, .. } = self;
        io.into_disk()
    }

    /// Runs a command at this time on the pool that runs: it commits once where it changes that, and not
    /// at all where it is refused or only answers. It begins with all that the latest body leaves free: E32 where there
    /// is no memory for that. A reclaim takes of all that nothing reaches instead, and leaves what open sessions hold of
    /// the pool. After a refusal the sectors are those that were left then, until the next event begins.
    ///
    /// After E28 the pool answers E31.
    pub fn step(
        &mut self,
        alloc: Global,
        now: u64,
        command: Command,
        held: &[HeldBlocks],
    ) -> Result<Reply, PoolFault>
        requires command { IsCommand command }
        requires ready { self.old.io.failed ≡ false → Ready (disk_of self.old.io) self.old.kept.body }

        ensures did { StepDid now command held.now self.old self.new result }
        // E3 to E6, E8, E14, E19 and E23 of datasets, snapshots, bookmarks and guids come exactly where the directory says so, whatever the object sets hold, unless no memory is left before; E23 of numbers only past them, and of runs only of a list that is made.
        ensures planned { self.old.io.failed ≡ false → ¬ (result ≡ Err PoolFault.OutOfMemory)
            → Plans (λ pool. stepped [] now command pool) (numbers_end command) (indices_end command) (makes_list command) self.old.kept result }
        // What later states haven't dated since stays as it was in each snapshot.
        ensures sound { (running : Plain) (done : Stepped) → IsAtRest false (disk_of self.old.io) self.old.kept running → Sound running
            → stepped [] now command running ≡ Ok done → Sound done.pool }
        ensures only_answers { commits command ≡ false → OnlyAnswers self.old self.new }
        // One that only answers takes no sectors, so E24 comes only of one that commits.
        ensures room { (need largest : ℕ) → result ≡ Err (PoolFault.Full need largest) → commits command ≡ true }
        // No command touches a partial state but an abort of it.
        ensures partials { OnOk result (self.new.kept.dir.partials ≡ rows_after command self.old.kept.dir.partials) }
        ensures settles { Settles self.old self.new result }
    {
        steps_keep_sound();
        if self.io.failed {
            return Err(PoolFault::Failed);
        }
        let space = self.kept.body.space(alloc)?;
        self.io.space = space;
        if !command.commits() {
            return tell(&mut self.io, alloc, &self.kept, command);
        }
        let reply = committed(alloc, self.kept.body.uber().number.saturating_add(1))?;
        let ran = carry_out(&mut self.io, alloc, &self.kept, now, command, held);
        self.keep(ran)?;
        Ok(reply)
    }
}

/// The answer of a command that committed: the pool's number.
fn committed(alloc: Global, number: u64) -> Result<Reply, AllocError>
    ensures { IfOk result (λ reply. reply ≡ ok_line number ∷ []) }
{
    let line = format!(in alloc; "ok {number}")?;
    let mut lines = Vec::new(alloc);
    lines.push(Bytes::new(line.into_bytes()))?;
    Ok(Reply::new(lines))
}

/// Carries out a command that commits: a reclaim, or one over the sectors that are free by the latest body.
#[tactic(auto, unfolding(zst_model::specs::pools::Step::stepped))]
fn carry_out<D: Disk>(
    io: &mut Io<'_, D>,
    alloc: Global,
    kept: &PoolState,
    now: u64,
    command: Command,
    held: &[HeldBlocks],
) -> Result<PoolState, PoolFault>
    requires command { IsCommand command }
    requires commits { commits command ≡ true }
    requires begins { CanBegin (io_of io.old) kept.now }
    ensures does { CarriesOut now command held.now kept.now (io_of io.old) (io_of io.new) result }
{
    match command {
        Command::Reclaim => reclaim(io, alloc, kept, held),
        command => run(io, alloc, kept, now, command),
    }
}

/// Runs a command that commits and is no reclaim, over the sectors that are free by the latest body.
#[tactic(auto, unfolding(zst_model::specs::pools::Step::stepped))]
fn run<D: Disk>(
    io: &mut Io<'_, D>,
    alloc: Global,
    kept: &PoolState,
    now: u64,
    command: Command,
) -> Result<PoolState, PoolFault>
    requires command { IsCommand command }
    requires commits { commits command ≡ true }
    requires other { command ≢ Command.Reclaim }
    requires begins { CanBegin (io_of io.old) kept.now }
    ensures does { (held : List HeldBlocks) → RunsByPlan (λ pool. stepped [] now command pool) (cost_of command) (TellsDamage command held kept.now.body kept.now.dir (disk_of io.old)) (numbers_end command) (indices_end command) (makes_list command) (rows_after command) kept.now (io_of io.old) (io_of io.new) result }
{
    match command {
        Command::Fs { dataset } => make_dataset(io, alloc, kept, 2, &dataset),
        Command::Volume { dataset } => make_dataset(io, alloc, kept, 3, &dataset),
        Command::Object {
            dataset,
            object,
            head,
            bonus,
            spill,
        } => put_object(io, alloc, kept, &dataset, object, head, bonus, spill),
        Command::Write {
            dataset,
            object,
            index,
            bytes,
        } => write_block(io, alloc, kept, &dataset, object, index, bytes.as_slice()),
        Command::Punch {
            dataset,
            object,
            first,
            count,
        } => punch(io, alloc, kept, &dataset, object, first, count),
        Command::Free {
            dataset,
            first,
            count,
        } => free_objects(io, alloc, kept, &dataset, first, count),
        Command::Snapshot { name } => take_snapshot(io, alloc, kept, now, &name),
        Command::Clone { origin, dataset } => make_clone(io, alloc, kept, &origin, &dataset),
        Command::Bookmark { snapshot, bookmark } => {
            make_bookmark(io, alloc, kept, &snapshot, &bookmark)
        }
        Command::Redact {
            snapshot,
            bookmark,
            redactions,
        } => make_redaction(io, alloc, kept, &snapshot, &bookmark, redactions.as_slice()),
        Command::Rollback { destroys, snapshot } => {
            roll_back(io, alloc, kept, destroys, &snapshot)
        }
        Command::Destroy { name } => destroy(io, alloc, kept, name),
        Command::Abort { dataset } => abort(io, alloc, kept, &dataset),
        Command::Reclaim | Command::Read { .. } | Command::List | Command::ListObjects { .. } =>
            unreachable!(),
    }
}

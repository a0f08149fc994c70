//! What is dated after a source.
ghost use Rattle.std.specs.Prelude.{◌≡◌, ◌^◌, ◌<◌, ◌≤◌, IfOk, IfSome};
ghost use Rattle.zst_block.specs.IoStates.{IsHonest, blocks_of, disk_of, io_of};
ghost use Rattle.zst_block.specs.IoCalls.{stop_of};
ghost use Rattle.zst_model.specs.sends.Inclusion.{is_after};
ghost use Rattle.zst_tree.specs.Damage.{IsSeen, NamesDamage, SumsUp};
ghost use Rattle.zst_tree.specs.Indices.{Delivers, Map, TreeIs};
ghost use Rattle.zst_tree.specs.Steps.{LooksInSteps};
ghost use Rattle.zst_traverse.specs.Dates.{FindsLate};

use std::sync::ledger::Ledger;
use zst_block::{BlockFault, Io};
use zst_outside::Disk;
use zst_tree::{Steps, Tree};

/// Whether a date is after the source's number. A full stream has no source, and takes every date.
pub(crate) fn is_after(source: Option<u64>, date: u64) -> bool
    ensures { result ≡ is_after source date }
{
    match source {
        None => true,
        Some(number) => number < date,
    }
}

/// The least index from one on and below another that is dated after the source.
pub(crate) fn next_late<D: Disk, L: Ledger>(
    io: &mut Io<'_, D>,
    tree: &Tree,
    source: Option<u64>,
    from: u64,
    below: u64,
    steps: &mut Steps<L>,
) -> Result<Option<u64>, BlockFault>
    requires levels { tree.now.levels ≤ 7 }
    requires below { below ≤ 2 ^ 44 }
    ensures late { (map : Map) → IsHonest io.new → TreeIs (blocks_of io.old) tree.now map → Delivers (FindsLate map source from below) result }
    ensures range { IfOk result (λ found. IfSome found (λ first. (from ≤ first) × (first < below))) }
    ensures damaged { IsHonest io.new → NamesDamage (IsSeen (disk_of io.old).seen) (disk_of io.old).size (SumsUp (IsSeen (disk_of io.old).seen)) tree.now.levels tree.now.root result }
    ensures looks { LooksInSteps 13 (io_of io.old) (io_of io.new) (stop_of result) steps.old steps.new }
{
    match source {
        None if from < below => Ok(Some(from)),
        None => Ok(None),
        Some(number) => tree.next_after(io, from, below, number, steps),
    }
}

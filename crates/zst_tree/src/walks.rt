//! What reads a tree.
ghost use Rattle.std.specs.Prelude.{◌≡◌, ◌⊎◌, ◌+◌, ◌-◌, ◌*◌, ◌^◌, ◌<◌, ◌≤◌, ℕ, IfOk, IfSome, MatchOption};
ghost use Rattle.zst_block.specs.IoStates.{IsHonest, blocks_of, disk_of, io_of};
ghost use Rattle.zst_block.specs.IoCalls.{stop_of};
ghost use Rattle.zst_tree.specs.Damage.{IsSeen, NamesDamage, SumsUp};
ghost use Rattle.zst_tree.specs.PresentIndices.{FindsLast};
ghost use Rattle.zst_tree.specs.Indices.{Delivers, Map, Subtree, span};
ghost use Rattle.zst_tree.specs.LateIndices.{FindsFirst};
ghost use Rattle.zst_tree.specs.Steps.{LooksAtMost, LooksInSteps};

use crate::late_indices::{along, first_in};
use crate::lookups::find_in;
use crate::path_answer::PathAnswer;
use crate::present_indices::{back_along, last_in};
use crate::spans::{TREE_INDEX_BOUND, span_of};
use crate::steps::Steps;
use crate::tree::Tree;
use std::sync::ledger::Ledger;
use zst_block::{BlockFault, Io, Ptr};
use zst_outside::Disk;

// The first index from one on below the root of a tree that is dated after a number.
#[tactic(auto, using(crate::proofs::Span::span_limit))]
fn first_from<D: Disk, L: Ledger>(
    io: &mut Io<'_, D>,
    levels: u8,
    root: Ptr,
    index: u64,
    number: u64,
    steps: &mut Steps<L>,
) -> Result<Option<u64>, BlockFault>
    requires levels { levels ≤ 7 }
    ensures first { (map : Map) → IsHonest io.new → Subtree (blocks_of io.old) levels root 0 map →
        Delivers (FindsFirst map index (span levels) number) result }
    ensures range { IfOk result (λ found. IfSome found (λ first. (index ≤ first) × (first < span levels))) }
    ensures damaged { IsHonest io.new → NamesDamage (IsSeen (disk_of io.old).seen) (disk_of io.old).size (SumsUp (IsSeen (disk_of io.old).seen)) levels root result }
    ensures looks { LooksInSteps (2 * levels - 1) (io_of io.old) (io_of io.new) (stop_of result) steps.old steps.new }
{
    if index >= span_of(levels) {
        return Ok(None);
    }
    match along(io, levels, root, 0, index, number, steps)? {
        PathAnswer::Nothing => Ok(None),
        PathAnswer::Here(found) => Ok(Some(found)),
        PathAnswer::There(behind) => Ok(Some(first_in(
            io,
            behind.level,
            behind.ptr,
            behind.base,
            number,
            steps,
        )?)),
    }
}

// The last index up to one below the root of a tree that has something present.
#[tactic(auto, using(crate::proofs::Span::span_limit))]
fn last_to<D: Disk>(
    io: &mut Io<'_, D>,
    levels: u8,
    root: Ptr,
    index: u64,
) -> Result<Option<u64>, BlockFault>
    requires levels { levels ≤ 7 }
    requires index { index < span levels }
    ensures last { (map : Map) → IsHonest io.new → Subtree (blocks_of io.old) levels root 0 map →
        Delivers (FindsLast map 0 (index + 1)) result }
    ensures range { IfOk result (λ found. IfSome found (λ last. last ≤ index)) }
    ensures damaged { IsHonest io.new → NamesDamage (IsSeen (disk_of io.old).seen) (disk_of io.old).size (SumsUp (IsSeen (disk_of io.old).seen)) levels root result }
    ensures looks { LooksAtMost (2 * levels - 1) (io_of io.old) (io_of io.new) (stop_of result) }
{
    match back_along(io, levels, root, 0, index)? {
        PathAnswer::Nothing => Ok(None),
        PathAnswer::Here(found) => Ok(Some(found)),
        PathAnswer::There(before) => Ok(Some(last_in(io, before.level, before.ptr, before.base)?)),
    }
}

impl Tree {
    ghost use Rattle.std.specs.Prelude.{◌≡◌, ◌+◌, ◌^◌, ◌<◌, ◌≤◌, ℕ, IfOk, IfSome};
    ghost use Rattle.zst_block.specs.IoCalls.{stop_of};
    ghost use Rattle.zst_tree.specs.Damage.{HangsIn, IsSeen, MayHave, NamesDamage, NamesNode, SumsUp};
    ghost use Rattle.zst_tree.specs.PresentIndices.{FindsLast};
    ghost use Rattle.zst_tree.specs.Lookups.{FindsIn, Shows};
    ghost use Rattle.zst_tree.specs.Indices.{Delivers, Map, TreeIs};
    ghost use Rattle.zst_tree.specs.LateIndices.{FindsFirst};
    ghost use Rattle.zst_tree.specs.Steps.{LooksAtMost, LooksInSteps};

    /// The pointer of an index, and of how many from it on it is that: 1 for a leaf with a block,
    /// what is left of its span for a hole or a redacted pointer, and past the span of the tree
    /// what is left up to 2^44. A hole's number is its date.
    pub fn get<D: Disk, L: Ledger>(
        &self,
        io: &mut Io<'_, D>,
        index: u64,
        steps: &mut Steps<L>,
    ) -> Result<(Ptr, u64), BlockFault>
        requires levels { self.now.levels ≤ 7 }
        requires index { index < 2 ^ 44 }

        // A tree that is there shows what it holds, and isn't damaged.
        ensures shows { (map : Map) → IsHonest io.new → TreeIs (blocks_of io.old) self.now map → Delivers (Shows map index) result }
        ensures count { (map : Map) → IsHonest io.new → TreeIs (blocks_of io.old) self.now map → Delivers (FindsIn (blocks_of io.old) self.now index) result }
        ensures range { IfOk result (λ found. (0 < found.1) × (index + found.1 ≤ 2 ^ 49)) }

        // What it gives hangs in the tree, and damage is told of a node below the root alone.
        ensures hangs { IsHonest io.new → IfOk result (λ found. HangsIn (MayHave (IsSeen (disk_of io.old).seen)) self.now found.0) }
        ensures damaged { IsHonest io.new → NamesDamage (IsSeen (disk_of io.old).seen) (disk_of io.old).size NamesNode self.now.levels self.now.root result }

        // It only reads, a block each step.
        ensures looks { LooksInSteps 7 (io_of io.old) (io_of io.new) (stop_of result) steps.old steps.new }
    {
        if index >= span_of(self.levels) {
            return Ok((Ptr::hole(self.past), TREE_INDEX_BOUND - index));
        }
        find_in(io, self.levels, self.root, index, steps)
    }

    /// The least index from one on and below another that is dated after a number.
    pub fn next_after<D: Disk, L: Ledger>(
        &self,
        io: &mut Io<'_, D>,
        index: u64,
        below: u64,
        number: u64,
        steps: &mut Steps<L>,
    ) -> Result<Option<u64>, BlockFault>
        requires levels { self.now.levels ≤ 7 }
        requires below { below ≤ 2 ^ 44 }

        // A tree that is there has it found, and isn't damaged.
        ensures first { (map : Map) → IsHonest io.new → TreeIs (blocks_of io.old) self.now map → Delivers (FindsFirst map index below number) result }
        ensures range { IfOk result (λ found. IfSome found (λ first. (index ≤ first) × (first < below))) }

        // Damage is told of a node below the root alone.
        ensures damaged { IsHonest io.new → NamesDamage (IsSeen (disk_of io.old).seen) (disk_of io.old).size (SumsUp (IsSeen (disk_of io.old).seen)) self.now.levels self.now.root result }

        // It only reads, a block each step.
        ensures looks { LooksInSteps 13 (io_of io.old) (io_of io.new) (stop_of result) steps.old steps.new }
    {
        match first_from(io, self.levels, self.root, index, number, steps)? {
            Some(found) => Ok(limited(found, below)),
            None => Ok(first_past(self.past, index.max(span_of(self.levels)), below, number)),
        }
    }

    /// The greatest index below one that isn't a hole.
    pub fn last_below<D: Disk>(
        &self,
        io: &mut Io<'_, D>,
        index: u64,
    ) -> Result<Option<u64>, BlockFault>
        requires levels { self.now.levels ≤ 7 }
        requires index { index ≤ 2 ^ 44 }

        // A tree that is there has it found, and isn't damaged.
        ensures last { (map : Map) → IsHonest io.new → TreeIs (blocks_of io.old) self.now map → Delivers (FindsLast map 0 index) result }
        ensures range { IfOk result (λ found. IfSome found (λ last. last < index)) }

        // Damage is told of a node below the root alone.
        ensures damaged { IsHonest io.new → NamesDamage (IsSeen (disk_of io.old).seen) (disk_of io.old).size (SumsUp (IsSeen (disk_of io.old).seen)) self.now.levels self.now.root result }

        // It only reads, and little.
        ensures looks { LooksAtMost 14 (io_of io.old) (io_of io.new) (stop_of result) }
    {
        let end = index.min(span_of(self.levels));
        if end == 0 {
            return Ok(None);
        }
        last_to(io, self.levels, self.root, end - 1)
    }
}

// An index where it is below another.
fn limited(found: u64, below: u64) -> Option<u64>
    ensures { MatchOption result (below ≤ found) (λ limited. (limited ≡ found) × (found < below)) }
{
    if found < below { Some(found) } else { None }
}

// The first index past the span of a tree that is dated after a number.
fn first_past(past: u64, from: u64, below: u64, number: u64) -> Option<u64>
    ensures { MatchOption result ((past ≤ number) ⊎ (below ≤ from)) (λ found. (found ≡ from) × (from < below) × (number < past)) }
{
    if past > number && from < below {
        Some(from)
    } else {
        None
    }
}

// The leaf of an index, and of how many indices from it on it is the leaf.
ghost use Rattle.std.specs.Prelude.{◌≡◌, ◌+◌, ◌^◌, ◌<◌, ◌≤◌, IfOk};
ghost use Rattle.zst_block.specs.IoStates.{IsHonest, blocks_of, disk_of, io_of};
ghost use Rattle.zst_block.specs.IoCalls.{Looks, stop_of};
ghost use Rattle.zst_tree.specs.Damage.{HangsIn, IsSeen, MayHave, NamesDamage, NamesNode};
ghost use Rattle.zst_tree.specs.Lookups.{Shows};
ghost use Rattle.zst_tree.specs.Indices.{Delivers, Map, TreeIs};

use std::marker::Brand;
use std::sync::ledger::{Blank, Ledger};
use zst_block::{BlockFault, Io, Ptr};
use zst_outside::Disk;
use zst_tree::{Steps, Tree};

// Looks an index up in a tree.
pub(crate) fn run_at<D: Disk>(
    io: &mut Io<'_, D>,
    tree: &Tree,
    index: u64,
) -> Result<(Ptr, u64), BlockFault>
    requires levels { tree.now.levels ≤ 7 }
    requires index { index < 2 ^ 44 }
    ensures shows { (map : Map) → IsHonest io.new → TreeIs (blocks_of io.old) tree.now map → Delivers (Shows map index) result }
    ensures range { IfOk result (λ found. (0 < found.1) × (index + found.1 ≤ 2 ^ 49)) }
    ensures hangs { IsHonest io.new → IfOk result (λ found. HangsIn (MayHave (IsSeen (disk_of io.old).seen)) tree.now found.0) }
    ensures damaged { IsHonest io.new → NamesDamage (IsSeen (disk_of io.old).seen) (disk_of io.old).size NamesNode tree.now.levels tree.now.root result }
    ensures looks { Looks (io_of io.old) (io_of io.new) (stop_of result) }
{
    counted::<D, Brand>(io, tree, index, Blank::new(1))
}

// That, with the nodes on the way counted from 0.
fn counted<D: Disk, L: Ledger>(
    io: &mut Io<'_, D>,
    tree: &Tree,
    index: u64,
    blank: Blank,
) -> Result<(Ptr, u64), BlockFault>
    requires name { blank.name ≡ L.name }
    requires parts { blank.parts ≡ L.parts }
    requires some { 0 < blank.parts }
    requires levels { tree.now.levels ≤ 7 }
    requires index { index < 2 ^ 44 }
    ensures shows { (map : Map) → IsHonest io.new → TreeIs (blocks_of io.old) tree.now map → Delivers (Shows map index) result }
    ensures range { IfOk result (λ found. (0 < found.1) × (index + found.1 ≤ 2 ^ 49)) }
    ensures hangs { IsHonest io.new → IfOk result (λ found. HangsIn (MayHave (IsSeen (disk_of io.old).seen)) tree.now found.0) }
    ensures damaged { IsHonest io.new → NamesDamage (IsSeen (disk_of io.old).seen) (disk_of io.old).size NamesNode tree.now.levels tree.now.root result }
    ensures looks { Looks (io_of io.old) (io_of io.new) (stop_of result) }
{
    let mut steps = Steps::<L>::new(blank);
    tree.get(io, index, &mut steps)
}

//! How many calls of the disk a change of an object makes, and how many sectors it takes.
ghost use Rattle.std.specs.Prelude.{◌≡◌, ◌<◌};
ghost use Rattle.zst_model.specs.states.State.{IsHead};

use crate::{all_free, unread, zeros};
use std::alloc::{AllocError, Global};
use zst_block::Io;
use zst_model::ObjectHead;
use zst_objset::{ObjFault, Objects};
use zst_outside::Disk;
use zst_tree::ObjSet;

// Calls of the disk, and sectors.
#[derive(Clone, Copy, Debug, PartialEq, Eq)]
struct Cost {
    calls: u64,
    sectors: u64,
}

// What was called and taken since a disk had this cost.
fn cost_since<D: Disk>(io: &Io<'_, D>, start: Cost) -> Cost {
    Cost {
        calls: io.disk.calls().saturating_sub(start.calls),
        sectors: io.space.end().saturating_sub(start.sectors),
    }
}

// The head of a file with blocks of 512 bytes.
#[tactic(auto, unfolding(zst_model::specs::states::State::is_block_size, zst_model::specs::states::State::largest_block))]
fn file() -> ObjectHead
    ensures { IsHead result }
{
    ObjectHead {
        type_: 19,
        bonus_type: 0,
        block_size: 512,
    }
}

// What changes cost where no node is kept, and then.
#[derive(Clone, Copy, Debug, PartialEq, Eq)]
struct Costs {
    unread: Cost,
    write: Cost,
    punch: Cost,
}

// A set of one object with a block at an index.
fn with_block<D: Disk>(io: &mut Io<'_, D>, object: u64, index: u64) -> Result<ObjSet, ObjFault>
    requires object { 0 < object }
    ensures same { io.new.disk.ghost_name ≡ io.old.disk.ghost_name }
{
    let mut set = ObjSet::empty();
    set.put_object(io, object, file(), &[], false, 1)?;
    set.write_block(io, object, index, &[6; 512], 1)?;
    Ok(set)
}

// What the next write of that block costs, one more, and a punch of all blocks.
fn costs_in<D: Disk>(
    io: &mut Io<'_, D>,
    mut set: ObjSet,
    object: u64,
    index: u64,
) -> Result<Costs, ObjFault>
    requires object { 0 < object }
{
    let none = Cost {
        calls: 0,
        sectors: 0,
    };
    let start = cost_since(io, none);
    set.write_block(io, object, index, &[6; 512], 1)?;
    let unread = cost_since(io, start);
    let start = cost_since(io, none);
    set.write_block(io, object, index, &[6; 512], 1)?;
    let write = cost_since(io, start);
    let start = cost_since(io, none);
    set.punch(io, object, 0, 1 << 43, 1)?;
    let punch = cost_since(io, start);
    Ok(Costs {
        unread,
        write,
        punch,
    })
}

// The same on a disk in memory.
fn costs_at(alloc: Global, object: u64, index: u64) -> Result<Result<Costs, ObjFault>, AllocError>
    requires { 0 < object }
{
    let mut disk = zeros(alloc)?;
    let mut io = all_free(alloc, &mut disk);
    let set = match with_block(&mut io, object, index) {
        Ok(set) => set,
        Err(fault) => return Ok(Err(fault)),
    };
    let mut io = unread(alloc, io)?;
    Ok(costs_in(&mut io, set, object, index))
}

// A set of object 1 alone is one leaf. A block is one sector, and a leaf or a node 16: with L levels
// a write makes 2 + L writes, and takes 1 + 16 + 16L sectors. Where nothing is kept yet it reads the
// leaf and each node once. A punch of all blocks leaves no node, and reads none.
#[test]
fn what_a_change_costs_grows_with_the_levels_alone(rt: HostRuntime) -> Result<(), AllocError> {
    for (blocks, reads, writes, sectors) in [
        (1, 1, 2, 17),
        (128, 2, 3, 33),
        (16_384, 3, 4, 49),
        (2_097_152, 4, 5, 65),
    ] {
        let costs = costs_at(rt.alloc(), 1, blocks - 1)?;
        let wanted = Costs {
            unread: Cost {
                calls: reads + writes,
                sectors,
            },
            write: Cost {
                calls: writes,
                sectors,
            },
            punch: Cost {
                calls: 1,
                sectors: 16,
            },
        };
        assert!(rt; costs == Ok(wanted), "{blocks} blocks: {costs:?}");
    }
    Ok(())
}

// The last number stands below 7 levels of nodes, and the last index too: with the leaf 15 reads at
// most, and 15 writes beside the block's.
#[test]
fn a_change_costs_most_at_the_last_index_of_the_last_number(
    rt: HostRuntime,
) -> Result<(), AllocError> {
    let costs = costs_at(rt.alloc(), (1 << 48) - 1, (1 << 43) - 1)?;
    let wanted = Costs {
        unread: Cost {
            calls: 31,
            sectors: 241,
        },
        write: Cost {
            calls: 16,
            sectors: 241,
        },
        punch: Cost {
            calls: 8,
            sectors: 128,
        },
    };
    assert!(rt; costs == Ok(wanted), "{costs:?}");
    Ok(())
}

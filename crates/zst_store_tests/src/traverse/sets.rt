// Object sets on a disk in memory.
ghost use Rattle.std.specs.Prelude.{◌≡◌};
ghost use Rattle.zst_model.specs.states.State.{IsHead};

use zst_block::Io;
use zst_model::ObjectHead;
use zst_objset::{ObjFault, Objects};
use zst_outside::Disk;
use zst_tree::ObjSet;

// The head of a file with blocks of 512 bytes.
#[tactic(auto, unfolding(zst_model::specs::states::State::is_block_size, zst_model::specs::states::State::largest_block))]
pub(super) fn file() -> ObjectHead
    ensures { IsHead result }
{
    ObjectHead {
        type_: 19,
        bonus_type: 0,
        block_size: 512,
    }
}

// An object with 300 blocks that stand 128 apart, each written by a change of its own, and the first
// once more: changes 2 to 303.
pub(super) fn scattered<D: Disk>(io: &mut Io<'_, D>) -> Result<ObjSet, ObjFault>
    ensures same { io.new.disk.ghost_name ≡ io.old.disk.ghost_name }
{
    let mut set = ObjSet::empty();
    set.put_object(io, 1, file(), &[], false, 2)?;
    for place in 0..300 {
        set.write_block(io, 1, 128 * place, &[6; 512], 3 + place)?;
    }
    set.write_block(io, 1, 0, &[7; 512], 303)?;
    Ok(set)
}

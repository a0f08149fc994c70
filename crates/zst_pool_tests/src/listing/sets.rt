// A set of objects on a disk in memory, and its list.
ghost use Rattle.std.specs.Prelude.{◌≡◌, ◌<◌, IfOk};
ghost use Rattle.zst_model.specs.states.State.{IsHead};

use std::alloc::{AllocError, Global};
use zst_block::Io;
use zst_listing::list_objects;
use zst_model::{ObjectHead, Reply};
use zst_objset::{ObjFault, Objects};
use zst_outside::{Disk, SureDisk};
use zst_space::Space;
use zst_tree::{ObjSet, OrMemory};

// The greatest number of an object.
const LAST: u64 = (1 << 48) - 1;

// 32,768 sectors of zeros.
fn zeros(alloc: Global) -> Result<SureDisk, AllocError>
    ensures size { IfOk result (λ d. (⟦<SureDisk as Disk>⟧.state d).size ≡ 16777216) }
{
    Ok(SureDisk::new(vec![in alloc; 0; 16_777_216]?))
}

// Its sectors from 8 on are free.
fn all_free<'d>(alloc: Global, disk: &'d mut SureDisk) -> Io<'d, SureDisk>
    requires { (⟦<SureDisk as Disk>⟧.state disk.old).size ≡ 16777216 }
    ensures same { result.disk.ghost_name ≡ disk.entry.ghost_name }
{
    Io::new(alloc, disk, Space::new(8, 32_768, Vec::new(alloc)))
}

// A file of blocks of 512 bytes.
#[tactic(auto, unfolding(zst_model::specs::states::State::is_block_size, zst_model::specs::states::State::largest_block))]
fn file() -> ObjectHead
    ensures { IsHead result }
{
    ObjectHead {
        type_: 19,
        bonus_type: 44,
        block_size: 512,
    }
}

// A file at the last number, of which blocks 5 to 204 are redacted.
fn make<D: Disk>(io: &mut Io<'_, D>) -> Result<ObjSet, OrMemory<ObjFault>>
    ensures same { io.new.disk.ghost_name ≡ io.old.disk.ghost_name }
{
    let mut set = ObjSet::empty();
    set.put_object(io, LAST, file(), &[], false, 3)?;
    set.redact_range(io, LAST, 5, 200, 3)?;
    Ok(set)
}

pub(super) fn listed(alloc: Global) -> Result<Reply, OrMemory<ObjFault>> {
    let mut disk = zeros(alloc)?;
    let mut io = all_free(alloc, &mut disk);
    let set = make(&mut io)?;
    list_objects(&mut io, alloc, &set)
}

//! Nodes that are kept, told by the calls of the disk.
ghost use Rattle.std.specs.Prelude.{◌≡◌};

use crate::{all_free, unread, zeros};
use std::alloc::AllocError;
use zst_block::{BlockFault, Io, Ptr, load, save};
use zst_outside::Disk;

// Saves a node that begins with this byte.
fn save_with<D: Disk>(io: &mut Io<'_, D>, byte: u8) -> Result<Ptr, BlockFault>
    ensures same { io.new.disk.ghost_name ≡ io.old.disk.ghost_name }
{
    io.node.put_bytes(0, &[byte]);
    save(io, 1, 3)
}

// Saves so many nodes more.
fn save_more<D: Disk>(io: &mut Io<'_, D>, count: u8) -> bool
    ensures same { io.new.disk.ghost_name ≡ io.old.disk.ghost_name }
{
    for byte in 0..count {
        if save_with(io, byte).is_err() {
            return false;
        }
    }
    true
}

// Loads a node: the byte that it begins with, and how many calls of the disk that made.
fn begin_of<D: Disk>(io: &mut Io<'_, D>, ptr: Ptr) -> Result<(u8, u64), BlockFault>
    ensures same { io.new.disk.ghost_name ≡ io.old.disk.ghost_name }
{
    let calls = io.disk.calls();
    load(io, ptr)?;
    Ok((io.node.as_slice()[0], io.disk.calls().saturating_sub(calls)))
}

#[test]
fn a_node_is_read_once(rt: HostRuntime) -> Result<(), AllocError> {
    let mut disk = zeros(rt.alloc())?;
    let mut io = all_free(rt.alloc(), &mut disk);
    let Ok(ptr) = save_with(&mut io, 5) else {
        return Err(AllocError);
    };
    // What was saved isn't read, nor is it behind another write.
    assert_eq!(rt; begin_of(&mut io, ptr), Ok((5, 0)));
    assert!(rt; save_with(&mut io, 6).is_ok());
    assert_eq!(rt; begin_of(&mut io, ptr), Ok((5, 0)));
    let mut io = unread(rt.alloc(), io)?;
    assert_eq!(rt; begin_of(&mut io, ptr), Ok((5, 1)));
    assert_eq!(rt; begin_of(&mut io, ptr), Ok((5, 0)));
    Ok(())
}

#[test]
fn the_node_that_was_used_first_goes_first(rt: HostRuntime) -> Result<(), AllocError> {
    let mut disk = zeros(rt.alloc())?;
    let mut io = all_free(rt.alloc(), &mut disk);
    let (Ok(first), Ok(second)) = (save_with(&mut io, 1), save_with(&mut io, 2)) else {
        return Err(AllocError);
    };
    // 64 nodes are kept. One more takes the place of the second, as the first was used since.
    assert!(rt; save_more(&mut io, 62));
    assert_eq!(rt; begin_of(&mut io, first), Ok((1, 0)));
    assert!(rt; save_more(&mut io, 1));
    assert_eq!(rt; begin_of(&mut io, first), Ok((1, 0)));
    assert_eq!(rt; begin_of(&mut io, second), Ok((2, 1)));
    Ok(())
}

//! WRITE records of neighbouring blocks, applied at once.
use crate::apply::heads::{put, write};
use crate::apply::sets::{accept, data, hole};
use crate::{all_free, zeros};
use std::alloc::AllocError;
use zst_apply::write_run;
use zst_objset::Objects;
use zst_tree::ObjSet;

// Blocks 126 and 127 are the last below one node, and block 127 was there. The run takes a sector
// for each of the two, and 16 for the node above them and for the leaf of dnodes.
#[test]
#[tactic(auto, unfolding(zst_model::specs::states::State::is_block_size, zst_model::specs::states::State::largest_block, zst_model::specs::states::State::is_odd_size))]
fn a_run_is_read_as_its_blocks(rt: HostRuntime) -> Result<(), AllocError> {
    let mut disk = zeros(rt.alloc())?;
    let mut io = all_free(rt.alloc(), &mut disk);
    let mut set = ObjSet::empty();
    accept(&rt, &mut io, &mut set, &put(1, 19, false), 5);
    accept(&rt, &mut io, &mut set, &write(1, 65_024, false), 7);
    let end = io.space.end();
    let mut bytes = [8; 1024];
    for byte in &mut bytes[512..] {
        *byte = 9;
    }
    let answer = write_run(&mut io, &mut set, 1, 126, 512, 2, &bytes, 8);
    assert!(&rt; answer == Ok(()), "{answer:?}");
    assert_eq!(&rt; io.space.end().saturating_sub(end), 34);
    hole(&rt, &mut io, &set, 125);
    data(&rt, &mut io, &set, 126, 8);
    data(&rt, &mut io, &set, 127, 9);
    hole(&rt, &mut io, &set, 128);
    Ok(())
}

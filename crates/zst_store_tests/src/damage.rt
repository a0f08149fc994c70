//! The count of damaged nodes.
use crate::{all_free, unread, zeros};
use std::alloc::AllocError;
use zst_block::{Ptr, load, save};
use zst_fletcher::sum_of;
use zst_outside::Disk;

#[test]
fn damaged_nodes_are_counted(rt: HostRuntime) -> Result<(), AllocError> {
    let mut disk = zeros(rt.alloc())?;
    let mut io = all_free(rt.alloc(), &mut disk);
    let Ok(ptr) = save(&mut io, 1, 3) else {
        return Err(AllocError);
    };
    // A pointer that states other sums.
    let other = Ptr {
        sum: sum_of(&[1, 0, 0, 0]),
        ..ptr
    };
    let mut io = unread(rt.alloc(), io)?;
    // One that is read is counted, a right one isn't, and one that is kept is.
    assert!(rt; load(&mut io, other).is_err());
    assert_eq!(rt; io.checksum_errors, 1);
    assert!(rt; load(&mut io, ptr).is_ok());
    assert_eq!(rt; io.checksum_errors, 1);
    let calls = io.disk.calls();
    assert!(rt; load(&mut io, other).is_err());
    assert_eq!(rt; (io.checksum_errors, io.disk.calls()), (2, calls));
    Ok(())
}

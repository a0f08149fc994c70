// A pool of many snapshots.
ghost use Rattle.std.specs.Prelude.{◌≤◌};

use crate::bytes_of;
use crate::pools::{created, rows_of, step_on};
use crate::refusals::TestRefusal;
use std::alloc::Global;
use std::process::Abort;
use zst_model::Refusal;
use zst_outside::{Disk, MemDisk};

// The bytes of a disk whose one dataset has a hundred snapshots.
fn with_hundred(alloc: Global) -> Result<Vec<u8>, TestRefusal> {
    let mut disk = created(alloc, 8_192)?;
    step_on(alloc, &mut disk, "fs here tank/a")?;
    for place in 0..100u64 {
        let line = format!(in alloc; "snapshot here tank/a@s{place}")?;
        step_on(alloc, &mut disk, line.as_str())?;
    }
    bytes_of(alloc, &mut disk).map_err(TestRefusal)
}

// Checks that a disk has all of the hundred snapshots, or nothing.
fn check_whole(
    rt: &impl Abort,
    alloc: Global,
    disk: &mut MemDisk,
    at: u64,
) -> Result<(), TestRefusal> {
    let rows = rows_of(alloc, disk)?;
    assert!(rt; rows == (1, 100, 0) || rows == (0, 0, 0), "at {at}");
    Ok(())
}

// Checks so what a crash before the call of this number leaves.
fn check_image(rt: &impl Abort, alloc: Global, disk: &MemDisk, call: u64) -> Result<(), TestRefusal>
    requires call { call ≤ (⟦<MemDisk as Disk>⟧.state disk.now).calls }
{
    let mut image = disk.image(alloc, call, 0xa5)?;
    check_whole(rt, alloc, &mut image, call)
}

// Checks so where the call of this number fails as the dataset is destroyed.
fn check_fault(
    rt: &impl Abort,
    alloc: Global,
    bytes: Vec<u8>,
    call: u64,
) -> Result<(), TestRefusal> {
    let fail = vec![in alloc; call; 1]?;
    let mut disk = MemDisk::new(bytes, fail, None);
    let answer = step_on(alloc, &mut disk, "destroy here tank/a");
    let is_fault = matches!(answer, Err(TestRefusal(Refusal::DiskFault)));
    assert!(rt; is_fault, "at {call}");
    check_whole(rt, alloc, &mut disk, call)
}

#[test]
fn a_hundred_snapshots_go_at_once(rt: HostRuntime) -> Result<(), TestRefusal> {
    let alloc = rt.alloc();
    let bytes = with_hundred(alloc)?;
    let mut disk = MemDisk::new(bytes.clone()?, Vec::new(alloc), None);
    step_on(alloc, &mut disk, "destroy here tank/a")?;
    for call in 0..disk.calls() {
        check_image(&rt, alloc, &disk, call)?;
        check_fault(&rt, alloc, bytes.clone()?, call)?;
    }
    assert_eq!(rt; rows_of(alloc, &mut disk)?, (0, 0, 0));
    Ok(())
}

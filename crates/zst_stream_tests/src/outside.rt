use std::alloc::{AllocError, Global};
use std::process::Abort;
use zst_outside::{Disk, Fault, MemDisk, Sink, Source};

// Writes to a disk of four bytes.
fn write<D: Disk>(disk: &mut D, place: u8, byte: u8) -> Result<(), Fault> {
    if disk.bytes() != 4 || place > 3 {
        return Err(Fault);
    }
    disk.write_at(place as u64, &[byte])
}

// Whether a disk reads as these four bytes.
fn reads_as<D: Disk>(disk: &mut D, bytes: [u8; 4]) -> bool {
    let mut found = [0; 4];
    disk.bytes() == 4 && disk.read(0, &mut found).is_ok() && found == bytes
}

// Whether the image before a call, filled with A5, is these four bytes.
fn image_is(
    disk: &MemDisk,
    alloc: Global,
    moment: u64,
    bytes: [u8; 4],
) -> Result<bool, AllocError> {
    if moment > disk.calls() {
        return Ok(false);
    }
    let mut image = disk.image(alloc, moment, 0xA5)?;
    Ok(reads_as(&mut image, bytes))
}

// A disk of four zeros.
fn zeros(alloc: Global, fail: Vec<u64>, stop: Option<u64>) -> Result<MemDisk, AllocError> {
    Ok(MemDisk::new(vec![in alloc; 0; 4]?, fail, stop))
}

// A disk with a write that was synced, and one that wasn't.
fn with_writes(rt: &impl Abort, alloc: Global) -> Result<MemDisk, AllocError> {
    let mut disk = zeros(alloc, Vec::new(alloc), None)?;
    assert!(rt; write(&mut disk, 0, 1).is_ok());
    assert!(rt; disk.sync().is_ok());
    assert!(rt; write(&mut disk, 3, 2).is_ok());
    Ok(disk)
}

#[test]
fn images_fill_what_was_not_synced(rt: HostRuntime) -> Result<(), AllocError> {
    let mut disk = with_writes(&rt, rt.alloc())?;
    for (moment, bytes) in [
        (0, [0, 0, 0, 0]),
        (1, [0xA5, 0, 0, 0]),
        (2, [1, 0, 0, 0]),
        (3, [1, 0, 0, 0xA5]),
    ] {
        assert!(rt;
            image_is(&disk, rt.alloc(), moment, bytes)?,
            "before {moment}"
        );
    }
    assert!(rt; reads_as(&mut disk, [1, 0, 0, 2]));
    assert_eq!(rt; disk.calls(), 4);
    assert_eq!(rt; disk.log().len(), 4);
    Ok(())
}

// A disk of which the second call fails, and all from the fourth on.
fn with_faults(rt: &impl Abort, alloc: Global) -> Result<MemDisk, AllocError> {
    let mut disk = zeros(alloc, vec![in alloc; 1]?, Some(3))?;
    assert!(rt; write(&mut disk, 0, 1).is_ok());
    assert!(rt; write(&mut disk, 1, 2).is_err());
    assert!(rt; disk.sync().is_ok());
    assert!(rt; write(&mut disk, 2, 3).is_err());
    assert!(rt; disk.sync().is_err());
    Ok(disk)
}

#[test]
fn failed_calls_leave_their_ranges_open(rt: HostRuntime) -> Result<(), AllocError> {
    let disk = with_faults(&rt, rt.alloc())?;
    for (moment, bytes) in [
        (2, [0xA5, 0xA5, 0, 0]),
        (3, [1, 0, 0, 0]),
        (5, [1, 0, 0xA5, 0]),
    ] {
        assert!(rt;
            image_is(&disk, rt.alloc(), moment, bytes)?,
            "before {moment}"
        );
    }
    assert_eq!(rt; disk.faults(), 3);
    assert_eq!(rt; disk.starved(), 0);
    Ok(())
}

//! The words of a block by a reckoning of its own, and where the commands end.
use crate::commands::{command, command_count};
use std::alloc::{AllocError, Global};
use std::test::Fail;
use zst_model::{Bytes, Command};

/// The index and the bytes of the block that the command with this number of those for one object writes.
fn block_of(alloc: Global, number: u64) -> Result<Option<(u64, Bytes)>, AllocError> {
    match command(alloc, 1, number)? {
        Some(Command::Write { index, bytes, .. }) => Ok(Some((index, bytes))),
        _ => Ok(None),
    }
}

/// Each word is 0x9e3779b1 more than the one before. Block 0 of object 1 begins 65,536 steps from 0, with the lower half of that number in its upper half,
/// and ends 98,303 steps from 0.
#[test]
fn words_go_up_in_steps(rt: HostRuntime) -> Result<(), Fail> {
    let (index, bytes) = block_of(rt.alloc(), 2)?.ok_or("a write")?;
    assert_eq!(rt; index, 0);
    let bytes = bytes.as_slice();
    assert_eq!(rt; bytes.len(), 131_072);
    assert_eq!(rt; &bytes[..4], [0x00, 0x00, 0xb1, 0x79].as_slice());
    assert_eq!(rt; &bytes[4..8], [0xb1, 0x79, 0xe8, 0x17].as_slice());
    assert_eq!(rt; &bytes[131_068..], [0x4f, 0x06, 0x52, 0x98].as_slice());
    Ok(())
}

/// Blocks 0 to 6 are written, and 8 behind them.
#[test]
fn holes_are_passed_over(rt: HostRuntime) -> Result<(), Fail> {
    let (index, _) = block_of(rt.alloc(), 8)?.ok_or("a write")?;
    assert_eq!(rt; index, 6);
    let (index, _) = block_of(rt.alloc(), 9)?.ok_or("a write")?;
    assert_eq!(rt; index, 8);
    Ok(())
}

/// A file system, an object and 224 blocks for each of 64 steps, and a snapshot.
#[test]
fn a_snapshot_is_the_last(rt: HostRuntime) -> Result<(), Fail> {
    assert_eq!(rt; command_count(64), 14_402);
    let last = command(rt.alloc(), 64, 14_401)?.ok_or("a snapshot")?;
    match last {
        Command::Snapshot { name } => assert_eq!(rt; name.text(), "gen/f64@g"),
        _ => return Err(Fail::from("another command")),
    }
    assert!(rt; command(rt.alloc(), 64, 14_402)?.is_none());
    Ok(())
}

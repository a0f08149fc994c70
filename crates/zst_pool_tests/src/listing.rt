//! What is listed of redactions in a directory that is spelled by hand, and of redacted blocks in a set.
mod rows;
mod sets;

use std::test::Fail;
use zst_objset::ObjFault;
use zst_tree::OrMemory;

#[test]
fn rows_of_redactions_are_listed(rt: HostRuntime) -> Result<(), Fail> {
    let reply = rows::listed(rt.alloc())?;
    let want = [
        "fs a origin none",
        "snapshot a@r guid ffffffffffffffff time 1700000005 number 9 redacted 2",
        "bookmark a#m guid 000000000000001f number 3 redacted 3 runs 4",
    ];
    assert_eq!(rt; reply.lines().len(), 3);
    for (line, text) in reply.lines().iter().zip(want) {
        assert!(rt; line.as_slice() == text.as_bytes(), "{text}");
    }
    Ok(())
}

#[test]
fn an_object_ends_behind_what_is_redacted(rt: HostRuntime) -> Result<(), OrMemory<ObjFault>> {
    let reply = sets::listed(rt.alloc())?;
    let text = "object 281474976710655 type 19 size 512 bonustype 44 bonus 0 spill none end 205";
    let lines = reply.lines();
    assert_eq!(rt; lines.len(), 1);
    assert!(rt; lines[0].as_slice() == text.as_bytes());
    Ok(())
}

//! Sends from tokens of what was redacted.
use crate::plan::senders::clones;
use crate::plan::twins::{is_refused, planned, token, twins};
use std::test::Fail;

#[test]
fn redaction_bookmarks_are_found_by_their_guids(rt: HostRuntime) -> Result<(), Fail> {
    let dir = twins(rt.alloc())?;
    let plan = planned(&dir, &token(18, 16, &[], &[7]))?;
    assert!(rt; plan.book_f == Some(1) && plan.from_snap.is_none());
    assert!(rt; plan.from_number == Some(4) && plan.from_guid == 16);
    let plan = planned(&dir, &token(17, 16, &[7, 9], &[]))?;
    assert!(rt; plan.snap == 1 && plan.book_t == Some(0));
    Ok(())
}

#[test]
fn guids_of_no_redaction_bookmark_are_refused(rt: HostRuntime) -> Result<(), Fail> {
    let dir = twins(rt.alloc())?;
    let text = "no such guid 0000000000000010";
    assert!(rt; is_refused(&dir, &token(18, 16, &[], &[9]), text));
    let text = "no such guid 0000000000000011";
    assert!(rt; is_refused(&dir, &token(17, 16, &[7], &[]), text));
    Ok(())
}

#[test]
fn a_redacted_snapshot_is_sent_on_without_a_bookmark(rt: HostRuntime) -> Result<(), Fail> {
    let dir = clones(rt.alloc())?;
    let plan = planned(&dir, &token(66, 65, &[7], &[7]))?;
    assert!(rt; plan.snap == 7 && plan.from_snap == Some(6));
    assert!(rt; plan.book_f.is_none() && plan.book_t.is_none());
    // A token without redaction guids is of no redacted snapshot.
    let text = "no such guid 0000000000000042";
    assert!(rt; is_refused(&dir, &token(66, 65, &[], &[7]), text));
    // The guids of a bookmark redact it once more.
    let text = "unsupported: relay";
    assert!(rt; is_refused(&dir, &token(65, 0, &[9], &[]), text));
    Ok(())
}

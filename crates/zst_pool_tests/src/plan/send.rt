//! Sends of what no command makes: redactions, a bookmark beside its snapshot's guid, and origins in a circle.
use crate::plan::senders::{ask, circle, clones, is_refused, planned};
use std::test::Fail;
use zst_plan::send_plan;

#[test]
fn redactions_are_sent_by_their_bookmarks(rt: HostRuntime) -> Result<(), Fail> {
    let dir = clones(rt.alloc())?;
    for (snap, from, place, flags) in [("a@t", "a#o", 0, 12), ("c@w", "a#r", 1, 13)] {
        let plan = planned(&dir, snap, from)?;
        assert!(rt;
            plan.book_f == Some(place) && plan.flags == flags,
            "{snap} from {from}"
        );
        assert!(rt;
            plan.from_number == Some(3) && plan.from_snap.is_none(),
            "{snap} from {from}"
        );
    }
    Ok(())
}

#[test]
fn a_header_has_the_guids_of_its_bookmark(rt: HostRuntime) -> Result<(), Fail> {
    let dir = clones(rt.alloc())?;
    let header = planned(&dir, "c@w", "a#r")?.header(&dir);
    assert!(rt; header.from == 17 && header.from_redact.as_slice() == [7, 9].as_slice());
    assert!(rt; header.redact.as_slice().is_empty() && header.features == 4);
    Ok(())
}

#[test]
fn a_redacted_send_has_the_guids_that_it_is_for(rt: HostRuntime) -> Result<(), Fail> {
    let dir = clones(rt.alloc())?;
    let Ok(plan) = send_plan(&dir, &ask("a@s", "a@q", "a#r")?) else {
        return Err(Fail::new("it is refused"));
    };
    assert_eq!(rt; plan.book_t, Some(1));
    let header = plan.header(&dir);
    // REDACTED is bit 21, SA_SPILL bit 2.
    assert_eq!(rt; header.features, 0x20_0004);
    assert!(rt; header.redact.as_slice() == [7, 9].as_slice());
    assert!(rt; header.from_redact.as_slice().is_empty());
    Ok(())
}

#[test]
fn redacted_snapshots_are_sent_on_with_their_guids(rt: HostRuntime) -> Result<(), Fail> {
    let dir = clones(rt.alloc())?;
    let full = planned(&dir, "d@x", "")?.header(&dir);
    // REDACTED is bit 21, SA_SPILL bit 2.
    assert_eq!(rt; full.features, 0x20_0004);
    assert!(rt; full.redact.as_slice() == [7].as_slice());
    assert!(rt; full.from_redact.as_slice().is_empty());
    let plan = planned(&dir, "d@y", "d@x")?;
    assert!(rt; plan.from_snap == Some(6) && plan.book_t.is_none());
    let increment = plan.header(&dir);
    assert_eq!(rt; increment.features, 0x20_0004);
    assert!(rt; increment.redact.as_slice() == [7].as_slice());
    assert!(rt; increment.from_redact.as_slice() == [7].as_slice());
    Ok(())
}

#[test]
fn what_no_command_makes_is_refused_in_order(rt: HostRuntime) -> Result<(), Fail> {
    let dir = clones(rt.alloc())?;
    for (snap, from, redact, text) in [
        ("d@y", "a@s", "", "not an ancestor of d@y: a@s"),
        ("b@u", "a#o", "", "not an ancestor of b@u: a#o"),
        ("d@x", "d@y", "", "not an ancestor of d@x: d@y"),
        ("a@t", "", "a#r", "not a redaction of a@t: a#r"),
        ("d@x", "", "d#x", "not a redaction of d@x: d#x"),
        ("d@y", "d@x", "d#z", "not a redaction of d@y: d#z"),
        ("d@x", "", "d#z", "unsupported: relay"),
    ] {
        let ask = ask(snap, from, redact)?;
        assert!(rt; is_refused(&dir, &ask, text), "{text}");
    }
    Ok(())
}

#[test]
fn origins_in_a_circle_end(rt: HostRuntime) -> Result<(), Fail> {
    let ask = ask("e@x", "a@s", "")?;
    for numbers in [(20, 20), (20, 21), (21, 20)] {
        let dir = circle(rt.alloc(), numbers)?;
        assert!(rt;
            is_refused(&dir, &ask, "not an ancestor of e@x: a@s"),
            "{numbers:?}"
        );
    }
    Ok(())
}

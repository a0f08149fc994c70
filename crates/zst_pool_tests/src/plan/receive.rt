//! Receives of what is redacted, and into pools that are full of rows.
use crate::plan::headers::{ask, begins, from, from_redacted, guids, is_refused, redacted, rest};
use crate::plan::receivers::{crowd, receivers};
use std::test::Fail;
use zst_plan::{RecvPlan, recv_plan};

#[test]
fn a_redacted_stream_goes_on_where_it_stands(rt: HostRuntime) -> Result<(), Fail> {
    let dir = receivers(rt.alloc())?;
    match recv_plan(&dir, &ask("p", "", "")?, &rest()) {
        Ok(RecvPlan::Resumes { place }) => assert_eq!(rt; place, 0),
        Ok(RecvPlan::Begins { .. }) => return Err(Fail::new("it begins")),
        Err(_) => return Err(Fail::new("it is refused")),
    }
    Ok(())
}

#[test]
fn a_stream_of_other_redactions_does_not_go_on(rt: HostRuntime) -> Result<(), Fail> {
    let dir = receivers(rt.alloc())?;
    let ask = ask("p", "", "")?;
    let text = "wrong resume: have 0000000000000063 5 1024, want 0000000000000063 5 1024";
    let mut redact = rest();
    redact.redact = guids(&[7]);
    assert!(rt; is_refused(&dir, &ask, &redact, text));
    let mut from_redact = rest();
    from_redact.from_redact = guids(&[12]);
    assert!(rt; is_refused(&dir, &ask, &from_redact, text));
    Ok(())
}

#[test]
fn what_the_base_lacks_comes_in_the_stream(rt: HostRuntime) -> Result<(), Fail> {
    let dir = receivers(rt.alloc())?;
    let ask_d = ask("d", "", "")?;
    let mut own = from(65);
    own.to = 7;
    for (header, number) in [
        (own, 0),
        (redacted(65, &[7, 9]), 1),
        (from_redacted(65, &[9]), 2),
    ] {
        assert!(rt; begins(&dir, &ask_d, &header, "d@n", Some(1)), "{number}");
    }
    assert!(rt; begins(&dir, &ask("new", "", "d@x")?, &from(0), "new@n", Some(1)));
    Ok(())
}

#[test]
fn a_stream_of_more_than_the_base_has_is_refused(rt: HostRuntime) -> Result<(), Fail> {
    let dir = receivers(rt.alloc())?;
    let text = "not contained: guid 0000000000000063";
    assert!(rt; is_refused(&dir, &ask("d", "", "")?, &from(65), text));
    assert!(rt; is_refused(&dir, &ask("d", "d@x", "")?, &from(65), text));
    Ok(())
}

#[test]
fn redactions_that_the_base_lacks_are_refused(rt: HostRuntime) -> Result<(), Fail> {
    let dir = receivers(rt.alloc())?;
    let ask = ask("d", "", "")?;
    let mut both = redacted(65, &[7, 11]);
    both.from_redact = guids(&[8]);
    for (header, text) in [
        (
            redacted(65, &[5, 7, 11]),
            "not contained: guid 0000000000000005",
        ),
        (
            from_redacted(65, &[7, 8, 11]),
            "not contained: guid 0000000000000008",
        ),
        (both, "not contained: guid 000000000000000b"),
    ] {
        assert!(rt; is_refused(&dir, &ask, &header, text), "{text}");
    }
    Ok(())
}

#[test]
fn a_pool_without_room_is_refused(rt: HostRuntime) -> Result<(), Fail> {
    let ask = ask("new", "", "")?;
    for (datasets, snapshots, partials, text) in [
        (1, 0, 16, "limit: partials 16"),
        (241, 0, 15, "limit: datasets 256"),
        (1, 1009, 15, "limit: snapshots 1024"),
    ] {
        let dir = crowd(rt.alloc(), datasets, snapshots, partials)?;
        assert!(rt; is_refused(&dir, &ask, &from(0), text), "{text}");
    }
    Ok(())
}

#[test]
fn a_pool_takes_as_much_as_it_has_room_for(rt: HostRuntime) -> Result<(), Fail> {
    let ask = ask("new", "", "")?;
    for (datasets, snapshots) in [(240, 0), (1, 1008)] {
        let dir = crowd(rt.alloc(), datasets, snapshots, 15)?;
        assert!(rt; begins(&dir, &ask, &from(0), "new@n", None), "{datasets}");
    }
    Ok(())
}

#[test]
fn a_dataset_that_is_there_takes_no_room(rt: HostRuntime) -> Result<(), Fail> {
    let dir = crowd(rt.alloc(), 256, 1, 0)?;
    assert!(rt; begins(&dir, &ask("d1000", "", "")?, &from(1), "d1000@n", Some(0)));
    Ok(())
}

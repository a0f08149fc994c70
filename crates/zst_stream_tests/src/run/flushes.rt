// What is handed on, and when: an output that keeps what it takes until it is flushed.

use super::outputs::{check_out, covered, dump_items};
use super::round_trip::TEXT;
use std::test::Fail;

/// The number of no call.
const NONE: u64 = u64::MAX;

/// The items take 137 reads. A read that fails ends the dump at once, and so shows what was handed on before it.
#[test]
fn lines_are_handed_on_before_more_is_asked_for(rt: HostRuntime) -> Result<(), Fail> {
    let alloc = rt.alloc();
    for read in 0..137u64 {
        let dumped = dump_items(alloc, read, NONE)?;
        assert_eq!(rt; dumped.status, 5);
        check_out(&rt, &dumped.out, covered(dumped.taken), "");
    }
    Ok(())
}

/// A flush comes before each read, and one at the end.
#[test]
fn each_flush_that_fails_ends_the_dump(rt: HostRuntime) -> Result<(), Fail> {
    let alloc = rt.alloc();
    let mut handed_on = "";
    for flush in 0..138u64 {
        let dumped = dump_items(alloc, NONE, flush)?;
        assert_eq!(rt; dumped.status, 6);
        assert_eq!(rt; dumped.out.faults, 1);
        let lines = covered(dumped.taken);
        let lost = lines.get(handed_on.len()..).ok_or("a longer text")?;
        check_out(&rt, &dumped.out, handed_on, lost);
        handed_on = lines;
    }
    let dumped = dump_items(alloc, NONE, 138)?;
    assert_eq!(rt; dumped.status, 0);
    check_out(&rt, &dumped.out, TEXT, "");
    Ok(())
}

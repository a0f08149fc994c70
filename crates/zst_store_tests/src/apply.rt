//! Records applied to small sets: what each does, and what it is refused for.
mod heads;
mod runs;
mod sets;

use crate::apply::heads::{end, free, free_objects, put, redact, spill, write};
use crate::apply::sets::{accept, check_index, data, hole, refuse, told};
use crate::{all_free, zeros};
use std::alloc::AllocError;
use zst_model::limits::INDEX_BOUND;
use zst_model::{ApplyFault, Quantity};
use zst_objset::ObjFault;
use zst_tree::ObjSet;

#[test]
fn each_record_does_what_it_says(rt: HostRuntime) -> Result<(), AllocError> {
    let mut disk = zeros(rt.alloc())?;
    let mut io = all_free(rt.alloc(), &mut disk);
    let mut set = ObjSet::empty();
    accept(&rt, &mut io, &mut set, &put(1, 19, false), 5);
    accept(&rt, &mut io, &mut set, &spill(1), 6);
    assert_eq!(&rt; told(&mut io, &set), Some((512, 5, 5, true)));
    accept(&rt, &mut io, &mut set, &write(1, 0, false), 7);
    accept(&rt, &mut io, &mut set, &write(1, 1024, false), 8);
    accept(&rt, &mut io, &mut set, &write(1, 4608, false), 9);
    data(&rt, &mut io, &set, 0, 7);
    hole(&rt, &mut io, &set, 1);
    data(&rt, &mut io, &set, 2, 8);
    accept(&rt, &mut io, &mut set, &free(1, 512, 1024), 0);
    data(&rt, &mut io, &set, 0, 7);
    hole(&rt, &mut io, &set, 2);
    accept(&rt, &mut io, &mut set, &redact(1, 512, 512), 0);
    let redacted = ObjFault::Redacted {
        object: 1,
        block: 1,
    };
    check_index(&rt, &mut io, &set, 1, Err(redacted), 0);
    hole(&rt, &mut io, &set, 2);
    data(&rt, &mut io, &set, 9, 9);
    accept(&rt, &mut io, &mut set, &free(1, 512, u64::MAX), 0);
    hole(&rt, &mut io, &set, 1);
    hole(&rt, &mut io, &set, 9);
    let old = set;
    accept(&rt, &mut io, &mut set, &end(), 0);
    assert!(&rt; set == old);
    accept(&rt, &mut io, &mut set, &free_objects(1, 1), 0);
    assert_eq!(&rt; told(&mut io, &set), None);
    Ok(())
}

#[test]
fn the_faults_of_a_write_come_in_their_order(rt: HostRuntime) -> Result<(), AllocError> {
    let mut disk = zeros(rt.alloc())?;
    let mut io = all_free(rt.alloc(), &mut disk);
    let mut set = ObjSet::empty();
    let no_object = ObjFault::CannotApply(ApplyFault::NoObject);
    let size = ObjFault::CannotApply(ApplyFault::SizeDiffers);
    let unaligned = ObjFault::CannotApply(ApplyFault::Unaligned);
    let odd = ObjFault::CannotApply(ApplyFault::OddBlock);
    let far = ObjFault::Limit {
        which: Quantity::Block,
        number: INDEX_BOUND,
    };
    refuse(&rt, &mut io, &mut set, &write(1, 1, true), no_object);
    accept(&rt, &mut io, &mut set, &put(1, 19, false), 5);
    refuse(&rt, &mut io, &mut set, &write(1, 1, true), size);
    refuse(&rt, &mut io, &mut set, &write(1, 1, false), unaligned);
    refuse(&rt, &mut io, &mut set, &write(1, 1 << 52, false), far);
    accept(&rt, &mut io, &mut set, &write(1, (1 << 52) - 512, false), 5);
    data(&rt, &mut io, &set, INDEX_BOUND - 1, 5);
    accept(&rt, &mut io, &mut set, &put(2, 19, true), 5);
    accept(&rt, &mut io, &mut set, &write(2, 0, true), 5);
    refuse(&rt, &mut io, &mut set, &write(2, 1537, true), unaligned);
    refuse(&rt, &mut io, &mut set, &write(2, 1536, true), odd);
    Ok(())
}

#[test]
fn the_faults_of_a_range_come_in_their_order(rt: HostRuntime) -> Result<(), AllocError> {
    let mut disk = zeros(rt.alloc())?;
    let mut io = all_free(rt.alloc(), &mut disk);
    let mut set = ObjSet::empty();
    let no_object = ObjFault::CannotApply(ApplyFault::NoObject);
    let no_data = ObjFault::CannotApply(ApplyFault::NotUserData);
    let unaligned = ObjFault::CannotApply(ApplyFault::Unaligned);
    let odd = ObjFault::CannotApply(ApplyFault::OddBlock);
    let far = ObjFault::Limit {
        which: Quantity::Block,
        number: INDEX_BOUND,
    };
    refuse(&rt, &mut io, &mut set, &spill(1), no_object);
    refuse(&rt, &mut io, &mut set, &free(1, 1, 1), no_object);
    refuse(&rt, &mut io, &mut set, &redact(1, 1, 1), no_object);
    accept(&rt, &mut io, &mut set, &put(1, 20, false), 5);
    refuse(&rt, &mut io, &mut set, &redact(1, 1, 1), no_data);
    refuse(&rt, &mut io, &mut set, &free(1, 512, 1), unaligned);
    refuse(&rt, &mut io, &mut set, &free(1, 1, 512), unaligned);
    refuse(&rt, &mut io, &mut set, &free(1, 1, u64::MAX), unaligned);
    accept(&rt, &mut io, &mut set, &put(1, 23, false), 5);
    refuse(&rt, &mut io, &mut set, &redact(1, 512, 1), unaligned);
    refuse(&rt, &mut io, &mut set, &redact(1, 1 << 52, 512), far);
    accept(&rt, &mut io, &mut set, &redact(1, 1 << 52, 0), 0);
    accept(&rt, &mut io, &mut set, &put(2, 19, true), 5);
    refuse(&rt, &mut io, &mut set, &redact(2, 0, 3072), odd);
    accept(&rt, &mut io, &mut set, &redact(2, 0, 1536), 0);
    Ok(())
}

#[test]
fn ranges_past_what_there_is_are_cut(rt: HostRuntime) -> Result<(), AllocError> {
    let mut disk = zeros(rt.alloc())?;
    let mut io = all_free(rt.alloc(), &mut disk);
    let mut set = ObjSet::empty();
    accept(&rt, &mut io, &mut set, &put(1, 19, false), 5);
    accept(&rt, &mut io, &mut set, &write(1, 512, false), 5);
    accept(&rt, &mut io, &mut set, &free(1, 1 << 52, 512), 0);
    accept(&rt, &mut io, &mut set, &free(1, 1024, 1 << 63), 0);
    data(&rt, &mut io, &set, 1, 5);
    accept(&rt, &mut io, &mut set, &free(1, 512, 1 << 63), 0);
    hole(&rt, &mut io, &set, 1);
    let old = set;
    accept(&rt, &mut io, &mut set, &free_objects(0, 1), 0);
    accept(&rt, &mut io, &mut set, &free_objects(1 << 48, 5), 0);
    accept(&rt, &mut io, &mut set, &free_objects(u64::MAX, u64::MAX), 0);
    assert!(&rt; set == old);
    accept(&rt, &mut io, &mut set, &free_objects(2, u64::MAX), 0);
    assert_eq!(&rt; told(&mut io, &set), Some((512, 5, 5, false)));
    accept(&rt, &mut io, &mut set, &free_objects(0, u64::MAX), 0);
    assert_eq!(&rt; told(&mut io, &set), None);
    Ok(())
}

mod lines;
mod records;

use crate::dump::lines::{check_line, check_lines, header_of};
use crate::dump::records::{blocks, ends, frees};
use zst_model::{NameText, Point};
use zst_record::Head;

#[test]
fn each_record_of_a_block_has_its_line(rt: HostRuntime) {
    check_lines(&rt, rt.alloc(), &blocks());
}

#[test]
fn each_record_of_what_is_free_has_its_line(rt: HostRuntime) {
    check_lines(&rt, rt.alloc(), &frees());
}

#[test]
fn an_object_and_the_end_have_their_lines(rt: HostRuntime) {
    check_lines(&rt, rt.alloc(), &ends());
}

#[test]
fn begin_names_its_guids_and_spells_its_name(rt: HostRuntime) {
    let alloc = rt.alloc();
    let point = Point {
        object: 1,
        offset: 512,
    };
    let resumed = Head::Begin {
        header: header_of(NameText::new(b"a @~!\x7f\\\xff\x00\x1f\x80"), Some(point)),
        payload_len: 40,
    };
    let line =
        "0 BEGIN features 1048580 kind 3 flags 4294967295 time 18446744073709551615 toguid fedcba9876543210 fromguid 0000000000000a0b payload 40 resume 1 512 name a\\x20@~!\\x7f\\x5c\\xff\\x00\\x1f\\x80\n";
    check_line(&rt, alloc, &resumed, 0, &[0; 40], line);
    let unnamed = Head::Begin {
        header: header_of(NameText::new(b""), None),
        payload_len: 0,
    };
    let line =
        "0 BEGIN features 1048580 kind 3 flags 4294967295 time 18446744073709551615 toguid fedcba9876543210 fromguid 0000000000000a0b payload 0 name \n";
    check_line(&rt, alloc, &unnamed, 0, &[], line);
}

ghost use Rattle.zst_model.specs.sends.ItemRanges.{HasPlace};

use std::process::Abort;
use std::test::Fail;
use zst_model::{Bytes, Change, Item, ObjectHead, Point, point_after};

fn check(rt: &impl Abort, start: (u64, u64), item: &Item, object: u64, offset: u64)
    requires { HasPlace item.now }
{
    let point = Point {
        object: start.0,
        offset: start.1,
    };
    let after = point_after(point, item);
    assert!(rt; after.object == object && after.offset == offset);
}

#[test]
fn a_write_moves_past_its_block(rt: HostRuntime) -> Result<(), Fail> {
    let bytes = Bytes::new(vec![in rt.alloc(); 0xaa; 512]?);
    let change = Change::Write {
        offset: 0,
        type_: 19,
        bytes,
    };
    check(&rt, (1, 0), &Item::At { object: 1, change }, 1, 512);
    Ok(())
}

#[test]
fn an_object_that_is_sent_again_keeps_the_point(rt: HostRuntime) -> Result<(), Fail> {
    let head = ObjectHead {
        type_: 19,
        bonus_type: 0,
        block_size: 512,
    };
    let bonus = Bytes::new(Vec::new(rt.alloc()));
    let change = Change::Put {
        head,
        bonus,
        keep_spill: false,
        max_block: 0,
    };
    let item = Item::At { object: 1, change };
    check(&rt, (1, 512), &item, 1, 512);
    check(&rt, (0, 0), &item, 1, 0);
    Ok(())
}

#[test]
fn a_range_of_numbers_is_cut(rt: HostRuntime) {
    let all = Item::FreeObjects {
        first: 2,
        count: 281474976710654,
    };
    check(&rt, (1, 512), &all, 281474976710656, 0);
    let wide = Item::FreeObjects {
        first: 2,
        count: u64::MAX,
    };
    check(&rt, (1, 512), &wide, 281474976710656, 0);
}

#[test]
fn a_tail_leaves_the_point(rt: HostRuntime) {
    let change = Change::FreeFrom { offset: 512 };
    check(&rt, (1, 0), &Item::At { object: 1, change }, 1, 0);
}

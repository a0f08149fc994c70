use crate::fields::{GUID, header_of};
use zst_record::{Head, get_sums};
use zst_writer::Writer;

// The sums that END states, and those of all before its last 32 bytes.
const STATED: [u64; 4] = [
    6_902_770_870,
    504_849_252_908,
    18_777_133_574_465,
    473_262_148_586_970,
];

const SEALED: [u64; 4] = [
    19_677_500_080,
    1_812_738_505_247,
    98_333_701_267_116,
    4_055_694_265_642_928,
];

#[test]
fn writes_the_smallest_stream(rt: HostRuntime) {
    let begin = Head::Begin {
        header: header_of(4, 0),
        payload_len: 0,
    };
    let end = Head::End {
        sums: [0; 4],
        to: GUID,
    };
    let mut writer = Writer::new();
    let mut first = [0xff; 312];
    let mut last = [0xff; 312];
    writer.put(&begin, &[], &mut first);
    writer.put(&end, &[], &mut last);
    assert_eq!(rt; first[8], 0xac);
    assert_eq!(rt; first[60], b's');
    assert!(rt; get_sums(&last, 8) == STATED);
    assert!(rt; get_sums(&last, 280) == SEALED);
}
